// Counts of bytes, as people read them.
ghost use Rattle.std.specs.Prelude.{◌≡◌, ◌≤◌, ◌<◌, ◌^◌, ◌++◌, IfOk, OnOk, length, string_bytes};
ghost use Rattle.std.specs.Char.{encode_utf8};
ghost use Rattle.tera_errors.specs.Prelude.{Gives};
ghost use Rattle.tera_filters.specs.FileSizes as spec;

use itoa::Buffer;
use std::alloc::{AllocError, Global};
use tera_built_ins::arguments::{as_integer, flag};
use tera_values::refusals::unfit_value;
use tera_values::{Arguments, TeraResult, Value};

/// A count of bytes in the unit that suits it, as `1.50 kB`; with `binary` its units are `KiB`, `MiB` and on. It has no mark.
pub fn filesizeformat(alloc: Global, value: &Value, arguments: &Arguments<'_>) -> TeraResult<Value>
    ensures { Gives (λ v. v) result (spec.filesizeformat_of value.now arguments.now) }
{
    let number = as_integer(alloc, value)?;
    if number < 0 {
        return Err(unfit_value(alloc, None, value, "an integer from 0 on"));
    }
    let binary = flag(arguments, "binary")?;
    let size = file_size(alloc, number as u128, binary)?;
    Value::from_string(alloc, size, false)
}

fn file_size(alloc: Global, number: u128, binary: bool) -> Result<String, AllocError>
    ensures { IfOk result (λ t. string_bytes t ≡ spec.file_size binary number) }
{
    if number >= base(binary) {
        return in_first_unit(alloc, number, binary);
    }
    let mut size = String::new(alloc);
    let mut buffer = Buffer::new();
    size.push_str(buffer.format(number))?;
    size.push_str(" B")?;
    Ok(size)
}

fn base(binary: bool) -> u128
    ensures value { result ≡ spec.base binary }
    ensures low { 1000 ≤ result }
    ensures high { result ≤ 1024 }
{
    if binary { 1024 } else { 1000 }
}

fn prefixes(binary: bool) -> &'static str
    ensures value { result.now ≡ spec.prefixes binary }
    ensures seven { length result.now ≡ 7 }
{
    if binary { "KMGTPEZ" } else { "kMGTPEZ" }
}

/// In the first unit of which there are fewer than make up the next, or in the last unit.
fn in_first_unit(alloc: Global, number: u128, binary: bool) -> Result<String, AllocError>
    ensures { IfOk result (λ t. string_bytes t
        ≡ spec.in_first_unit binary number (spec.base binary) (spec.prefixes binary)) }
{
    let base = base(binary);
    let mut size = base;
    for prefix in prefixes(binary).as_bytes() {
        let count = hundredths(number, size);
        if count < base * 100 {
            return size_in_unit(alloc, count, binary, *prefix as char);
        }
        size *= base;
    }
    size_in_unit(alloc, hundredths(number, size), binary, 'Y')
}

/// How many hundredths of a unit of so many bytes there are. What is whole is taken off first, since a hundred times the number
/// may have more than 128 bits.
fn hundredths(number: u128, size: u128) -> u128
    requires low { 1000 ≤ size }
    requires high { size ≤ 2 ^ 80 }
    ensures { result ≡ spec.hundredths size number }
{
    number / size * 100 + (number % size * 100 + size / 2) / size
}

/// So many hundredths of a unit.
fn size_in_unit(
    alloc: Global,
    count: u128,
    binary: bool,
    prefix: char,
) -> Result<String, AllocError>
    ensures { IfOk result (λ t. string_bytes t
        ≡ spec.measured binary count (encode_utf8 prefix)) }
{
    let mut size = String::new(alloc);
    put_amount(count, &mut size)?;
    size.push(' ')?;
    size.push(prefix)?;
    size.push_str(if binary { "iB" } else { "B" })?;
    Ok(size)
}

/// Puts the whole, and the hundredths where there are some.
fn put_amount(count: u128, size: &mut String) -> Result<(), AllocError>
    ensures { OnOk result (string_bytes size.new ≡ string_bytes size.old ++ spec.amount count) }
{
    let mut buffer = Buffer::new();
    size.push_str(buffer.format(count / 100))?;
    let part = count % 100;
    if part == 0 {
        return Ok(());
    }
    size.push_str(if part < 10 { ".0" } else { "." })?;
    size.push_str(buffer.format(part))
}
