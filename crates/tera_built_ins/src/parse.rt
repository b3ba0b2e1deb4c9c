// Texts read as integers.
ghost use Rattle.std.specs.Prelude.{◌≡◌, ◌≤◌};
ghost use Rattle.tera_errors.specs.Prelude.{Gives};
ghost use Rattle.tera_values.specs.Prelude.{plain};
ghost use Rattle.tera_built_ins.specs.Pieces.{trimmed_start};
ghost use Rattle.tera_built_ins.specs.Parse as spec;

use crate::arguments::natural_or;
use crate::refusals::{no_base, no_integer, unfit_kind};
use std::alloc::Global;
use tera_values::{Arguments, Shape, TeraResult, Value};

/// The integer itself, or the one that a text writes in `base`.
pub fn int(alloc: Global, value: &Value, arguments: &Arguments<'_>) -> TeraResult<Value>
    ensures { Gives (λ v. v) result (spec.int_of plain value.now arguments.now) }
{
    let base = natural_or(arguments, "base", 10, u32::MAX as usize)?;
    if base < 2 || base > 36 {
        return Err(no_base(alloc, base));
    }
    match value.shape() {
        Shape::Int(number) => Ok(Value::from_int(number)),
        Shape::Text(text, _) => read(alloc, base as u32, text),
        _ => Err(unfit_kind(alloc, value, "a string or an integer")),
    }
}

fn read(alloc: Global, base: u32, text: &str) -> TeraResult<Value>
    requires lower { 2 ≤ base }
    requires upper { base ≤ 36 }
    ensures { Gives (λ v. v) result
        (spec.signed_numeral base (spec.numeral_in base text.now)) }
{
    let numeral = without_prefix(text.trim(), base);
    match i128::from_str_radix(numeral, base) {
        Ok(number) => Ok(Value::from_int(number)),
        Err(_) => Err(no_integer(alloc, text, base)),
    }
}

/// The text without what tells the base in front of a numeral, however often that stands there.
fn without_prefix<'a>(text: &'a str, base: u32) -> &'a str
    ensures { result.now ≡ trimmed_start plain.code (spec.prefix base) text.now }
{
    match base {
        2 => text.trim_start_matches("0b"),
        8 => text.trim_start_matches("0o"),
        16 => text.trim_start_matches("0x"),
        _ => text,
    }
}
