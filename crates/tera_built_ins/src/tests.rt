// What `is` asks of a value. What needs no arguments ignores them.
ghost use Rattle.std.specs.Prelude.{◌≡◌, Ok};
ghost use Rattle.tera_errors.specs.Prelude.{Gives};
ghost use Rattle.tera_values.specs.Prelude.{plain};
ghost use Rattle.tera_built_ins.specs.Tests.{is_iterable, defined_test, undefined_test, odd_test, even_test, divisible_by_test, starting_with_test, ending_with_test, containing_test, divides};

use crate::arguments::{as_integer, as_text, needed_integer, needed_text, needed_value};
use std::alloc::Global;
use tera_values::{Arguments, Shape, TeraResult, Value};

/// Whether a loop can go over it.
pub fn iterable(value: &Value, _arguments: &Arguments<'_>) -> TeraResult<bool>
    ensures { Gives (λ b. b) result (Ok (is_iterable value.now)) }
{
    Ok(matches!(
        &value.shape(),
        Shape::Array(_) | Shape::Map(_) | Shape::Text(_, _) | Shape::Bytes(_)
    ))
}

/// Whether it is anything but undefined.
pub fn defined(value: &Value, _arguments: &Arguments<'_>) -> TeraResult<bool>
    ensures { Gives (λ b. b) result (defined_test plain value.now _arguments.now) }
{
    Ok(!value.is_undefined())
}

/// Whether it is undefined.
pub fn undefined(value: &Value, _arguments: &Arguments<'_>) -> TeraResult<bool>
    ensures { Gives (λ b. b) result (undefined_test plain value.now _arguments.now) }
{
    Ok(value.is_undefined())
}

/// Whether 2 does not divide the integer.
pub fn odd(alloc: Global, value: &Value, _arguments: &Arguments<'_>) -> TeraResult<bool>
    ensures { Gives (λ b. b) result (odd_test plain value.now _arguments.now) }
{
    let number = as_integer(alloc, value)?;
    Ok(!divides(2, number))
}

/// Whether 2 divides the integer.
pub fn even(alloc: Global, value: &Value, _arguments: &Arguments<'_>) -> TeraResult<bool>
    ensures { Gives (λ b. b) result (even_test plain value.now _arguments.now) }
{
    let number = as_integer(alloc, value)?;
    Ok(divides(2, number))
}

/// Whether `divisor` divides the integer. 0 divides none.
pub fn divisible_by(alloc: Global, value: &Value, arguments: &Arguments<'_>) -> TeraResult<bool>
    ensures { Gives (λ b. b) result (divisible_by_test plain value.now arguments.now) }
{
    let divided = as_integer(alloc, value)?;
    let divisor = needed_integer(arguments, "divisor")?;
    Ok(divides(divisor, divided))
}

/// Whether the text begins with `pat`.
pub fn starting_with(alloc: Global, value: &Value, arguments: &Arguments<'_>) -> TeraResult<bool>
    ensures { Gives (λ b. b) result (starting_with_test plain value.now arguments.now) }
{
    let whole = as_text(alloc, value)?;
    let part = needed_text(arguments, "pat")?;
    Ok(whole.text.starts_with(part.text))
}

/// Whether the text ends with `pat`.
pub fn ending_with(alloc: Global, value: &Value, arguments: &Arguments<'_>) -> TeraResult<bool>
    ensures { Gives (λ b. b) result (ending_with_test plain value.now arguments.now) }
{
    let whole = as_text(alloc, value)?;
    let part = needed_text(arguments, "pat")?;
    Ok(whole.text.ends_with(part.text))
}

/// Whether `pat` is an item, a part of the text, or a key.
pub fn containing(alloc: Global, value: &Value, arguments: &Arguments<'_>) -> TeraResult<bool>
    ensures { Gives (λ b. b) result (containing_test plain value.now arguments.now) }
{
    let part = needed_value(arguments, "pat")?;
    value.contains(alloc, part)
}

fn divides(divisor: i128, number: i128) -> bool
    ensures { result ≡ divides divisor number }
{
    divisor != 0 && number.unsigned_abs() % divisor.unsigned_abs() == 0
}
