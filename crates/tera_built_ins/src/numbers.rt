// Filters of integers.
ghost use Rattle.tera_errors.specs.Prelude.{Gives};
ghost use Rattle.tera_values.specs.Prelude.{plain};
ghost use Rattle.tera_built_ins.specs.Numbers.{abs_of, pluralize_of};

use crate::arguments::text_or;
use crate::refusals::unfit_kind;
use std::alloc::Global;
use tera_values::{Arguments, Error, TeraResult, Value};

/// The number without its sign; an error where there is no number, or where no `i128` holds that.
pub fn abs(alloc: Global, value: &Value) -> TeraResult<Value>
    ensures { Gives (λ v. v) result (abs_of value.now) }
{
    match value.as_i128() {
        Some(i128::MIN) => Err(Error::message(alloc, "the least integer has no absolute value")),
        Some(number) => Ok(Value::from_int(number.abs())),
        None => Err(unfit_kind(alloc, value, "an integer")),
    }
}

/// `singular` for 1 and -1, and `plural` for all other numbers.
pub fn pluralize(alloc: Global, value: &Value, arguments: &Arguments<'_>) -> TeraResult<Value>
    ensures { Gives (λ v. v) result (pluralize_of plain value.now arguments.now) }
{
    let singular = text_or(arguments, "singular", "")?;
    let plural = text_or(arguments, "plural", "s")?;
    match value.as_i128() {
        Some(1 | -1) => Value::string(alloc, singular),
        Some(_) => Value::string(alloc, plural),
        None => Err(unfit_kind(alloc, value, "an integer")),
    }
}
