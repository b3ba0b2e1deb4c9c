// How much a value holds, and what it holds the other way round.
ghost use Rattle.tera_errors.specs.Prelude.{Gives};
ghost use Rattle.tera_values.specs.Prelude.{plain};
ghost use Rattle.tera_built_ins.specs.Sizes.{length_of, reverse_of};

use crate::refusals::unfit_kind;
use std::alloc::Global;
use tera_values::{TeraResult, Value};

/// How many characters, bytes, items or entries there are; a `Message` for other kinds.
pub fn length(alloc: Global, value: &Value) -> TeraResult<Value>
    ensures { Gives (λ v. v) result (length_of plain value.now) }
{
    match value.len() {
        Some(count) => Ok(Value::from_int(count as i128)),
        None => Err(unfit_kind(alloc, value, "a string, bytes, an array or a map")),
    }
}

/// The items of an array, or the characters of a text, the last one first; a `Message` for other kinds.
pub fn reverse(alloc: Global, value: &Value) -> TeraResult<Value>
    ensures { Gives (λ v. v) result (reverse_of plain value.now) }
{
    value.reverse(alloc)
}
