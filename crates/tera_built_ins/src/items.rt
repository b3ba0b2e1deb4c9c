// Filters of arrays that answer one item.
ghost use Rattle.std.specs.Prelude.{option_copied, Ok};
ghost use Rattle.tera_errors.specs.Prelude.{Gives};
ghost use Rattle.tera_built_ins.specs.Items.{or_none, first_of, last_of, nth_of};

use crate::arguments::{as_array, needed_size};
use std::alloc::Global;
use tera_values::{Arguments, TeraResult, Value};

fn value_or_none(found: Option<&Value>) -> TeraResult<Value>
    ensures { Gives (λ v. v) result (Ok (or_none (option_copied found.entry))) }
{
    match found {
        Some(item) => item.try_clone(),
        None => Ok(Value::none()),
    }
}

/// The first item of an array, with its mark; none where there is no item.
pub fn first(alloc: Global, value: &Value) -> TeraResult<Value>
    ensures { Gives (λ v. v) result (first_of value.now) }
{
    value_or_none(as_array(alloc, value)?.first())
}

/// The last item of an array, with its mark; none where there is no item.
pub fn last(alloc: Global, value: &Value) -> TeraResult<Value>
    ensures { Gives (λ v. v) result (last_of value.now) }
{
    value_or_none(as_array(alloc, value)?.last())
}

/// The item at a position of an array, counted from 0, with its mark; none where the array is shorter.
pub fn nth(alloc: Global, value: &Value, arguments: &Arguments<'_>) -> TeraResult<Value>
    ensures { Gives (λ v. v) result (nth_of value.now arguments.now) }
{
    let items = as_array(alloc, value)?;
    let position = needed_size(arguments, "n")?;
    value_or_none(items.get(position))
}
