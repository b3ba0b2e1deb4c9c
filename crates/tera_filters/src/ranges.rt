// Whether integers lie between bounds.
ghost use Rattle.tera_errors.specs.Prelude.{Gives};
ghost use Rattle.tera_filters.specs.Ranges.{in_range_of};

use std::alloc::Global;
use tera_built_ins::arguments::{as_integer, integer_or, needed_integer};
use tera_values::{Arguments, TeraResult, Value};

/// Whether the integer is from `start` on, which is 0 where it is left out, and below `end`: one of the numbers of
/// `range(start, end)`.
pub fn in_range(alloc: Global, value: &Value, arguments: &Arguments<'_>) -> TeraResult<bool>
    ensures { Gives (λ b. b) result (in_range_of value.now arguments.now) }
{
    let number = as_integer(alloc, value)?;
    let start = integer_or(arguments, "start", 0)?;
    let end = needed_integer(arguments, "end")?;
    Ok(start <= number && number < end)
}
