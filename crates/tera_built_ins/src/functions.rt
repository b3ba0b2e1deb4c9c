// What templates call by name.
ghost use Rattle.std.specs.Prelude.{◌≡◌, ◌<◌, ◌≤◌, ◌^◌, ◌≤ℤ◌, ◌-ℤ◌, Ok, IfSome};
ghost use Rattle.tera_errors.specs.Prelude.{Gives};
ghost use Rattle.tera_built_ins.specs.Numbers.{there};
ghost use Rattle.tera_built_ins.specs.Functions.{range_of, throw_of, counted, strides, stepping};
ghost use Rattle.tera_built_ins.specs.Rooms.{HasRoom, EachIsBelow};

use crate::arguments::{integer_or, needed_integer, needed_text};
use crate::refusals::{long_range, no_range};
use std::alloc::Global;
use tera_values::{Arguments, Error, TeraResult, Value};

/// The most numbers that a range may have.
const MOST: u128 = 100_000;

/// The numbers from `start` on, each `step_by` behind the one before, before `end`. No more than a hundred thousand.
pub fn range(alloc: Global, arguments: &Arguments<'_>) -> TeraResult<Value>
    ensures { Gives (λ v. v) result (range_of arguments.now) }
{
    let start = integer_or(arguments, "start", 0)?;
    let end = needed_integer(arguments, "end")?;
    let step = integer_or(arguments, "step_by", 1)?;
    match range_length(start, end, step) {
        Some(count) if count <= MOST => Ok(Value::array(range_items(alloc, start, step, count)?)),
        Some(count) => Err(long_range(alloc, count, MOST)),
        None => Err(no_range(alloc, start, end, step)),
    }
}

/// How many numbers there are; none where there is no such range.
fn range_length(start: i128, end: i128, step: i128) -> Option<u128>
    ensures count { there result ≡ counted start end step }
    ensures fits { IfSome result (λ count. HasRoom start step count) }
{
    if step == 0 {
        None
    } else if step < 0 && start <= end {
        Some(0)
    } else if step < 0 {
        strides(end, start, step.unsigned_abs())
    } else if start <= end {
        strides(start, end, step.unsigned_abs())
    } else {
        None
    }
}

/// How many strides lead from the lower bound to the higher one or beyond.
fn strides(low: i128, high: i128, stride: u128) -> Option<u128>
    requires ordered { low ≤ℤ high }
    requires some { 0 < stride }
    requires room { stride ≤ 2 ^ 127 }
    ensures count { there result ≡ strides (high -ℤ low) stride }
    ensures below { IfSome result (λ count. EachIsBelow (high -ℤ low) stride count) }
{
    match high.checked_sub(low) {
        None => None,
        Some(distance) => match distance.checked_add((stride - 1) as i128) {
            None => None,
            Some(rounded) => Some(rounded.unsigned_abs() / stride),
        },
    }
}

#[inline(never)]
fn range_items(alloc: Global, start: i128, step: i128, count: u128) -> TeraResult<Vec<Value>>
    requires { HasRoom start step count }
    ensures { Gives (λ v. v.items) result (Ok (stepping start step count)) }
{
    let mut items = Vec::new(alloc);
    let mut number = start;
    for _position in 0..count {
        items.push(Value::from_int(number))?;
        // There may be no room for what would stand behind the last one.
        number = number.saturating_add(step);
    }
    Ok(items)
}

/// Refuses, with the message that it is given.
pub fn throw(alloc: Global, arguments: &Arguments<'_>) -> TeraResult<Value>
    ensures { Gives (λ v. v) result (throw_of arguments.now) }
{
    let words = needed_text(arguments, "message")?;
    Err(Error::message(alloc, words.text))
}
