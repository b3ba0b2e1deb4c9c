// Why built-ins refuse what they are given, in words.
ghost use Rattle.tera_errors.specs.Prelude.{Tells, message};

use std::alloc::Global;
use tera_values::{Error, Value};

/// The value is of a wrong kind, and these are wanted.
#[inline(never)]
pub(crate) fn unfit_kind(alloc: Global, value: &Value, wanted: &str) -> Error
    ensures { Tells result message }
{
    let kind = value.in_words();
    Error::message_from(format!(in alloc; "the value is {kind}, and {wanted} is wanted"))
}

/// A range has more numbers than it may have.
#[inline(never)]
pub(crate) fn long_range(alloc: Global, count: u128, most: u128) -> Error
    ensures { Tells result message }
{
    Error::message_from(format!(in alloc;
        "the range has {count} numbers, and at most {most} are allowed"
    ))
}

/// No range leads from the start to the end by this step.
#[inline(never)]
pub(crate) fn no_range(alloc: Global, start: i128, end: i128, step: i128) -> Error
    ensures { Tells result message }
{
    let why = if step == 0 {
        "`step_by` may not be 0"
    } else if step > 0 && start > end {
        "`start` is greater than `end`, and `step_by` is not negative"
    } else {
        "it is too long"
    };
    Error::message_from(format!(in alloc; "there is no range from {start} to {end}: {why}"))
}

/// The text is no character.
#[inline(never)]
pub(crate) fn no_character(alloc: Global, argument: &str, text: &str) -> Error
    ensures { Tells result message }
{
    Error::message_from(format!(in alloc;
        "the argument `{argument}` is {text:?}, and one character is wanted"
    ))
}

/// Integers are not written in this base.
#[inline(never)]
pub(crate) fn no_base(alloc: Global, base: usize) -> Error
    ensures { Tells result message }
{
    Error::message_from(format!(in alloc;
        "the argument `base` is {base}, and an integer from 2 to 36 is wanted"
    ))
}

/// The text writes no integer in this base, or one that is too large.
#[inline(never)]
pub(crate) fn no_integer(alloc: Global, text: &str, base: u32) -> Error
    ensures { Tells result message }
{
    Error::message_from(format!(in alloc;
        "{text:?} is no integer of at most 128 bits in base {base}"
    ))
}

/// The map has no such key, and no default is given.
#[inline(never)]
pub(crate) fn no_entry(alloc: Global, key: &str) -> Error
    ensures { Tells result message }
{
    Error::message_from(format!(in alloc;
        "the map has no key {key:?}, and the argument `default` is not given"
    ))
}

/// An item has no such attribute.
#[inline(never)]
pub(crate) fn no_attribute(alloc: Global, item: &Value, path: &str) -> Error
    ensures { Tells result message }
{
    let kind = item.in_words();
    Error::message_from(format!(in alloc; "an item, which is {kind}, has no attribute `{path}`"))
}

/// Two neighbours in the order of values are not comparable.
#[inline(never)]
pub(crate) fn incomparable_error(alloc: Global, left: &Value, right: &Value) -> Error
    ensures { Tells result message }
{
    let (left, right) = (left.in_words(), right.in_words());
    Error::message_from(format!(in alloc;
        "{left} and {right} can't be sorted: they are not comparable"
    ))
}
