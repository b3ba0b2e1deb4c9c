// Why values are refused, in words.
ghost use Rattle.tera_errors.specs.Prelude.{Tells, message};

use crate::shape::Shape;
use crate::value::Value;
use std::alloc::Global;
use tera_errors::Error;

impl Value {
    /// What kind of thing the value is, in words, with an article where it needs one.
    pub fn in_words(&self) -> &'static str {
        match self.shape() {
            Shape::Undefined => "undefined",
            Shape::None => "none",
            Shape::Bool(_) => "a bool",
            Shape::Int(_) => "an integer",
            Shape::Text(_, _) => "a string",
            Shape::Bytes(_) => "bytes",
            Shape::Array(_) => "an array",
            Shape::Map(_) => "a map",
        }
    }
}

/// It is no key.
#[inline(never)]
pub(crate) fn no_key(alloc: Global, value: &Value) -> Error
    ensures { Tells result message }
{
    let kind = value.in_words();
    Error::message_from(format!(in alloc;
        "a key of a map is a string, an integer or a bool, and not {kind}"
    ))
}

/// It is no position of an item.
#[inline(never)]
pub(crate) fn no_position(alloc: Global, target: &Value, index: &Value) -> Error
    ensures { Tells result message }
{
    let (target, index) = (target.in_words(), index.in_words());
    Error::message_from(format!(in alloc; "the index of {target} is an integer, and not {index}"))
}

/// It has nothing that an index could tell.
#[inline(never)]
pub(crate) fn without_items(alloc: Global, target: &Value) -> Error
    ensures { Tells result message }
{
    let kind = target.in_words();
    Error::message_from(format!(in alloc;
        "an array, a map, a string or bytes can be indexed, and not {kind}"
    ))
}

/// It is no part of a text.
#[inline(never)]
pub(crate) fn no_part(alloc: Global, part: &Value) -> Error
    ensures { Tells result message }
{
    let kind = part.in_words();
    Error::message_from(format!(in alloc; "a part of a string is a string, and not {kind}"))
}

/// Nothing can be in it.
#[inline(never)]
pub(crate) fn no_container(alloc: Global, value: &Value) -> Error
    ensures { Tells result message }
{
    let kind = value.in_words();
    Error::message_from(format!(in alloc;
        "something can be in an array, a map or a string, and not in {kind}"
    ))
}

/// No slice can be taken of it.
#[inline(never)]
pub(crate) fn without_slices(alloc: Global, target: &Value) -> Error
    ensures { Tells result message }
{
    let kind = target.in_words();
    Error::message_from(format!(in alloc;
        "a slice can be taken of an array or a string, and not of {kind}"
    ))
}

/// It has no order that could be turned round.
#[inline(never)]
pub(crate) fn without_order(alloc: Global, value: &Value) -> Error
    ensures { Tells result message }
{
    let kind = value.in_words();
    Error::message_from(format!(in alloc; "an array or a string can be reversed, and not {kind}"))
}
