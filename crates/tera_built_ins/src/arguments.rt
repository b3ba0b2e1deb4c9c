// What a built-in is given, as it is read.
ghost use Rattle.std.specs.Prelude.{◌≡◌, ◌+◌, ◌^◌, Some, option_map, false};
ghost use Rattle.tera_errors.specs.Prelude.{Gives, invalid_argument};
ghost use Rattle.tera_values.specs.Prelude.{plain};
ghost use Rattle.tera_built_ins.specs.Arguments as spec;
ghost use Rattle.tera_built_ins.specs.Reading.{given_of};

use std::alloc::Global;
use tera_values::refusals::unfit_value;
use tera_values::{Arguments, Error, Map, Shape, TeraResult, Value};

/// A text, and whether it is marked safe.
#[derive(Clone, Copy)]
pub struct Given<'a> {
    pub text: &'a str,
    pub is_safe: bool,
}

// A text, which is the argument of this name or what is worked on.
#[inline(always)]
fn text_in<'a>(alloc: Global, argument: Option<&str>, value: &'a Value) -> TeraResult<Given<'a>>
    ensures { Gives given_of result (spec.as_text value.now) }
{
    match value.shape() {
        Shape::Text(text, is_safe) => Ok(Given { text, is_safe }),
        _ => Err(unfit_value(alloc, argument, value, "a string")),
    }
}

/// The text that is worked on, and no other kind. Takes no memory but for a fault's words.
pub fn as_text(alloc: Global, value: &Value) -> TeraResult<Given<'_>>
    ensures { Gives given_of result (spec.as_text value.now) }
{
    text_in(alloc, None, value)
}

/// The items of an array, and no other kind. Takes no memory but for a fault's words.
pub fn as_array(alloc: Global, value: &Value) -> TeraResult<&[Value]>
    ensures { Gives (λ s. s.now) result (spec.as_array value.now) }
{
    match value.shape() {
        Shape::Array(items) => Ok(items),
        _ => Err(unfit_value(alloc, None, value, "an array")),
    }
}

/// A map, and no other kind. Takes no memory but for a fault's words.
pub fn as_map(alloc: Global, value: &Value) -> TeraResult<&Map>
    ensures { Gives (λ m. m.now) result (spec.as_map value.now) }
{
    match value.shape() {
        Shape::Map(all) => Ok(all),
        _ => Err(unfit_value(alloc, None, value, "a map")),
    }
}

// An integer, which is the argument of this name or what is worked on.
#[inline(always)]
fn integer_in(alloc: Global, argument: Option<&str>, value: &Value) -> TeraResult<i128>
    ensures { Gives (λ z. z) result (spec.as_integer value.now) }
{
    match value.shape() {
        Shape::Int(number) => Ok(number),
        _ => Err(unfit_value(alloc, argument, value, "an integer")),
    }
}

/// The integer that is worked on, and no other kind. Takes no memory but for a fault's words.
pub fn as_integer(alloc: Global, value: &Value) -> TeraResult<i128>
    ensures { Gives (λ z. z) result (spec.as_integer value.now) }
{
    integer_in(alloc, None, value)
}

// A truth value, which is the argument of this name.
#[inline(always)]
fn bool_in(alloc: Global, argument: &str, value: &Value) -> TeraResult<bool>
    ensures { Gives (λ b. b) result (spec.as_bool value.now) }
{
    match value.shape() {
        Shape::Bool(flag) => Ok(flag),
        _ => Err(unfit_value(alloc, Some(argument), value, "a bool")),
    }
}

// An integer from 0 to `most`, which is the argument of this name.
#[inline(always)]
fn natural_in(alloc: Global, argument: &str, value: &Value, most: usize) -> TeraResult<usize>
    ensures { Gives (λ n. n) result (spec.as_natural (most + 1) value.now) }
{
    let number = match integer_in(alloc, Some(argument), value) {
        Ok(number) => number,
        Err(error) => return Err(error),
    };
    if number < 0 || number > most as i128 {
        return Err(out_of_range(alloc, argument, number));
    }
    Ok(number as usize)
}

#[inline(never)]
fn out_of_range(alloc: Global, argument: &str, number: i128) -> Error
    ensures { result ≡ Some invalid_argument }
{
    let wanted = if number < 0 {
        "an integer from 0 on"
    } else {
        "a smaller integer"
    };
    let words = format!(in alloc; "the argument `{argument}` is {number}, and {wanted} is wanted");
    match words {
        Ok(words) => Error::invalid_argument().with_message(alloc, words.as_str()),
        Err(_) => Error::invalid_argument(),
    }
}

/// A text that may be left out.
pub fn optional_text<'a>(arguments: &Arguments<'a>, name: &str) -> TeraResult<Option<Given<'a>>>
    ensures { Gives (λ o. option_map given_of o) result
        (spec.optional spec.as_text name.now arguments.now) }
{
    match arguments.value(name) {
        None => Ok(None),
        Some(value) => match text_in(arguments.alloc(), Some(name), value) {
            Ok(given) => Ok(Some(given)),
            Err(error) => Err(error),
        },
    }
}

/// A text that must be there.
#[inline(always)]
pub fn needed_text<'a>(arguments: &Arguments<'a>, name: &str) -> TeraResult<Given<'a>>
    ensures { Gives given_of result (spec.needed spec.as_text name.now arguments.now) }
{
    match arguments.value(name) {
        None => Err(arguments.missing_error(name)),
        Some(value) => text_in(arguments.alloc(), Some(name), value),
    }
}

/// The bytes of a text, or the default where it is left out.
pub fn text_or<'a>(arguments: &Arguments<'a>, name: &str, default: &'a str) -> TeraResult<&'a str>
    ensures { Gives (λ s. s.now) result
        (spec.or_default default.now (spec.as_bytes plain) name.now arguments.now) }
{
    match arguments.value(name) {
        None => Ok(default),
        Some(value) => match text_in(arguments.alloc(), Some(name), value) {
            Ok(given) => Ok(given.text),
            Err(error) => Err(error),
        },
    }
}

/// A value of any kind that must be there.
pub fn needed_value<'a>(arguments: &Arguments<'a>, name: &str) -> TeraResult<&'a Value>
    ensures { Gives (λ v. v.now) result (spec.needed spec.as_any name.now arguments.now) }
{
    match arguments.value(name) {
        None => Err(arguments.missing_error(name)),
        Some(value) => Ok(value),
    }
}

/// An integer that must be there.
#[inline(always)]
pub fn needed_integer(arguments: &Arguments<'_>, name: &str) -> TeraResult<i128>
    ensures { Gives (λ z. z) result (spec.needed spec.as_integer name.now arguments.now) }
{
    match arguments.value(name) {
        None => Err(arguments.missing_error(name)),
        Some(value) => integer_in(arguments.alloc(), Some(name), value),
    }
}

/// An integer, or the default where it is left out.
pub fn integer_or(arguments: &Arguments<'_>, name: &str, default: i128) -> TeraResult<i128>
    ensures { Gives (λ z. z) result
        (spec.or_default default spec.as_integer name.now arguments.now) }
{
    match arguments.value(name) {
        None => Ok(default),
        Some(value) => integer_in(arguments.alloc(), Some(name), value),
    }
}

/// A size that must be there.
pub fn needed_size(arguments: &Arguments<'_>, name: &str) -> TeraResult<usize>
    ensures { Gives (λ n. n) result
        (spec.needed (spec.as_natural (2 ^ 64)) name.now arguments.now) }
{
    match arguments.value(name) {
        None => Err(arguments.missing_error(name)),
        Some(value) => natural_in(arguments.alloc(), name, value, usize::MAX),
    }
}

/// A size, or the default where it is left out.
pub fn size_or(arguments: &Arguments<'_>, name: &str, default: usize) -> TeraResult<usize>
    ensures { Gives (λ n. n) result
        (spec.or_default default (spec.as_natural (2 ^ 64)) name.now arguments.now) }
{
    natural_or(arguments, name, default, usize::MAX)
}

/// An integer from 0 to `most`, or the default where it is left out.
pub fn natural_or(
    arguments: &Arguments<'_>,
    name: &str,
    default: usize,
    most: usize,
) -> TeraResult<usize>
    ensures { Gives (λ n. n) result
        (spec.or_default default (spec.as_natural (most + 1)) name.now arguments.now) }
{
    match arguments.value(name) {
        None => Ok(default),
        Some(value) => natural_in(arguments.alloc(), name, value, most),
    }
}

/// A truth value, or false where it is left out.
pub fn flag(arguments: &Arguments<'_>, name: &str) -> TeraResult<bool>
    ensures { Gives (λ b. b) result
        (spec.or_default false spec.as_bool name.now arguments.now) }
{
    match arguments.value(name) {
        None => Ok(false),
        Some(value) => bool_in(arguments.alloc(), name, value),
    }
}
