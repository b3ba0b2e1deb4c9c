// Why arguments are refused, in words.
ghost use Rattle.std.specs.Prelude.{◌≡◌, Some};
ghost use Rattle.tera_errors.specs.Prelude.{invalid_argument};

use std::alloc::Global;
use tera_errors::{Error, ErrorKind};
use tera_value_types::Value;

/// The value that is worked on, or the argument of a name, is of a wrong type: a value that is `wanted`, as `a string`, is none.
#[inline(never)]
pub fn unfit_value(alloc: Global, argument: Option<&str>, value: &Value, wanted: &str) -> Error
    ensures { result ≡ Some invalid_argument }
{
    let kind = value.in_words();
    let words = match argument {
        Some(name) => format!(in alloc; "the argument `{name}` is {kind}, and {wanted} is wanted"),
        None => format!(in alloc; "the value is {kind}, and {wanted} is wanted"),
    };
    match words {
        Ok(words) => Error::invalid_argument().with_message(alloc, words.as_str()),
        Err(_) => Error::invalid_argument(),
    }
}

/// The error of what was read of a value, which tells what is wanted, as that of an argument.
#[inline(never)]
pub(crate) fn argument_error(alloc: Global, error: Error, argument: &str, value: &Value) -> Error
    ensures { result ≡ error }
{
    match error.kind() {
        ErrorKind::InvalidArgument => {}
        _ => return error,
    }
    let kind = value.in_words();
    let told = match error.words() {
        Some(wanted) => format!(in alloc; "the argument `{argument}` is {kind}, and {wanted}"),
        None => format!(in alloc; "the argument `{argument}` is {kind}"),
    };
    match told {
        Ok(words) => error.with_message(alloc, words.as_str()),
        Err(_) => error,
    }
}

/// A value is of a wrong type, and this is wanted.
#[inline(never)]
pub(crate) fn not_of_type(alloc: Global, wanted: &str) -> Error
    ensures { result ≡ Some invalid_argument }
{
    match format!(in alloc; "{wanted} is wanted") {
        Ok(words) => Error::invalid_argument().with_message(alloc, words.as_str()),
        Err(_) => Error::invalid_argument(),
    }
}
