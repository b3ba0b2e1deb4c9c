// Answers that are safe where one of the texts that they are made of is.
ghost use Rattle.std.specs.Prelude.{◌≡◌, Ok, option_map};
ghost use Rattle.std.specs.Cow.{cow_str_bytes};
ghost use Rattle.tera_errors.specs.Prelude.{Gives};
ghost use Rattle.tera_values.specs.Prelude.{plain, text};
ghost use Rattle.tera_built_ins.specs.Escaping.{escaping_of};
ghost use Rattle.tera_built_ins.specs.Parts as spec;
ghost use Rattle.tera_built_ins.specs.Reading.{given_of};

use crate::arguments::Given;
use crate::escape_fn::{EscapeFn, Filtering};
use std::alloc::Global;
use std::borrow::CowStr;
use tera_values::{TeraResult, Value};

/// A text as it goes into an answer that is safe or not. Takes memory only for an escape.
pub(crate) fn part<'a, E: EscapeFn>(
    filtering: Filtering<'_, E>,
    is_safe: bool,
    given: Given<'a>,
) -> TeraResult<CowStr<'a>>
    ensures { Gives cow_str_bytes result (Ok (spec.part plain
        (escaping_of E.escaped filtering.entry.escaping) is_safe (given_of given.entry))) }
{
    if !is_safe || given.is_safe {
        return Ok(CowStr::Borrowed(given.text));
    }
    let mut escaped = String::new(filtering.alloc);
    filtering.escaping.escape(given.text, &mut escaped)?;
    Ok(CowStr::Owned(escaped))
}

/// Whether the text is safe; one that is left out is not.
pub(crate) fn is_given_safe(given: Option<Given<'_>>) -> bool
    ensures { result ≡ spec.given_safe (option_map given_of given.entry) }
{
    match given {
        Some(given) => given.is_safe,
        None => false,
    }
}

/// A text that was made, with a mark or without.
pub(crate) fn text_value(alloc: Global, content: &str, is_safe: bool) -> TeraResult<Value>
    ensures { Gives (λ v. v) result (Ok (text content.now is_safe)) }
{
    if is_safe {
        Value::safe_string(alloc, content)
    } else {
        Value::string(alloc, content)
    }
}
