// Words for people: why data is refused, and where.
ghost use Rattle.std.specs.Prelude.{◌≡◌};
ghost use Rattle.tera_errors.specs.Prelude.{message, Tells};

use crate::fault::{Fault, fault_of};
use csv::StringRecord;
use json::Value as Json;
use std::alloc::{AllocError, Global};
use tera_errors::{Error, Place, place_of};

/// How long a number's text may be that is quoted.
const LONGEST_QUOTED: usize = 60;

/// What the words of a refused number begin with, behind its path.
const BEHIND_PATH: &str = "`";

/// A number that is no integer of 128 bits. Its path goes in front, from its last step to its first.
pub(crate) fn refused_number(alloc: Global, text: &str) -> Error
    ensures { Tells result message }
{
    let quoted = if text.len() <= LONGEST_QUOTED {
        text
    } else {
        "a long number"
    };
    let words = format!(in alloc; "{BEHIND_PATH} is {quoted}, which is no integer of 128 bits");
    Error::message_from(words)
}

/// The same error, of what stands in an item at this position.
pub(crate) fn at_item(alloc: Global, error: Error, position: usize) -> Error
    ensures { result ≡ error }
{
    let words = match error.words() {
        Some(words) => format!(in alloc; "[{position}]{words}"),
        None => Err(AllocError),
    };
    retell(alloc, error, words)
}

/// The same error, of what stands in the member of this name.
pub(crate) fn at_member(alloc: Global, error: Error, name: &str) -> Error
    ensures { result ≡ error }
{
    let words = match error.words() {
        Some(words) => format!(in alloc; ".{name}{words}"),
        None => Err(AllocError),
    };
    retell(alloc, error, words)
}

/// The same error, whose path is whole.
pub(crate) fn with_path(alloc: Global, error: Error) -> Error
    ensures { result ≡ error }
{
    let words = match error.words() {
        Some(words) => words_with_path(alloc, words),
        None => Err(AllocError),
    };
    retell(alloc, error, words)
}

fn words_with_path(alloc: Global, words: &str) -> Result<String, AllocError> {
    if let Some(rest) = words.strip_prefix(BEHIND_PATH) {
        return format!(in alloc; "the data{rest}");
    }
    if let Some(rest) = words.strip_prefix('.') {
        return format!(in alloc; "`{rest}");
    }
    if words.starts_with('[') {
        return format!(in alloc; "`{words}");
    }
    String::from_str(alloc, words)
}

// The same error in these words, if they found room.
fn retell(alloc: Global, error: Error, words: Result<String, AllocError>) -> Error
    ensures { result ≡ error }
{
    match words {
        Ok(words) => error.with_message(alloc, words.as_str()),
        Err(_) => error,
    }
}

/// The text is the JSON of something else than an object.
pub(crate) fn no_object(alloc: Global, json: &Json<'_>) -> Error
    ensures { Tells result message }
{
    let kind = kind_of(json);
    Error::message_from(format!(in alloc;
        "the data is {kind}, and an object is expected, whose members are the names"
    ))
}

fn kind_of(json: &Json<'_>) -> &'static str {
    match json {
        Json::Null => "null",
        Json::Bool(_) => "a boolean",
        Json::Number(_) => "a number",
        Json::String(_) => "a string",
        Json::Array(_) => "an array",
        Json::Object(_) => "an object",
    }
}

/// The bytes are no text behind the first so many.
pub(crate) fn no_text(alloc: Global, bytes: &[u8], valid: usize) -> Error
    ensures { Tells result message }
{
    let line = lines_in(&bytes[..valid.min(bytes.len())]);
    Error::message_from(format!(in alloc; "line {line}: this is no text in UTF-8"))
}

fn lines_in(bytes: &[u8]) -> usize {
    let mut line: usize = 1;
    for byte in bytes {
        if *byte == b'\n' {
            line = line.saturating_add(1);
        }
    }
    line
}

/// The text is no JSON.
pub(crate) fn unreadable_text(alloc: Global, text: &str) -> Error
    ensures { Tells result message }
{
    let Fault { at, wanted } = fault_of(alloc, text);
    let Place { line, column } = place_of(text, at);
    Error::message_from(format!(in alloc; "line {line}, column {column}: {wanted}"))
}

/// The text is no TOML.
pub(crate) fn no_toml(alloc: Global, text: &str, error: &toml::de::Error) -> Error
    ensures { Tells result message }
{
    let at = error.span().map_or(0, |span| span.start).min(text.len());
    let Place { line, column } = place_of(text, at);
    let words = error.message();
    Error::message_from(format!(in alloc; "line {line}, column {column}: {words}"))
}

/// The record has another number of fields than the header has names.
pub(crate) fn unlike_header(alloc: Global, text: &str, names: usize, row: &StringRecord) -> Error
    ensures { Tells result message }
{
    let from = row.position().map_or(1, |position| position.line());
    let line = full_line(text, from);
    let fields = row.len();
    Error::message_from(format!(in alloc;
        "line {line}, column 1: fields in this record: {fields}, and in the first record, which names them: {names}"
    ))
}

// The first line from this one on that is not empty: a reader passes over empty lines before a record.
fn full_line(text: &str, from: u64) -> u64 {
    let mut line: u64 = 0;
    for content in text.lines() {
        line = line.saturating_add(1);
        if line >= from && !content.is_empty() {
            return line;
        }
    }
    from
}
