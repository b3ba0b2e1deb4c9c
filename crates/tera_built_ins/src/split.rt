// Texts cut into their pieces.
ghost use Rattle.std.specs.Prelude.{◌≢◌, [], Ok};
ghost use Rattle.tera_errors.specs.Prelude.{Gives};
ghost use Rattle.tera_values.specs.Prelude.{plain};
ghost use Rattle.tera_built_ins.specs.Pieces.{pieces, letters};
ghost use Rattle.tera_built_ins.specs.Split.{made_texts, split_of};

use crate::arguments::{as_text, needed_text};
use crate::searching::{is_short, split_at_first};
use memchr::memmem::Finder;
use std::alloc::Global;
use tera_values::{Arguments, TeraResult, Value};

/// What stands between the positions of a pattern that is not empty.
fn split_at_each(alloc: Global, content: &str, pattern: &str) -> TeraResult<Vec<Value>>
    requires { pattern.now ≢ [] }
    ensures { Gives (λ v. v.items) result
        (Ok (made_texts plain (pieces plain.code pattern.now content.now))) }
{
    let mut pieces = Vec::new(alloc);
    let mut rest = content;
    while let Some((piece, after)) = rest.split_once(pattern) {
        pieces.push(Value::string(alloc, piece)?)?;
        rest = after;
    }
    pieces.push(Value::string(alloc, rest)?)?;
    Ok(pieces)
}

// The same of a content that is not short.
fn split_long_at_each(alloc: Global, content: &str, pattern: &str) -> TeraResult<Vec<Value>>
    requires { pattern.now ≢ [] }
    ensures { Gives (λ v. v.items) result
        (Ok (made_texts plain (pieces plain.code pattern.now content.now))) }
{
    let finder = Finder::new(pattern.as_bytes());
    let mut pieces = Vec::new(alloc);
    let mut rest = content;
    while let Some((piece, after)) = split_at_first(&finder, pattern, rest) {
        pieces.push(Value::string(alloc, piece)?)?;
        rest = after;
    }
    pieces.push(Value::string(alloc, rest)?)?;
    Ok(pieces)
}

/// Each character, with an empty text before the first and one after the last.
fn letters(alloc: Global, content: &str) -> TeraResult<Vec<Value>>
    ensures { Gives (λ v. v.items) result (Ok (made_texts plain (letters plain.code content.now))) }
{
    let mut letters = Vec::new(alloc);
    letters.push(Value::string(alloc, "")?)?;
    let mut buffer = [0; 4];
    for letter in content.chars() {
        letters.push(Value::string(alloc, letter.encode_utf8(&mut buffer))?)?;
    }
    letters.push(Value::string(alloc, "")?)?;
    Ok(letters)
}

/// The pieces between the positions of `pat`, from the left, none of them marked safe. The empty pattern stands before each
/// character and at the end.
pub fn split(alloc: Global, value: &Value, arguments: &Arguments<'_>) -> TeraResult<Value>
    ensures { Gives (λ v. v) result (split_of plain value.now arguments.now) }
{
    let given = as_text(alloc, value)?;
    let pattern = needed_text(arguments, "pat")?;
    let pieces = if pattern.text.is_empty() {
        letters(alloc, given.text)?
    } else if is_short(pattern.text, given.text) {
        split_at_each(alloc, given.text, pattern.text)?
    } else {
        split_long_at_each(alloc, given.text, pattern.text)?
    };
    Ok(Value::array(pieces))
}
