// One text in the place of another.
ghost use Rattle.std.specs.Prelude.{◌≢◌, [], Ok, string_bytes};
ghost use Rattle.tera_errors.specs.Prelude.{Gives};
ghost use Rattle.tera_values.specs.Prelude.{plain};
ghost use Rattle.tera_built_ins.specs.Escaping.{applied};
ghost use Rattle.tera_built_ins.specs.Replace.{replaced, replace_of};

use crate::arguments::{as_text, needed_text};
use crate::escape_fn::{EscapeFn, Filtering};
use crate::safe_answers::part;
use crate::searching::{is_short, split_at_first};
use memchr::memmem::Finder;
use std::alloc::Global;
use tera_values::{TeraResult, Value};

/// The text with another one at all positions of a pattern.
pub(crate) fn replace_all(alloc: Global, text: &str, from: &str, to: &str) -> TeraResult<String>
    ensures { Gives string_bytes result (Ok (replaced plain.code from.now to.now text.now)) }
{
    if from.is_empty() || is_short(from, text) {
        Ok(text.replace(alloc, from, to)?)
    } else {
        put_at_each(alloc, text, from, to)
    }
}

// The same of a pattern that is not empty.
fn put_at_each(alloc: Global, text: &str, from: &str, to: &str) -> TeraResult<String>
    requires { from.now ≢ [] }
    ensures { Gives string_bytes result (Ok (replaced plain.code from.now to.now text.now)) }
{
    let finder = Finder::new(from.as_bytes());
    let mut answer = String::new(alloc);
    let mut rest = text;
    while let Some((before, behind)) = split_at_first(&finder, from, rest) {
        answer.push_str(before)?;
        answer.push_str(to)?;
        rest = behind;
    }
    answer.push_str(rest)?;
    Ok(answer)
}

/// The text with another one at all positions of a pattern, from the left. The empty pattern stands before each character and
/// at the end. In a safe answer all but the pattern is escaped, unless it is safe itself.
pub fn replace<E: EscapeFn>(filtering: Filtering<'_, E>) -> TeraResult<Value>
    ensures { Gives (λ v. v) result (applied E.escaped (replace_of plain) filtering.entry) }
{
    let given = as_text(filtering.alloc, filtering.value)?;
    let from = needed_text(filtering.arguments, "from")?;
    let to = needed_text(filtering.arguments, "to")?;
    let is_safe = filtering.escaping.autoescape && (given.is_safe || to.is_safe);
    let text = part(filtering, is_safe, given)?;
    let to = part(filtering, is_safe, to)?;
    let answer = replace_all(filtering.alloc, text.as_str(), from.text, to.as_str())?;
    Value::from_string(filtering.alloc, answer, is_safe)
}
