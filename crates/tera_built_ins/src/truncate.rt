// Texts cut short.
ghost use Rattle.std.specs.Prelude.{Ok, false};
ghost use Rattle.tera_errors.specs.Prelude.{Gives};
ghost use Rattle.tera_values.specs.Prelude.{plain, text};
ghost use Rattle.tera_built_ins.specs.Truncate.{truncated, truncate_of};

use crate::arguments::{as_text, needed_size, text_or};
use std::alloc::Global;
use tera_values::{Arguments, TeraResult, Value};
use unicode_segmentation::UnicodeSegmentation;

/// The first clusters of a text that has more than so many, and then the end; else the text.
fn shorten(alloc: Global, content: &str, length: usize, end: &str) -> TeraResult<Value>
    ensures { Gives (λ v. v) result (Ok (text (truncated length end.now content.now) false)) }
{
    match content.grapheme_indices(true).nth(length) {
        Some((position, _cluster)) => {
            let mut shortened = String::new(alloc);
            shortened.push_str(&content[..position])?;
            shortened.push_str(end)?;
            Value::from_string(alloc, shortened, false)
        }
        None => Value::string(alloc, content),
    }
}

/// A text of more than `length` extended clusters to the end of the last of these, and behind it `end`; else the text. It is
/// never marked safe.
pub fn truncate(alloc: Global, value: &Value, arguments: &Arguments<'_>) -> TeraResult<Value>
    ensures { Gives (λ v. v) result (truncate_of plain value.now arguments.now) }
{
    let given = as_text(alloc, value)?;
    let length = needed_size(arguments, "length")?;
    let end = text_or(arguments, "end", "…")?;
    shorten(alloc, given.text, length, end)
}
