// What is taken off the ends of a text.
ghost use Rattle.std.specs.Prelude.{◌≡◌, option_map};
ghost use Rattle.tera_errors.specs.Prelude.{Gives};
ghost use Rattle.tera_values.specs.Prelude.{plain};
ghost use Rattle.tera_built_ins.specs.Reading.{given_of};
ghost use Rattle.tera_built_ins.specs.Trims as spec;

use crate::arguments::{Given, as_text, optional_text};
use crate::safe_answers::text_value;
use std::alloc::Global;
use tera_values::{Arguments, TeraResult, Value};

fn without_start<'a>(text: &'a str, pattern: Option<Given<'_>>) -> &'a str
    ensures { result.now ≡ spec.off_start plain (option_map given_of pattern.entry) text.now }
{
    match pattern {
        None => text.trim_start(),
        Some(pattern) => text.trim_start_matches(pattern.text),
    }
}

fn without_end<'a>(text: &'a str, pattern: Option<Given<'_>>) -> &'a str
    ensures { result.now ≡ spec.off_end plain (option_map given_of pattern.entry) text.now }
{
    match pattern {
        None => text.trim_end(),
        Some(pattern) => text.trim_end_matches(pattern.text),
    }
}

/// The text without white space, or without a pattern again and again, at its start.
pub fn trim_start(alloc: Global, value: &Value, arguments: &Arguments<'_>) -> TeraResult<Value>
    ensures { Gives (λ v. v) result (spec.trim_start_of plain value.now arguments.now) }
{
    let given = as_text(alloc, value)?;
    let pattern = optional_text(arguments, "pat")?;
    text_value(alloc, without_start(given.text, pattern), given.is_safe)
}

/// The same at its end.
pub fn trim_end(alloc: Global, value: &Value, arguments: &Arguments<'_>) -> TeraResult<Value>
    ensures { Gives (λ v. v) result (spec.trim_end_of plain value.now arguments.now) }
{
    let given = as_text(alloc, value)?;
    let pattern = optional_text(arguments, "pat")?;
    text_value(alloc, without_end(given.text, pattern), given.is_safe)
}

/// The same at its start, and then at its end: a pattern that is left over between the two is not looked for again.
pub fn trim(alloc: Global, value: &Value, arguments: &Arguments<'_>) -> TeraResult<Value>
    ensures { Gives (λ v. v) result (spec.trim_of plain value.now arguments.now) }
{
    let given = as_text(alloc, value)?;
    let pattern = optional_text(arguments, "pat")?;
    let rest = without_end(without_start(given.text, pattern), pattern);
    text_value(alloc, rest, given.is_safe)
}
