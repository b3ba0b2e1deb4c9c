// Lines moved to the right.
ghost use Rattle.std.specs.Prelude.{◌≡◌, nat_eq, length, Ok, OnOk, IfErr, cond, codes, ◌++◌, string_bytes, option_map};
ghost use Rattle.std.specs.List.{repeat};
ghost use Rattle.std.specs.Str.{chars};
ghost use Rattle.tera_errors.specs.Prelude.{Gives, Lacks, Tells, message};
ghost use Rattle.tera_values.specs.Prelude.{plain};
ghost use Rattle.tera_built_ins.specs.Escaping.{escaping_of, applied};
ghost use Rattle.tera_built_ins.specs.Reading.{given_of};
ghost use Rattle.tera_built_ins.specs.Indent as spec;

use crate::arguments::{Given, as_text, flag, optional_text, size_or};
use crate::escape_fn::{EscapeFn, Filtering};
use crate::refusals::no_character;
use crate::safe_answers::{is_given_safe, part};
use std::alloc::Global;
use tera_values::{Error, TeraResult, Value};

#[inline(never)]
fn no_indentation(alloc: Global, indentation: Option<Given<'_>>) -> Error
    ensures { Tells result message }
{
    match indentation {
        Some(given) => no_character(alloc, "indentation", given.text),
        None => Error::message(alloc, "one character is wanted"),
    }
}

fn append_first(line: &str, padding: &str, first: bool, out: &mut String) -> TeraResult<()>
    ensures ok { OnOk result (string_bytes out.new ≡
        string_bytes out.old ++ cond first (padding.now ++ line.now) line.now) }
    ensures lacks { IfErr result Lacks }
{
    if first {
        out.push_str(padding)?;
    }
    out.push_str(line)?;
    Ok(())
}

fn append_later(line: &str, padding: &str, blank: bool, out: &mut String) -> TeraResult<()>
    ensures ok { OnOk result (string_bytes out.new ≡
        string_bytes out.old ++ (codes "\n" ++ spec.later_line padding.now blank line.now)) }
    ensures lacks { IfErr result Lacks }
{
    out.push_str("\n")?;
    if blank || !line.is_empty() {
        out.push_str(padding)?;
    }
    out.push_str(line)?;
    Ok(())
}

fn indent_lines(
    alloc: Global,
    text: &str,
    padding: &str,
    first: bool,
    blank: bool,
) -> TeraResult<String>
    ensures { Gives string_bytes result
        (Ok (spec.indented plain.code (codes "\n") padding.now first blank text.now)) }
{
    let mut out = String::new(alloc);
    let mut begun = false;
    for line in text.lines() {
        if begun {
            append_later(line, padding, blank, &mut out)?;
        } else {
            append_first(line, padding, first, &mut out)?;
            begun = true;
        }
    }
    if text.ends_with('\n') {
        out.push_str("\n")?;
    }
    Ok(out)
}

fn is_one(text: &str) -> bool
    ensures { result ≡ nat_eq (length (chars text.now)) 1 }
{
    text.chars().count() == 1
}

fn is_character(indentation: Option<Given<'_>>) -> bool
    ensures { result ≡ spec.is_character plain (option_map given_of indentation.entry) }
{
    match indentation {
        None => true,
        Some(given) => is_one(given.text),
    }
}

/// What goes before a line.
fn padding<E: EscapeFn>(
    filtering: Filtering<'_, E>,
    is_safe: bool,
    indentation: Option<Given<'_>>,
    width: usize,
) -> TeraResult<String>
    ensures { Gives string_bytes result
        (Ok (repeat width (spec.unit plain (escaping_of E.escaped filtering.entry.escaping) is_safe
        (option_map given_of indentation.entry)))) }
{
    match indentation {
        None => Ok(" ".repeat(filtering.alloc, width)?),
        Some(given) => {
            let unit = part(filtering, is_safe, given)?;
            Ok(unit.as_str().repeat(filtering.alloc, width)?)
        }
    }
}

/// The text with a character, so and so often, before its lines: before the first one where `first` asks for it, before a
/// later one that is empty where `blank` does. Lines end with a line feed, whatever they ended with before.
pub fn indent<E: EscapeFn>(filtering: Filtering<'_, E>) -> TeraResult<Value>
    ensures { Gives (λ v. v) result (applied E.escaped (spec.indent_of plain) filtering.entry) }
{
    let given = as_text(filtering.alloc, filtering.value)?;
    let width = size_or(filtering.arguments, "width", 4)?;
    let indentation = optional_text(filtering.arguments, "indentation")?;
    let first = flag(filtering.arguments, "first")?;
    let blank = flag(filtering.arguments, "blank")?;
    if !is_character(indentation) {
        return Err(no_indentation(filtering.alloc, indentation));
    }
    let is_safe = filtering.escaping.autoescape && (given.is_safe || is_given_safe(indentation));
    let padding = padding(filtering, is_safe, indentation, width.min(1000))?;
    let text = part(filtering, is_safe, given)?;
    let answer = indent_lines(
        filtering.alloc,
        text.as_str(),
        padding.as_str(),
        first,
        blank,
    )?;
    Value::from_string(filtering.alloc, answer, is_safe)
}
