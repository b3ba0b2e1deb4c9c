// The lines of a text as paragraphs of markup.
ghost use Rattle.std.specs.Prelude.{◌≡◌, ◌≢◌, ◌++◌, [], Ok, OnOk, IfErr, string_bytes};
ghost use Rattle.std.specs.Cow.{cow_str_bytes};
ghost use Rattle.tera_errors.specs.Prelude.{Gives, Lacks};
ghost use Rattle.tera_values.specs.Prelude.{plain};
ghost use Rattle.tera_built_ins.specs.Reading.{given_of};
ghost use Rattle.tera_built_ins.specs.Replace.{replaced};
ghost use Rattle.tera_built_ins.specs.Words.{has_some};
ghost use Rattle.tera_filters.specs.LineMarks as marks;
ghost use Rattle.tera_filters.specs.Lines as spec;

use std::alloc::Global;
use std::borrow::CowStr;
use tera_built_ins::arguments::{Given, as_text};
use tera_values::{TeraResult, Value, escape_html};

fn replace_all(alloc: Global, text: &str, from: &str, to: &str) -> TeraResult<String>
    ensures { Gives string_bytes result (Ok (replaced plain.code from.now to.now text.now)) }
{
    Ok(text.replace(alloc, from, to)?)
}

// The text with a line feed at the end of each line.
fn with_feeds(alloc: Global, text: &str) -> TeraResult<String>
    ensures { Gives string_bytes result (Ok (spec.with_feeds text.now)) }
{
    let without_pairs = replace_all(alloc, text, "\r\n", "\n")?;
    replace_all(alloc, without_pairs.as_str(), "\r", "\n")
}

fn has_text(line: &str) -> bool
    ensures { result ≡ has_some line.now }
{
    !line.is_empty()
}

// Whether a paragraph is begun behind the line.
fn is_begun_behind(begun: bool, line: &str) -> bool
    ensures { result ≡ marks.begun_behind begun line.now }
{
    has_text(line) || begun
}

// What stands before a line, where a paragraph is begun before it, and where it goes on one.
fn opening_mark(begun: bool, inside: bool) -> &'static str
    ensures { result.now ≡ marks.opening begun inside }
{
    if inside {
        "<br>"
    } else if begun {
        "\n\n<p>"
    } else {
        "<p>"
    }
}

// Appends the end of a paragraph, where one is open.
fn put_ending(inside: bool, out: &mut String) -> TeraResult<()>
    ensures ok { OnOk result
        (string_bytes out.new ≡ string_bytes out.old ++ marks.ending inside) }
    ensures lacks { IfErr result Lacks }
{
    let ending = if inside { "</p>" } else { "" };
    out.push_str(ending)?;
    Ok(())
}

// Appends what a line adds.
fn put_line(line: &str, begun: bool, inside: bool, out: &mut String) -> TeraResult<()>
    ensures ok { OnOk result
        (string_bytes out.new ≡ string_bytes out.old ++ marks.added begun inside line.now) }
    ensures lacks { IfErr result Lacks }
{
    if !has_text(line) {
        return put_ending(inside, out);
    }
    out.push_str(opening_mark(begun, inside))?;
    out.push_str(line)?;
    Ok(())
}

// The paragraphs of a text in which line feeds end the lines.
fn paragraphs_of(alloc: Global, text: &str) -> TeraResult<String>
    ensures { Gives string_bytes result (Ok (spec.paragraphs (spec.lines_of text.now))) }
{
    let mut marked = String::new(alloc);
    let mut begun = false;
    let mut inside = false;
    for line in text.split('\n') {
        put_line(line, begun, inside, &mut marked)?;
        begun = is_begun_behind(begun, line);
        inside = has_text(line);
    }
    put_ending(inside, &mut marked)?;
    Ok(marked)
}

// The text as it goes into markup. Takes memory only for an escape.
fn markup_of<'a>(alloc: Global, given: Given<'a>) -> TeraResult<CowStr<'a>>
    ensures { Gives cow_str_bytes result (Ok (spec.markup_of (given_of given.entry))) }
{
    if given.is_safe {
        return Ok(CowStr::Borrowed(given.text));
    }
    let mut escaped = String::new(alloc);
    escape_html(given.text, &mut escaped)?;
    Ok(CowStr::Owned(escaped))
}

/// Each run of lines that are not empty between `<p>` and `</p>`, with `<br>` between its lines, and two line feeds between the
/// paragraphs. A line ends with CRLF, CR or LF. A text that is not safe is escaped first, so the answer is safe.
pub fn linebreaks(alloc: Global, value: &Value) -> TeraResult<Value>
    ensures { Gives (λ v. v) result (spec.linebreaks_of value.now) }
{
    let given = as_text(alloc, value)?;
    let markup = markup_of(alloc, given)?;
    let lines = with_feeds(alloc, markup.as_str())?;
    let marked = paragraphs_of(alloc, lines.as_str())?;
    Value::from_string(alloc, marked, true)
}
