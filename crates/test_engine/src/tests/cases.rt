//! Tables of texts that stand beside the registry, and of what they render to.
//!
//! A line of a table is `INPUT => TEXT`, where the input renders to the text; `INPUT !! START END`, where it faults with a
//! `RenderingError` at these bytes; `INPUT !! syntax`, where it is refused with a `SyntaxError` inside of it; `INPUT !! message`,
//! where it is refused with a `Message`; or `INPUT !! memory`, where memory is refused. One text is far cheaper to prove safe than an
//! array of rows.
use std::alloc::Global;
use tera::{Context, Error, ErrorKind, ReportError, Tera, TeraResult, Value};

/// Puts the value into the context, if there was room for both.
pub fn put(context: &mut Context, name: &str, value: TeraResult<Value>) -> bool {
    match value {
        Ok(value) => context.insert(name, value).is_ok(),
        Err(_) => false,
    }
}

/// A context with a text, `text`, the same marked safe, `safe`, `html`, `name`, which is `world`, `hidden`, which is
/// undefined, and two bytes, `bytes`.
pub fn variables(alloc: Global) -> Option<Context> {
    let mut context = Context::new(alloc);
    if put(&mut context, "text", Value::string(alloc, "<b>"))
        && put(&mut context, "safe", Value::safe_string(alloc, "<b>"))
        && put(&mut context, "html", Value::string(alloc, "<script>"))
        && put(&mut context, "name", Value::string(alloc, "world"))
        && put(&mut context, "hidden", Ok(Value::undefined()))
        && put(&mut context, "bytes", Value::bytes(alloc, b"\x01\xff"))
    {
        return Some(context);
    }
    None
}

fn is_position(number: &str, position: usize) -> bool {
    number.parse::<usize>() == Ok(position)
}

fn reports_fault(report: &ReportError, want: &str) -> bool {
    match want.split_once(' ') {
        Some((start, end)) => {
            report.file() == "__tera_one_off"
                && is_position(start, report.span().start)
                && is_position(end, report.span().end)
        }
        None => false,
    }
}

fn reports_syntax(report: &ReportError, size: usize) -> bool {
    report.file() == "__tera_one_off"
        && report.span().start <= report.span().end
        && report.span().end <= size
}

/// Whether a text of this size is refused as the line wants it.
pub fn is_refused(error: &Error, want: &str, size: usize) -> bool {
    match error.kind() {
        ErrorKind::RenderingError(report) => reports_fault(report, want),
        ErrorKind::SyntaxError(report) => want == "syntax" && reports_syntax(report, size),
        ErrorKind::Message(_) => want == "message",
        ErrorKind::OutOfMemory => want == "memory",
        _ => false,
    }
}

/// Whether what was rendered is this text.
pub fn is_text(answer: TeraResult<String>, want: &str) -> bool {
    match answer {
        Ok(text) => text.as_str() == want,
        Err(_) => false,
    }
}

/// Whether the input renders to the text.
pub fn renders(
    engine: &Tera,
    context: &Context,
    autoescape: bool,
    input: &str,
    text: &str,
) -> bool {
    is_text(engine.render_str(input, context, autoescape), text)
}

/// Whether the input is refused as the line wants it.
pub fn refuses(
    engine: &Tera,
    context: &Context,
    autoescape: bool,
    input: &str,
    want: &str,
) -> bool {
    match engine.render_str(input, context, autoescape) {
        Ok(_) => false,
        Err(error) => is_refused(&error, want, input.len()),
    }
}

/// Whether a line is answered as it wants it.
fn agrees(engine: &Tera, context: &Context, autoescape: bool, line: &str) -> bool {
    if let Some((input, text)) = line.split_once(" =>") {
        let text = text.strip_prefix(' ').unwrap_or(text);
        return renders(engine, context, autoescape, input, text);
    }
    match line.split_once(" !! ") {
        Some((input, want)) => refuses(engine, context, autoescape, input, want),
        None => line.is_empty(),
    }
}

/// The number of the first line that the engine answers otherwise.
pub fn wrong_line_number(
    engine: &Tera,
    context: &Context,
    autoescape: bool,
    lines: &str,
) -> Option<usize> {
    lines
        .lines()
        .position(|line| !agrees(engine, context, autoescape, line))
}

/// The first line of the table that is answered otherwise, by an engine of its own.
pub fn wrong_line(alloc: Global, autoescape: bool, lines: &'static str) -> Option<&'static str> {
    match (Tera::new(alloc), variables(alloc)) {
        (Ok(engine), Some(context)) => {
            let number = wrong_line_number(&engine, &context, autoescape, lines)?;
            lines.lines().nth(number)
        }
        _ => Some("no engine"),
    }
}

/// The first line of these tables that is answered otherwise. Beside each table stands whether texts are escaped.
pub fn first_wrong_line(alloc: Global, tables: &[(bool, &'static str)]) -> Option<&'static str> {
    for (autoescape, lines) in tables {
        let line = wrong_line(alloc, *autoescape, lines);
        if line.is_some() {
            return line;
        }
    }
    None
}
