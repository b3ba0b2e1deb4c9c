// The line of a text in which something stands.
use crate::place::{Place, place_of};
use crate::span::Span;
use std::alloc::{AllocError, Global};
use std::fmt;
use std::fmt::Write;
use unicode_width::UnicodeWidthChar;

/// So many bytes of a line are shown on each side of what is marked in it, and of that itself.
const SHOWN: usize = 120;

/// The line of a text in which a span begins: what stands before it, what of it stands in this line, and what stands behind.
#[derive(Debug, Drop)]
pub(crate) struct Excerpt {
    pub(crate) place: Place,
    before: String,
    marked: String,
    behind: String,
}

impl Excerpt {
    /// The line of the span, if it lies in the text.
    pub(crate) fn new(
        alloc: Global,
        source: &str,
        span: Span,
    ) -> Result<Option<Excerpt>, AllocError> {
        let Some((above, below)) = source.split_at_checked(span.start) else {
            return Ok(None);
        };
        let before = match above.rsplit_once("\n") {
            Some((_, line)) => line,
            None => above,
        };
        let rest = first_line(below);
        let size = span.end.saturating_sub(span.start);
        let (marked, behind) = match rest.split_at_checked(size) {
            Some(parts) => parts,
            None => (rest, ""),
        };
        Ok(Some(Excerpt {
            place: place_of(source, above.len()),
            before: String::from_str(alloc, end_of(before))?,
            marked: String::from_str(alloc, start_of(marked))?,
            behind: String::from_str(alloc, start_of(behind))?,
        }))
    }

    /// Writes the line, and below it a row of carets under what is marked.
    pub(crate) fn write<W: fmt::Write>(&self, f: &mut fmt::Formatter<W>) -> fmt::Result {
        let number = self.place.line;
        let (before, marked, behind) = (
            self.before.as_str(),
            self.marked.as_str(),
            self.behind.as_str(),
        );
        write!(f, "\n{number} | {before}{marked}{behind}\n")?;
        write_blanks(f, number)?;
        f.write_str(" | ")?;
        for character in before.chars() {
            write_row(f, character, ' ')?;
        }
        if marked.is_empty() {
            return f.write_char('^');
        }
        for character in marked.chars() {
            write_row(f, character, '^')?;
        }
        Ok(())
    }
}

// The text up to the end of its first line.
fn first_line(text: &str) -> &str {
    let line = match text.split_once("\n") {
        Some((line, _)) => line,
        None => text,
    };
    match line.strip_suffix("\r") {
        Some(line) => line,
        None => line,
    }
}

// As much of the start of a text as is shown.
fn start_of(text: &str) -> &str {
    let (shown, _) = text.split_at(text.floor_char_boundary(SHOWN));
    shown
}

// As much of its end.
fn end_of(text: &str) -> &str {
    let (_, shown) = text.split_at(text.ceil_char_boundary(text.len().saturating_sub(SHOWN)));
    shown
}

// As many blanks as the number has digits.
fn write_blanks<W: fmt::Write>(f: &mut fmt::Formatter<W>, number: usize) -> fmt::Result {
    for _ in 0..=number.checked_ilog10().unwrap_or(0) {
        f.write_char(' ')?;
    }
    Ok(())
}

// Writes the sign as often as the character has columns; a tab stays a tab.
fn write_row<W: fmt::Write>(f: &mut fmt::Formatter<W>, character: char, sign: char) -> fmt::Result {
    if character == '\t' {
        return f.write_char('\t');
    }
    for _ in 0..character.width().unwrap_or(0) {
        f.write_char(sign)?;
    }
    Ok(())
}
