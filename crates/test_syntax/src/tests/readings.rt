//! Readings of small texts.
ghost use Rattle.std.specs.Prelude.{IsTrue};
ghost use Rattle.tera_syntax_tree.specs.Prelude.{accepted, delimiters_of};

use super::applications::{APPLICATIONS, UNREAD_APPLICATIONS};
use super::components::{CALLS, DEFINITIONS, UNREAD_CALLS, UNREAD_DEFINITIONS};
use super::includes::{INCLUDES, UNREAD_INCLUDES};
use super::nests::{NESTS, NestAnswer, NestedText};
use super::positions::{POSITIONS, Position};
use super::rows::{OTHERS, Other, REFUSED, RefusedText, TREES, TreeRow, UNUSABLE, Unusable};
use super::sections::{SECTIONS, UNREAD_SECTIONS};
use super::trees_in_words::Shown;
use std::alloc::Global;
use tera_errors::{ErrorKind, Span, TeraResult};
use tera_syntax::{Delimiters, ParserOutput, parse};

/// The tree of a text between the standard delimiters.
fn parse_text(alloc: Global, text: &str) -> TeraResult<ParserOutput<'_>> {
    let delimiters = Delimiters::standard(alloc)?;
    parse(alloc, "t", text, &delimiters)
}

fn is_shown(alloc: Global, read: TeraResult<ParserOutput<'_>>, want: &str) -> bool {
    let Ok(output) = read else {
        return false;
    };
    let mut shown = Shown::new(alloc);
    if let Some(parent) = &output.parent {
        shown.parent(parent.as_str());
    }
    shown.nodes(output.nodes.as_slice());
    shown.definitions(output.component_definitions.as_slice());
    shown.is(want)
}

fn agrees(alloc: Global, row: TreeRow) -> bool {
    is_shown(alloc, parse_text(alloc, row.0), row.1)
}

/// Whether the text is a syntax error, at a stretch of it.
fn is_refused(alloc: Global, text: &str) -> bool {
    match parse_text(alloc, text) {
        Ok(_) => false,
        Err(error) => match error.kind() {
            ErrorKind::SyntaxError(report) => report.span().end <= text.len(),
            _ => false,
        },
    }
}

/// Whether the text is a syntax error that points there and says so.
fn is_placed(alloc: Global, position: Position) -> bool {
    let Position(text, start, end, words) = position;
    match parse_text(alloc, text) {
        Ok(_) => false,
        Err(error) => match error.kind() {
            ErrorKind::SyntaxError(report) => {
                report.span() == Span { start, end } && report.message() == words
            }
            _ => false,
        },
    }
}

fn put(all: &mut String, text: &str) -> bool {
    all.push_str(text).is_ok()
}

fn put_often(all: &mut String, text: &str, count: usize) -> bool {
    for _ in 0..count {
        if !put(all, text) {
            return false;
        }
    }
    true
}

fn put_nest(all: &mut String, texts: [&str; 5], count: usize) -> bool {
    let [start, before, middle, after, end] = texts;
    put(all, start)
        && put_often(all, before, count)
        && put(all, middle)
        && put_often(all, after, count)
        && put(all, end)
}

/// Whether the texts are read with so many parts in one another, or else are a syntax error.
fn is_answered(alloc: Global, texts: [&str; 5], count: usize, is_read: bool) -> bool {
    let mut all = String::new(alloc);
    put_nest(&mut all, texts, count) && is_refused(alloc, all.as_str()) != is_read
}

fn is_as_deep(alloc: Global, nest: NestedText) -> bool {
    let NestedText(texts, depth) = nest;
    match depth {
        NestAnswer::Deepest(count) => {
            is_answered(alloc, texts, count, true)
                && is_answered(alloc, texts, count.saturating_add(1), false)
        }
        NestAnswer::Read(count) => is_answered(alloc, texts, count, true),
        NestAnswer::Refused(count) => is_answered(alloc, texts, count, false),
    }
}

/// The first text whose tree is another.
fn first_wrong_row(alloc: Global, rows: &[TreeRow]) -> Option<&'static str> {
    for row in rows {
        if !agrees(alloc, *row) {
            return Some(row.0);
        }
    }
    None
}

/// The first text that is read though it spells no tree.
fn first_readable_text(alloc: Global, texts: &[RefusedText]) -> Option<&'static str> {
    for text in texts {
        if !is_refused(alloc, text.0) {
            return Some(text.0);
        }
    }
    None
}

/// The first text of these tables that is answered otherwise.
fn first_wrong_text(
    alloc: Global,
    tables: &[(&[TreeRow], &[RefusedText])],
) -> Option<&'static str> {
    for (trees, refused) in tables {
        let other = match first_wrong_row(alloc, trees) {
            Some(wrong) => Some(wrong),
            None => first_readable_text(alloc, refused),
        };
        if other.is_some() {
            return other;
        }
    }
    None
}

#[test]
fn texts(rt: HostRuntime) {
    let alloc = rt.alloc();
    let tables: [(&[TreeRow], &[RefusedText]); 6] = [
        (&TREES, &REFUSED),
        (&SECTIONS, &UNREAD_SECTIONS),
        (&APPLICATIONS, &UNREAD_APPLICATIONS),
        (&INCLUDES, &UNREAD_INCLUDES),
        (&DEFINITIONS, &UNREAD_DEFINITIONS),
        (&CALLS, &UNREAD_CALLS),
    ];
    assert_eq!(rt; first_wrong_text(alloc, &tables), None);
}

#[test]
fn positions(rt: HostRuntime) {
    let alloc = rt.alloc();
    let misplaced = POSITIONS
        .iter()
        .position(|position| !is_placed(alloc, *position));
    assert_eq!(rt; misplaced, None);
}

#[test]
fn depths(rt: HostRuntime) {
    let alloc = rt.alloc();
    let other = NESTS.iter().position(|nest| !is_as_deep(alloc, *nest));
    assert_eq!(rt; other, None);
}

/// Blocks without a body, each with its number for its name.
fn put_blocks(alloc: Global, all: &mut String, count: usize) -> bool {
    for number in 0..count {
        let is_put = match format!(in alloc; "block_{number}") {
            Ok(name) => {
                put(all, "{% block ") && put(all, name.as_str()) && put(all, " %}{% endblock %}")
            }
            Err(_) => false,
        };
        if !is_put {
            return false;
        }
    }
    true
}

/// Whether many blocks are read, and refused with one more that has a name of theirs.
fn are_told_apart(alloc: Global) -> bool {
    let mut all = String::new(alloc);
    put_blocks(alloc, &mut all, 2_000)
        && parse_text(alloc, all.as_str()).is_ok()
        && put(&mut all, "{% block block_1999 %}{% endblock %}")
        && is_refused(alloc, all.as_str())
}

#[test]
fn many_blocks(rt: HostRuntime) {
    assert!(rt; are_told_apart(rt.alloc()));
}

/// Delimiters of which no text is written yet.
fn empty_delimiters(alloc: Global) -> Delimiters {
    Delimiters {
        block_start: String::new(alloc),
        block_end: String::new(alloc),
        variable_start: String::new(alloc),
        variable_end: String::new(alloc),
        comment_start: String::new(alloc),
        comment_end: String::new(alloc),
    }
}

fn write_delimiters(delimiters: &mut Delimiters, comment_start: &str, comment_end: &str) -> bool {
    put(&mut delimiters.block_start, "<%")
        && put(&mut delimiters.block_end, "%>")
        && put(&mut delimiters.variable_start, "<<")
        && put(&mut delimiters.variable_end, ">>")
        && put(&mut delimiters.comment_start, comment_start)
        && put(&mut delimiters.comment_end, comment_end)
}

fn are_usable(alloc: Global, delimiters: &Delimiters) -> bool
    ensures { IsTrue result → IsTrue (accepted (delimiters_of delimiters.now)) }
{
    delimiters.validate(alloc).is_ok()
}

fn agrees_by(alloc: Global, other: Other) -> bool {
    let mut delimiters = empty_delimiters(alloc);
    write_delimiters(&mut delimiters, other.0, other.1)
        && are_usable(alloc, &delimiters)
        && is_shown(alloc, parse(alloc, "t", other.2.0, &delimiters), other.2.1)
}

fn are_refused(alloc: Global, unusable: Unusable) -> bool {
    let mut delimiters = empty_delimiters(alloc);
    write_delimiters(&mut delimiters, unusable.0, unusable.1) && !are_usable(alloc, &delimiters)
}

#[test]
fn other_delimiters(rt: HostRuntime) {
    let alloc = rt.alloc();
    let are_read = OTHERS.iter().all(|other| agrees_by(alloc, *other));
    assert!(rt;
        are_read
            && UNUSABLE
                .iter()
                .all(|unusable| are_refused(alloc, *unusable))
    );
}
