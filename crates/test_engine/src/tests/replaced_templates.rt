//! A template that is replaced again and again: what stood there before leaves nothing behind.
use super::many_templates::put_number;
use super::templates::{adds, shows};
use std::alloc::Global;
use tera::{Context, Tera};
use test_memory::{bytes_left, with_room};

/// How many bytes are free at most: room for two templates, and for a rendering.
const ROOM: usize = 100_000;

/// Lines of a number, some text, the number again and some other text.
fn lines(alloc: Global, number: usize, between: &str, behind: &str) -> Option<String> {
    let mut text = String::new(alloc);
    for _ in 0..60 {
        if !put_number(&mut text, number)
            || text.push_str(between).is_err()
            || !put_number(&mut text, number)
            || text.push_str(behind).is_err()
        {
            return None;
        }
    }
    Some(text)
}

fn shows_lines(alloc: Global, engine: &mut Tera, context: &Context, number: usize) -> bool {
    match (
        lines(alloc, number, " {{ ", " }}\n"),
        lines(alloc, number, " ", "\n"),
    ) {
        (Some(text), Some(want)) => {
            adds(engine, "a.html", text.as_str()) && shows(engine, context, "a.html", want.as_str())
        }
        _ => false,
    }
}

/// Whether the template is added with these numbers in turn, all of three digits, and shows each.
fn shows_all(
    alloc: Global,
    engine: &mut Tera,
    context: &Context,
    first: usize,
    end: usize,
) -> bool {
    for number in first..end {
        if !shows_lines(alloc, engine, context, number) {
            return false;
        }
    }
    true
}

/// How many bytes are left without a template, with its first text, and with its 200th.
fn bytes_left_after(
    alloc: Global,
    engine: &mut Tera,
    context: &Context,
    pieces: &mut Vec<Vec<u8>>,
) -> Option<(usize, usize, usize)> {
    let before = bytes_left(alloc, pieces);
    if !shows_all(alloc, engine, context, 100, 101) {
        return None;
    }
    let first = bytes_left(alloc, pieces);
    if !shows_all(alloc, engine, context, 101, 300) {
        return None;
    }
    Some((before, first, bytes_left(alloc, pieces)))
}

fn bytes_left_in_room(alloc: Global, engine: &mut Tera) -> Option<(usize, usize, usize)> {
    let context = Context::new(alloc);
    let mut pieces = Vec::with_capacity(alloc, 20_000).ok()?;
    with_room(
        alloc,
        ROOM,
        || bytes_left_after(alloc, engine, &context, &mut pieces),
    )?
}

fn measure(alloc: Global) -> Option<(usize, usize, usize)> {
    let mut engine = Tera::new(alloc).ok()?;
    bytes_left_in_room(alloc, &mut engine)
}

/// Whether the 200th text takes up what the first one did, within a tenth.
fn is_steady(lefts: Option<(usize, usize, usize)>) -> bool {
    match lefts {
        Some((before, first, last)) => {
            let taken = before.saturating_sub(first);
            taken > 0 && before.saturating_sub(last).abs_diff(taken) <= taken / 10
        }
        None => false,
    }
}

#[test]
fn replaced_templates_leave_nothing(rt: HostRuntime) {
    let lefts = measure(rt.alloc());
    assert!(rt; is_steady(lefts), "left: {lefts:?}");
}
