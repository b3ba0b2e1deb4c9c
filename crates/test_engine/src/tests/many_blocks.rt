//! Blocks in many templates, and many blocks in one.
use super::many_templates::{Lineage, put_number, shows_one};
use super::templates::{adds, shows};
use std::alloc::Global;
use tera::{Context, Tera};

/// Whether the first of so many templates in a row, of which each but the last extends the next, renders to the text. All have a
/// block, the last one with `x` in it, the others with what stands behind the name of their parents.
fn shows_first(alloc: Global, count: usize, behind: &str, want: &str) -> bool {
    let lineage = Lineage {
        count,
        before: "{% extends '",
        behind,
        times: 1,
        last: "{% block b %}x{% endblock %}",
    };
    shows_one(alloc, lineage, "1", want)
}

/// This text and so many dots behind it.
fn text_with_dots(alloc: Global, front: &str, count: usize) -> Option<String> {
    let mut text = String::new(alloc);
    if text.push_str(front).is_err() {
        return None;
    }
    for _ in 0..count {
        if text.push_str(".").is_err() {
            return None;
        }
    }
    Some(text)
}

fn shows_dots(alloc: Global, count: usize) -> bool {
    match text_with_dots(alloc, "x", count) {
        Some(text) => shows_first(
            alloc,
            count.saturating_add(1),
            "' %}{% block b %}{{ super() }}.{% endblock %}",
            text.as_str(),
        ),
        None => false,
    }
}

#[test]
fn long_lineages(rt: HostRuntime) {
    let own = "' %}{% block b %}own{% endblock %}";
    assert!(rt; shows_dots(rt.alloc(), 300) && shows_first(rt.alloc(), 10_000, own, "own"));
}

/// A template with so many blocks, each with its number in it.
fn text_of_blocks(alloc: Global, count: usize) -> Option<String> {
    let mut text = String::new(alloc);
    for number in 0..count {
        if text.push_str("{% block b").is_err()
            || !put_number(&mut text, number)
            || text.push_str(" %}.{% endblock %}").is_err()
        {
            return None;
        }
    }
    Some(text)
}

fn is_many_shown(alloc: Global, engine: &mut Tera, count: usize) -> bool {
    let context = Context::new(alloc);
    match (
        text_of_blocks(alloc, count),
        text_with_dots(alloc, "", count),
    ) {
        (Some(text), Some(want)) => {
            adds(engine, "many", text.as_str())
                && adds(
                    engine,
                    "child",
                    "{% extends 'many' %}{% block b7 %}.{% endblock %}",
                )
                && shows(engine, &context, "many", want.as_str())
                && shows(engine, &context, "child", want.as_str())
        }
        _ => false,
    }
}

fn shows_many(alloc: Global, count: usize) -> bool {
    match Tera::new(alloc) {
        Ok(mut engine) => is_many_shown(alloc, &mut engine, count),
        Err(_) => false,
    }
}

#[test]
fn many_blocks(rt: HostRuntime) {
    assert!(rt; shows_many(rt.alloc(), 1000));
}
