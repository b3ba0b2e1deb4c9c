//! Faults that are told while memory is refused: at the first request, at the second one, and so on.
use std::alloc::Global;
use tera::{Context, Error, ErrorKind, Span, Tera};
use test_memory::{Tried, refusals_of_little, with_budget, with_pieces};

/// How many pieces of memory are left free: there are hundreds of trials.
const PIECES: usize = 1_024;

const BATCH: [(&str, &str); 3] = [
    ("page.html", "{% include 'list.html' %}"),
    ("list.html", "<ul>{% include 'item.html' %}</ul>"),
    ("item.html", "<li>{{ itme | truncate(length='x') }}</li>"),
];

const UNDEFINED: &str =
    "item.html:1:8: filter `truncate`: `itme` is undefined, and a string is wanted
1 | <li>{{ itme | truncate(length='x') }}</li>
  |        ^^^^
called from list.html:1:16
called from page.html:1:12";

const LACKING: [(&str, &str); 2] = [
    ("page.html", "{{ 1 | trunacte }}{% include 'lits.html' %}"),
    ("list.html", ""),
];

const MISSING: &str = "page.html:1:8: there is no filter `trunacte` (is `truncate` meant?)
page.html:1:30: there is no template `lits.html` to include (is `list.html` meant?)";

const ABSENT: &str = "there is no template `none.html`";

// Whether the fault is at `itme`.
fn is_undefined(error: &Error) -> bool {
    match error.kind() {
        ErrorKind::RenderingError(report) => {
            report.file() == "item.html" && report.span() == Span { start: 7, end: 11 }
        }
        _ => false,
    }
}

fn is_message(error: &Error) -> bool {
    matches!(error.kind(), ErrorKind::Message(_))
}

fn is_absent(error: &Error) -> bool {
    matches!(error.kind(), ErrorKind::TemplateNotFound)
}

// How a fault was told: with all its words, with fewer of them, or as want of memory. Anything else is wrong.
fn how_told(alloc: Global, error: &Error, is_meant: bool, want: &str) -> Tried {
    match format!(in alloc; "{error}") {
        Ok(words) if is_meant && words.as_str() == want => Tried::Answered,
        Ok(_) if is_meant || matches!(error.kind(), ErrorKind::OutOfMemory) => Tried::Refused,
        _ => Tried::Wrong,
    }
}

fn try_rendering(alloc: Global, engine: &Tera, context: &Context, budget: usize) -> Tried {
    match with_budget(alloc, budget, || engine.render("page.html", context)) {
        Some(Err(error)) => how_told(alloc, &error, is_undefined(&error), UNDEFINED),
        _ => Tried::Wrong,
    }
}

fn try_absent(alloc: Global, engine: &Tera, context: &Context, budget: usize) -> Tried {
    match with_budget(alloc, budget, || engine.render("none.html", context)) {
        Some(Err(error)) => how_told(alloc, &error, is_absent(&error), ABSENT),
        _ => Tried::Wrong,
    }
}

fn renderings_are_told(alloc: Global, engine: &Tera) -> bool {
    let context = Context::new(alloc);
    refusals_of_little(|budget| try_rendering(alloc, engine, &context, budget)) > Some(0)
        && refusals_of_little(|budget| try_absent(alloc, engine, &context, budget)) > Some(0)
}

fn are_told(alloc: Global) -> bool {
    match Tera::new(alloc) {
        Ok(mut engine) => {
            let is_added = engine.add_raw_templates(&BATCH).is_ok();
            is_added
                && with_pieces(alloc, PIECES, || renderings_are_told(alloc, &engine)) == Some(true)
        }
        Err(_) => false,
    }
}

#[test]
fn faults_are_told_where_memory_is_refused(rt: HostRuntime) {
    assert!(rt; are_told(rt.alloc()));
}

// A batch that is refused leaves an engine without a template.
fn try_adding(alloc: Global, budget: usize) -> Tried {
    let Ok(mut engine) = Tera::new(alloc) else {
        return Tried::Wrong;
    };
    match with_budget(alloc, budget, || engine.add_raw_templates(&LACKING)) {
        Some(Err(error)) if engine.template_source("list.html").is_none() => {
            how_told(alloc, &error, is_message(&error), MISSING)
        }
        _ => Tried::Wrong,
    }
}

fn is_missing_told(alloc: Global) -> bool {
    refusals_of_little(|budget| try_adding(alloc, budget)) > Some(0)
}

#[test]
fn what_is_missing_is_told_where_memory_is_refused(rt: HostRuntime) {
    let alloc = rt.alloc();
    assert!(rt; with_pieces(alloc, PIECES, || is_missing_told(alloc)) == Some(true));
}
