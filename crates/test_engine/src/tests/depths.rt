//! Texts that are as deep as a text may be, and deeper.
use super::cases::{refuses, renders, variables};
use std::alloc::Global;
use tera::{Context, Tera};

/// Five texts, of which the second and the fourth stand so many times.
#[derive(Clone, Copy)]
struct TemplateNest([&'static str; 5], usize);

const CHOICES: [&str; 5] = ["", "{% if name %}", "x", "{% endif %}", ""];

const CHAINED: [&str; 5] = [
    "{% if 0 %}",
    "{% elif 0 %}",
    "{% else %}x{% endif %}",
    "",
    "",
];

const LOOPS: [&str; 5] = ["", "{% for c in \"a\" %}", "x", "{% endfor %}", ""];

const IN_COMPONENT: [&str; 5] = [
    "{{ <Q/> }}{% component Q() %}",
    "{% if 1 %}",
    "x",
    "{% endif %}",
    "{% endcomponent %}",
];

const NOTS: [&str; 5] = ["{% if ", "not ", "name %}x{% endif %}", "", ""];

const PARENTHESES: [&str; 5] = ["{{ ", "(", "name", ")", " }}"];

const OPEN_PARENTHESES: [&str; 5] = ["{{ ", "(", "name", "", " }}"];

/// Nests, and what they render to; none where that is a `SyntaxError`.
const DEPTHS: [(TemplateNest, Option<&str>); 12] = [
    (TemplateNest(CHOICES, 199), Some("x")),
    (TemplateNest(CHOICES, 200), None),
    // the first condition is an `if`
    (TemplateNest(CHAINED, 198), Some("x")),
    (TemplateNest(CHAINED, 199), None),
    (TemplateNest(LOOPS, 199), Some("x")),
    (TemplateNest(LOOPS, 200), None),
    // a component is no level itself
    (TemplateNest(IN_COMPONENT, 199), Some("x")),
    (TemplateNest(IN_COMPONENT, 200), None),
    (TemplateNest(NOTS, 198), Some("x")),
    (TemplateNest(NOTS, 199), None),
    (TemplateNest(PARENTHESES, 20_000), Some("world")),
    (TemplateNest(OPEN_PARENTHESES, 20_000), None),
];

fn put_often(all: &mut String, text: &str, count: usize) -> bool {
    for _ in 0..count {
        if all.push_str(text).is_err() {
            return false;
        }
    }
    true
}

fn put_nested(all: &mut String, nest: TemplateNest) -> bool {
    let TemplateNest([start, before, middle, after, end], count) = nest;
    put_often(all, start, 1)
        && put_often(all, before, count)
        && put_often(all, middle, 1)
        && put_often(all, after, count)
        && put_often(all, end, 1)
}

fn is_as_wanted(engine: &Tera, context: &Context, text: &str, want: Option<&str>) -> bool {
    match want {
        Some(want) => renders(engine, context, true, text, want),
        None => refuses(engine, context, true, text, "syntax"),
    }
}

fn is_nested(
    alloc: Global,
    engine: &Tera,
    context: &Context,
    nest: TemplateNest,
    want: Option<&str>,
) -> bool {
    let mut text = String::new(alloc);
    put_nested(&mut text, nest) && is_as_wanted(engine, context, text.as_str(), want)
}

/// The first row that is answered otherwise. With no engine to render with, that is the first.
fn wrong_nest(alloc: Global) -> Option<usize> {
    match (Tera::new(alloc), variables(alloc)) {
        (Ok(engine), Some(context)) => DEPTHS.iter().position(|depth| !is_nested(
            alloc, &engine, &context, depth.0, depth.1,
        )),
        _ => Some(0),
    }
}

#[test]
fn depths(rt: HostRuntime) {
    let row = wrong_nest(rt.alloc());
    assert!(rt; row.is_none(), "at row {row:?}");
}
