//! Renderings within a budget of steps.
//!
//! A line of a table is `STEPS INPUT`, where so many steps are just enough for the text, or for the template or the component of this
//! name: with them, and with any more, the answer is that of the call without a budget, and with one fewer there is none.
use super::cases::variables;
use std::alloc::Global;
use tera::{Context, Error, ErrorKind, Tera, TeraResult};

/// What is rendered.
#[derive(Clone, Copy)]
enum RenderingKind {
    Text,
    Template,
    Component,
}

const TEXTS: &str = r#"0
1 a
1 {{ name }}
3 Hello {{ name }}!
3 {{ name | trim }}
4 {% if name %}a{% else %}b{% endif %}
9 {% for x in [1, 2] %}{{ x }}{% endfor %}
19 {% for x in [1, 2] %}{{ x }}{% if x > 1 %}a{% endif %}{% endfor %}
18 {{ [x for x in [1, 2] if x > 1] }}
9 {% include "part" %}
1 {{ nope }}
4 a{{ name }}{{ nope.a }}
0 {{ name
0 {% extends "base" %}
0 {{ <Nowhere/> }}"#;

const TEMPLATES: &str = "4 base
16 child
8 part
2 faulty
0 nowhere";

const COMPONENTS: &str = "5 Card
2 Wrong
0 Nowhere";

const FILES: [(&str, &str); 6] = [
    ("base", "<{% block a %}{{ name }}{% endblock %}>"),
    (
        "child",
        "{% extends 'base' %}{% block a %}{{ super() }}!{% include 'part' %}{% endblock %}",
    ),
    ("part", "{{ <Card name={name}/> }}"),
    ("faulty", "{{ name }}{{ nope }}"),
    (
        "endless",
        "{% for i in range(end=100000) %}{% for j in range(end=100000) %}{% include 'part' %}{% endfor %}{% endfor %}",
    ),
    (
        "cards",
        "{% component Card(...rest) %}[{{ rest.name }}]{% endcomponent %}\
        {% component Wrong(...rest) %}a{{ nope }}{% endcomponent %}\
        {% component Endless(...rest) %}{% for i in range(end=100000) %}{% for j in range(end=100000) %}\
        {{ <Card name={i}/> }}{% endfor %}{% endfor %}{% endcomponent %}",
    ),
];

/// What takes some thousand million turns.
const ENDLESS: [(RenderingKind, &str); 8] = [
    (
        RenderingKind::Text,
        "{% for i in range(end=100000) %}{% for j in range(end=100000) %}{% endfor %}{% endfor %}",
    ),
    (
        RenderingKind::Text,
        "{% for i in range(end=100000) %}{% for j in range(end=100000) %}a{{ j }}{% endfor %}{% endfor %}",
    ),
    (
        RenderingKind::Text,
        "{% set a = range(end=100000) %}{% for i in a %}{% for j in a %}{% if i > j %}a{% endif %}{% endfor %}{% endfor %}",
    ),
    (
        RenderingKind::Text,
        "{{ [[i + j for j in range(end=100000)] for i in range(end=100000)] }}",
    ),
    (
        RenderingKind::Text,
        "{% for i in range(end=100000) %}{% for j in range(end=100000) %}{% include 'base' %}{% endfor %}{% endfor %}",
    ),
    (
        RenderingKind::Text,
        "{% set x %}{% for i in range(end=100000) %}{% for j in range(end=100000) %}a{% endfor %}{% endfor %}{% endset %}",
    ),
    (RenderingKind::Template, "endless"),
    (RenderingKind::Component, "Endless"),
];

fn render_with_budget(
    engine: &Tera,
    context: &Context,
    of: RenderingKind,
    input: &str,
    steps: usize,
) -> TeraResult<Option<String>> {
    match of {
        RenderingKind::Text => engine.render_str_within(input, context, true, steps),
        RenderingKind::Template => engine.render_within(input, context, steps),
        RenderingKind::Component => {
            engine.render_component_within(input, context, context, None, true, steps)
        }
    }
}

fn render_without_budget(
    engine: &Tera,
    context: &Context,
    of: RenderingKind,
    input: &str,
) -> TeraResult<String> {
    match of {
        RenderingKind::Text => engine.render_str(input, context, true),
        RenderingKind::Template => engine.render(input, context),
        RenderingKind::Component => engine.render_component(input, context, context, None, true),
    }
}

/// Whether the errors are of one kind, and at one place.
fn is_same_fault(error: &Error, other: &Error) -> bool {
    match (error.kind(), other.kind()) {
        (ErrorKind::RenderingError(one), ErrorKind::RenderingError(two))
        | (ErrorKind::SyntaxError(one), ErrorKind::SyntaxError(two)) => {
            one.file() == two.file()
                && one.span().start == two.span().start
                && one.span().end == two.span().end
        }
        (ErrorKind::Message(_), ErrorKind::Message(_)) => true,
        (ErrorKind::TemplateNotFound, ErrorKind::TemplateNotFound) => true,
        (ErrorKind::ComponentNotFound, ErrorKind::ComponentNotFound) => true,
        _ => false,
    }
}

fn is_same(answer: TeraResult<Option<String>>, other: TeraResult<String>) -> bool {
    match (answer, other) {
        (Ok(Some(text)), Ok(other)) => text.as_str() == other.as_str(),
        (Err(error), Err(other)) => is_same_fault(&error, &other),
        _ => false,
    }
}

fn is_none(engine: &Tera, context: &Context, of: RenderingKind, input: &str, steps: usize) -> bool {
    matches!(
        render_with_budget(engine, context, of, input, steps),
        Ok(None)
    )
}

fn is_some(engine: &Tera, context: &Context, of: RenderingKind, input: &str, steps: usize) -> bool {
    is_same(
        render_with_budget(engine, context, of, input, steps),
        render_without_budget(engine, context, of, input),
    )
}

fn is_just_enough(engine: &Tera, context: &Context, of: RenderingKind, line: &str) -> bool {
    let (steps, input) = line.split_once(' ').unwrap_or((line, ""));
    let Ok(steps) = steps.parse::<usize>() else {
        return false;
    };
    is_some(engine, context, of, input, steps)
        && is_some(engine, context, of, input, usize::MAX)
        && (steps == 0 || is_none(engine, context, of, input, steps - 1))
}

fn are_just_enough(engine: &Tera, context: &Context, of: RenderingKind, lines: &str) -> bool {
    lines
        .lines()
        .all(|line| is_just_enough(engine, context, of, line))
}

fn all_answer(engine: &Tera, context: &Context) -> bool {
    are_just_enough(engine, context, RenderingKind::Text, TEXTS)
        && are_just_enough(engine, context, RenderingKind::Template, TEMPLATES)
        && are_just_enough(engine, context, RenderingKind::Component, COMPONENTS)
}

fn all_end(engine: &Tera, context: &Context) -> bool {
    ENDLESS.iter().all(|(of, input)| {
        is_none(engine, context, *of, input, 0) && is_none(engine, context, *of, input, 10_000)
    })
}

fn with_files(alloc: Global) -> TeraResult<Tera> {
    let mut engine = Tera::new(alloc)?;
    engine.add_raw_templates(&FILES)?;
    Ok(engine)
}

/// Whether all answer what they should, and whether all end that would not.
fn hold_tables(alloc: Global) -> (bool, bool) {
    match (with_files(alloc), variables(alloc)) {
        (Ok(engine), Some(context)) => (all_answer(&engine, &context), all_end(&engine, &context)),
        _ => (false, false),
    }
}

#[test]
fn budgets(rt: HostRuntime) {
    assert!(rt; hold_tables(rt.alloc()) == (true, true));
}
