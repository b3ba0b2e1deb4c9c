//! The names that templates want to be given.
use std::alloc::Global;
use tera::{ErrorKind, Tera};

/// Texts, each with the names that it wants.
const TEXTS: &str = r#"{{ a }}{{ b }}{{ a }} => a b
{{ b.c[d] }}{{ e[f:g:h] }} => b d e f g h
{{ a?.b }}{{ c?[d] }} => a c d
{{ not a and b or -c + d ~ e }}{{ f in g }} => a b c d e f g
{{ a if b else c }} => a b c
{{ [a, ...b] }}{{ {'k': c, ...d} }} => a b c d
{{ a | default(value=b) }}{{ c is defined }}{{ range(end=d) }} => a b c d
{{ a }}{% set a = 1 %} => a
{% set a = 1 %}{{ a }} =>
{% set a = a %}{{ a }} => a
{% set_global a = b %}{{ a }} => b
{% if a %}{% set b = 1 %}{% else %}{{ b }}{% endif %}{{ b }} => a
{% if a %}{{ b }}{% else %}{% set b = 1 %}{% endif %}{{ b }} => a b
{% for x in items %}{{ x }}{% endfor %}{{ x }} => items x
{% for k, v in m %}{{ k }}{{ v }}{{ w }}{% endfor %} => m w
{% for x in x %}{{ x }}{% endfor %} => x
{% for x in xs %}{% else %}{{ x }}{% endfor %} => x xs
{% for x in xs %}{{ loop.index }}{{ __tera_context }}{% endfor %} => xs
{% for x in [1] %}{% set a = 1 %}{{ a }}{% endfor %}{{ a }} => a
{% for x in [1] %}{{ a }}{% set a = 1 %}{% endfor %} => a
{% for x in [1] %}{% set_global a = 1 %}{% endfor %}{{ a }} =>
{% for x in [1] %}{% set_global a = 1 %}{% else %}{{ a }}{% endfor %} =>
{% for x in [1] %}{% set a = 1 %}{% else %}{{ a }}{% endfor %} => a
{% for x in [1] %}{% else %}{% set a = 1 %}{% endfor %}{{ a }} =>
{% for x in [1] %}{% for y in [1] %}{% set a = 1 %}{% endfor %}{{ a }}{% endfor %} => a
{% for x in [1] %}{% for y in [1] %}{% else %}{% set a = 1 %}{% endfor %}{{ a }}{% endfor %}{{ a }} => a
{% for x in [1] %}{% for y in [1] %}{% set_global a = 1 %}{% endfor %}{{ a }}{% endfor %}{{ a }} =>
{% for x in [1] %}{{ y }}{% for y in [x] %}{{ x }}{{ y }}{% endfor %}{% endfor %} => y
{{ [x + y for x in xs if x > z] }}{{ x }} => x xs y z
{{ [k for k, v in k if v] }} => k
{{ [[x for y in x] for x in xs] }} => xs
{% set a %}{{ a }}{% set b = 1 %}{% endset %}{{ a }}{{ b }} => a
{% set a | default(value=b) %}{% set b = 1 %}{% endset %}{{ a }}{{ b }} => b
{% for x in [1] %}{% set_global a %}{% set b = 1 %}{% endset %}{% endfor %}{{ a }}{{ b }} => b
{% filter default(value=a) %}{% set a = 1 %}{{ b }}{% endfilter %}{{ a }} => a b
{% block c %}{{ a }}{% set b = 1 %}{% endblock %}{{ b }} => a
{% component R(a, b) %}{{ body }}{% endcomponent %}{% <R a={b} {...c}> %}{{ d }}{% set b = 1 %}{{ b }}{% </R> %}{{ b }} => b c d
{% component R(a) %}{{ a }}{{ b }}{% set c = 1 %}{% endcomponent %}{{ c }}{{ <R a={d}/> }} => c d
text =>
"#;

/// A parent, what its child includes, and the child.
const FAMILY: [(&str, &str); 3] = [
    ("parent", "{{ title }}{% block b %}{% endblock %}"),
    ("inc", "{{ deep }}"),
    (
        "child",
        "{% extends \"parent\" %}{% block b %}{% for x in items %}{{ x }}{% endfor %}{% set y = z %}{{ y }}{% include \"inc\" %}{% endblock %}",
    ),
];

/// A circle of includes over parents, and what stands behind prefixes.
const AROUND: [(&str, &str); 5] = [
    (
        "base",
        "{{ a }}{% block c %}{% include \"kid\" %}{% endblock %}",
    ),
    (
        "kid",
        "{% extends \"base\" %}{{ b }}{% block c %}{{ super() }}{{ d }}{% endblock %}",
    ),
    (
        "one/far",
        "{{ e }}{% include \"near\" %}{% include \"near\" %}",
    ),
    ("near", "{% set g = 1 %}{{ f }}{{ g }}"),
    (
        "user",
        "{% component R() %}{{ h }}{% include \"far\" %}{% endcomponent %}{{ g }}",
    ),
];

/// Whether these are the names of a template, in order.
fn lists_variables(engine: &Tera, name: &str, want: &str) -> bool {
    let Ok(names) = engine.get_template_variables(name) else {
        return false;
    };
    let mut wanted = want.split(' ').filter(|name| !name.is_empty());
    for name in &names {
        if wanted.next() != Some(name.as_str()) {
            return false;
        }
    }
    wanted.next().is_none()
}

/// Whether the text of a line wants what the line says.
fn agrees(alloc: Global, line: &str) -> bool {
    let (Some((text, want)), Ok(mut engine)) = (line.split_once(" =>"), Tera::new(alloc)) else {
        return false;
    };
    engine.add_raw_template("t", text).is_ok() && lists_variables(&engine, "t", want)
}

fn families(alloc: Global) -> bool {
    let Ok(mut engine) = Tera::new(alloc) else {
        return false;
    };
    engine.add_raw_templates(&FAMILY).is_ok()
        && lists_variables(&engine, "child", "deep items title z")
        && lists_variables(&engine, "parent", "title")
        && lists_variables(&engine, "inc", "deep")
}

fn circles(alloc: Global) -> bool {
    let Ok(mut engine) = Tera::new(alloc) else {
        return false;
    };
    engine.set_fallback_prefixes(&["one/"]).is_ok()
        && engine.add_raw_templates(&AROUND).is_ok()
        && lists_variables(&engine, "base", "a b d")
        && lists_variables(&engine, "kid", "a b d")
        && lists_variables(&engine, "far", "e f")
        && lists_variables(&engine, "user", "e f g")
}

fn none_is_there(alloc: Global) -> bool {
    match Tera::new(alloc) {
        Ok(engine) => match engine.get_template_variables("no") {
            Ok(_) => false,
            Err(error) => match error.kind() {
                ErrorKind::TemplateNotFound => true,
                _ => false,
            },
        },
        Err(_) => false,
    }
}

#[test]
fn texts_want_names(rt: HostRuntime) {
    let alloc = rt.alloc();
    let line = TEXTS.lines().position(|line| !agrees(alloc, line));
    assert!(rt; line.is_none(), "at line {line:?}");
}

#[test]
fn families_want_names(rt: HostRuntime) {
    assert!(rt; families(rt.alloc()));
}

#[test]
fn circles_want_names(rt: HostRuntime) {
    assert!(rt; circles(rt.alloc()));
}

#[test]
fn no_template_wants_none(rt: HostRuntime) {
    assert!(rt; none_is_there(rt.alloc()));
}
