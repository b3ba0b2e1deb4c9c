//! What an object sees where it is called: the scope of that position.
use super::cases::wrong_line_number;
use super::templates::shows;
use crate::own::Shows;
use std::alloc::Global;
use tera::{Context, Tera, TeraResult, Value};

/// What is rendered where `x` is `c` in the context.
const CASES: &str = r#"
{{ show() }} => c
{% set x = 1 %}{{ show() }} => 1
{% for x in [1, 2] %}{{ show() }}{% endfor %}{{ show() }} => 12c
{% for x in [1] %}{% include 'part' %}{% endfor %} => [1]
{% include 'setting' %}{{ show() }} => [2]c
{% set x = 1 %}{{ 0 | show }}{{ 0 is shown }} => 1true
{{ <Filtered x={2}/> }}{{ <Without/> }} => (2true)(-false)
{% set x = 1 %}{{ <Box x={2}/> }}{{ <Empty/> }} => (2)(-)
{% set x = 1 %}{{ [show() for x in [7]] }}{{ show() }} => [7]1
{% set x %}{{ show() }}!{% endset %}{{ show() }} => c!
{{ x ~ show() }}{% if show() == 'c' %}=c{% endif %} => cc=c
"#;

const TEMPLATES: &[(&str, &str)] = &[
    ("part", "[{{ show() }}]"),
    ("setting", "{% set x = 2 %}[{{ show() }}]"),
    (
        "filtered",
        "{% component Filtered(x) %}({{ 0 | show }}{{ 0 is shown }}){% endcomponent %}",
    ),
    (
        "without",
        "{% component Without() %}({{ 0 | show }}{{ 0 is shown }}){% endcomponent %}",
    ),
    ("sets", "{% block b %}{% set x = 5 %}{% endblock %}"),
    (
        "arguments",
        "{% extends 'sets' %}{% block b %}{{ show(a=super()) }}{% endblock %}",
    ),
    (
        "boxes",
        "{% component Box(x) %}({{ show() }}){% endcomponent %}",
    ),
    (
        "empty",
        "{% component Empty() %}({{ show() }}){% endcomponent %}",
    ),
    ("base", "{% block b %}{{ show() }}{% endblock %}"),
    (
        "child",
        "{% extends 'base' %}{% block b %}{% for x in [1, 2] %}{{ super() }}{% endfor %}{% endblock %}",
    ),
];

// What an argument sets is there when the call sees its scope.
fn sees(alloc: Global) -> TeraResult<bool> {
    let mut context = Context::new(alloc);
    context.insert("x", Value::string(alloc, "c")?)?;
    let mut engine = Tera::new(alloc)?;
    let is_refused = engine.add_raw_templates(TEMPLATES).is_err();
    engine.register_function("show", Box::new(alloc, Shows { alloc })?)?;
    engine.register_filter("show", Box::new(alloc, Shows { alloc })?)?;
    engine.register_test("shown", Box::new(alloc, Shows { alloc })?)?;
    engine.add_raw_templates(TEMPLATES)?;
    let are_rows = wrong_line_number(&engine, &context, true, CASES).is_none();
    Ok(
        is_refused
            && are_rows
            && shows(&engine, &context, "child", "12")
            && shows(&engine, &context, "arguments", "5"),
    )
}

#[test]
fn objects_see_the_scope_of_their_call(rt: HostRuntime) {
    let is_right = matches!(sees(rt.alloc()), Ok(true));
    assert!(rt; is_right);
}
