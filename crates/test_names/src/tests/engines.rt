// An engine, and each of its calls.
use super::{is_text, is_true};
use crate::own::{AlwaysPasses, Bold, RefusesMemory};
use std::alloc::Global;
use tera::{Context, Delimiters, Tera, TeraResult, Value};

/// An engine with a page, which has a block, and a component.
fn engine(alloc: Global) -> TeraResult<Tera> {
    let mut engine = Tera::new(alloc)?;
    engine.set_delimiters(Delimiters::standard(alloc)?)?;
    engine.set_fallback_prefixes(&["own/"])?;
    engine.autoescape_on(&[".html"])?;
    engine.register_filter("bold", Box::new(alloc, Bold)?)?;
    engine.register_function("hello", Box::new(alloc, Bold)?)?;
    engine.register_test("held", Box::new(alloc, AlwaysPasses)?)?;
    engine.add_raw_template("own/page", "{% block b %}{{ n | bold }}{% endblock %}")?;
    engine.add_raw_templates(&[("parts", "{% component C(n) %}[{{ n }}]{% endcomponent %}")])?;
    engine
        .global_context()
        .insert("n", Value::string(alloc, "n")?)?;
    Ok(engine)
}

/// What the engine tells of its templates and components.
fn tells_of_templates(engine: &Tera) -> TeraResult<bool> {
    let Some(info) = engine.get_component_definition("C")? else {
        return Ok(false);
    };
    Ok(
        engine.contains_template("page")
            && engine.contains_component("C")
            && engine.get_template_names()?.len() == 2
            && engine.get_component_names()?.len() == 1
            && info.name() == "C"
            && info.args().len() == 1
            && engine.get_template_variables("page")?.contains("n"),
    )
}

/// Whether each call that renders answers its text.
fn are_rendered(alloc: Global, engine: &Tera) -> TeraResult<bool> {
    let none = Context::new(alloc);
    let mut given = Context::new(alloc);
    given.insert("n", Value::string(alloc, "<")?)?;
    Ok(
        is_text(engine.render("page", &none), "<b>")
            && is_text(engine.render_block("page", "b", &none), "<b>")
            && is_text(engine.render_str("{{ n }}", &given, true), "&lt;")
            && is_text(
                engine.render_component("C", &given, &none, None, false),
                "[<]",
            ),
    )
}

fn is_rendered_once(alloc: Global) -> bool {
    is_text(
        Tera::one_off(alloc, "{{ 1 }}", &Context::new(alloc), false),
        "1",
    )
}

/// Whether each of those that append does so.
fn are_appended(alloc: Global, engine: &Tera) -> TeraResult<bool> {
    let none = Context::new(alloc);
    let mut given = Context::new(alloc);
    given.insert("n", Value::from_int(1))?;
    let mut out = Vec::new(alloc);
    engine.render_to("page", &none, &mut out)?;
    engine.render_block_to("page", "b", &none, &mut out)?;
    engine.render_str_to("-", &none, true, &mut out)?;
    engine.render_component_to("C", &given, &none, None, true, &mut out)?;
    Ok(out.as_slice() == b"<b><b>-[1]".as_slice())
}

fn is_whole(alloc: Global) -> TeraResult<bool> {
    let mut engine = engine(alloc)?;
    let is_right = tells_of_templates(&engine)?
        && are_rendered(alloc, &engine)?
        && are_appended(alloc, &engine)?;
    engine.register_from(Tera::new(alloc)?)?;
    engine.set_escape_fn(Box::new(alloc, RefusesMemory)?);
    engine.reset_escape_fn();
    Ok(is_right && are_appended(alloc, &engine)?)
}

#[test]
fn an_engine_is_called(rt: HostRuntime) {
    assert!(rt; is_true(is_whole(rt.alloc())) && is_rendered_once(rt.alloc()));
}
