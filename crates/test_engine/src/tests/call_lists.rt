//! Lists of calls, each with a rendering behind it.
use super::other_delimiters::delimiters;
use crate::own::{Holding, word_object};
use std::alloc::Global;
use tera::{Context, Tera, TeraResult, Value};
use tera_calls::{
    Call, CallOver, CallsOutcome, EngineRendering, Rendering, render_after, render_to_after,
};

fn with_prefixes<'a>(prefixes: &'a [&'a str]) -> Call<'a> {
    CallOver::SetFallbackPrefixes { prefixes }
}

fn with_suffixes<'a>(suffixes: &'a [&'a str]) -> Call<'a> {
    CallOver::AutoescapeOn { suffixes }
}

fn with_global<'a>(name: &'a str, value: Value) -> Call<'a> {
    CallOver::InsertGlobal { name, value }
}

fn with_template<'a>(name: &'a str, content: &'a str) -> Call<'a> {
    CallOver::AddRawTemplate { name, content }
}

fn with_batch<'a>(templates: &'a [(&'a str, &'a str)]) -> Call<'a> {
    CallOver::AddRawTemplates { templates }
}

fn with_filter<'a>(alloc: Global, name: &'a str, word: &'static str) -> TeraResult<Call<'a>> {
    let filter = Box::new(alloc, word_object(alloc, word, false))?;
    Ok(CallOver::RegisterFilter { name, filter })
}

fn with_function<'a>(alloc: Global, name: &'a str, word: &'static str) -> TeraResult<Call<'a>> {
    let function = Box::new(alloc, word_object(alloc, word, false))?;
    Ok(CallOver::RegisterFunction { name, function })
}

fn with_test<'a>(alloc: Global, name: &'a str) -> TeraResult<Call<'a>> {
    let test = Box::new(alloc, Holding)?;
    Ok(CallOver::RegisterTest { name, test })
}

// Registers what another engine has: a filter `said`, which is there already, and one more.
fn with_those_of_another<'a>(alloc: Global) -> TeraResult<Call<'a>> {
    let mut other = Tera::new(alloc)?;
    other.register_filter("said", Box::new(alloc, word_object(alloc, "other", false))?)?;
    other.register_filter("more", Box::new(alloc, word_object(alloc, "more", false))?)?;
    Ok(CallOver::RegisterFrom { other })
}

fn with_another_global(alloc: Global, name: &str, value: Value) -> TeraResult<Call<'static>> {
    let mut context = Context::new(alloc);
    context.insert(name, value)?;
    Ok(CallOver::SetGlobal { context })
}

fn of_template<'a>(name: &'a str, context: &'a Context) -> EngineRendering<'a> {
    EngineRendering::Template { name, context }
}

fn of_block<'a>(name: &'a str, block: &'a str, context: &'a Context) -> EngineRendering<'a> {
    EngineRendering::Block {
        name,
        block,
        context,
    }
}

fn of_text<'a>(input: &'a str, context: &'a Context) -> EngineRendering<'a> {
    EngineRendering::Text {
        input,
        context,
        autoescape: false,
    }
}

fn of_component<'a>(
    name: &'a str,
    args: &'a Context,
    implicits: &'a Context,
) -> EngineRendering<'a> {
    EngineRendering::Component {
        name,
        args,
        implicits,
        body: None,
        autoescape: true,
    }
}

// Whether the rendering gave this text behind thirteen calls, of which the three that must be are refused.
fn gives_text(outcome: &CallsOutcome, want: &str) -> bool {
    let refused = outcome.answers.iter().filter(|a| a.is_err()).count();
    match &outcome.text {
        Ok(text) => outcome.answers.len() == 13 && refused == 3 && text.as_str() == want,
        Err(_) => false,
    }
}

// Calls that configure and add. Of templates one is refused since its `if` has no condition, and one since it calls a filter that
// comes later.
fn add_templates(calls: &mut Vec<Call<'_>>) -> TeraResult<()> {
    calls.push(with_prefixes(&["site/"]))?;
    calls.push(with_suffixes(&[".page"]))?;
    calls.push(with_template("site/a.page", "<a>[% block b %][[ name ]][% endblock %]"))?;
    calls.push(with_template("wrong", "[% if %]"))?;
    calls.push(with_template("early", "[[ name | said ]]"))?;
    calls.push(with_batch(&[("c", "[% component c(x) %]([[ x ]])[% endcomponent c %]")]))?;
    calls.push(with_prefixes(&[]))?;
    Ok(())
}

// Calls that register objects.
fn add_objects(alloc: Global, calls: &mut Vec<Call<'_>>) -> TeraResult<()> {
    calls.push(with_filter(alloc, "said", "f<")?)?;
    calls.push(with_function(alloc, "said", "g<")?)?;
    calls.push(with_test(alloc, "held")?)?;
    calls.push(with_those_of_another(alloc)?)?;
    Ok(())
}

fn of_one_off<'a>(input: &'a str, context: &'a Context) -> Rendering<'a> {
    Rendering::OneOff {
        input,
        context,
        autoescape: false,
    }
}

// The thirteen calls.
fn all_calls<'a>(alloc: Global) -> TeraResult<Vec<Call<'a>>> {
    let mut calls = Vec::new(alloc);
    calls.push(CallOver::SetDelimiters {
        delimiters: delimiters(alloc, ("[%", "%]"), ("[[", "]]"), ("[#", "#]"))?,
    })?;
    calls.push(with_global("name", Value::string(alloc, "<")?))?;
    add_templates(&mut calls)?;
    add_objects(alloc, &mut calls)?;
    Ok(calls)
}

// Whether the rendering gave this text, and was appended, behind the thirteen calls.
fn is_rendered(alloc: Global, call: EngineRendering<'_>, want: &str) -> TeraResult<bool> {
    let mut engine = Tera::new(alloc)?;
    let rendering = Rendering::ByEngine { call };
    let outcome = render_after(alloc, &mut engine, all_calls(alloc)?, &rendering)?;
    let mut out = Vec::new(alloc);
    out.extend_from_slice(b"> ")?;
    let more = render_to_after(alloc, &mut engine, Vec::new(alloc), &call, &mut out)?;
    let behind = format!(in alloc; "> {want}")?;
    let is_appended = more.appended.is_ok() && out.as_slice() == behind.as_bytes();
    Ok(gives_text(&outcome, want) && is_appended)
}

// A one-off text reads nothing of the engine; the global context that was put in the place of another one is read.
fn contexts_are_read(alloc: Global) -> TeraResult<bool> {
    let none = Context::new(alloc);
    let mut engine = Tera::new(alloc)?;
    let one_off = of_one_off("{{ 1 }}", &none);
    let outcome = render_after(alloc, &mut engine, all_calls(alloc)?, &one_off)?;
    let mut calls = Vec::new(alloc);
    calls.push(with_another_global(alloc, "other", Value::string(alloc, "o")?)?)?;
    let call = of_text("[[ other ]][[ name is defined ]]", &none);
    let rendering = Rendering::ByEngine { call };
    let again = render_after(alloc, &mut engine, calls, &rendering)?;
    Ok(gives_text(&outcome, "1") && matches!(&again.text, Ok(text) if text.as_str() == "ofalse"))
}

fn templates_are_rendered(alloc: Global) -> TeraResult<bool> {
    let none = Context::new(alloc);
    let mut args = Context::new(alloc);
    args.insert("x", Value::string(alloc, ">")?)?;
    Ok(
        is_rendered(alloc, of_template("a.page", &none), "<a>&lt;")?
            && is_rendered(alloc, of_block("a.page", "b", &none), "&lt;")?
            && is_rendered(alloc, of_text("[[ name ]]", &none), "<")?
            && is_rendered(alloc, of_component("c", &args, &none), "(&gt;)")?,
    )
}

fn objects_are_called(alloc: Global) -> TeraResult<bool> {
    let none = Context::new(alloc);
    Ok(
        is_rendered(alloc, of_text("[[ 1 | said ]][[ said() ]]", &none), "f<g<")?
            && is_rendered(alloc, of_text("[[ 1 is held ]]", &none), "true")?
            && is_rendered(alloc, of_text("[[ 1 | more ]]", &none), "more")?,
    )
}

#[test]
fn lists_of_calls(rt: HostRuntime) {
    let is_right = matches!(templates_are_rendered(rt.alloc()), Ok(true));
    assert!(rt; is_right);
}

#[test]
fn lists_of_calls_with_other_contexts(rt: HostRuntime) {
    let is_right = matches!(contexts_are_read(rt.alloc()), Ok(true));
    assert!(rt; is_right);
}

#[test]
fn lists_of_calls_with_objects(rt: HostRuntime) {
    let is_right = matches!(objects_are_called(rt.alloc()), Ok(true));
    assert!(rt; is_right);
}
