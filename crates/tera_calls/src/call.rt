// Calls that configure an engine and add to it, one after another.
ghost use Rattle.std.specs.Prelude.{◌≡◌, Ok, IfOk, IfErr, OnErr};
ghost use Rattle.tera.specs.Prelude.{Configures, registry_of};
ghost use Rattle.tera_calls.specs.Calls.{Ends, Leads, with_context, with_global};
ghost use Rattle.tera_errors.specs.Prelude.{Lacks};
ghost use Rattle.tera_meaning.specs.Prelude.{IsAccepted};

use crate::object_types::ObjectTypes;
use std::alloc::Global;
use tera::{
    CallerObjects, Context, Delimiters, EscapeFn, Filter, Function, Objects, Tera, TeraOver,
    TeraResult, Test, Value,
};
use tera_state::ObjectsOver;

/// A call that configures an engine or adds to it, with its arguments, over any types of the caller's objects.
#[derive(Drop)]
pub enum CallOver<'a, E, F, T, G> {
    /// `set_delimiters`.
    SetDelimiters {
        delimiters: Delimiters,
    },
    /// `set_fallback_prefixes`.
    SetFallbackPrefixes {
        prefixes: &'a [&'a str],
    },
    /// `autoescape_on`.
    AutoescapeOn {
        suffixes: &'a [&'a str],
    },
    /// Puts the value into the global context, under this name.
    InsertGlobal {
        name: &'a str,
        value: Value,
    },
    /// Puts this context in the place of the global one, so that any write through `global_context` is such a call.
    SetGlobal {
        context: Context,
    },
    /// `add_raw_template`.
    AddRawTemplate {
        name: &'a str,
        content: &'a str,
    },
    /// `add_raw_templates`.
    AddRawTemplates {
        templates: &'a [(&'a str, &'a str)],
    },
    /// `set_escape_fn`.
    SetEscapeFn {
        escape: E,
    },
    /// `reset_escape_fn`.
    ResetEscapeFn,
    /// `register_filter`.
    RegisterFilter {
        name: &'a str,
        filter: F,
    },
    /// `register_test`.
    RegisterTest {
        name: &'a str,
        test: T,
    },
    /// `register_function`.
    RegisterFunction {
        name: &'a str,
        function: G,
    },
    /// `register_from`.
    RegisterFrom {
        other: TeraOver<ObjectsOver<E, F, T, G>>,
    },
}

/// A call with the objects that a caller boxes.
pub type Call<'a> = CallOver<
    'a,
    Box<dyn EscapeFn>,
    Box<dyn Filter>,
    Box<dyn Test>,
    Box<dyn Function>,
>;

/// Makes the call. Refused, it leaves the engine's registry as it was, but for objects that `register_from` moved before memory ran
/// out.
pub fn make_call(engine: &mut Tera, call: Call<'_>) -> TeraResult<()>
    ensures { let seen = registry_of ⟦<CallerObjects as Objects>⟧.engine in
        Ends ⟦<CallerObjects as ObjectTypes>⟧.meanings call.entry result
        (seen engine.old) (seen engine.new) }
{
    match call {
        CallOver::SetDelimiters { delimiters } => engine.set_delimiters(delimiters),
        CallOver::SetFallbackPrefixes { prefixes } => engine.set_fallback_prefixes(prefixes),
        CallOver::AutoescapeOn { suffixes } => engine.autoescape_on(suffixes),
        CallOver::InsertGlobal { name, value } => insert_global(engine, name, value),
        CallOver::SetGlobal { context } => {
            set_global(engine, context);
            Ok(())
        }
        CallOver::AddRawTemplate { name, content } => engine.add_raw_template(name, content),
        CallOver::AddRawTemplates { templates } => engine.add_raw_templates(templates),
        CallOver::SetEscapeFn { escape } => {
            engine.set_escape_fn(escape);
            Ok(())
        }
        CallOver::ResetEscapeFn => {
            engine.reset_escape_fn();
            Ok(())
        }
        CallOver::RegisterFilter { name, filter } => engine.register_filter(name, filter),
        CallOver::RegisterTest { name, test } => engine.register_test(name, test),
        CallOver::RegisterFunction { name, function } => engine.register_function(name, function),
        CallOver::RegisterFrom { other } => engine.register_from(other),
    }
}

/// Makes the calls one after another, and goes on after one that was refused. There is one answer a call. An accepted registry they
/// leave accepted. An error says that the answers found no room: then no call was made.
pub fn make_calls(
    alloc: Global,
    engine: &mut Tera,
    calls: Vec<Call<'_>>,
) -> TeraResult<Vec<TeraResult<()>>>
    ensures answers { let seen = registry_of ⟦<CallerObjects as Objects>⟧.engine in
        IfOk result (λ answers. Leads ⟦<CallerObjects as ObjectTypes>⟧.meanings
        (seen engine.old) calls.entry.items answers.items (seen engine.new)) }
    ensures accepted { let seen = registry_of ⟦<CallerObjects as Objects>⟧.engine in
        IsAccepted (seen engine.old) → IsAccepted (seen engine.new) }
    ensures memory { IfErr result Lacks }
    ensures unchanged { let seen = registry_of ⟦<CallerObjects as Objects>⟧.engine in
        OnErr result (seen engine.new ≡ seen engine.old) }
{
    let mut answers = Vec::with_capacity(alloc, calls.len())?;
    for call in calls {
        let answer = make_call(engine, call);
        answers.push_reserved(answer);
    }
    Ok(answers)
}

fn insert_global<O: Objects>(engine: &mut TeraOver<O>, name: &str, value: Value) -> TeraResult<()>
    ensures { Configures result
        (Ok (with_global name.now value (registry_of O.engine engine.old)))
        (registry_of O.engine engine.old) (registry_of O.engine engine.new) }
{
    engine.global_context().insert(name, value)
}

fn set_global<O: Objects>(engine: &mut TeraOver<O>, context: Context)
    ensures { registry_of O.engine engine.new
        ≡ with_context context (registry_of O.engine engine.old) }
{
    *engine.global_context() = context;
}
