// Each component by itself.
ghost use Rattle.std.specs.Prelude.{◌≡◌, Ok, IfErr, IfOk, string_bytes, map, true};
ghost use Rattle.tera.specs.Prelude.{texts_of, registry_of, info_at, Gives, GivesOneOf, Lacks};
ghost use Rattle.tera_run_script.specs.Preview.{arguments_for, shown, Previews};

use crate::reply::push_fault;
use std::alloc::Global;
use tera::{ComponentInfo, Context, Objects, TeraOver, TeraResult};

// The names of a component's parameters.
fn parameters(alloc: Global, info: &ComponentInfo) -> TeraResult<Vec<&str>>
    ensures { Gives (λ names. texts_of names.items) result
        (Ok (map (λ formal. formal.name) info.now.formals)) }
{
    let arguments = info.args();
    let mut names = Vec::new(alloc);
    for argument in arguments {
        names.push(argument.name())?;
    }
    Ok(names)
}

// The entries that the parameters of this component name.
fn arguments<O: Objects>(
    alloc: Global,
    engine: &TeraOver<O>,
    context: &Context,
    name: &str,
) -> TeraResult<Context>
    ensures { Gives (λ c. c) result
        (Ok (arguments_for (info_at (registry_of O.engine engine.now) name.now) context.now)) }
{
    match engine.get_component_definition(name)? {
        Some(info) => {
            let names = parameters(alloc, &info)?;
            context.try_clone_with(names.as_slice())
        }
        None => Ok(Context::new(alloc)),
    }
}

// The name of a component, and then its text or its fault.
fn show<O: Objects>(
    alloc: Global,
    engine: &TeraOver<O>,
    context: &Context,
    autoescape: bool,
    name: &str,
) -> TeraResult<String>
    ensures { Gives string_bytes result
        (Ok (shown (registry_of O.engine engine.now) context.now autoescape name.now)) }
{
    let args = arguments(alloc, engine, context, name)?;
    let mut text = String::new(alloc);
    text.push_str("# ")?;
    text.push_str(name)?;
    text.push('\n')?;
    match engine.render_component(name, &args, context, None, autoescape) {
        Ok(rendered) => text.push_str(rendered.as_str())?,
        Err(error) => push_fault(&mut text, error)?,
    }
    Ok(text)
}

// What is shown of each of these components.
fn show_all<O: Objects>(
    alloc: Global,
    engine: &TeraOver<O>,
    context: &Context,
    autoescape: bool,
    names: &[String],
) -> TeraResult<Vec<String>>
    ensures ok { let told = shown (registry_of O.engine engine.now) context.now autoescape in
        IfOk result (λ t. map string_bytes t.items ≡ map (λ n. told (string_bytes n)) names.now) }
    ensures lacks { IfErr result Lacks }
{
    let mut texts = Vec::with_capacity(alloc, names.len())?;
    for name in names {
        texts.push(show(alloc, engine, context, autoescape, name.as_str())?)?;
    }
    Ok(texts)
}

/// All components, in byte order of their names, each behind a line with its name.
pub fn preview<O: Objects>(
    alloc: Global,
    engine: &TeraOver<O>,
    context: &Context,
    autoescape: bool,
) -> TeraResult<String>
    ensures { GivesOneOf string_bytes result
        (Previews (registry_of O.engine engine.now) context.now autoescape) }
{
    let names = engine.get_component_names()?;
    let texts = show_all(alloc, engine, context, autoescape, names.as_slice())?;
    Ok(texts.join(alloc, "\n")?)
}
