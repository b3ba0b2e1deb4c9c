// Each component by itself.
ghost use Rattle.std.specs.Prelude.{◌≡◌, IfErr, IfOk, Ok, map, string_bytes};
ghost use Rattle.tera.specs.Prelude.{Gives, Lacks, registry_of, texts_of, info_at};
ghost use Rattle.tera_job.specs.Previews.{arguments_for, ArePreviews, IsPreview, PreviewsOf};

use std::alloc::Global;
use tera::{ComponentInfo, Context, ErrorKind, Objects, TeraOver, TeraResult};

/// A component, and what it is by itself.
#[derive(Drop)]
pub struct Preview {
    pub name: String,
    /// Its text, or why it has none.
    pub answer: TeraResult<String>,
}

/// Each component by itself, in byte order of names: of the context, entries that its parameters name are its arguments, and all are
/// implicits. It has no body.
pub fn previews<O: Objects>(
    alloc: Global,
    engine: &TeraOver<O>,
    context: &Context,
    autoescape: bool,
) -> TeraResult<Vec<Preview>>
    ensures ok { IfOk result (λ ps.
        ArePreviews (registry_of O.engine engine.now) context.now autoescape ps.items) }
    ensures lacks { IfErr result Lacks }
{
    let names = engine.get_component_names()?;
    previews_of(alloc, engine, context, names.as_slice(), autoescape)
}

fn previews_of<O: Objects>(
    alloc: Global,
    engine: &TeraOver<O>,
    context: &Context,
    names: &[String],
    autoescape: bool,
) -> TeraResult<Vec<Preview>>
    ensures ok { IfOk result (λ ps. PreviewsOf (registry_of O.engine engine.now) context.now
        autoescape (map string_bytes names.now) ps.items) }
    ensures lacks { IfErr result Lacks }
{
    let mut all = Vec::with_capacity(alloc, names.len())?;
    for name in names {
        all.push(make_preview(alloc, engine, context, name.as_str(), autoescape)?)?;
    }
    Ok(all)
}

fn make_preview<O: Objects>(
    alloc: Global,
    engine: &TeraOver<O>,
    context: &Context,
    name: &str,
    autoescape: bool,
) -> TeraResult<Preview>
    ensures ok { IfOk result (λ p. (string_bytes p.name ≡ name.now)
        × IsPreview (registry_of O.engine engine.now) context.now autoescape p) }
    ensures lacks { IfErr result Lacks }
{
    let args = arguments(alloc, engine, context, name)?;
    let answer = engine.render_component(name, &args, context, None, autoescape);
    let name = String::from_str(alloc, name)?;
    match answer {
        Ok(text) => Ok(Preview {
            name,
            answer: Ok(text),
        }),
        Err(error) => match error.kind() {
            ErrorKind::OutOfMemory => Err(error),
            _ => Ok(Preview {
                name,
                answer: Err(error),
            }),
        },
    }
}

// The entries that the parameters of this component name.
fn arguments<O: Objects>(
    alloc: Global,
    engine: &TeraOver<O>,
    context: &Context,
    name: &str,
) -> TeraResult<Context>
    ensures { Gives (λ c. c) result
        (Ok (arguments_for (info_at (registry_of O.engine engine.now) name.now) context.now)) }
{
    match engine.get_component_definition(name)? {
        Some(info) => {
            let names = parameters(alloc, &info)?;
            context.try_clone_with(names.as_slice())
        }
        None => Ok(Context::new(alloc)),
    }
}

fn parameters(alloc: Global, info: &ComponentInfo) -> TeraResult<Vec<&str>>
    ensures { Gives (λ names. texts_of names.items) result
        (Ok (map (λ formal. formal.name) info.now.formals)) }
{
    let mut names = Vec::new(alloc);
    for argument in info.args() {
        names.push(argument.name())?;
    }
    Ok(names)
}
