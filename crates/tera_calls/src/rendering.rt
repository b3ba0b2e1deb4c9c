// Calls that render.
ghost use Rattle.std.specs.Prelude.{string_bytes};
ghost use Rattle.tera.specs.Prelude.{registry_of};
ghost use Rattle.tera.specs.Rendering.{AppendsOneOf};
ghost use Rattle.tera_calls.specs.Renders.{Answered, Answers, Rendered, Renders};
ghost use Rattle.tera_errors.specs.Prelude.{GivesOneOf};

use std::alloc::Global;
use tera::{Context, Objects, Tera, TeraOver, TeraResult};

/// A call of an engine that renders, with its arguments, which are borrowed.
#[derive(Clone, Copy)]
pub enum EngineRendering<'a> {
    /// `render`.
    Template {
        name: &'a str,
        context: &'a Context,
    },
    /// `render_str`: a text beside the registry.
    Text {
        input: &'a str,
        context: &'a Context,
        autoescape: bool,
    },
    /// `render_block`.
    Block {
        name: &'a str,
        block: &'a str,
        context: &'a Context,
    },
    /// `render_component`.
    Component {
        name: &'a str,
        args: &'a Context,
        implicits: &'a Context,
        body: Option<&'a str>,
        autoescape: bool,
    },
}

/// Any call that renders.
#[derive(Clone, Copy)]
pub enum Rendering<'a> {
    /// A call of the engine.
    ByEngine {
        call: EngineRendering<'a>,
    },
    /// `one_off`: a text, by an engine to which nothing else was said.
    OneOff {
        input: &'a str,
        context: &'a Context,
        autoescape: bool,
    },
}

/// What the call answers: exactly what is meant, and where texts are escaped, no markup but from template text or a value marked
/// safe.
pub fn render_call<O: Objects>(
    alloc: Global,
    engine: &TeraOver<O>,
    rendering: &Rendering<'_>,
) -> TeraResult<String>
    ensures { GivesOneOf string_bytes result
        (Rendered (registry_of O.engine engine.now) rendering.now) }
{
    answer_of(alloc, engine, rendering)
}

/// Appends what the call answers, by the engine's call whose name ends with `_to`. After an error the vector is as before.
pub fn render_call_to<O: Objects>(
    engine: &TeraOver<O>,
    call: &EngineRendering<'_>,
    out: &mut Vec<u8>,
) -> TeraResult<()>
    ensures { AppendsOneOf result out.old.items out.new.items
        (Renders (registry_of O.engine engine.now) call.now) }
{
    append_answer(engine, call, out)
}

// What follows is the same, said as the engine's calls say it.

fn answer_of<O: Objects>(
    alloc: Global,
    engine: &TeraOver<O>,
    rendering: &Rendering<'_>,
) -> TeraResult<String>
    ensures { GivesOneOf string_bytes result
        (Answered (registry_of O.engine engine.now) rendering.now) }
{
    match rendering {
        Rendering::ByEngine { call } => answer_by_engine(engine, call),
        Rendering::OneOff {
            input,
            context,
            autoescape,
        } => Tera::one_off(alloc, input, context, *autoescape),
    }
}

fn answer_by_engine<O: Objects>(
    engine: &TeraOver<O>,
    call: &EngineRendering<'_>,
) -> TeraResult<String>
    ensures { GivesOneOf string_bytes result
        (Answers (registry_of O.engine engine.now) call.now) }
{
    match call {
        EngineRendering::Template { name, context } => engine.render(name, context),
        EngineRendering::Text {
            input,
            context,
            autoescape,
        } => engine.render_str(input, context, *autoescape),
        EngineRendering::Block {
            name,
            block,
            context,
        } => engine.render_block(name, block, context),
        EngineRendering::Component {
            name,
            args,
            implicits,
            body,
            autoescape,
        } => engine.render_component(name, args, implicits, *body, *autoescape),
    }
}

fn append_answer<O: Objects>(
    engine: &TeraOver<O>,
    call: &EngineRendering<'_>,
    out: &mut Vec<u8>,
) -> TeraResult<()>
    ensures { AppendsOneOf result out.old.items out.new.items
        (Answers (registry_of O.engine engine.now) call.now) }
{
    match call {
        EngineRendering::Template { name, context } => engine.render_to(name, context, out),
        EngineRendering::Text {
            input,
            context,
            autoescape,
        } => engine.render_str_to(input, context, *autoescape, out),
        EngineRendering::Block {
            name,
            block,
            context,
        } => engine.render_block_to(name, block, context, out),
        EngineRendering::Component {
            name,
            args,
            implicits,
            body,
            autoescape,
        } => engine.render_component_to(name, args, implicits, *body, *autoescape, out),
    }
}
