// Renderings by a handle.
ghost use Rattle.std.specs.Prelude.{◌≡◌, option_map};
ghost use Rattle.tera_c.specs.Held.{ByHandle};
ghost use Rattle.tera_c.specs.Options.{given_if};
ghost use Rattle.tera_renderer.specs.Numbers.{is_set};
ghost use Rattle.tera_renderer.specs.Meanings.{RendersBlock, RendersComponent, RendersTemplate, RendersText};

use crate::handle::Handle;
use crate::pack_renderer::PackOnly;
use std::alloc::Global;
use tera::Objects;
use tera_renderer::rendering::ComponentBytes;
use tera_renderer::{Answer, NO_RENDERER};

/// Renders a template with an object of JSON as its context.
#[unsafe(no_mangle)]
pub extern "C" fn tera_render(
    alloc: Global,
    engine: &mut Handle,
    name: &[u8],
    json: &[u8],
) -> Answer
    ensures { ByHandle ⟦<PackOnly as Objects>⟧.engine (RendersTemplate name.now json.now)
        engine.old.value engine.new.value result }
{
    match engine.open(alloc) {
        Some(mut mine) => {
            let answer = mine.renderer.render(name, json);
            engine.shut(mine);
            answer
        }
        None => NO_RENDERER,
    }
}

/// Renders a template, and makes the text of one of its blocks.
#[unsafe(no_mangle)]
pub extern "C" fn tera_render_block(
    alloc: Global,
    engine: &mut Handle,
    name: &[u8],
    block: &[u8],
    json: &[u8],
) -> Answer
    ensures { ByHandle ⟦<PackOnly as Objects>⟧.engine (RendersBlock name.now block.now json.now)
        engine.old.value engine.new.value result }
{
    match engine.open(alloc) {
        Some(mut mine) => {
            let answer = mine.renderer.render_block(name, block, json);
            engine.shut(mine);
            answer
        }
        None => NO_RENDERER,
    }
}

/// Renders a text that is no template. Where `autoescape` is not 0, it escapes.
#[unsafe(no_mangle)]
pub extern "C" fn tera_render_text(
    alloc: Global,
    engine: &mut Handle,
    text: &[u8],
    json: &[u8],
    autoescape: u32,
) -> Answer
    ensures { ByHandle ⟦<PackOnly as Objects>⟧.engine
        (RendersText text.now json.now (is_set autoescape)) engine.old.value engine.new.value result }
{
    match engine.open(alloc) {
        Some(mut mine) => {
            let answer = mine.renderer.render_text(text, json, autoescape != 0);
            engine.shut(mine);
            answer
        }
        None => NO_RENDERER,
    }
}

/// Renders a component with two objects of JSON: arguments, and what implicit parameters are looked up in. Where `has_body` is
/// not 0, the body is put out as it is; where `autoescape` is not 0, the component escapes.
#[unsafe(no_mangle)]
pub extern "C" fn tera_render_component(
    alloc: Global,
    engine: &mut Handle,
    name: &[u8],
    arguments: &[u8],
    implicits: &[u8],
    body: &[u8],
    has_body: u32,
    autoescape: u32,
) -> Answer
    ensures { ByHandle ⟦<PackOnly as Objects>⟧.engine (RendersComponent name.now arguments.now
        implicits.now (given_if has_body body.now) (is_set autoescape))
        engine.old.value engine.new.value result }
{
    match engine.open(alloc) {
        Some(mut mine) => {
            let component = ComponentBytes {
                name,
                arguments,
                implicits,
                body: body_of(has_body, body),
                autoescape: autoescape != 0,
            };
            let answer = mine.renderer.render_component(component);
            engine.shut(mine);
            answer
        }
        None => NO_RENDERER,
    }
}

/// The body, if there is one.
fn body_of(has_body: u32, body: &[u8]) -> Option<&[u8]>
    ensures { option_map (λ b. b.now) result ≡ given_if has_body body.now }
{
    if has_body == 0 { None } else { Some(body) }
}
