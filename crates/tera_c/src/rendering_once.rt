// A text and its data, without a handle.
ghost use Rattle.std.specs.Prelude.{◌∷◌, []};
ghost use Rattle.tera.specs.Registering.{new_registry_with};
ghost use Rattle.tera_c.specs.Options.{engine_with};
ghost use Rattle.tera_renderer.specs.Calls.{MakesOnce};
ghost use Rattle.tera_renderer.specs.Held.{fresh};
ghost use Rattle.tera_renderer.specs.Meanings.{OneOffText};
ghost use Rattle.tera_renderer.specs.Numbers.{floats_if, is_set};

use crate::options::EngineOptions;
use std::alloc::Global;
use tera_renderer::{Answer, floats_if, render_once};

/// Renders a text with an object of JSON as its context, and copies what it renders to. Where `autoescape` is not 0, it escapes.
/// Where the room is too small, the size that is wanted is told.
#[unsafe(no_mangle)]
pub extern "C" fn tera_render_once(
    alloc: Global,
    options: &EngineOptions,
    text: &[u8],
    json: &[u8],
    autoescape: u32,
    room: &mut [u8],
) -> Answer
    ensures { MakesOnce (text.now ∷ json.now ∷ [])
        (OneOffText text.now json.now (is_set autoescape)
        (fresh (new_registry_with (engine_with options.now)) (floats_if options.now.takes_floats)))
        room.old room.new result }
{
    match options.objects(alloc) {
        Ok(objects) => render_once(
            alloc,
            objects,
            text,
            json,
            floats_if(options.takes_floats),
            autoescape != 0,
            room,
        ),
        Err(_) => Answer { status: 2, size: 0 },
    }
}
