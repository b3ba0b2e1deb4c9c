// A text and its data, without an engine that is kept.
ghost use Rattle.std.specs.Prelude.{◌∷◌, [], string_bytes};
ghost use Rattle.tera.specs.Registering.{new_registry_with};
ghost use Rattle.tera_renderer.specs.Calls.{MakesOnce, Reads};
ghost use Rattle.tera_renderer.specs.Held.{fresh};
ghost use Rattle.tera_renderer.specs.Meanings.{OneOffText};

use crate::answer::{Answer, answer_of, copy_text};
use std::alloc::Global;
use tera::{Objects, TeraOver, TeraResult};
use tera_data::{Floats, json_context, text_of};

/// Renders a text with an object of JSON as its context, by an engine with these objects, and copies what it renders to.
pub fn render_once<O: Objects>(
    alloc: Global,
    objects: O,
    text: &[u8],
    json: &[u8],
    floats: Floats,
    autoescape: bool,
    room: &mut [u8],
) -> Answer
    ensures { MakesOnce (text.now ∷ json.now ∷ [])
        (OneOffText text.now json.now autoescape
        (fresh (new_registry_with (O.engine objects)) floats))
        room.old room.new result }
{
    match text_once(alloc, objects, text, json, floats, autoescape) {
        Ok(text) => copy_text(Some(text.as_str()), room),
        Err(error) => answer_of(&Err(error)),
    }
}

fn text_once<O: Objects>(
    alloc: Global,
    objects: O,
    text: &[u8],
    json: &[u8],
    floats: Floats,
    autoescape: bool,
) -> TeraResult<String>
    ensures { Reads (text.now ∷ json.now ∷ []) string_bytes result
        (OneOffText text.now json.now autoescape
        (fresh (new_registry_with (O.engine objects)) floats)) }
{
    let text = text_of(alloc, text)?;
    let context = json_context(alloc, text_of(alloc, json)?, floats)?;
    let engine = TeraOver::with_objects(alloc, objects)?;
    engine.render_str(text, &context, autoescape)
}
