// What an engine behind a handle is told before and between renderings.
ghost use Rattle.tera_c.specs.Held.{ByHandle};
ghost use Rattle.tera_c.specs.Options.{delimiters};
ghost use Rattle.tera_renderer.specs.Meanings.{AddsBatch, DropsWaiting, PutsGlobals, PutsTemplate, PutsText, SetsDelimiters, SetsPrefixes, SetsSuffixes};

use crate::handle::Handle;
use crate::pack_renderer::PackOnly;
use std::alloc::Global;
use tera::Objects;
use tera_renderer::settings::TagBytes;
use tera_renderer::{Answer, NO_RENDERER};

/// Lets a template wait for the next `tera_add`.
#[unsafe(no_mangle)]
pub extern "C" fn tera_put_template(
    alloc: Global,
    engine: &mut Handle,
    name: &[u8],
    text: &[u8],
) -> Answer
    ensures { ByHandle ⟦<PackOnly as Objects>⟧.engine (PutsTemplate name.now text.now)
        engine.old.value engine.new.value result }
{
    match engine.open(alloc) {
        Some(mut mine) => {
            let answer = mine.renderer.put_template(name, text);
            engine.shut(mine);
            answer
        }
        None => NO_RENDERER,
    }
}

/// Adds the templates that wait, all or none. Then none waits.
#[unsafe(no_mangle)]
pub extern "C" fn tera_add(alloc: Global, engine: &mut Handle) -> Answer
    ensures { ByHandle ⟦<PackOnly as Objects>⟧.engine AddsBatch
        engine.old.value engine.new.value result }
{
    match engine.open(alloc) {
        Some(mut mine) => {
            let answer = mine.renderer.add();
            engine.shut(mine);
            answer
        }
        None => NO_RENDERER,
    }
}

/// Lets a text wait for the next call that takes a list.
#[unsafe(no_mangle)]
pub extern "C" fn tera_put(alloc: Global, engine: &mut Handle, text: &[u8]) -> Answer
    ensures { ByHandle ⟦<PackOnly as Objects>⟧.engine (PutsText text.now)
        engine.old.value engine.new.value result }
{
    match engine.open(alloc) {
        Some(mut mine) => {
            let answer = mine.renderer.put(text);
            engine.shut(mine);
            answer
        }
        None => NO_RENDERER,
    }
}

/// Lets nothing wait any more.
#[unsafe(no_mangle)]
pub extern "C" fn tera_drop_waiting(alloc: Global, engine: &mut Handle) -> Answer
    ensures { ByHandle ⟦<PackOnly as Objects>⟧.engine DropsWaiting
        engine.old.value engine.new.value result }
{
    match engine.open(alloc) {
        Some(mut mine) => {
            let answer = mine.renderer.drop_waiting();
            engine.shut(mine);
            answer
        }
        None => NO_RENDERER,
    }
}

/// Templates escape whose names end with one of the texts that wait.
#[unsafe(no_mangle)]
pub extern "C" fn tera_autoescape_on(alloc: Global, engine: &mut Handle) -> Answer
    ensures { ByHandle ⟦<PackOnly as Objects>⟧.engine SetsSuffixes
        engine.old.value engine.new.value result }
{
    match engine.open(alloc) {
        Some(mut mine) => {
            let answer = mine.renderer.autoescape_on();
            engine.shut(mine);
            answer
        }
        None => NO_RENDERER,
    }
}

/// A name that no template has is looked for behind each of the texts that wait.
#[unsafe(no_mangle)]
pub extern "C" fn tera_set_fallback_prefixes(alloc: Global, engine: &mut Handle) -> Answer
    ensures { ByHandle ⟦<PackOnly as Objects>⟧.engine SetsPrefixes
        engine.old.value engine.new.value result }
{
    match engine.open(alloc) {
        Some(mut mine) => {
            let answer = mine.renderer.set_fallback_prefixes();
            engine.shut(mine);
            answer
        }
        None => NO_RENDERER,
    }
}

/// Tags are told from text by these delimiters.
#[unsafe(no_mangle)]
pub extern "C" fn tera_set_delimiters(
    alloc: Global,
    engine: &mut Handle,
    block_start: &[u8],
    block_end: &[u8],
    variable_start: &[u8],
    variable_end: &[u8],
    comment_start: &[u8],
    comment_end: &[u8],
) -> Answer
    ensures { ByHandle ⟦<PackOnly as Objects>⟧.engine (SetsDelimiters (delimiters
        block_start.now block_end.now variable_start.now variable_end.now
        comment_start.now comment_end.now))
        engine.old.value engine.new.value result }
{
    match engine.open(alloc) {
        Some(mut mine) => {
            let tags = TagBytes {
                block_start,
                block_end,
                variable_start,
                variable_end,
                comment_start,
                comment_end,
            };
            let answer = mine.renderer.set_delimiters(tags);
            engine.shut(mine);
            answer
        }
        None => NO_RENDERER,
    }
}

/// Puts the members of an object of JSON over the global context.
#[unsafe(no_mangle)]
pub extern "C" fn tera_put_globals(alloc: Global, engine: &mut Handle, json: &[u8]) -> Answer
    ensures { ByHandle ⟦<PackOnly as Objects>⟧.engine (PutsGlobals json.now)
        engine.old.value engine.new.value result }
{
    match engine.open(alloc) {
        Some(mut mine) => {
            let answer = mine.renderer.put_globals(json);
            engine.shut(mine);
            answer
        }
        None => NO_RENDERER,
    }
}
