// What the last call by a handle came to.
ghost use Rattle.std.specs.Prelude.{◌≡◌};
ghost use Rattle.tera_c.specs.Held.{CopiesByHandle, TellsByHandle};
ghost use Rattle.tera_renderer.specs.Outcomes.{file_of, text_at};

use crate::handle::Handle;
use crate::pack_renderer::PackOnly;
use std::alloc::Global;
use tera::Objects;
use tera_renderer::{Answer, NO_RENDERER, Report};

/// Copies the text that the last call made, or its name in this place, to the start of the room.
#[unsafe(no_mangle)]
pub extern "C" fn tera_copy(
    alloc: Global,
    engine: &mut Handle,
    index: usize,
    room: &mut [u8],
) -> Answer
    ensures same { engine.new.value ≡ engine.old.value }
    ensures copied { CopiesByHandle ⟦<PackOnly as Objects>⟧.engine (λ o. text_at o index)
        engine.old.value room.old room.new result }
{
    match engine.open(alloc) {
        Some(mine) => {
            let answer = mine.renderer.copy(index, room);
            engine.shut(mine);
            answer
        }
        None => NO_RENDERER,
    }
}

/// Tells in numbers why the last call made nothing.
#[unsafe(no_mangle)]
pub extern "C" fn tera_report(alloc: Global, engine: &mut Handle, report: &mut Report) -> Answer
    ensures same { engine.new.value ≡ engine.old.value }
    ensures told { TellsByHandle ⟦<PackOnly as Objects>⟧.engine
        engine.old.value report.old report.new result }
{
    match engine.open(alloc) {
        Some(mine) => {
            *report = mine.renderer.report();
            engine.shut(mine);
            Answer { status: 0, size: 0 }
        }
        None => NO_RENDERER,
    }
}

/// Copies the words of why the last call made nothing.
#[unsafe(no_mangle)]
pub extern "C" fn tera_copy_words(alloc: Global, engine: &mut Handle, room: &mut [u8]) -> Answer
    ensures { engine.new.value ≡ engine.old.value }
{
    match engine.open(alloc) {
        Some(mine) => {
            let answer = mine.renderer.copy_words(room);
            engine.shut(mine);
            answer
        }
        None => NO_RENDERER,
    }
}

/// Copies those words without file, line and column.
#[unsafe(no_mangle)]
pub extern "C" fn tera_copy_message(alloc: Global, engine: &mut Handle, room: &mut [u8]) -> Answer
    ensures { engine.new.value ≡ engine.old.value }
{
    match engine.open(alloc) {
        Some(mine) => {
            let answer = mine.renderer.copy_message(room);
            engine.shut(mine);
            answer
        }
        None => NO_RENDERER,
    }
}

/// Copies the name of the template that the report speaks of.
#[unsafe(no_mangle)]
pub extern "C" fn tera_copy_file(alloc: Global, engine: &mut Handle, room: &mut [u8]) -> Answer
    ensures same { engine.new.value ≡ engine.old.value }
    ensures copied { CopiesByHandle ⟦<PackOnly as Objects>⟧.engine file_of
        engine.old.value room.old room.new result }
{
    match engine.open(alloc) {
        Some(mine) => {
            let answer = mine.renderer.copy_file(room);
            engine.shut(mine);
            answer
        }
        None => NO_RENDERER,
    }
}
