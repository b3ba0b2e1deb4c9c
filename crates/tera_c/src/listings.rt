// What an engine behind a handle has, by name.
ghost use Rattle.tera_c.specs.Held.{ByHandle};
ghost use Rattle.tera_renderer.specs.Meanings.{ListsComponents, ListsTemplates, ListsVariables};

use crate::handle::Handle;
use crate::pack_renderer::PackOnly;
use std::alloc::Global;
use tera::Objects;
use tera_renderer::{Answer, NO_RENDERER};

/// Makes the names of the templates, in byte order.
#[unsafe(no_mangle)]
pub extern "C" fn tera_template_names(alloc: Global, engine: &mut Handle) -> Answer
    ensures { ByHandle ⟦<PackOnly as Objects>⟧.engine ListsTemplates
        engine.old.value engine.new.value result }
{
    match engine.open(alloc) {
        Some(mut mine) => {
            let answer = mine.renderer.template_names();
            engine.shut(mine);
            answer
        }
        None => NO_RENDERER,
    }
}

/// Makes the names of the components, in byte order.
#[unsafe(no_mangle)]
pub extern "C" fn tera_component_names(alloc: Global, engine: &mut Handle) -> Answer
    ensures { ByHandle ⟦<PackOnly as Objects>⟧.engine ListsComponents
        engine.old.value engine.new.value result }
{
    match engine.open(alloc) {
        Some(mut mine) => {
            let answer = mine.renderer.component_names();
            engine.shut(mine);
            answer
        }
        None => NO_RENDERER,
    }
}

/// Makes the names that a template wants to be given, in byte order.
#[unsafe(no_mangle)]
pub extern "C" fn tera_template_variables(alloc: Global, engine: &mut Handle, name: &[u8]) -> Answer
    ensures { ByHandle ⟦<PackOnly as Objects>⟧.engine (ListsVariables name.now)
        engine.old.value engine.new.value result }
{
    match engine.open(alloc) {
        Some(mut mine) => {
            let answer = mine.renderer.template_variables(name);
            engine.shut(mine);
            answer
        }
        None => NO_RENDERER,
    }
}
