// An engine behind a handle is made, and freed.
ghost use Rattle.std.specs.Prelude.{◌≡◌, None, Ok};
ghost use Rattle.tera.specs.Prelude.{Gives};
ghost use Rattle.tera.specs.Registering.{new_registry_with};
ghost use Rattle.tera_c.specs.Held.{IsMade};
ghost use Rattle.tera_c.specs.Options.{engine_with};
ghost use Rattle.tera_renderer.specs.Held.{fresh, held_by};
ghost use Rattle.tera_renderer.specs.Numbers.{floats_if};

use crate::handle::Handle;
use crate::options::EngineOptions;
use crate::pack_renderer::{PackOnly, PackRenderer};
use std::alloc::Global;
use tera::{Objects, TeraResult};
use tera_renderer::{Answer, Renderer, floats_if};

/// Makes an engine, in the place of one that is there. Where memory is refused, there is none.
#[unsafe(no_mangle)]
pub extern "C" fn tera_new(alloc: Global, engine: &mut Handle, options: &EngineOptions) -> Answer
    ensures { IsMade ⟦<PackOnly as Objects>⟧.engine options.now engine.new.value result }
{
    drop(engine.open(alloc));
    match new_box(alloc, options) {
        Ok(made) => {
            engine.shut(made);
            Answer { status: 0, size: 0 }
        }
        Err(_) => Answer { status: 2, size: 0 },
    }
}

/// Frees the engine, if there is one.
#[unsafe(no_mangle)]
pub extern "C" fn tera_free(alloc: Global, engine: &mut Handle)
    ensures { engine.new.value ≡ None }
{
    drop(engine.open(alloc));
}

/// A new engine in its box.
fn new_box(alloc: Global, options: &EngineOptions) -> TeraResult<Box<PackRenderer>>
    ensures { Gives (λ b. held_by ⟦<PackOnly as Objects>⟧.engine b.value.renderer) result
        (Ok (fresh (new_registry_with (engine_with options.now)) (floats_if options.now.takes_floats))) }
{
    let objects = options.objects(alloc)?;
    let renderer = Renderer::new(alloc, objects, floats_if(options.takes_floats))?;
    Ok(Box::new(alloc, PackRenderer { renderer })?)
}
