// What runs code.
ghost use Rattle.std.specs.Prelude.{◌≡◌, []};
ghost use Rattle.tera.specs.Code.{nodes_code};
ghost use Rattle.tera.specs.Config.{config_of};
ghost use Rattle.tera.specs.HandedOut.{code_of};
ghost use Rattle.tera.specs.Subject.{IsLinked, IsOf, Subject, engine_of, place_of};

use std::alloc::Global;
use tera::{Body, CallerObjects, Configuration, Objects, Steps, TeraResult, VirtualMachine};

/// A machine that escapes, and one that does not.
pub fn machines(alloc: Global, objects: &CallerObjects) -> [VirtualMachine<'_, CallerObjects>; 2] {
    [
        VirtualMachine::new(alloc, objects),
        VirtualMachine::new_with_autoescape(alloc, false, objects),
    ]
}

/// What a body puts out. The caller proves what table and tree the body is of.
pub fn run_body<'t, O: Objects>(
    machine: &VirtualMachine<'t, O>,
    body: Body<'t>,
    configuration: &mut Configuration<'_>,
    steps: &mut Steps,
) -> TeraResult<()>
    ghost about: { Subject }
    requires engine { engine_of O.engine machine.now ≡ about.world.registry.engine }
    requires linked { IsLinked machine.now about.world }
    requires here { IsOf about.world.registry body }
    requires place { place_of machine.now (code_of body).file configuration.old ≡ about.place }
    requires code { (code_of body).code ≡ nodes_code about.tree 0 }
    requires own { (config_of configuration.old).loops ≡ [] }
{
    machine.run(body, configuration, steps)
}
