// Templates that are included: how the machine enters their bodies, and how it leaves them.
ghost use Rattle.std.specs.Prelude.{◌≢◌, [], OnOk, IfOk, IfErr};
ghost use Rattle.tera_errors.specs.Prelude.{Lacks};
ghost use Rattle.tera_state.specs.Prelude.{in_include, around_of, variables_of};
ghost use Rattle.tera_code.specs.Targets.{TemplateNamed};
ghost use Rattle.tera_machine.specs.Config.{config_of};
ghost use Rattle.tera_machine.specs.Flow.{Written, include_request};
ghost use Rattle.tera_machine.specs.Includes.{FindsTemplate};
ghost use Rattle.tera_machine.specs.Apart.{Begins, Rejoins};
ghost use Rattle.tera_machine.specs.Open.{TakesBefore};
ghost use Rattle.tera_machine.specs.Subject.{AreFrom, IsOf, place_at};
ghost use Rattle.tera_registry.specs.Prelude.{code_of};

use crate::block_bodies::SavedBody;
use crate::configuration::Configuration;
use crate::machine::{Limit, VirtualMachine};
use crate::open_bodies::OpenBodies;
use crate::open_things::Numbered;
use crate::refusals::{no_template, open_template};
use crate::requests::IncludeRequest;
use tera_registry::{Body, FoundTemplate};
use tera_state::Objects;
use tera_values::TeraResult;

impl<'t> Numbered for FoundTemplate<'t> {
    ghost number_of = { λ f. f.position };

    fn number(&self) -> usize {
        self.position
    }
}

impl<'c> Configuration<'c> {
    /// The body of an include begins, in a state that reads this one.
    pub(crate) fn begin_include(&mut self) -> TeraResult<SavedBody>
        ensures begins { IfOk result (λ outer. Begins
            (in_include (around_of self.old.scopes) (variables_of self.old.scopes))
            self.old outer self.new) }
        ensures lacks { IfErr result Lacks }
    {
        self.scopes.enter_include()?;
        self.begin_body()
    }

    /// The body of an include ends: its text joins the one around it, and all else is as before it.
    pub(crate) fn end_include(&mut self, outer: SavedBody) -> TeraResult<()>
        requires text { (config_of self.old).captures ≢ [] }
        requires state { self.old.scopes.below ≢ [] }
        ensures rejoins { OnOk result (Rejoins Written self.old outer self.new) }
        ensures lacks { IfErr result Lacks }
    {
        let SavedBody { places, ended } = outer;
        self.places = places;
        self.ended = ended;
        self.scopes.leave();
        self.texts.join();
        Ok(())
    }
}

impl<'t, O: Objects> VirtualMachine<'t, O> {
    /// The template to include, which the instruction before this position of the code takes, or the fault of the request.
    pub(crate) fn resolve_include<M: Limit>(
        &self,
        here: Body<'t>,
        next: usize,
        asked: IncludeRequest<'_>,
        blocks: &OpenBodies<'t>,
    ) -> TeraResult<FoundTemplate<'t>>
        requires linked { IsOf M.world.registry here }
        requires takes { TakesBefore here next (TemplateNamed asked.name.now) }
        requires included { AreFrom blocks.now.included.inner M.world.registry }
        ensures { (c : Configuration) → FindsTemplate M.world
            (place_at self.now (code_of here.entry).file blocks.now c) (include_request asked.entry)
            (config_of c).run.vars result }
    {
        let IncludeRequest { name, span } = asked;
        let Some(found) = here.template_at(next - 1) else {
            return Err(no_template(self.alloc, name, here.chunk().file(), span));
        };
        if blocks.included.has(found.position) {
            return Err(open_template(self.alloc, name, here.chunk().file(), span));
        }
        Ok(found)
    }
}
