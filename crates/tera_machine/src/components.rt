// Components: how the machine finds them, enters their bodies, and leaves them.
ghost use Rattle.std.specs.Prelude.{◌≡◌, ◌≢◌, [], option_map, OnOk, IfOk, IfErr, IfSome};
ghost use Rattle.tera_errors.specs.Prelude.{Lacks};
ghost use Rattle.tera_state.specs.Prelude.{in_component, around_of, variables_of};
ghost use Rattle.tera_meaning.specs.Prelude.{component_at};
ghost use Rattle.tera_code.specs.Targets.{ComponentNamed};
ghost use Rattle.tera_registry.specs.Prelude.{code_of, found_of, first_kept, IsDefined};
ghost use Rattle.tera_machine.specs.declared.open_bodies.OpenBodies.{OpenBodies};
ghost use Rattle.tera_machine.specs.Config.{config_of};
ghost use Rattle.tera_machine.specs.Flow.{Pushed, component_request};
ghost use Rattle.tera_machine.specs.Apart.{Begins, Rejoins};
ghost use Rattle.tera_machine.specs.Components.{Calls};
ghost use Rattle.tera_machine.specs.Open.{TakesBefore};
ghost use Rattle.tera_machine.specs.Subject.{IsLinked, IsOf, kept_beside, place_at};

use crate::block_bodies::SavedBody;
use crate::configuration::Configuration;
use crate::machine::{Limit, VirtualMachine};
use crate::refusals::{no_component, too_deep_component};
use crate::requests::ComponentRequest;
use tera_operators::{Operand, fault_at};
use tera_registry::{Body, Defined, TextTable};
use tera_state::Objects;
use tera_values::{Kwargs, Name, Span, TeraResult};

/// How deep components may call one another.
pub(crate) const MAX_DEPTH: usize = 20;

/// The components that a text beside the templates defines.
#[derive(Clone, Copy)]
pub struct OneOffComponents<'t> {
    pub text: &'t TextTable<'t>,
}

/// A component that is called: its body, the context in which that runs, and how many components are open then.
#[derive(Drop)]
pub struct ComponentBody<'t> {
    pub body: Body<'t>,
    pub context: Kwargs,
    pub depth: usize,
}

impl<'c> Configuration<'c> {
    /// The body of a component begins, in a state that reads nothing but the context.
    pub(crate) fn begin_component(&mut self, context: Kwargs) -> TeraResult<SavedBody>
        ensures begins { IfOk result (λ outer. Begins
            (in_component context (around_of self.old.scopes) (variables_of self.old.scopes))
            self.old outer self.new) }
        ensures lacks { IfErr result Lacks }
    {
        self.scopes.enter_component(context)?;
        self.begin_body()
    }

    /// The body of a component ends: its text becomes an operand, and all else is as before it.
    pub(crate) fn end_component(
        &mut self,
        safe: bool,
        span: Span,
        outer: SavedBody,
    ) -> TeraResult<()>
        requires text { (config_of self.old).captures ≢ [] }
        requires state { self.old.scopes.below ≢ [] }
        ensures rejoins { OnOk result (Rejoins (Pushed safe span) self.old outer self.new) }
        ensures lacks { IfErr result Lacks }
    {
        let SavedBody { places, ended } = outer;
        self.places = places;
        self.ended = ended;
        self.scopes.leave();
        let value = self.texts.value(self.alloc, safe)?;
        self.texts.end();
        self.operands.push(Operand::new(value, span))?;
        Ok(())
    }
}

impl<'t, O: Objects> VirtualMachine<'t, O> {
    // The one of this name among those of the text beside the templates.
    fn one_off_component<M: Limit>(&self, name: &Name) -> Option<Defined<'t>>
        requires { IsLinked self.now M.world }
        ensures first { option_map found_of result
            ≡ first_kept name.now (kept_beside self.now.beside) }
        ensures linked { IfSome result (λ d. IsOf M.world.registry d.body) }
    {
        match self.beside {
            Some(beside) => {
                let text: &'t TextTable<'t> = beside.text;
                text.component(name.as_str())
            }
            None => None,
        }
    }

    // The component of this name, which the instruction before this position of the code calls: that of the templates, else that
    // of the text beside them.
    fn component_by_name<M: Limit>(
        &self,
        here: Body<'t>,
        next: usize,
        name: &Name,
    ) -> Option<Defined<'t>>
        requires linked { IsLinked self.now M.world }
        requires here { IsOf M.world.registry here }
        requires takes { TakesBefore here next (ComponentNamed name.now) }
        ensures defined { IsDefined (component_at M.world name.now) result }
        ensures linked { IfSome result (λ d. IsOf M.world.registry d.body) }
    {
        match here.component_at(next - 1) {
            Some(component) => Some(component),
            None => self.one_off_component::<M>(name),
        }
    }

    /// The component that is asked for, or the fault of the request.
    #[tactic(auto, using(crate::proofs::Calling::nobody_called, crate::proofs::Calling::unfit, crate::proofs::Calling::too_deep, crate::proofs::Calling::is_called))]
    pub(crate) fn resolve_component<M: Limit>(
        &self,
        here: Body<'t>,
        next: usize,
        asked: ComponentRequest<'_>,
        configuration: &Configuration<'_>,
    ) -> TeraResult<ComponentBody<'t>>
        requires linked { IsLinked self.now M.world }
        requires here { IsOf M.world.registry here }
        requires takes { TakesBefore here next (ComponentNamed asked.name.now) }
        ensures { (blocks : OpenBodies) → Calls M.world
            (place_at self.now (code_of here.entry).file blocks configuration.now)
            (component_request asked.entry) (variables_of configuration.now.scopes) result }
    {
        let ComponentRequest {
            name,
            given,
            body,
            safe: _,
            span,
        } = asked;
        let Some(component) = self.component_by_name::<M>(here, next, name) else {
            return Err(no_component(self.alloc, name, here.chunk().file(), span));
        };
        let scopes = &configuration.scopes;
        let context = match component.definition.bind(self.alloc, &given, scopes, body) {
            Ok(context) => context,
            Err(error) => return Err(fault_at(self.alloc, here.chunk().file(), &error, span)),
        };
        if self.depth >= MAX_DEPTH {
            return Err(too_deep_component(self.alloc, name));
        }
        Ok(ComponentBody {
            body: component.body,
            context,
            depth: self.depth + 1,
        })
    }
}
