// Components by name.
ghost use Rattle.std.specs.Prelude.{◌≡◌, ◌+◌, ◌*◌, ◌≤◌, Some, Ok, true, map, option_map, string_bytes, IfOk, IfErr};
ghost use Rattle.tera_errors.specs.Prelude.{Gives, GivesOneOf, Lacks};
ghost use Rattle.tera_values.specs.Prelude.{text};
ghost use Rattle.tera_state.specs.Prelude.{nothing_set, around_of, variables_of};
ghost use Rattle.tera_code.specs.Prelude.{listing_of};
ghost use Rattle.tera_meaning.specs.Prelude.{is_component, AreComponentNames, component, render_component};
ghost use Rattle.tera_registry.specs.Prelude.{code_of, IsDefined};
ghost use Rattle.tera_machine.specs.Prelude.{Subject};
ghost use Rattle.tera.specs.Budget.{component_visits, visits_meant};
ghost use Rattle.tera.specs.Lent.{lent_text};
ghost use Rattle.tera.specs.Rendering.{ComponentByName, AppendsOneOf};

use crate::engine::TeraOver;
use crate::refusals::no_component;
use crate::texts::{append_text, lend_memory};
use std::alloc::Global;
use tera_code::{Steps, Tally};
use tera_components::ComponentInfo;
use tera_machine::VirtualMachine;
use tera_registry::Defined;
use tera_state::{Objects, Scopes};
use tera_values::{Context, TeraResult, Value};

impl<O: Objects> TeraOver<O> {
    ghost use Rattle.tera.specs.Registry.{registry_of, subject_of_component, text_meant, info_at};

    /// Whether a template defines a component of this name. Takes no memory.
    pub fn contains_component(&self, name: &str) -> bool
        ensures { result ≡ is_component (registry_of O.engine self.now) name.now }
    {
        self.templates.contains_component(name)
    }

    /// The names of the components, each once, in byte order.
    pub fn get_component_names(&self) -> TeraResult<Vec<String>>
        ensures names { IfOk result
            (λ v. AreComponentNames (registry_of O.engine self.now) (map string_bytes v.items)) }
        ensures lacks { IfErr result Lacks }
    {
        self.templates.component_names()
    }

    /// The name and the parameters of the component of this name, if there is one.
    pub fn get_component_definition(&self, name: &str) -> TeraResult<Option<ComponentInfo>>
        ensures { Gives (λ i. i) result (Ok (info_at (registry_of O.engine self.now) name.now)) }
    {
        match self.templates.component(name) {
            Some(found) => {
                let info = ComponentInfo::new(self.alloc, found.definition)?;
                Ok(Some(info))
            }
            None => Ok(None),
        }
    }

    /// Renders the component of this name with these arguments and an optional body, which is written as it is. Implicit
    /// parameters are looked up among the implicits, and then in the global context. A component that is not there is refused
    /// with `ComponentNotFound`, and arguments that do not fit it with `Message`.
    pub fn render_component(
        &self,
        name: &str,
        args: &Context,
        implicits: &Context,
        body: Option<&str>,
        autoescape: bool,
    ) -> TeraResult<String>
        ensures { GivesOneOf string_bytes result
            (ComponentByName (registry_of O.engine self.now) name.now
            args.now implicits.now (lent_text body.entry) autoescape) }
    {
        let mut steps = Steps::new();
        let memory = String::new(self.alloc);
        self.render_by_call(name, args, implicits, body, autoescape, memory, &mut steps)
    }

    // The same, which is written to this memory, and of which each instruction is counted.
    pub(crate) fn render_by_call<T: Tally>(
        &self,
        name: &str,
        args: &Context,
        implicits: &Context,
        body: Option<&str>,
        autoescape: bool,
        memory: String,
        steps: &mut Steps<T>,
    ) -> TeraResult<String>
        ensures means { GivesOneOf string_bytes result
            (ComponentByName (registry_of O.engine self.now) name.now
            args.now implicits.now (lent_text body.entry) autoescape) }
        ensures few { steps.new ≤ steps.old + 8 * component_visits (registry_of O.engine self.now)
            name.now args.now implicits.now (lent_text body.entry) autoescape }
    {
        match self.templates.component(name) {
            Some(found) => {
                let answer = self.render_found_component(
                    found, args, implicits, body, autoescape, memory, steps,
                );
                self.tell(answer, None)
            }
            None => Err(no_component(self.alloc, name)),
        }
    }

    /// Appends what `render_component` answers. After an error the vector is as before. An empty one lends its memory to the rendering, and
    /// may have none after an error.
    pub fn render_component_to(
        &self,
        name: &str,
        args: &Context,
        implicits: &Context,
        body: Option<&str>,
        autoescape: bool,
        out: &mut Vec<u8>,
    ) -> TeraResult<()>
        ensures { AppendsOneOf result out.old.items out.new.items
            (ComponentByName (registry_of O.engine self.now) name.now
            args.now implicits.now (lent_text body.entry) autoescape) }
    {
        let memory = lend_memory(self.alloc, out);
        let mut steps = Steps::new();
        let text = self.render_by_call(
            name, args, implicits, body, autoescape, memory, &mut steps,
        )?;
        append_text(text, out)?;
        Ok(())
    }

    // The text of a component that was found, which runs in a context of its own. Implicit parameters are looked up in a state
    // that has the implicits as its context, and the global context.
    fn render_found_component<T: Tally>(
        &self,
        found: Defined<'_>,
        args: &Context,
        implicits: &Context,
        body: Option<&str>,
        autoescape: bool,
        memory: String,
        steps: &mut Steps<T>,
    ) -> TeraResult<String>
        requires defined { IsDefined
            (component (registry_of O.engine self.now) found.definition.now.name) (Some found) }
        requires here { found.body.templates.now ≡ self.now.templates }
        ensures means { Gives string_bytes result (render_component (registry_of O.engine self.now)
            found.entry.definition.now.name args.now implicits.now (lent_text body.entry)
            autoescape) }
        ensures few { steps.new ≤ steps.old + 8 * component_visits (registry_of O.engine self.now)
            found.entry.definition.now.name args.now implicits.now (lent_text body.entry)
            autoescape }
    {
        let body = safe_body(self.alloc, body)?;
        let mut scopes = Scopes::new(self.alloc, implicits, Some(&self.global_context));
        let definition = found.definition;
        let context = match definition.bind_by_name(self.alloc, args, &scopes, body) {
            Ok(context) => context,
            Err(error) => return Err(error),
        };
        scopes.enter_component(context)?;
        self.run_component(found, scopes, autoescape, memory, steps)
    }

    // The text of the body of a component, which reads these scopes. The subject is the body's.
    fn run_component<T: Tally>(
        &self,
        found: Defined<'_>,
        scopes: Scopes<'_>,
        autoescape: bool,
        memory: String,
        steps: &mut Steps<T>,
    ) -> TeraResult<String>
        ghost about: { Subject }
        requires subject { about ≡ subject_of_component (registry_of O.engine self.now)
            (component (registry_of O.engine self.now) found.definition.now.name)
            (around_of scopes) autoescape }
        requires here { found.body.templates.now ≡ self.now.templates }
        requires code { code_of found.body ≡ listing_of about.place.file about.tree }
        requires fresh { variables_of scopes ≡ nothing_set }
        ensures means { Gives string_bytes result (text_meant about) }
        ensures few { steps.new ≤ steps.old + 8 * visits_meant about }
    {
        let machine = VirtualMachine::new_with_autoescape(self.alloc, autoescape, &self.objects);
        self.run_counted(&machine, found.body, scopes, memory, steps)
    }
}

// The body that a component is handed, as a safe text.
fn safe_body(alloc: Global, body: Option<&str>) -> TeraResult<Option<Value>>
    ensures { Gives (λ b. b) result
        (Ok (option_map (λ t. text t true) (lent_text body.entry))) }
{
    match body {
        Some(text) => Ok(Some(Value::safe_string(alloc, text)?)),
        None => Ok(None),
    }
}
