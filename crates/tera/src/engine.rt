// An engine, and what it renders.
ghost use Rattle.std.specs.Prelude.{◌≡◌, [], ℕ, ◌+◌, ◌<◌, Ok, IsTrue, OnOk, IfErr, false, string_bytes};
ghost use Rattle.std.specs.Borrow.{sem};
ghost use Rattle.tera_errors.specs.Prelude.{Gives, GivesOneOf, Tells, message};
ghost use Rattle.tera_syntax_tree.specs.Prelude.{delimiters_of, accepted};
ghost use Rattle.tera_meaning.specs.Prelude.{new_registry};
ghost use Rattle.tera_registry.specs.Prelude.{is_empty};
ghost use Rattle.tera.specs.Budget.{TextTakesMore};
ghost use Rattle.tera.specs.Rendering.{OneOff, AppendsOneOf};
ghost use Rattle.tera.specs.Configuring.{Configures, with_delimiters, with_prefixes, with_suffixes};
ghost use Rattle.tera.specs.Lent.{texts_of};

use crate::texts::{append_text, copies_of, lend_memory, standard_suffixes};
use std::alloc::Global;
use tera_code::{Steps, Tally};
use tera_registry::Templates;
use tera_state::{CallerObjects, Objects};
use tera_syntax_tree::Delimiters;
use tera_values::{Context, Error, TeraResult};

/// An engine with objects of type `O`: its templates, delimiters, suffixes, global context and objects. Contracts see it as a
/// registry.
pub struct TeraOver<O> {
    pub(crate) alloc: Global,
    pub(crate) templates: Templates,
    pub(crate) suffixes: Vec<String>,
    pub(crate) delimiters: Delimiters,
    pub(crate) global_context: Context,
    pub(crate) objects: O,
    ghost accepted: { IsTrue (accepted (delimiters_of delimiters)) },
}

/// An engine with the filters, tests, functions and the escape that a caller boxes.
pub type Tera = TeraOver<CallerObjects>;

// By hand, so that an engine that goes out of scope is one call.
impl<O: Drop> Drop for TeraOver<O> {
    fn drop(self) {
        let TeraOver {
            alloc: _,
            templates,
            suffixes,
            delimiters,
            global_context,
            objects,
        } = self;
        drop(templates);
        drop(suffixes);
        drop(delimiters);
        drop(global_context);
        drop(objects);
    }
}

impl TeraOver<CallerObjects> {
    ghost use Rattle.tera.specs.Registry.{registry_of};

    /// An engine without templates and prefixes, with Tera's own delimiters and an empty global context, and without objects of
    /// the caller: it escapes by `escape_html`. Templates whose names end with `.html`, `.htm` or `.xml` escape.
    pub fn new(alloc: Global) -> TeraResult<Tera>
        ensures { Gives (registry_of ⟦<CallerObjects as Objects>⟧.engine) result
            (Ok new_registry) }
    {
        TeraOver::with_objects(alloc, CallerObjects::new(alloc))
    }

    /// Renders a text with a new engine, which has no templates and no objects of the caller.
    pub fn one_off(
        alloc: Global,
        input: &str,
        context: &Context,
        autoescape: bool,
    ) -> TeraResult<String>
        ensures { GivesOneOf string_bytes result
            (OneOff new_registry input.now context.now autoescape) }
    {
        let engine = Tera::new(alloc)?;
        engine.render_str(input, context, autoescape)
    }
}

impl<O: Objects> TeraOver<O> {
    ghost use Rattle.tera.specs.Registry.{registry_of};
    ghost use Rattle.tera.specs.Registering.{new_registry_with};
    ghost use Rattle.tera.specs.Lending.{LendsGlobal};

    /// An engine as `Tera::new` makes it, with these objects: a caller's own type of them, or `UnboxedObjects` of enums that a
    /// library defines.
    pub fn with_objects(alloc: Global, objects: O) -> TeraResult<TeraOver<O>>
        ensures { Gives (registry_of O.engine) result (Ok (new_registry_with (O.engine objects))) }
    {
        Ok(TeraOver {
            alloc,
            templates: Templates::new(alloc, Vec::new(alloc)),
            suffixes: standard_suffixes(alloc)?,
            delimiters: Delimiters::standard(alloc)?,
            global_context: Context::new(alloc),
            objects,
        })
    }

    /// What every rendering of this engine reads where neither the template nor the caller's context binds a name. What is written to
    /// it is the engine's global context from then on. Takes no memory.
    pub fn global_context(&mut self) -> &mut Context
        ensures* writes_back { sem 𝓛 (LendsGlobal O.row self.entry result) }
        ensures value { result.now ≡ (registry_of O.engine self.old).global }
    {
        &mut self.global_context
    }

    /// Tags are told from text by these delimiters from now on. Refused with a message once a template is there, and
    /// where one is empty or two start delimiters are equal; then those of before stay.
    pub fn set_delimiters(&mut self, delimiters: Delimiters) -> TeraResult<()>
        ensures { Configures result
            (with_delimiters (delimiters_of delimiters) (registry_of O.engine self.old))
            (registry_of O.engine self.old) (registry_of O.engine self.new) }
    {
        self.refuse_once_filled("the delimiters")?;
        delimiters.validate(self.alloc)?;
        self.delimiters = delimiters;
        Ok(())
    }

    /// A name that no template has is looked up after each of these prefixes, in their order, from now on. Refused with a
    /// message once a template is there; then those of before stay.
    pub fn set_fallback_prefixes(&mut self, prefixes: &[&str]) -> TeraResult<()>
        ensures { Configures result
            (with_prefixes (texts_of prefixes.now) (registry_of O.engine self.old))
            (registry_of O.engine self.old) (registry_of O.engine self.new) }
    {
        self.refuse_once_filled("the fallback prefixes")?;
        self.templates = Templates::new(self.alloc, copies_of(self.alloc, prefixes)?);
        Ok(())
    }

    // What templates were read and linked by cannot change.
    fn refuse_once_filled(&self, what: &str) -> TeraResult<()>
        ensures ok { OnOk result ((registry_of O.engine self.now).templates ≡ []) }
        ensures err { IfErr result
            (λ e. Tells e message
            × (is_empty (registry_of O.engine self.now).templates ≡ false)) }
    {
        if self.templates.is_empty() {
            return Ok(());
        }
        Err(Error::message_from(format!(in self.alloc;
            "{what} can't be changed once a template is there"
        )))
    }

    /// Templates whose names end with one of these suffixes escape from now on, also those that are there.
    pub fn autoescape_on(&mut self, suffixes: &[&str]) -> TeraResult<()>
        ensures { Configures result
            (Ok (with_suffixes (texts_of suffixes.now) (registry_of O.engine self.old)))
            (registry_of O.engine self.old) (registry_of O.engine self.new) }
    {
        self.suffixes = copies_of(self.alloc, suffixes)?;
        Ok(())
    }

    /// Renders a text that is no template of the engine. Faults name the file `__tera_one_off`.
    pub fn render_str(&self, input: &str, context: &Context, autoescape: bool) -> TeraResult<String>
        ensures { GivesOneOf string_bytes result
            (OneOff (registry_of O.engine self.now) input.now context.now autoescape) }
    {
        let mut steps = Steps::new();
        self.render_text(
            input,
            context,
            autoescape,
            String::new(self.alloc),
            &mut steps,
        )
    }

    // The same, which is written to this memory, and of which each instruction is counted.
    pub(crate) fn render_text<T: Tally>(
        &self,
        input: &str,
        context: &Context,
        autoescape: bool,
        memory: String,
        steps: &mut Steps<T>,
    ) -> TeraResult<String>
        ensures means { GivesOneOf string_bytes result
            (OneOff (registry_of O.engine self.now) input.now context.now autoescape) }
        ensures few { (n : ℕ) → steps.old + n < steps.new → TextTakesMore
            (registry_of O.engine self.now) input.now context.now autoescape n }
    {
        let answer = self.read_and_render(input, context, autoescape, memory, steps);
        self.tell(answer, Some(input))
    }

    /// Appends what `render_str` answers. After an error the vector is as before. An empty one lends its memory to the rendering, and
    /// may have none after an error.
    pub fn render_str_to(
        &self,
        input: &str,
        context: &Context,
        autoescape: bool,
        out: &mut Vec<u8>,
    ) -> TeraResult<()>
        ensures { AppendsOneOf result out.old.items out.new.items
            (OneOff (registry_of O.engine self.now) input.now context.now autoescape) }
    {
        let memory = lend_memory(self.alloc, out);
        let mut steps = Steps::new();
        let text = self.render_text(input, context, autoescape, memory, &mut steps)?;
        append_text(text, out)?;
        Ok(())
    }
}
