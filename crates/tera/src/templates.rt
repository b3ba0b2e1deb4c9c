// Templates by name.
ghost use Rattle.std.specs.Prelude.{◌≡◌, ◌+◌, ◌*◌, ◌≤◌, Ok, [], ◌∷◌, is_some, map, string_bytes};
ghost use Rattle.tera_errors.specs.Prelude.{Gives, GivesOneOf};
ghost use Rattle.tera_meaning.specs.Prelude.{autoescapes, resolve, AnswersVariables};
ghost use Rattle.tera_registry.specs.Prelude.{Adds, ConfiguresOneOf, pairs_of};
ghost use Rattle.tera.specs.Budget.{template_visits};
ghost use Rattle.tera.specs.Rendering.{ByName, BlockByName, AppendsOneOf};

use crate::engine::TeraOver;
use crate::refusals::{no_block, no_template};
use crate::sources::tell_of_batch;
use crate::texts::{append_text, ends_with_one_of, lend_memory};
use std::collections::BTreeSet;
use tera_code::{Steps, Tally};
use tera_registry::FoundTemplate;
use tera_state::Objects;
use tera_values::{Context, Name, TeraResult};

impl<O: Objects> TeraOver<O> {
    ghost use Rattle.tera.specs.Registry.{registry_of};

    /// Adds a template, as `add_raw_templates` does.
    pub fn add_raw_template(&mut self, name: &str, content: &str) -> TeraResult<()>
        ensures { ConfiguresOneOf result
            (Adds (registry_of O.engine self.old) ((name.now, content.now) ∷ []))
            (registry_of O.engine self.old) (registry_of O.engine self.new) }
    {
        self.add_raw_templates(&[(name, content)])
    }

    /// Adds templates, all or none, each in place of one that has its name; of several with one name the last stays. Refused with
    /// a `SyntaxError` where a text spells no tree, and where the templates do not go together: a template extends one that
    /// is not there, some extend or include one another in a circle, a template calls or includes what is not there, a child
    /// has a block, inside no other one, that no parent has, or a component has two equal definitions (`Message`). Then
    /// all is as before.
    pub fn add_raw_templates(&mut self, templates: &[(&str, &str)]) -> TeraResult<()>
        ensures { ConfiguresOneOf result
            (Adds (registry_of O.engine self.old) (pairs_of templates.now))
            (registry_of O.engine self.old) (registry_of O.engine self.new) }
    {
        let answer = self
            .templates
            .add(&self.delimiters, templates, &self.objects);
        tell_of_batch(self.alloc, answer, templates)
    }

    /// Whether the name resolves to a template. Takes no memory.
    pub fn contains_template(&self, name: &str) -> bool
        ensures { result ≡ is_some (resolve (registry_of O.engine self.now) name.now) }
    {
        self.templates.contains(name)
    }

    /// The names of the templates, each once, in byte order.
    pub fn get_template_names(&self) -> TeraResult<Vec<String>>
        ensures { Gives (λ v. map string_bytes v.items) result
            (Ok (map (λ t. t.0) (registry_of O.engine self.now).templates)) }
    {
        self.templates.names()
    }

    /// The variables that a context should give to this template, each once: the names that its text, its blocks, its parents and
    /// all that these include look up, and that no earlier `set` of the text and no loop around binds. Names that begin with
    /// `__tera_`, and names that only components look up, are left out.
    pub fn get_template_variables(&self, name: &str) -> TeraResult<BTreeSet<String>>
        ensures { let r = registry_of O.engine self.now in
            GivesOneOf (λ s. map string_bytes s.keys) result
            (AnswersVariables r (resolve r name.now)) }
    {
        self.templates.variables(name)
    }

    /// Renders the template to which the name resolves: the text of the last of its parents, or its own where it has none, with the
    /// blocks as the template and its parents define them.
    pub fn render(&self, name: &str, context: &Context) -> TeraResult<String>
        ensures { GivesOneOf string_bytes result
            (ByName (registry_of O.engine self.now) name.now context.now) }
    {
        let mut steps = Steps::new();
        self.render_template(name, context, String::new(self.alloc), &mut steps)
    }

    // The same, which is written to this memory, and of which each instruction is counted.
    pub(crate) fn render_template<T: Tally>(
        &self,
        name: &str,
        context: &Context,
        memory: String,
        steps: &mut Steps<T>,
    ) -> TeraResult<String>
        ensures means { GivesOneOf string_bytes result
            (ByName (registry_of O.engine self.now) name.now context.now) }
        ensures few { steps.new ≤ steps.old + 8 * template_visits (registry_of O.engine self.now)
            name.now context.now }
    {
        match self.templates.find(name) {
            Some(found) => {
                let answer = self.render_found(found, found.root(), context, memory, steps);
                self.tell(answer, None)
            }
            None => Err(no_template(self.alloc, name)),
        }
    }

    // Whether texts are escaped where the template that was found is rendered.
    pub(crate) fn escapes(&self, found: FoundTemplate<'_>) -> bool
        ensures { result ≡ autoescapes (registry_of O.engine self.now) found.entry.name.now }
    {
        ends_with_one_of(found.name, self.suffixes.as_slice())
    }

    /// Appends what `render` answers. After an error the vector is as before. An empty one lends its memory to the rendering, and
    /// may have none after an error.
    pub fn render_to(&self, name: &str, context: &Context, out: &mut Vec<u8>) -> TeraResult<()>
        ensures { AppendsOneOf result out.old.items out.new.items
            (ByName (registry_of O.engine self.now) name.now context.now) }
    {
        let memory = lend_memory(self.alloc, out);
        let mut steps = Steps::new();
        let text = self.render_template(name, context, memory, &mut steps)?;
        append_text(text, out)?;
        Ok(())
    }

    /// Renders all of the template to which the name resolves, and answers the text that the block of this name had when it
    /// ended last, or the empty text where it was not put out. A block that neither the template nor its parents have is
    /// refused with `Message`.
    pub fn render_block(&self, name: &str, block: &str, context: &Context) -> TeraResult<String>
        ensures { GivesOneOf string_bytes result
            (BlockByName (registry_of O.engine self.now) name.now block.now context.now) }
    {
        match self.templates.find(name) {
            Some(found) => match found.definers(block).next() {
                Some(_) => {
                    let wanted = Name::new(self.alloc, block)?;
                    let answer = self.render_found_block(found, found.root(), &wanted, context);
                    self.tell(answer, None)
                }
                None => Err(no_block(self.alloc, name, block)),
            },
            None => Err(no_template(self.alloc, name)),
        }
    }

    /// Appends what `render_block` answers. After an error the vector is as before.
    pub fn render_block_to(
        &self,
        name: &str,
        block: &str,
        context: &Context,
        out: &mut Vec<u8>,
    ) -> TeraResult<()>
        ensures { AppendsOneOf result out.old.items out.new.items
            (BlockByName (registry_of O.engine self.now) name.now block.now context.now) }
    {
        let text = self.render_block(name, block, context)?;
        append_text(text, out)?;
        Ok(())
    }
}
