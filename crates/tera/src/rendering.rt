// From a text, or the code of a body, to what it renders to.
ghost use Rattle.std.specs.Prelude.{◌≡◌, [], ℕ, ◌+◌, ◌*◌, ◌<◌, ◌≤◌, IfOk, OnOk, string_bytes};
ghost use Rattle.tera_errors.specs.Prelude.{Gives, GivesOneOf};
ghost use Rattle.tera_syntax_tree.specs.Prelude.{blocks, nodes_of, tree_of};
ghost use Rattle.tera_state.specs.Prelude.{nothing_set, around_of, variables_of};
ghost use Rattle.tera_meaning.specs.Prelude.{outermost};
ghost use Rattle.tera_code.specs.Prelude.{nodes_code};
ghost use Rattle.tera_registry.specs.Prelude.{code_of, with_templates};
ghost use Rattle.tera.specs.Budget.{TextTakesMore, visits_meant};
ghost use Rattle.tera.specs.Rendering.{OneOff, allowed};
ghost use Rattle.tera_machine.specs.Prelude.{Subject, IsLinked, IsOf, engine_of};

use crate::engine::TeraOver;
use std::alloc::{AllocError, Global};
use tera_code::{Chunk, Steps, Tally, compile_body};
use tera_machine::{Configuration, VirtualMachine};
use tera_registry::components::components;
use tera_registry::top_blocks::top_blocks;
use tera_registry::{Body, FoundTemplate, TextTable};
use tera_state::{Objects, Scopes};
use tera_syntax::parse;
use tera_syntax_tree::ParserOutput;
use tera_values::{Context, Error, Name, TeraResult};

/// The name that faults give to a text that is no template of the engine.
pub(crate) const ONE_OFF: &str = "__tera_one_off";

/// A text beside the templates, as it stands. A function with a ghost value takes no `&str` itself.
#[derive(Clone, Copy)]
pub(crate) struct Source<'a> {
    pub(crate) text: &'a str,
}

impl<O: Objects> TeraOver<O> {
    ghost use Rattle.tera.specs.Registry.{registry_of, place_in, subject_beside, subject_of_file, text_meant, one_off_meant, block_meant};

    pub(crate) fn read_and_render<T: Tally>(
        &self,
        input: &str,
        context: &Context,
        autoescape: bool,
        memory: String,
        steps: &mut Steps<T>,
    ) -> TeraResult<String>
        ensures means { GivesOneOf string_bytes result
            (OneOff (registry_of O.engine self.now) input.now context.now autoescape) }
        ensures few { (n : ℕ) → steps.old + n < steps.new → TextTakesMore
            (registry_of O.engine self.now) input.now context.now autoescape n }
    {
        match parse(self.alloc, ONE_OFF, input, &self.delimiters) {
            Ok(output) => match allow(self.alloc, &output) {
                Ok(()) => self.render_output(
                    Source { text: input },
                    &output,
                    context,
                    autoescape,
                    memory,
                    steps,
                ),
                Err(error) => Err(error),
            },
            Err(error) => Err(error),
        }
    }

    // The text that was read to this and stands beside the registry, rendered; an error where it calls what is not there.
    // The subject is its own.
    fn render_output<'s, T: Tally>(
        &'s self,
        source: Source<'_>,
        output: &ParserOutput,
        context: &'s Context,
        autoescape: bool,
        memory: String,
        steps: &mut Steps<T>,
    ) -> TeraResult<String>
        ghost about: { Subject }
        requires subject { about
            ≡ subject_beside (registry_of O.engine self.now) (tree_of output.now)
            context.now autoescape }
        requires plain { blocks (nodes_of output.now.nodes.items) ≡ [] }
        ensures means { Gives string_bytes result (one_off_meant about) }
        ensures few { steps.new ≤ steps.old + 8 * visits_meant about }
    {
        let alloc = self.alloc;
        let nodes = output.nodes.as_slice();
        let definitions = output.component_definitions.as_slice();
        let chunk = compile_body(alloc, ONE_OFF, nodes)?;
        let own = components(alloc, ONE_OFF, definitions)?;
        let text = TextTable::new(alloc, &self.templates, chunk, own)?;
        if text.has_missing_callee(&self.objects) {
            return Err(text.missing_error(ONE_OFF, source.text, &self.objects));
        }
        let alone = VirtualMachine::new_with_autoescape(alloc, autoescape, &self.objects);
        let machine = alone.with_text(&text);
        let body = text.body();
        let scopes = self.scopes_for(body.chunk(), context)?;
        self.run_counted(&machine, body, scopes, memory, steps)
    }

    // The text of a template that was found, from the body of its root on: the file that its code names says of which. The
    // subject is that body's.
    pub(crate) fn render_found<'t, T: Tally>(
        &self,
        found: FoundTemplate<'t>,
        root: Body<'t>,
        context: &Context,
        memory: String,
        steps: &mut Steps<T>,
    ) -> TeraResult<String>
        ghost about: { Subject }
        requires subject { about ≡ subject_of_file (registry_of O.engine self.now) found.name.now
            (code_of root).file context.now }
        requires linked { with_templates about.world.registry found.templates.now
            ≡ about.world.registry }
        requires root { root.templates.now ≡ found.templates.now }
        requires code { (code_of root).code ≡ nodes_code about.tree 0 }
        ensures means { Gives string_bytes result (text_meant about) }
        ensures few { steps.new ≤ steps.old + 8 * visits_meant about }
    {
        let autoescape = self.escapes(found);
        let machine = VirtualMachine::for_template(self.alloc, autoescape, found, &self.objects);
        let scopes = self.scopes_for(root.chunk(), context)?;
        self.run_counted(&machine, root, scopes, memory, steps)
    }

    // The text that a block of a template had when it ended last, while all of the template was rendered. The subject is as above.
    pub(crate) fn render_found_block<'t>(
        &self,
        found: FoundTemplate<'t>,
        root: Body<'t>,
        block: &Name,
        context: &Context,
    ) -> TeraResult<String>
        ghost about: { Subject }
        requires subject { about ≡ subject_of_file (registry_of O.engine self.now) found.name.now
            (code_of root).file context.now }
        requires linked { with_templates about.world.registry found.templates.now
            ≡ about.world.registry }
        requires root { root.templates.now ≡ found.templates.now }
        requires code { (code_of root).code ≡ nodes_code about.tree 0 }
        ensures { Gives string_bytes result (block_meant block.now about) }
    {
        let autoescape = self.escapes(found);
        let machine = VirtualMachine::for_template(self.alloc, autoescape, found, &self.objects);
        let scopes = self.scopes_for(root.chunk(), context)?;
        let mut configuration = Configuration::new(self.alloc, scopes);
        let mut steps = Steps::new();
        machine.run_for_block(root, block, &mut configuration, &mut steps)
    }

    // The scopes of a body that reads this context: names that its code reads often are found without a search.
    fn scopes_for<'s>(
        &'s self,
        chunk: &Chunk,
        context: &'s Context,
    ) -> Result<Scopes<'s>, AllocError>
        ensures around { IfOk result (λ scopes. around_of scopes
            ≡ outermost (registry_of O.engine self.now) context.now) }
        ensures fresh { IfOk result (λ scopes. variables_of scopes ≡ nothing_set) }
    {
        let mut scopes = Scopes::new(self.alloc, context, Some(&self.global_context));
        scopes.note_all(chunk.frequent_names())?;
        Ok(scopes)
    }

    // The text of a body that reads these scopes, written to this memory. The subject is the body's: it tells the machine what it means.
    pub(crate) fn run_counted<'t, T: Tally>(
        &self,
        machine: &VirtualMachine<'t, O>,
        body: Body<'t>,
        scopes: Scopes<'_>,
        memory: String,
        steps: &mut Steps<T>,
    ) -> TeraResult<String>
        ghost about: { Subject }
        requires registry { about.world.registry ≡ registry_of O.engine self.now }
        requires engine { engine_of O.engine machine.now ≡ about.world.registry.engine }
        requires linked { IsLinked machine.now about.world }
        requires here { IsOf about.world.registry body }
        requires place { place_in machine.now (code_of body).file (around_of scopes) ≡ about.place }
        requires fresh { variables_of scopes ≡ nothing_set }
        requires code { (code_of body).code ≡ nodes_code about.tree 0 }
        ensures means { Gives string_bytes result (text_meant about) }
        ensures few { steps.new ≤ steps.old + 8 * visits_meant about }
    {
        let mut configuration = Configuration::with_memory(self.alloc, scopes, memory);
        match machine.run(body, &mut configuration, steps) {
            Ok(()) => Ok(configuration.texts.into_string()),
            Err(error) => Err(error),
        }
    }
}

// Refuses a text that extends a template, and one that has a block.
fn allow(alloc: Global, output: &ParserOutput) -> TeraResult<()>
    ensures done { Gives (λ done. done) result (allowed (tree_of output.now)) }
    ensures plain { OnOk result (blocks (nodes_of output.now.nodes.items) ≡ []) }
{
    if output.parent.is_some() {
        return Err(Error::message(
            alloc,
            "a text beside the templates can't extend a template: add it as a template",
        ));
    }
    if !top_blocks(alloc, output.nodes.as_slice())?.is_empty() {
        return Err(Error::message(
            alloc,
            "a text beside the templates can't have a block: add it as a template",
        ));
    }
    Ok(())
}
