// Renderings of lent bytes.
ghost use Rattle.std.specs.Prelude.{◌≡◌, ◌∷◌, [], IfErr, IfOk, string_bytes};
ghost use Rattle.tera.specs.Fault.{message};
ghost use Rattle.tera.specs.Answer.{GivesOneOf, Tells};
ghost use Rattle.tera.specs.Lent.{lent_text};
ghost use Rattle.tera_data.specs.Contexts.{context_in};
ghost use Rattle.tera_renderer.specs.Calls.{AreTexts, Reads};
ghost use Rattle.tera_renderer.specs.Held.{held_by};
ghost use Rattle.tera_renderer.specs.Meanings.{BlockText, ComponentText, OneOffText, RendersBlock, RendersComponent, RendersTemplate, RendersText, TemplateText, with_body};

use crate::answer::Answer;
use crate::renderer::Renderer;
use std::alloc::Global;
use tera::{Context, Objects, TeraResult};
use tera_data::{json_context, text_of};

/// What the rendering of a component is given, in bytes.
#[derive(Clone, Copy)]
pub struct ComponentBytes<'a> {
    pub name: &'a [u8],
    /// An object of JSON: arguments by name.
    pub arguments: &'a [u8],
    /// An object of JSON in which implicit parameters are looked up.
    pub implicits: &'a [u8],
    /// What stands between its tags, put out as it is.
    pub body: Option<&'a [u8]>,
    pub autoescape: bool,
}

impl<O: Objects> Renderer<O> {
    /// Renders a template with an object of JSON as its context.
    pub fn render(&mut self, name: &[u8], json: &[u8]) -> Answer
        ensures { RendersTemplate name.now json.now
            (held_by O.engine self.old) (held_by O.engine self.new) result }
    {
        let answer = self.template_text(name, json);
        self.leave_text(answer)
    }

    /// Renders a template, and answers the text of one of its blocks.
    pub fn render_block(&mut self, name: &[u8], block: &[u8], json: &[u8]) -> Answer
        ensures { RendersBlock name.now block.now json.now
            (held_by O.engine self.old) (held_by O.engine self.new) result }
    {
        let answer = self.block_text(name, block, json);
        self.leave_text(answer)
    }

    /// Renders a component.
    pub fn render_component(&mut self, component: ComponentBytes<'_>) -> Answer
        ensures { let c = component.entry in
            RendersComponent c.name.now c.arguments.now c.implicits.now (lent_text c.body)
            c.autoescape (held_by O.engine self.old) (held_by O.engine self.new) result }
    {
        let answer = self.component_text(component);
        self.leave_text(answer)
    }

    /// Renders a text that is no template.
    pub fn render_text(&mut self, text: &[u8], json: &[u8], autoescape: bool) -> Answer
        ensures { RendersText text.now json.now autoescape
            (held_by O.engine self.old) (held_by O.engine self.new) result }
    {
        let answer = self.one_off_text(text, json, autoescape);
        self.leave_text(answer)
    }

    fn template_text(&self, name: &[u8], json: &[u8]) -> TeraResult<String>
        ensures { Reads (name.now ∷ json.now ∷ []) string_bytes result
            (TemplateText name.now json.now (held_by O.engine self.now)) }
    {
        let name = text_of(self.alloc, name)?;
        let context = self.context(json)?;
        self.engine.render(name, &context)
    }

    fn block_text(&self, name: &[u8], block: &[u8], json: &[u8]) -> TeraResult<String>
        ensures { Reads (name.now ∷ block.now ∷ json.now ∷ []) string_bytes result
            (BlockText name.now block.now json.now (held_by O.engine self.now)) }
    {
        let name = text_of(self.alloc, name)?;
        let block = text_of(self.alloc, block)?;
        let context = self.context(json)?;
        self.engine.render_block(name, block, &context)
    }

    fn one_off_text(&self, text: &[u8], json: &[u8], autoescape: bool) -> TeraResult<String>
        ensures { Reads (text.now ∷ json.now ∷ []) string_bytes result
            (OneOffText text.now json.now autoescape (held_by O.engine self.now)) }
    {
        let text = text_of(self.alloc, text)?;
        let context = self.context(json)?;
        self.engine.render_str(text, &context, autoescape)
    }

    fn component_text(&self, component: ComponentBytes<'_>) -> TeraResult<String>
        ensures { let c = component.entry in
            Reads (c.name.now ∷ with_body (lent_text c.body)
            (c.arguments.now ∷ c.implicits.now ∷ [])) string_bytes result
            (ComponentText c.name.now c.arguments.now c.implicits.now (lent_text c.body)
            c.autoescape (held_by O.engine self.now)) }
    {
        let name = text_of(self.alloc, component.name)?;
        let body = body_of(self.alloc, component.body)?;
        let arguments = text_of(self.alloc, component.arguments)?;
        let implicits = text_of(self.alloc, component.implicits)?;
        self.text_of_component(name, arguments, implicits, body, component.autoescape)
    }

    fn text_of_component(
        &self,
        name: &str,
        arguments: &str,
        implicits: &str,
        body: Option<&str>,
        autoescape: bool,
    ) -> TeraResult<String>
        ensures { GivesOneOf string_bytes result
            (ComponentText name.now arguments.now implicits.now (lent_text body.entry)
            autoescape (held_by O.engine self.now)) }
    {
        let arguments = json_context(self.alloc, arguments, self.floats)?;
        let implicits = json_context(self.alloc, implicits, self.floats)?;
        self.engine
            .render_component(name, &arguments, &implicits, body, autoescape)
    }

    fn context(&self, json: &[u8]) -> TeraResult<Context>
        ensures { Reads (json.now ∷ []) (λ c. c) result
            (λ r. context_in (held_by O.engine self.now).floats json.now ≡ r) }
    {
        json_context(self.alloc, text_of(self.alloc, json)?, self.floats)
    }
}

// The body's bytes as a text, if there are any.
fn body_of(alloc: Global, body: Option<&[u8]>) -> TeraResult<Option<&str>>
    ensures ok { IfOk result (λ text. (lent_text text ≡ lent_text body.entry)
        × AreTexts (with_body (lent_text body.entry) [])) }
    ensures told { IfErr result (λ e. Tells e message
        × ¬ AreTexts (with_body (lent_text body.entry) [])) }
{
    match body {
        Some(bytes) => Ok(Some(text_of(alloc, bytes)?)),
        None => Ok(None),
    }
}
