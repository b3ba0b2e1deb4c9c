// A body of the table, as it is handed out.
ghost use Rattle.std.specs.Prelude.{◌≡◌, IfSome};
ghost use Rattle.std.specs.Coded.{codes};
ghost use Rattle.tera_code.specs.contracts.chunk.Chunk as chunk;
ghost use Rattle.tera_registry.specs.Kept.{seen};
ghost use Rattle.tera_registry.specs.References.{IsLinked, IsLinked-prop};

use crate::body_table::{Link, LinkedBody};
use crate::code::{Code, rank};
use crate::templates::{Defined, FoundTemplate, Templates};
use tera_code::Chunk;

/// A body: its code, and what that takes, found once when the templates were linked.
#[derive(Clone, Copy)]
pub struct Body<'t> {
    pub templates: &'t Templates,
    pub(crate) code: &'t Code,
    pub(crate) entry: &'t LinkedBody,
    ghost right: { IsLinked (seen templates.now.all.items templates.now.prefixes.items)
        templates.now.choices entry.now } by { Prim.hlevel IsLinked-prop },
    ghost shared: { entry.now.code.value.chunk ≡ code.now.chunk } by { Prim.hlevel
        (codes, chunk.the_row.coded) },
    ghost listed: { entry.now.code.value.takes.items
        ≡ code.now.takes.items } by { Prim.hlevel codes },
}

impl<'t> Body<'t> {
    // The body of an entry.
    pub(crate) fn new(templates: &'t Templates, entry: &'t LinkedBody) -> Body<'t>
        requires { IsLinked (seen templates.now.all.items templates.now.prefixes.items)
            templates.now.choices entry.now }
        ensures templates { result.templates.now ≡ templates.now }
        ensures entry { result.entry.now ≡ entry.now }
    {
        let code: &'t Code = &entry.code;
        Body {
            templates,
            code,
            entry,
        }
    }

    ghost use Rattle.tera_errors.specs.Prelude.{Name};
    ghost use Rattle.tera_meaning.specs.Prelude.{component, Registry};
    ghost use Rattle.tera_code.specs.Targets.{TemplateNamed, ComponentNamed};
    ghost use Rattle.tera_registry.specs.HandedOut.{code_of, Takes, IsLink, Leading};
    ghost use Rattle.tera_registry.specs.Templates.{with_templates, Finds, IsDefined};

    /// Its code.
    pub fn chunk(&self) -> &'t Chunk
        ensures { result.now ≡ code_of self.now }
    {
        let code: &'t Code = self.code;
        &code.chunk
    }

    // What that leads to which the instruction at this position takes.
    fn link_at(&self, at: usize) -> Option<Link>
        ensures some { IfSome result (IsLink self.now) }
        ensures exact { Leading self.now at result }
    {
        let entry: &'t LinkedBody = self.entry;
        let number = rank(self.code.takes.as_slice(), at)?;
        Some(entry.links[number])
    }

    /// The template that the include at this position of the code leads to, if there is one. Takes no memory.
    pub fn template_at(&self, at: usize) -> Option<FoundTemplate<'t>>
        ensures { (r : Registry) (name : Name) → Takes self.now at (TemplateNamed name)
            → Finds (with_templates r self.now.templates.now) name result }
    {
        let link = self.link_at(at)?;
        let position = link.template()?;
        let templates: &'t Templates = self.templates;
        Some(templates.found_template_at(position))
    }

    /// The component that the call at this position of the code leads to, if a template defines one. Takes no memory.
    pub fn component_at(&self, at: usize) -> Option<Defined<'t>>
        ensures templates { IfSome result (λ d. d.body.templates.now ≡ self.now.templates.now) }
        ensures defined { (r : Registry) (name : Name) → Takes self.now at (ComponentNamed name)
            → IsDefined (component (with_templates r self.now.templates.now) name) result }
    {
        let link = self.link_at(at)?;
        let choice = link.component()?;
        let templates: &'t Templates = self.templates;
        Some(templates.definition_at(choice))
    }
}
