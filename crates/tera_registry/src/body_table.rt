// One table of all bodies: their code, and what its references lead to.
ghost use Rattle.std.specs.Prelude.{◌≡◌, ◌++◌, ◌<◌, [], length, map, slice_get, None, Some, OnOk, IfOk, IfErr};
ghost use Rattle.std.specs.List.{All};
ghost use Rattle.tera_errors.specs.Prelude.{Lacks};
ghost use Rattle.tera_meaning.specs.Prelude.{ancestors, Registry};
ghost use Rattle.tera_meaning.specs.Registry.{Entry as Meant};
ghost use Rattle.tera_registry.specs.Bodies.{codes_of, listings, AreStarts};
ghost use Rattle.tera_registry.specs.Choices.{chosen};
ghost use Rattle.tera_registry.specs.Definers.{Climbable};
ghost use Rattle.tera_registry.specs.Kept.{Rises, entries_of, seen};
ghost use Rattle.tera_registry.specs.Linking.{AreLinked, Knows, above_block};
ghost use Rattle.tera_registry.specs.Numbers.{above_in, above_of, aboves, blocks_in, first_of, lineage};
ghost use Rattle.tera_registry.specs.References.{LeadsTo, AreLinks, IsLinked, chunk_of, place_of, choice_of};

use crate::code::{Code, Take, TemplateBlock};
use crate::component_table::ComponentAt;
use crate::definers::first_definer_above;
use crate::has_body::HasBody;
use crate::numbers::{block_number, starts};
use crate::resolve::resolve;
use crate::roots::Parent;
use crate::template::Template;
use std::alloc::{AllocError, Global};
use std::collections::BTreeMap;
use std::rc::Rc;
use tera_errors::TeraResult;
use tera_values::Name;

/// What a reference of code leads to, as far as there is something: the template at a position, or the definition that is taken of
/// a component.
#[derive(Clone, Copy)]
pub enum Link {
    Template(Option<usize>),
    Component(Option<ComponentAt>),
}

impl Link {
    /// The position of a template, if it leads to one.
    pub fn template(&self) -> Option<usize>
        ensures { result ≡ place_of self.now }
    {
        match self {
            Link::Template(place) => *place,
            Link::Component(_) => None,
        }
    }

    /// The definition of a component, if it leads to one.
    pub fn component(&self) -> Option<ComponentAt>
        ensures { result ≡ choice_of self.now }
    {
        match self {
            Link::Template(_) => None,
            Link::Component(choice) => *choice,
        }
    }
}

/// A body: its code, which templates share, and what each thing that the code takes leads to.
#[derive(Drop)]
pub struct LinkedBody {
    pub code: Rc<Code>,
    pub links: Vec<Link>,
    /// Of the body of a block, the number of the next one above that defines it.
    pub above: Option<usize>,
}

/// The bodies of all templates, in the order of the templates: of each its own, then its blocks, then its components. Beside them
/// the number of the first body of each template.
#[derive(Drop)]
pub struct BodyTable {
    pub entries: Vec<LinkedBody>,
    pub starts: Vec<usize>,
}

impl BodyTable {
    /// No body yet. Takes no memory.
    pub fn new(alloc: Global) -> BodyTable
        ensures entries { result.entries.items ≡ [] }
        ensures starts { result.starts.items ≡ [] }
    {
        BodyTable {
            entries: Vec::new(alloc),
            starts: Vec::new(alloc),
        }
    }
}

/// What is linked to, where a batch is linked: these templates, and what is taken of each component.
#[derive(Clone, Copy)]
pub(crate) struct Targets<'t> {
    pub(crate) templates: &'t [Rc<Template>],
    pub(crate) prefixes: &'t [String],
    pub(crate) choices: &'t BTreeMap<String, ComponentAt>,
}

impl<'t> Targets<'t> {
    // What is taken of a component, if something is.
    fn component(&self, name: &str) -> Option<ComponentAt>
        ensures { result ≡ chosen self.now.choices.now name.now }
    {
        match self.choices.get(name) {
            Some(choice) => Some(*choice),
            None => None,
        }
    }

    // What is taken leads there.
    fn link(&self, take: &Take) -> Link
        requires { Rises (entries_of self.now.templates.now) }
        ensures { LeadsTo (seen self.now.templates.now self.now.prefixes.now)
            self.now.choices.now take.now result }
    {
        let name = take.name.as_str();
        if take.is_component {
            return Link::Component(self.component(name));
        }
        Link::Template(resolve(self.templates, self.prefixes, name))
    }

    // What all that is taken leads to.
    fn links(&self, alloc: Global, takes: &[Take]) -> Result<Vec<Link>, AllocError>
        requires { Rises (entries_of self.now.templates.now) }
        ensures { IfOk result (λ v. AreLinks (seen self.now.templates.now self.now.prefixes.now)
            self.now.choices.now takes.now v.items (length takes.now)) }
    {
        let mut links = Vec::new(alloc);
        for take in takes {
            links.push(self.link(take))?;
        }
        Ok(links)
    }

    // The entry of code, above which none is known.
    pub(crate) fn entry(&self, alloc: Global, code: &Rc<Code>) -> TeraResult<LinkedBody>
        requires { Rises (entries_of self.now.templates.now) }
        ensures code { IfOk result (λ e. chunk_of e ≡ code.now.value.chunk) }
        ensures above { IfOk result (λ e. above_of e ≡ None) }
        ensures right { IfOk result (IsLinked
            (seen self.now.templates.now self.now.prefixes.now) self.now.choices.now) }
        ensures lacks { IfErr result Lacks }
    {
        let code = code.clone()?;
        let links = self.links(alloc, code.takes.as_slice())?;
        Ok(LinkedBody {
            code,
            links,
            above: None,
        })
    }

    // Puts the entry of each behind those of other bodies.
    pub(crate) fn add_all<B: HasBody>(
        &self,
        alloc: Global,
        all: &[B],
        entries: &mut Vec<LinkedBody>,
    ) -> TeraResult<()>
        requires rises { Rises (entries_of self.now.templates.now) }
        requires right { AreLinked self.now entries.old.items }
        ensures codes { OnOk result (map chunk_of entries.new.items
            ≡ map chunk_of entries.old.items ++ map B.listing all.now) }
        ensures aboves { OnOk result (map above_of entries.new.items
            ≡ map above_of entries.old.items ++ map (λ _. None) all.now) }
        ensures right { OnOk result (AreLinked self.now entries.new.items) }
        ensures lacks { IfErr result Lacks }
    {
        for one in all {
            entries.push(self.entry(alloc, one.code())?)?;
        }
        Ok(())
    }
}

// What templates are linked by: what their code leads to, what each extends, and the number of its first body.
#[derive(Clone, Copy)]
struct Linking<'t> {
    targets: Targets<'t>,
    ups: &'t [Parent],
    starts: &'t [usize],
}

impl<'t> Linking<'t> {
    // The number of the next body that defines the block of a name above a template.
    fn next_definer(&self, of: usize, name: &Name) -> Result<Option<usize>, AllocError>
        ghost registry: { Registry }
        requires knows { Knows registry self.now }
        requires there { of < length self.now.targets.templates.now }
        ensures { (t : Meant) → slice_get registry.templates of ≡ Some t → IfOk result
            (λ n. n ≡ first_of (lineage registry name.now (ancestors registry t))) }
    {
        let sought = name.as_name_ref();
        match first_definer_above(self.targets.templates, self.ups, of, &sought) {
            None => Ok(None),
            Some(at) => Ok(Some(block_number(self.starts, at)?)),
        }
    }

    // The entry of a block of a template.
    fn block_entry(&self, alloc: Global, of: usize, block: &TemplateBlock) -> TeraResult<LinkedBody>
        ghost registry: { Registry }
        requires knows { Knows registry self.now }
        requires there { of < length self.now.targets.templates.now }
        ensures code { IfOk result (λ e. chunk_of e ≡ block.now.code.value.chunk) }
        ensures above { (t : Meant) → slice_get registry.templates of ≡ Some t
            → IfOk result (λ e. above_of e ≡ above_block registry t block.now) }
        ensures right { IfOk result (IsLinked (seen self.now.targets.templates.now
            self.now.targets.prefixes.now) self.now.targets.choices.now) }
        ensures lacks { IfErr result Lacks }
    {
        let mut entry = self.targets.entry(alloc, &block.code)?;
        entry.above = self.next_definer(of, &block.name)?;
        Ok(entry)
    }

    // Puts the entries of a template's blocks behind those of other bodies.
    fn add_blocks(
        &self,
        alloc: Global,
        of: usize,
        blocks: &[TemplateBlock],
        entries: &mut Vec<LinkedBody>,
    ) -> TeraResult<()>
        ghost registry: { Registry }
        requires knows { Knows registry self.now }
        requires there { of < length self.now.targets.templates.now }
        requires right { AreLinked self.now.targets entries.old.items }
        ensures codes { OnOk result (map chunk_of entries.new.items
            ≡ map chunk_of entries.old.items ++ map (λ b. b.code.value.chunk) blocks.now) }
        ensures aboves { (t : Meant) → slice_get registry.templates of ≡ Some t
            → OnOk result (map above_of entries.new.items ≡ map above_of entries.old.items
            ++ map (above_block registry t) blocks.now) }
        ensures right { OnOk result (AreLinked self.now.targets entries.new.items) }
        ensures lacks { IfErr result Lacks }
    {
        for block in blocks {
            entries.push(self.block_entry(alloc, of, block)?)?;
        }
        Ok(())
    }

    // The same for all bodies of the template at a position.
    fn add(&self, alloc: Global, of: usize, entries: &mut Vec<LinkedBody>) -> TeraResult<()>
        ghost registry: { Registry }
        requires knows { Knows registry self.now }
        requires there { of < length self.now.targets.templates.now }
        requires right { AreLinked self.now.targets entries.old.items }
        ensures codes { (t : Meant) → slice_get registry.templates of ≡ Some t
            → OnOk result (map chunk_of entries.new.items
            ≡ map chunk_of entries.old.items ++ codes_of t) }
        ensures aboves { (t : Meant) → slice_get registry.templates of ≡ Some t
            → OnOk result (map above_of entries.new.items
            ≡ map above_of entries.old.items ++ map (above_in registry) (blocks_in t)) }
        ensures right { OnOk result (AreLinked self.now.targets entries.new.items) }
        ensures lacks { IfErr result Lacks }
    {
        let template: &Template = &self.targets.templates[of];
        entries.push(self.targets.entry(alloc, &template.body)?)?;
        self.add_blocks(alloc, of, template.blocks.as_slice(), entries)?;
        self.targets
            .add_all(alloc, template.components.as_slice(), entries)
    }
}

/// The table of templates, of which it is known what each extends. What is taken leads to these, and to what is taken of components.
pub fn table_of(
    alloc: Global,
    templates: &[Rc<Template>],
    prefixes: &[String],
    ups: &[Parent],
    choices: &BTreeMap<String, ComponentAt>,
) -> TeraResult<BodyTable>
    ghost registry: { Registry }
    requires rises { Rises (entries_of templates.now) }
    requires climbable { Climbable registry templates.now ups.now }
    ensures whole { IfOk result
        (λ t. map chunk_of t.entries.items ≡ listings (entries_of templates.now)) }
    ensures starts { IfOk result
        (λ t. AreStarts (entries_of templates.now) t.starts.items (length templates.now)) }
    ensures aboves { IfOk result (λ t. map above_of t.entries.items ≡ aboves registry) }
    ensures right { IfOk result
        (λ t. All (IsLinked (seen templates.now prefixes.now) choices.now) t.entries.items) }
    ensures lacks { IfErr result Lacks }
{
    let starts = starts(alloc, templates)?;
    let linking = Linking {
        targets: Targets {
            templates,
            prefixes,
            choices,
        },
        ups,
        starts: starts.as_slice(),
    };
    let mut entries = Vec::new(alloc);
    for position in 0..templates.len() {
        linking.add(alloc, position, &mut entries)?;
    }
    Ok(BodyTable { entries, starts })
}
