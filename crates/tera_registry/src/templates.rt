// All templates of an engine, linked.
ghost use Rattle.std.specs.Prelude.{◌≡◌, ◌+◌, ◌<◌, IfOk, IfErr, IfSome, Some, None, Ok, map, length, slice_get, is_some, string_bytes, IsTrue, [], ◌∷◌, option_map};
ghost use Rattle.tera_errors.specs.Prelude.{Gives, GivesOneOf, Lacks};
ghost use Rattle.tera_syntax_tree.specs.Prelude.{delimiters_of, accepted};
ghost use Rattle.tera_meaning.specs.Prelude.{component, first_fault, is_component, ancestors, AreComponentNames, AnswersVariables, resolve, Entry, Registry};
ghost use Rattle.std.specs.Coded.{codes};
ghost use Rattle.tera_code.specs.contracts.chunk.Chunk as chunk;
ghost use Rattle.tera_registry.specs.contracts.component_table.ComponentAt as choice;
ghost use Rattle.tera_registry.specs.Choices.{AreChosen, IsTaken, chosen};
ghost use Rattle.std.specs.List.{All};
ghost use Rattle.tera_registry.specs.Bodies.{listings, start, AreStarts, AreRooted};
ghost use Rattle.tera_registry.specs.Numbers.{above_of, aboves, IsBlock, from_number, from_first, first_of, lineage};
ghost use Rattle.tera_registry.specs.References.{chunk_of, IsLinked, IsLinked-prop};
ghost use Rattle.tera_registry.specs.Order.{Rises, Rises-prop};
ghost use Rattle.tera_registry.specs.Links.{ArePlaced};
ghost use Rattle.tera_registry.specs.Positions.{IsPosition};
ghost use Rattle.tera_registry.specs.Kept.{entries_of, seen};
ghost use Rattle.tera_registry.specs.Batch.{ConfiguresOneOf, Adds, pairs_of};

use crate::batch::put_all;
use crate::body::Body;
use crate::body_table::{BodyTable, Targets};
use crate::component_table::ComponentAt;
use crate::definers::first_definer;
use crate::link::link;
use crate::resolve::resolve;
use crate::roots::Parent;
use crate::template::Template;
use crate::variables::variables;
use std::alloc::Global;
use std::collections::{BTreeMap, BTreeSet};
use std::rc::Rc;
use tera_components::ComponentDefinition;
use tera_errors::{Error, TeraResult};
use tera_state::Objects;
use tera_syntax_tree::Delimiters;
use tera_values::{Name, NameRef};

/// Templates by name, and the prefixes by which a name is looked up that none of them has.
pub struct Templates {
    pub(crate) alloc: Global,
    pub(crate) all: Vec<Rc<Template>>,
    pub(crate) prefixes: Vec<String>,
    /// What each extends, which is looked up when they are linked and never again.
    ups: Vec<Parent>,
    roots: Vec<usize>,
    pub(crate) choices: BTreeMap<String, ComponentAt>,
    /// All bodies, with what each include and each call of a component leads to, found once as well.
    table: BodyTable,
    ghost rises: { Rises (entries_of all.items) } by { Rises-prop _ },
    ghost faultless: { first_fault (seen all.items prefixes.items) [] (entries_of all.items)
        ≡ None },
    ghost placed: { ArePlaced (seen all.items prefixes.items) ups.items } by { Prim.hlevel codes },
    ghost rooted: { AreRooted (seen all.items prefixes.items) roots.items } by { Prim.hlevel
        (codes, chunk.the_row.coded) },
    ghost chosen: { AreChosen (seen all.items prefixes.items) choices } by { Prim.hlevel
        (codes, choice.the_row.coded) },
    ghost whole: { map chunk_of table.entries.items
        ≡ listings (entries_of all.items) } by { Prim.hlevel (codes, chunk.the_row.coded) },
    ghost starting: { AreStarts (entries_of all.items) table.starts.items
        (length all.items) } by { Prim.hlevel codes },
    ghost right: { All (IsLinked (seen all.items prefixes.items) choices)
        table.entries.items } by { Prim.hlevel IsLinked-prop },
    ghost climbed: { map above_of table.entries.items
        ≡ aboves (seen all.items prefixes.items) } by { Prim.hlevel codes },
}

// By hand, so that templates that go out of scope are one call.
impl Drop for Templates {
    fn drop(self) {
        let Templates {
            alloc: _,
            all,
            prefixes,
            ups,
            roots,
            choices,
            table,
        } = self;
        drop(all);
        drop(prefixes);
        drop(ups);
        drop(roots);
        drop(choices);
        drop(table);
    }
}

/// A template that was found by a name.
#[derive(Clone, Copy)]
pub struct FoundTemplate<'t> {
    pub name: &'t str,
    /// Those among which it was found.
    pub templates: &'t Templates,
    /// Where it stands among them: it alone does.
    pub position: usize,
    ghost stands: { slice_get (map (λ t. t.0) (entries_of templates.now.all.items)) position
        ≡ Some name.now } by { Prim.hlevel codes },
}

/// A component that was found by its name: what it is given, and its code.
#[derive(Clone, Copy)]
pub struct Defined<'t> {
    pub definition: &'t ComponentDefinition,
    pub body: Body<'t>,
}

impl<'t> FoundTemplate<'t> {
    ghost use Rattle.tera_meaning.specs.Lineage.{definers};
    ghost use Rattle.tera_registry.specs.HandedOut.{code_of, IsRootOf, IsOwnOf};
    ghost use Rattle.tera_registry.specs.Numbers.{first_number};
    ghost use Rattle.tera_registry.specs.Templates.{with_templates, definers_of, first_number_of, AreAmong};

    /// The body that a rendering of it begins with: that of the last of its parents, or its own.
    pub fn root(&self) -> Body<'t>
        ensures templates { result.templates.now ≡ self.now.templates.now }
        ensures code { (r : Registry) → IsRootOf (with_templates r self.now.templates.now)
            self.now.name.now (code_of result) }
    {
        let templates: &'t Templates = self.templates;
        templates.own_body(templates.roots[self.position])
    }

    /// Its own body, which is what an include of it runs.
    pub fn body(&self) -> Body<'t>
        ensures templates { result.templates.now ≡ self.now.templates.now }
        ensures code { (r : Registry) → IsOwnOf (with_templates r self.now.templates.now)
            self.now.name.now (code_of result) }
    {
        let templates: &'t Templates = self.templates;
        templates.own_body(self.position)
    }

    /// Those who define a block for the template, nearest first. Takes no memory.
    pub fn definers(&self, block: &str) -> Definers<'t>
        ensures among { (r : Registry) → with_templates r self.now.templates.now ≡ r
            → AreAmong r result }
        ensures those { (r : Registry) → definers_of result
            ≡ definers (with_templates r self.now.templates.now)
            (Some self.now.name.now) block.now }
        ensures number { (r : Registry) → first_number_of result
            ≡ first_number (with_templates r self.now.templates.now)
            self.now.name.now block.now }
    {
        let templates: &'t Templates = self.templates;
        let sought = NameRef::new(block);
        templates.definers_from(templates.first_number(self.position, &sought))
    }
}

/// Those who define a block, from one on, nearest first.
#[derive(Clone, Copy)]
pub struct Definers<'t> {
    start: Option<Start<'t>>,
}

/// The number of the body of the first of them.
#[derive(Clone, Copy)]
struct Start<'t> {
    templates: &'t Templates,
    number: usize,
    ghost stands: { IsBlock (entries_of templates.now.all.items) number } by { Prim.hlevel codes },
}

/// A block as one template defines it, the number of its body, and those who define it above.
#[derive(Clone, Copy)]
pub struct Definer<'t> {
    pub number: usize,
    pub body: Body<'t>,
    pub above: Definers<'t>,
}

impl<'t> Definers<'t> {
    ghost use Rattle.tera_registry.specs.Templates.{definers_of, first_number_of, with_templates, AreNext, AreAmong};

    /// Nobody.
    pub fn of_none() -> Definers<'t>
        ensures nobody { definers_of result ≡ [] }
        ensures number { first_number_of result ≡ None }
        ensures among { (r : Registry) → AreAmong r result }
    {
        Definers { start: None }
    }

    /// The first of them, with those above. Takes no memory, and looks for nothing.
    pub fn next(&self) -> Option<Definer<'t>>
        ensures next { AreNext (definers_of self.now) result }
        ensures number { option_map (λ d. d.number) result ≡ first_number_of self.now }
        ensures among { (r : Registry) → AreAmong r self.now → IfSome result (λ n.
            (with_templates r n.body.templates.now ≡ r) × AreAmong r n.above) }
    {
        match self.start {
            None => None,
            Some(start) => {
                let templates: &'t Templates = start.templates;
                Some(templates.definer(start.number))
            }
        }
    }
}

impl Templates {
    ghost use Rattle.tera_registry.specs.Templates.{templates_of, prefixes_of, with_templates, is_empty, Finds, IsDefined, registry_in, definers_of, first_number_of, AreNext, AreAmong};
    ghost use Rattle.tera_registry.specs.HandedOut.{code_of};
    ghost use Rattle.tera_errors.specs.Prelude.{Name};

    /// None yet. Takes no memory.
    pub fn new(alloc: Global, prefixes: Vec<String>) -> Templates
        ensures templates { templates_of result ≡ [] }
        ensures prefixes { prefixes_of result ≡ map string_bytes prefixes.items }
    {
        Templates {
            alloc,
            all: Vec::new(alloc),
            prefixes,
            ups: Vec::new(alloc),
            roots: Vec::new(alloc),
            choices: BTreeMap::new(alloc),
            table: BodyTable::new(alloc),
        }
    }

    /// Adds templates, all or none: each text is read and put at its name, in place of one that stood there. Refused
    /// where a text spells no tree, and where the templates do not go together or call what is not there, neither built in nor
    /// among the objects; then all is as before.
    ///
    /// Templates that stay are shared, so that nothing of them is copied but a count and a reference.
    pub fn add<O: Objects>(
        &mut self,
        delimiters: &Delimiters,
        batch: &[(&str, &str)],
        objects: &O,
    ) -> TeraResult<()>
        requires { IsTrue (accepted (delimiters_of delimiters.now)) }
        ensures { (r : Registry) → r.delimiters ≡ delimiters_of delimiters.now
            → r.engine ≡ O.engine objects.now
            → ConfiguresOneOf result (Adds (with_templates r self.old) (pairs_of batch.now))
            (with_templates r self.old) (with_templates r self.new) }
    {
        let mut all = self.all.clone()?;
        match put_all(self.alloc, delimiters, &mut all, batch) {
            Ok(()) => {}
            Err(error) => return Err(error),
        }
        let links = match link(
            self.alloc,
            all.as_slice(),
            self.prefixes.as_slice(),
            objects,
        ) {
            Ok(links) => links,
            Err(fault) => return Err(fault),
        };
        self.all = all;
        self.ups = links.ups;
        self.roots = links.roots;
        self.choices = links.choices;
        self.table = links.table;
        Ok(())
    }

    /// The template to which a name resolves. Takes no memory.
    pub fn find(&self, name: &str) -> Option<FoundTemplate<'_>>
        ensures { (r : Registry) → Finds (with_templates r self.now) name.now result }
    {
        let position = resolve(self.all.as_slice(), self.prefixes.as_slice(), name)?;
        Some(self.found_template_at(position))
    }

    // The body of this number.
    fn body(&self, number: usize) -> Body<'_>
        requires { number < length (listings (templates_of self.now)) }
        ensures templates { result.templates.now ≡ self.now }
        ensures code { slice_get (listings (templates_of self.now)) number
            ≡ Some (code_of result) }
    {
        Body::new(self, &self.table.entries[number])
    }

    // The number of the body that stands so far behind the own body of a template.
    #[inline(always)]
    fn number(&self, template: usize, offset: usize) -> usize
        requires template { template < length self.now.all.items }
        requires there { start (templates_of self.now) template + offset
            < length (listings (templates_of self.now)) }
        ensures { result ≡ start (templates_of self.now) template + offset }
    {
        self.table.starts[template] + offset
    }

    // The own body of the template at a position.
    #[inline(always)]
    fn own_body(&self, position: usize) -> Body<'_>
        requires { position < length self.now.all.items }
        ensures templates { result.templates.now ≡ self.now }
        ensures code { slice_get (listings (templates_of self.now))
            (start (templates_of self.now) position) ≡ Some (code_of result) }
    {
        self.body(self.number(position, 0))
    }

    // The template at a position, to which some names resolve.
    pub(crate) fn found_template_at(&self, position: usize) -> FoundTemplate<'_>
        requires { position < length self.now.all.items }
        ensures { (r : Registry) (name : Name)
            → IsPosition (templates_of self.now) (Some position)
            (resolve (with_templates r self.now) name)
            → Finds (with_templates r self.now) name (Some result) }
    {
        let template: &Template = &self.all[position];
        FoundTemplate {
            name: template.name.as_str(),
            templates: self,
            position,
        }
    }

    // The number of the body of the first of those who define a block, from a template on.
    fn first_number(&self, from: usize, block: &NameRef<'_>) -> Option<usize>
        ghost registry: { Registry }
        requires registry { registry ≡ registry_in self.now }
        requires there { from < length self.now.all.items }
        ensures { (t : Entry) → slice_get registry.templates from ≡ Some t
            → result ≡ first_of (lineage registry block.now (t ∷ ancestors registry t)) }
    {
        match first_definer(self.all.as_slice(), self.ups.as_slice(), from, block) {
            None => None,
            Some(at) => Some(self.number(at.template, 1 + at.block)),
        }
    }

    // Those who define a block, from the one on whose body has this number.
    fn definers_from(&self, number: Option<usize>) -> Definers<'_>
        requires { IfSome number (IsBlock (templates_of self.now)) }
        ensures those { definers_of result ≡ from_first (registry_in self.now) number }
        ensures number { first_number_of result ≡ number }
        ensures among { (r : Registry) → with_templates r self.now ≡ r → AreAmong r result }
    {
        match number {
            None => Definers::of_none(),
            Some(number) => Definers {
                start: Some(Start {
                    templates: self,
                    number,
                }),
            },
        }
    }

    // The block whose body has this number, with those who define it above.
    fn definer(&self, number: usize) -> Definer<'_>
        requires { IsBlock (templates_of self.now) number }
        ensures next { AreNext (from_number (registry_in self.now) number) (Some result) }
        ensures number { result.number ≡ number }
        ensures templates { result.body.templates.now ≡ self.now }
        ensures among { (r : Registry) → with_templates r self.now ≡ r → AreAmong r result.above }
    {
        Definer {
            number,
            body: self.body(number),
            above: self.definers_from(self.table.entries[number].above),
        }
    }

    /// Whether a name resolves to a template. Takes no memory.
    pub fn contains(&self, name: &str) -> bool
        ensures { (r : Registry) → result ≡ is_some (resolve (with_templates r self.now) name.now) }
    {
        resolve(self.all.as_slice(), self.prefixes.as_slice(), name).is_some()
    }

    /// The component of a name: the definition that is taken of it. Takes no memory.
    pub fn component(&self, name: &str) -> Option<Defined<'_>>
        ensures templates { IfSome result (λ d. d.body.templates.now ≡ self.now) }
        ensures defined { (r : Registry) → IsDefined
            (component (with_templates r self.now) name.now) result }
    {
        let choice = self.choices.get(name)?;
        Some(self.definition_at(*choice))
    }

    // The component of which this is taken.
    pub(crate) fn definition_at(&self, choice: ComponentAt) -> Defined<'_>
        requires { IsTaken self.now.choices choice }
        ensures templates { result.body.templates.now ≡ self.now }
        ensures defined { (r : Registry) (name : Name) → chosen self.now.choices name ≡ Some choice
            → IsDefined (component (with_templates r self.now) name) (Some result) }
    {
        let template: &Template = &self.all[choice.template];
        let component = &template.components[choice.component];
        let offset = 1 + template.blocks.len() + choice.component;
        Defined {
            definition: &component.definition,
            body: self.body(self.number(choice.template, offset)),
        }
    }

    /// Whether a template defines a component of this name. Takes no memory.
    pub fn contains_component(&self, name: &str) -> bool
        ensures { (r : Registry) → result ≡ is_component (with_templates r self.now) name.now }
    {
        self.choices.contains_key(name)
    }

    // What code beside the templates is linked to.
    pub(crate) fn targets(&self) -> Targets<'_>
        ensures templates { result.templates.now ≡ self.now.all.items }
        ensures prefixes { result.prefixes.now ≡ self.now.prefixes.items }
        ensures choices { result.choices.now ≡ self.now.choices }
    {
        Targets {
            templates: self.all.as_slice(),
            prefixes: self.prefixes.as_slice(),
            choices: &self.choices,
        }
    }

    /// The names of the templates, in byte order.
    pub fn names(&self) -> TeraResult<Vec<String>>
        ensures { Gives (λ v. map string_bytes v.items) result
            (Ok (map (λ t. t.0) (templates_of self.now))) }
    {
        let mut names = Vec::new(self.alloc);
        for template in &self.all {
            names.push(template.name.clone()?)?;
        }
        Ok(names)
    }

    /// The names of the components, each once, in byte order.
    pub fn component_names(&self) -> TeraResult<Vec<String>>
        ensures names { (r : Registry) → IfOk result
            (λ v. AreComponentNames (with_templates r self.now) (map string_bytes v.items)) }
        ensures lacks { IfErr result Lacks }
    {
        let mut names = Vec::new(self.alloc);
        for name in self.choices.keys() {
            names.push(name.clone()?)?;
        }
        Ok(names)
    }

    /// The names that the template wants to be given to which a name resolves: those that are free in it, in its parents, and in
    /// all that these include, each once. Refused with `TemplateNotFound` where there is none.
    pub fn variables(&self, name: &str) -> TeraResult<BTreeSet<String>>
        ensures { (r : Registry) → GivesOneOf (λ s. map string_bytes s.keys) result
            (AnswersVariables (with_templates r self.now)
            (resolve (with_templates r self.now) name.now)) }
    {
        let all = self.all.as_slice();
        let prefixes = self.prefixes.as_slice();
        match resolve(all, prefixes, name) {
            Some(position) => variables(self.alloc, all, prefixes, position),
            None => Err(Error::template_not_found()),
        }
    }

    /// Whether there is no template.
    pub fn is_empty(&self) -> bool
        ensures { result ≡ is_empty (templates_of self.now) }
    {
        self.all.is_empty()
    }
}
