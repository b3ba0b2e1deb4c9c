// A text beside the templates: a table of its own.
ghost use Rattle.std.specs.Prelude.{◌≡◌, [], map, option_map, IfOk, IfErr, IfSome};
ghost use Rattle.std.specs.Coded.{codes};
ghost use Rattle.std.specs.List.{All};
ghost use Rattle.tera_errors.specs.Prelude.{Lacks, Name, Tells, message};
ghost use Rattle.tera_syntax_tree.specs.Prelude.{blocks};
ghost use Rattle.tera_syntax_tree.specs.Tree.{Tree};
ghost use Rattle.tera_code.specs.Prelude.{nodes_code};
ghost use Rattle.tera_code.specs.contracts.chunk.Chunk as chunk;
ghost use Rattle.tera_meaning.specs.Prelude.{knows_beside, lacks_a_callee, Registry};
ghost use Rattle.tera_registry.specs.Components.{kept_of, kept_all, kept_names, first_kept};
ghost use Rattle.tera_registry.specs.HandedOut.{code_of, found_of};
ghost use Rattle.tera_registry.specs.Kept.{seen};
ghost use Rattle.tera_registry.specs.Known.{beside};
ghost use Rattle.tera_registry.specs.Places.{ArePlaces};
ghost use Rattle.tera_registry.specs.References.{chunk_of, IsLinked, IsLinked-prop};
ghost use Rattle.tera_registry.specs.Templates.{with_templates};

use crate::body::Body;
use crate::body_table::LinkedBody;
use crate::code::Code;
use crate::components::Component;
use crate::inventory::Inventory;
use crate::places::component_places;
use crate::templates::{Defined, Templates};
use crate::text_components::TextComponents;
use crate::told_missing::{NamedText, missing_error_of_text};
use std::alloc::Global;
use std::collections::BTreeMap;
use tera_code::Chunk;
use tera_errors::{Error, TeraResult};
use tera_state::Objects;

/// A text beside templates: its body and those of the components that it defines, linked to these templates. A component is found by
/// its name in a map.
#[derive(Drop)]
pub struct TextTable<'t> {
    pub templates: &'t Templates,
    pub body: LinkedBody,
    pub components: Vec<Component>,
    entries: Vec<LinkedBody>,
    places: BTreeMap<String, usize>,
    ghost linked: { IsLinked (seen templates.now.all.items templates.now.prefixes.items)
        templates.now.choices body } by { Prim.hlevel IsLinked-prop },
    ghost whole: { map chunk_of entries.items
        ≡ map (λ c. c.code.value.chunk) components.items } by { Prim.hlevel
            (codes, chunk.the_row.coded) },
    ghost right: { All (IsLinked (seen templates.now.all.items templates.now.prefixes.items)
        templates.now.choices) entries.items } by { Prim.hlevel IsLinked-prop },
    ghost placed: { ArePlaces (kept_names components.items) places } by { Prim.hlevel codes },
}

impl<'t> TextTable<'t> {
    /// The text that has this body and these components.
    pub fn new(
        alloc: Global,
        templates: &'t Templates,
        body: Chunk,
        components: Vec<Component>,
    ) -> TeraResult<TextTable<'t>>
        ensures templates { IfOk result (λ t. t.templates.now ≡ templates.now) }
        ensures body { IfOk result (λ t. chunk_of t.body ≡ body) }
        ensures components { IfOk result (λ t. map kept_of t.components.items
            ≡ map kept_of components.items) }
        ensures lacks { IfErr result Lacks }
    {
        let targets = templates.targets();
        let code = Code::new(alloc, body)?;
        let body = targets.entry(alloc, &code)?;
        let places = component_places(alloc, components.as_slice())?;
        let mut entries = Vec::new(alloc);
        targets.add_all(alloc, components.as_slice(), &mut entries)?;
        Ok(TextTable {
            templates,
            body,
            components,
            entries,
            places,
        })
    }

    /// Its own body.
    pub fn body(&self) -> Body<'_>
        ensures templates { result.templates.now ≡ self.now.templates.now }
        ensures code { code_of result ≡ chunk_of self.now.body }
    {
        Body::new(self.templates, &self.body)
    }

    /// The first of its components that has this name. Takes no memory.
    pub fn component(&self, name: &str) -> Option<Defined<'_>>
        ensures templates { IfSome result
            (λ d. d.body.templates.now ≡ self.now.templates.now) }
        ensures first { option_map found_of result
            ≡ first_kept name.now (map kept_of self.now.components.items) }
    {
        let place = *self.places.get(name)?;
        let component: &Component = &self.components[place];
        Some(Defined {
            definition: &component.definition,
            body: Body::new(self.templates, &self.entries[place]),
        })
    }

    // What its names are looked up among.
    fn inventory<'x, O: Objects>(&'x self, objects: &'x O) -> Inventory<'x, O>
        ensures templates { result.templates.now ≡ self.now.templates.now.all.items }
        ensures prefixes { result.prefixes.now ≡ self.now.templates.now.prefixes.items }
        ensures choices { result.choices.now ≡ self.now.templates.now.choices }
        ensures own { beside result.own ≡ self.now.components.items }
        ensures objects { result.objects.now ≡ objects.now }
    {
        Inventory {
            alloc: self.templates.alloc,
            templates: self.templates.all.as_slice(),
            prefixes: self.templates.prefixes.as_slice(),
            choices: &self.templates.choices,
            own: Some(TextComponents {
                components: self.components.as_slice(),
                places: &self.places,
            }),
            objects,
        }
    }

    /// Whether it calls what is not there, where it has no block. Takes no memory.
    pub fn has_missing_callee<O: Objects>(&self, objects: &O) -> bool
        ensures { (r : Registry) (tree : Tree) (file : Name) → r.engine ≡ O.engine objects.now
            → (chunk_of self.now.body).code ≡ nodes_code tree.nodes 0
            → map kept_of self.now.components.items ≡ kept_all file tree.definitions
            → blocks tree.nodes ≡ []
            → result ≡ lacks_a_callee
            (knows_beside (with_templates r self.now.templates.now) tree) tree }
    {
        let there = self.inventory(objects);
        let code: &Code = &self.body.code;
        there.code_has_missing_callee(&code.chunk)
            || there.any_has_missing_callee(self.components.as_slice())
    }

    /// One refusal that names all that it calls and that is not there.
    #[inline(never)]
    pub fn missing_error<'x, O: Objects>(
        &'x self,
        file: &'x str,
        source: &'x str,
        objects: &'x O,
    ) -> Error
        ensures { Tells result message }
    {
        let code: &Code = &self.body.code;
        let text = NamedText { file, source };
        missing_error_of_text(self.inventory(objects), text, &code.chunk)
    }
}
