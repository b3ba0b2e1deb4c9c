// Links templates, and refuses those that do not go together.
ghost use Rattle.std.specs.Prelude.{◌≡◌, length, map, IfOk};
ghost use Rattle.std.specs.List.{All};
ghost use Rattle.tera_errors.specs.Prelude.{Gives};
ghost use Rattle.tera_meaning.specs.Prelude.{accepted, Registry};
ghost use Rattle.tera_registry.specs.Choices.{AreChosen};
ghost use Rattle.tera_registry.specs.Links.{AreUps, AreRoots};
ghost use Rattle.tera_registry.specs.Kept.{Rises, entries_of, seen, seen_by};
ghost use Rattle.tera_registry.specs.Bodies.{listings, AreStarts};
ghost use Rattle.tera_registry.specs.Numbers.{above_of, aboves};
ghost use Rattle.tera_registry.specs.References.{chunk_of, IsLinked};

use crate::body_table::{BodyTable, table_of};
use crate::component_table::{ComponentAt, ComponentTable, components_by_name};
use crate::definers::any_is_incomplete;
use crate::include_circles::least_circle;
use crate::include_edges::edges;
use crate::roots::{Parent, parents_of_all, roots};
use crate::template::Template;
use crate::told_circles::fault_in_words;
use crate::told_missing::missing_error;
use std::alloc::Global;
use std::collections::BTreeMap;
use std::rc::Rc;
use tera_errors::TeraResult;
use tera_state::Objects;

/// How templates go together: what each extends, the position of the last parent of each, and which definition of each
/// component is taken, and what code names of all that.
#[derive(Drop)]
pub struct Links {
    pub ups: Vec<Parent>,
    pub roots: Vec<usize>,
    pub choices: BTreeMap<String, ComponentAt>,
    pub table: BodyTable,
}

/// Links templates. Refuses those that do not go together, with the first fault by name.
// The registry is named, since what is called here sees no prefixes and no engine.
pub fn link<O: Objects>(
    alloc: Global,
    templates: &[Rc<Template>],
    prefixes: &[String],
    objects: &O,
) -> TeraResult<Links>
    ghost registry: { Registry }
    requires rises { Rises (entries_of templates.now) }
    requires registry { registry ≡ seen_by (O.engine objects.now) templates.now prefixes.now }
    ensures answer { Gives (λ _. registry) result (accepted registry) }
    ensures ups { IfOk result (λ l. AreUps registry l.ups.items (length registry.templates)) }
    ensures roots { IfOk result (λ l. AreRoots registry l.roots.items (length registry.templates)) }
    ensures choices { IfOk result (λ l. AreChosen registry l.choices) }
    ensures whole { IfOk result
        (λ l. map chunk_of l.table.entries.items ≡ listings (entries_of templates.now)) }
    ensures starts { IfOk result (λ l. AreStarts (entries_of templates.now) l.table.starts.items
        (length templates.now)) }
    ensures aboves { IfOk result
        (λ l. map above_of l.table.entries.items ≡ aboves registry) }
    ensures right { IfOk result (λ l. All
        (IsLinked (seen templates.now prefixes.now) l.choices) l.table.entries.items) }
{
    let ups = parents_of_all(alloc, templates, prefixes)?;
    let edges = edges(alloc, templates, prefixes)?;
    let circle = least_circle(alloc, edges.as_slice())?;
    let ComponentTable { choices, tie } = components_by_name(alloc, templates, prefixes)?;
    let roots = match roots(alloc, ups.as_slice(), circle, tie) {
        Ok(roots) => roots,
        Err(fault) => {
            return Err(fault_in_words(
                alloc,
                templates,
                prefixes,
                ups.as_slice(),
                edges.as_slice(),
                tie,
                fault,
            ));
        }
    };
    if any_is_incomplete(
        alloc,
        templates,
        prefixes,
        ups.as_slice(),
        &choices,
        objects,
    ) {
        return Err(missing_error(
            alloc,
            templates,
            prefixes,
            ups.as_slice(),
            &choices,
            objects,
        ));
    }
    let table = table_of(alloc, templates, prefixes, ups.as_slice(), &choices)?;
    Ok(Links {
        ups,
        roots,
        choices,
        table,
    })
}
