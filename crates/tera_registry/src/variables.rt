// The names that a template wants to be given.
ghost use Rattle.std.specs.Prelude.{◌≡◌, ◌<◌, ◌∷◌, [], length, slice_get, IfOk, OnOk, IfErr, Some};
ghost use Rattle.std.specs.BTreeSet.{IsOrdered};
ghost use Rattle.std.specs.String.{string_cmp};
ghost use Rattle.tera_errors.specs.Prelude.{Lacks};
ghost use Rattle.tera_meaning.specs.Prelude.{includes_of, ancestors, Entry, given, if_given, given_in, variables};
ghost use Rattle.tera_syntax_tree.specs.Prelude.{only, ◌∪◌, names_in};
ghost use Rattle.tera_registry.specs.Definers.{Grounded};
ghost use Rattle.tera_registry.specs.Edges.{all_at, AreThere};
ghost use Rattle.tera_registry.specs.Kept.{Rises, entry_of, entries_of, seen};
ghost use Rattle.tera_registry.specs.Reached.{AreReached, Reaches, IsClosure, Uncircled};

use crate::include_edges::included_position;
use crate::roots::{Parent, parent_of};
use crate::template::Template;
use std::alloc::{AllocError, Global};
use std::collections::BTreeSet;
use std::rc::Rc;
use tera_errors::TeraResult;
use tera_syntax_tree::variables::add;

/// Where a template and its parents stand, nearest first.
fn lineage(
    alloc: Global,
    templates: &[Rc<Template>],
    prefixes: &[String],
    from: usize,
) -> Result<Vec<usize>, AllocError>
    requires rises { Rises (entries_of templates.now) }
    requires grounded { Grounded (seen templates.now prefixes.now) }
    requires there { from < length templates.now }
    ensures those { (t : Entry) → slice_get (entries_of templates.now) from ≡ Some t → IfOk result
        (λ v. all_at (entries_of templates.now) v.items
        ≡ t ∷ ancestors (seen templates.now prefixes.now) t) }
    ensures there { IfOk result (λ v. AreThere v.items (length templates.now)) }
{
    let mut positions = Vec::new(alloc);
    let mut last = from;
    'up: loop {
        positions.push(last)?;
        let template: &Template = &templates[last];
        match parent_of(templates, prefixes, template) {
            Parent::At(next) => last = next,
            Parent::None => return Ok(positions),
            Parent::Missing => return Ok(positions),
        }
    }
}

/// Notes that a template was reached, if it was not before.
fn reach(reached: &mut Vec<usize>, marks: &mut [bool], position: usize) -> Result<(), AllocError>
    requires { position < length marks.old }
    ensures { OnOk result ((es : _) (t : Entry) → AreReached es reached.old.items marks.old
        → slice_get es position ≡ Some t
        → Reaches es (t ∷ []) reached.old.items reached.new.items marks.new) }
{
    if marks[position] {
        return Ok(());
    }
    reached.push(position)?;
    marks[position] = true;
    Ok(())
}

/// Reaches those that a template includes.
fn reach_included(
    templates: &[Rc<Template>],
    prefixes: &[String],
    of: &Template,
    reached: &mut Vec<usize>,
    marks: &mut [bool],
) -> Result<(), AllocError>
    requires rises { Rises (entries_of templates.now) }
    requires reached { AreReached (entries_of templates.now) reached.old.items marks.old }
    ensures { OnOk result (Reaches (entries_of templates.now)
        (includes_of (seen templates.now prefixes.now) (entry_of of.now))
        reached.old.items reached.new.items marks.new) }
{
    for need in &of.needs {
        if let Some(position) = included_position(templates, prefixes, need) {
            reach(reached, marks, position)?;
        }
    }
    Ok(())
}

/// Reaches those that stand at these positions.
fn reach_all(
    positions: &[usize],
    reached: &mut Vec<usize>,
    marks: &mut [bool],
) -> Result<(), AllocError>
    requires { AreThere positions.now (length marks.old) }
    ensures { OnOk result ((es : _) → AreReached es reached.old.items marks.old
        → Reaches es (all_at es positions.now) reached.old.items reached.new.items marks.new) }
{
    for &position in positions {
        reach(reached, marks, position)?;
    }
    Ok(())
}

/// Where those stand to which includes lead from these positions, and these. Each template is looked at once.
fn closure(
    alloc: Global,
    templates: &[Rc<Template>],
    prefixes: &[String],
    from: &[usize],
) -> Result<Vec<usize>, AllocError>
    requires rises { Rises (entries_of templates.now) }
    requires there { AreThere from.now (length templates.now) }
    ensures { IfOk result (λ v. IsClosure (seen templates.now prefixes.now) from.now v.items) }
{
    let mut all_marks = vec![in alloc; false; templates.len()]?;
    let marks = all_marks.as_mut_slice();
    let mut reached = Vec::new(alloc);
    reach_all(from, &mut reached, marks)?;
    for next in 0..templates.len() {
        if next >= reached.len() {
            return Ok(reached);
        }
        let position = reached[next];
        let template: &Template = &templates[position];
        reach_included(templates, prefixes, template, &mut reached, marks)?;
    }
    Ok(reached)
}

/// Whether a caller can give a value by this name.
fn is_given(name: &str) -> bool
    ensures { result ≡ given name.now }
{
    !name.as_bytes().starts_with(b"__tera_")
}

/// Puts a name among those that were found, if a caller can give a value by it.
fn add_given(alloc: Global, name: &str, found: &mut BTreeSet<String>) -> Result<(), AllocError>
    ensures { OnOk result (names_in found.new ≡ if_given (only name.now) ∪ names_in found.old) }
{
    if is_given(name) {
        return add(alloc, name, found);
    }
    Ok(())
}

/// Puts those of the names that are free in a template's text among those that were found.
fn add_all(alloc: Global, of: &Template, found: &mut BTreeSet<String>) -> Result<(), AllocError>
    ensures { OnOk result
        (names_in found.new ≡ given_in (entry_of of.now) ∪ names_in found.old) }
{
    for name in &of.free {
        add_given(alloc, name.as_str(), found)?;
    }
    Ok(())
}

/// The names that are free in the template at a position, in its parents, and in all that these include.
pub fn variables(
    alloc: Global,
    templates: &[Rc<Template>],
    prefixes: &[String],
    from: usize,
) -> TeraResult<BTreeSet<String>>
    requires rises { Rises (entries_of templates.now) }
    requires grounded { Grounded (seen templates.now prefixes.now) }
    requires uncircled { Uncircled (seen templates.now prefixes.now) }
    requires there { from < length templates.now }
    ensures ok { (t : Entry) → slice_get (entries_of templates.now) from ≡ Some t → IfOk result
        (λ s. names_in s ≡ variables (seen templates.now prefixes.now) t) }
    ensures ordered { IfOk result (λ s. IsOrdered string_cmp s) }
    ensures lacks { IfErr result Lacks }
{
    let lineage = lineage(alloc, templates, prefixes, from)?;
    let reached = closure(alloc, templates, prefixes, lineage.as_slice())?;
    let positions = reached.as_slice();
    let mut found = BTreeSet::new(alloc);
    for &position in positions {
        let template: &Template = &templates[position];
        add_all(alloc, template, &mut found)?;
    }
    // Says that they are in order.
    let _len = found.len();
    Ok(found)
}
