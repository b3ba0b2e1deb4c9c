// Who defines a block for a template, and which blocks are lost.
ghost use Rattle.std.specs.Prelude.{◌≡◌, ◌<◌, ◌∷◌, length, slice_get, option_map, Some, None, IfSome};
ghost use Rattle.std.specs.List.{list_any};
ghost use Rattle.tera_meaning.specs.Prelude.{loses_a_block, lacks_something, knows, lacks_a_callee, ancestors, Entry, Registry};
ghost use Rattle.tera_registry.specs.Choices.{AreChosen};
ghost use Rattle.tera_registry.specs.Definers.{Climbable, names_of};
ghost use Rattle.tera_registry.specs.Kept.{Rises, entry_of, entries_of, seen_by};
ghost use Rattle.tera_registry.specs.Known.{known_in};
ghost use Rattle.tera_registry.specs.OutsideCalls.{is_missing_call};
ghost use Rattle.tera_registry.specs.Numbers.{first_of, lineage, number_at};
ghost use Rattle.tera_registry.specs.Places.{place_from};

use crate::component_table::ComponentAt;
use crate::inventory::Inventory;
use crate::outside_calls::OutsideCall;
use crate::roots::Parent;
use crate::template::Template;
use std::alloc::Global;
use std::collections::BTreeMap;
use std::rc::Rc;
use tera_state::Objects;
use tera_values::NameRef;

/// Where a block stands: the position of its template, and which of its blocks it is.
#[derive(Clone, Copy)]
pub struct BlockAt {
    pub template: usize,
    pub block: usize,
}

/// Where a block of this name stands among those of a template.
fn own_block(template: &Template, block: &NameRef<'_>) -> Option<usize>
    ensures { result ≡ place_from block.now 0 (names_of (entry_of template.now)) }
{
    let position = template.places.get(block.as_str())?;
    Some(*position)
}

/// Where the first of those stands who define a block, from a template on: itself, then its parents.
pub fn first_definer(
    templates: &[Rc<Template>],
    ups: &[Parent],
    from: usize,
    block: &NameRef<'_>,
) -> Option<BlockAt>
    ghost registry: { Registry }
    requires climbable { Climbable registry templates.now ups.now }
    requires there { from < length templates.now }
    ensures there { IfSome result (λ at. at.template < length templates.now) }
    ensures number { (t : Entry) → slice_get registry.templates from ≡ Some t
        → option_map (number_at registry.templates) result
        ≡ first_of (lineage registry block.now (t ∷ ancestors registry t)) }
{
    let mut last = from;
    'up: loop {
        let template: &Template = &templates[last];
        if let Some(position) = own_block(template, block) {
            return Some(BlockAt {
                template: last,
                block: position,
            });
        }
        match ups[last] {
            Parent::At(next) => last = next,
            Parent::None => return None,
            Parent::Missing => return None,
        }
    }
}

/// Where the first of those stands who define a block above a template.
pub fn first_definer_above(
    templates: &[Rc<Template>],
    ups: &[Parent],
    of: usize,
    block: &NameRef<'_>,
) -> Option<BlockAt>
    ghost registry: { Registry }
    requires climbable { Climbable registry templates.now ups.now }
    requires there { of < length templates.now }
    ensures there { IfSome result (λ at. at.template < length templates.now) }
    ensures number { (t : Entry) → slice_get registry.templates of ≡ Some t
        → option_map (number_at registry.templates) result
        ≡ first_of (lineage registry block.now (ancestors registry t)) }
{
    match ups[of] {
        Parent::At(next) => first_definer(templates, ups, next, block),
        Parent::None => None,
        Parent::Missing => None,
    }
}

/// Whether a template extends another and has a block, inside no other block, that none of its parents has.
fn has_orphan_block(templates: &[Rc<Template>], ups: &[Parent], of: usize) -> bool
    ghost registry: { Registry }
    requires climbable { Climbable registry templates.now ups.now }
    requires there { of < length templates.now }
    ensures { (t : Entry) → slice_get registry.templates of ≡ Some t
        → result ≡ loses_a_block registry t }
{
    let template: &Template = &templates[of];
    if template.parent.is_none() {
        return false;
    }
    for name in &template.tops {
        let sought = name.as_name_ref();
        match first_definer_above(templates, ups, of, &sought) {
            None => return true,
            Some(_) => {}
        }
    }
    false
}

/// Whether what is needed is not there: no object, no component, and no template.
fn is_missing_call<O: Objects>(there: &Inventory<'_, O>, need: &OutsideCall) -> bool
    ensures { result ≡ is_missing_call (known_in O.engine there.now) need.now }
{
    !there.is_known(need.callee())
}

/// Whether something of what is needed is not there.
fn has_missing_call<O: Objects>(there: &Inventory<'_, O>, needs: &[OutsideCall]) -> bool
    ensures { result ≡ list_any (is_missing_call (known_in O.engine there.now)) needs.now }
{
    needs.iter().any(|need| is_missing_call(there, need))
}

/// Whether a template calls what is not there. What is built in is none of its needs.
fn has_missing_callee<O: Objects>(there: &Inventory<'_, O>, of: &Template) -> bool
    requires { there.now.own ≡ None }
    ensures { (r : Registry) → AreChosen r there.now.choices.now
        → r ≡ seen_by (O.engine there.now.objects.now) there.now.templates.now there.now.prefixes.now
        → result ≡ lacks_a_callee (knows r) (entry_of of.now).1.tree }
{
    has_missing_call(there, of.needs.as_slice())
}

/// Whether a template names what is not there: a block that is never put out, or what it calls.
fn is_incomplete<O: Objects>(there: &Inventory<'_, O>, ups: &[Parent], of: usize) -> bool
    ghost registry: { Registry }
    requires climbable { Climbable registry there.now.templates.now ups.now }
    requires there { of < length there.now.templates.now }
    requires choices { AreChosen registry there.now.choices.now }
    requires alone { there.now.own ≡ None }
    requires registry { registry ≡ seen_by (O.engine there.now.objects.now)
        there.now.templates.now there.now.prefixes.now }
    ensures { (t : Entry) → slice_get registry.templates of ≡ Some t
        → result ≡ lacks_something registry t }
{
    let template: &Template = &there.templates[of];
    has_orphan_block(there.templates, ups, of) || has_missing_callee(there, template)
}

/// Whether any template names what is not there, where this is what each extends, and these are the definitions of components that
/// are taken, and the objects.
pub fn any_is_incomplete<'a, O: Objects>(
    alloc: Global,
    templates: &'a [Rc<Template>],
    prefixes: &'a [String],
    ups: &[Parent],
    choices: &'a BTreeMap<String, ComponentAt>,
    objects: &'a O,
) -> bool
    ghost registry: { Registry }
    requires rises { Rises (entries_of templates.now) }
    requires climbable { Climbable registry templates.now ups.now }
    requires choices { AreChosen registry choices.now }
    requires registry { registry ≡ seen_by (O.engine objects.now) templates.now prefixes.now }
    ensures { result ≡ list_any (lacks_something registry) registry.templates }
{
    let there = Inventory {
        alloc,
        templates,
        prefixes,
        choices,
        own: None,
        objects,
    };
    for position in 0..templates.len() {
        if is_incomplete(&there, ups, position) {
            return true;
        }
    }
    false
}
