// Items by an attribute.
ghost use Rattle.std.specs.Prelude.{◌≡◌, [], ◌∷◌, Ok, OnOk, IfErr, map as each, option_map};
ghost use Rattle.std.specs.List.{filter_map};
ghost use Rattle.tera_errors.specs.Prelude.{Gives, Lacks};
ghost use Rattle.tera_values.specs.Prelude.{plain, find, map as map_of, entries, key_view};
ghost use Rattle.tera_built_ins.specs.Arguments.{◌▸◌};
ghost use Rattle.tera_built_ins.specs.Attributes.{all_of};
ghost use Rattle.tera_built_ins.specs.Gathering.{AllOther, keyed_view, group_view, numbered, put_in, position_in};
ghost use Rattle.tera_built_ins.specs.Groups.{key_or_none, attribute_key, keyed_by, groups, group_arrays, group_by_of};

use crate::arguments::{as_array, needed_text};
use crate::attributes::attribute_of;
use crate::sorting::is_none;
use std::alloc::Global;
use tera_values::{Arguments, Key, Map, TeraResult, Value};

/// An item, and the key that its attribute is.
#[derive(Drop)]
pub(crate) struct Keyed<'a> {
    key: Key,
    item: &'a Value,
}

/// A key, and the items at it.
#[derive(Drop)]
pub(crate) struct Group {
    key: Key,
    items: Vec<Value>,
}

/// A map of the items of an array by an attribute of theirs: groups stand by first appearance, items in their order,
/// and those whose attribute is none are left out. A `Message` where an item has no such attribute, or it is no key.
pub fn group_by(alloc: Global, value: &Value, arguments: &Arguments<'_>) -> TeraResult<Value>
    ensures { Gives (λ v. v) result (group_by_of plain value.now arguments.now) }
{
    let items = as_array(alloc, value)?;
    if items.is_empty() {
        return Ok(Value::map(Map::new(alloc)));
    }
    match needed_text(arguments, "attribute") {
        Ok(attribute) => grouped_items(alloc, items, attribute.text),
        Err(error) => Err(error),
    }
}

fn grouped_items(alloc: Global, items: &[Value], path: &str) -> TeraResult<Value>
    ensures { Gives (λ v. v) result (all_of (keyed_by plain path.now) items.now
        ▸ λ keyed. Ok (group_arrays (groups (filter_map (λ e. e) keyed)))) }
{
    let keyed = with_keys(alloc, items, path)?;
    let gathered = gather_groups(alloc, keyed)?;
    Ok(Value::map(group_arrays(alloc, gathered)?))
}

fn with_keys<'a>(alloc: Global, items: &'a [Value], path: &str) -> TeraResult<Vec<Keyed<'a>>>
    ensures { Gives (λ v. each keyed_view v.items) result
        (all_of (keyed_by plain path.now) items.now ▸ λ keyed. Ok (filter_map (λ e. e) keyed)) }
{
    let mut keyed = Vec::new(alloc);
    for item in items {
        if let Some(key) = attribute_key(alloc, item, path)? {
            keyed.push(Keyed { key, item })?;
        }
    }
    Ok(keyed)
}

fn attribute_key(alloc: Global, item: &Value, path: &str) -> TeraResult<Option<Key>>
    ensures { Gives (λ o. option_map key_view o) result (attribute_key path.now item.now) }
{
    let attribute = attribute_of(alloc, item, path)?;
    key_or_none(alloc, attribute)
}

fn key_or_none(alloc: Global, attribute: &Value) -> TeraResult<Option<Key>>
    ensures { Gives (λ o. option_map key_view o) result (key_or_none attribute.now) }
{
    if is_none(attribute) {
        return Ok(None);
    }
    Ok(Some(attribute.as_key(alloc)?))
}

fn gather_groups(alloc: Global, keyed: Vec<Keyed<'_>>) -> TeraResult<Vec<Group>>
    ensures { Gives (λ v. each group_view v.items) result
        (Ok (groups (each keyed_view keyed.entry.items))) }
{
    let mut positions = Map::new(alloc);
    let mut gathered = Vec::new(alloc);
    for one in keyed {
        let Keyed { key, item } = one;
        put_in(alloc, key, item.try_clone()?, &mut positions, &mut gathered)?;
    }
    Ok(gathered)
}

/// Puts an item behind those of its key. The positions are those of the groups by their keys, so that no group is looked
/// for among all.
fn put_in(
    alloc: Global,
    key: Key,
    item: Value,
    positions: &mut Map,
    gathered: &mut Vec<Group>,
) -> TeraResult<()>
    requires { positions.old ≡ numbered 0 (each group_view gathered.old.items) }
    ensures positions { OnOk result
        (positions.new ≡ numbered 0 (each group_view gathered.new.items)) }
    ensures groups { OnOk result (each group_view gathered.new.items
        ≡ put_in (key_view key) item (each group_view gathered.old.items)) }
    ensures lacks { IfErr result Lacks }
{
    match position_of(positions, &key) {
        Some(position) => {
            gathered[position].items.push(item)?;
            Ok(())
        }
        None => {
            let position = gathered.len() as i128;
            positions.insert(key.try_clone()?, Value::from_int(position))?;
            gathered.push(group_of_one(alloc, key, item)?)?;
            Ok(())
        }
    }
}

fn group_of_one(alloc: Global, key: Key, item: Value) -> TeraResult<Group>
    ensures { Gives group_view result (Ok (key_view key, item ∷ [])) }
{
    let mut items = Vec::new(alloc);
    items.push(item)?;
    Ok(Group { key, items })
}

fn position_of(positions: &Map, key: &Key) -> Option<usize>
    ensures { result ≡ position_in (find (key_view key.now) positions.now) }
{
    let number = positions.get(key)?.as_i128()?;
    if number < 0 || number > usize::MAX as i128 {
        return None;
    }
    Some(number as usize)
}

fn group_arrays(alloc: Global, gathered: Vec<Group>) -> TeraResult<Map>
    requires { AllOther (each (λ g. g.0) (each group_view gathered.items)) }
    ensures { Gives (λ m. map_of (entries m)) result
        (Ok (group_arrays (each group_view gathered.items))) }
{
    let mut all = Map::new(alloc);
    for group in gathered {
        let Group { key, items } = group;
        all.insert(key, Value::array(items))?;
    }
    Ok(all)
}
