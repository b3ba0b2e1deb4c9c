// Filters of maps.
ghost use Rattle.std.specs.Prelude.{Ok};
ghost use Rattle.tera_errors.specs.Prelude.{Gives};
ghost use Rattle.tera_values.specs.Prelude.{plain, key_view};
ghost use Rattle.tera_built_ins.specs.Maps.{each_of, pair_of, part_value, values_of, keys_of, pairs_of, get_of};

use crate::arguments::{as_map, needed_text};
use crate::refusals::no_entry;
use std::alloc::Global;
use tera_values::{Arguments, Key, TeraResult, Value};

/// What is taken of each entry of a map.
#[derive(Clone, Copy)]
enum EntryPart {
    Value,
    Key,
    Pair,
}

/// The values of a map, in its order.
pub fn values(alloc: Global, value: &Value) -> TeraResult<Value>
    ensures { Gives (λ v. v) result (values_of value.now) }
{
    array_of_parts(alloc, value, EntryPart::Value)
}

/// The keys of a map, in its order; a text key is an unmarked text.
pub fn keys(alloc: Global, value: &Value) -> TeraResult<Value>
    ensures { Gives (λ v. v) result (keys_of plain value.now) }
{
    array_of_parts(alloc, value, EntryPart::Key)
}

/// Each key of a map with its value, as an array of two, in its order.
pub fn pairs(alloc: Global, value: &Value) -> TeraResult<Value>
    ensures { Gives (λ v. v) result (pairs_of plain value.now) }
{
    array_of_parts(alloc, value, EntryPart::Pair)
}

// An array of this part of each entry of a map, in its order.
fn array_of_parts(alloc: Global, value: &Value, part: EntryPart) -> TeraResult<Value>
    ensures { Gives (λ v. v) result (each_of (part_value plain part) value.now) }
{
    let all = as_map(alloc, value)?;
    let mut items = Vec::new(alloc);
    for position in 0..all.len() {
        if let Some((key, item)) = all.entry_at(position) {
            items.push(part_value(alloc, part, key, item)?)?;
        }
    }
    Ok(Value::array(items))
}

// A part of an entry, as a value.
fn part_value(alloc: Global, part: EntryPart, key: &Key, item: &Value) -> TeraResult<Value>
    ensures { Gives (λ v. v) result
        (Ok (part_value plain part (key_view key.now, item.now))) }
{
    match part {
        EntryPart::Value => item.try_clone(),
        EntryPart::Key => Value::from_key(alloc, key),
        EntryPart::Pair => pair(alloc, key, item),
    }
}

fn pair(alloc: Global, key: &Key, item: &Value) -> TeraResult<Value>
    ensures { Gives (λ v. v) result (Ok (pair_of plain (key_view key.now, item.now))) }
{
    let mut both = Vec::new(alloc);
    both.push(Value::from_key(alloc, key)?)?;
    both.push(item.try_clone()?)?;
    Ok(Value::array(both))
}

/// The value of a map at a text key; where none is there the default, and a `Message` where none is given.
pub fn get(alloc: Global, value: &Value, arguments: &Arguments<'_>) -> TeraResult<Value>
    ensures { Gives (λ v. v) result (get_of plain value.now arguments.now) }
{
    let all = as_map(alloc, value)?;
    let key = needed_text(arguments, "key")?;
    match all.get_text(key.text) {
        Some(found) => found.try_clone(),
        None => match arguments.value("default") {
            Some(default) => default.try_clone(),
            None => Err(no_entry(alloc, key.text)),
        },
    }
}
