// Maps, contexts and names.
ghost use Rattle.std.specs.Prelude.{◌<◌};

use crate::sample::Sample::{Ints, Text};
use crate::sample::{is_value, key, map, value};
use std::alloc::Global;
use tera_values::{Context, Key, Map, Name, TeraResult, Value};

fn first_is(all: &Map, name: &str, number: i128) -> bool {
    match all.entry_at(0) {
        Some((Key::Text(at), value)) => at.as_str() == name && value.as_i128() == Some(number),
        _ => false,
    }
}

fn takes(all: &mut Map, key: Option<Key>) -> bool {
    match key {
        Some(key) => all.insert(key, Value::from_int(9)).is_ok(),
        None => false,
    }
}

fn keeps_positions(alloc: Global) -> bool {
    match map(alloc, &[("b", 0), ("a", 1)]) {
        Some(mut all) => takes(&mut all, key(alloc, "b")) && first_is(&all, "b", 9),
        None => false,
    }
}

fn mixed_key(number: u32) -> Key
    requires { number < 10000 }
{
    Key::Int(i128::from(number * 7_919 % 10_007))
}

fn map_of_many(alloc: Global) -> Option<Map> {
    let mut many = Map::new(alloc);
    let mut whole = true;
    for number in 0..10_000_u32 {
        whole = whole
            && many
                .insert(mixed_key(number), Value::from_int(i128::from(number)))
                .is_ok();
    }
    if whole { Some(many) } else { None }
}

fn finds(all: &Map) -> bool {
    let mut right = all.len() == 10_000 && all.get(&Key::Int(10_007)).is_none();
    for number in 0..10_000_u32 {
        right = right
            && match all.get(&mixed_key(number)) {
                Some(value) => value.as_i128() == Some(i128::from(number)),
                None => false,
            };
    }
    right
}

fn copy_finds(all: &Map) -> bool {
    match all.try_clone() {
        Ok(copy) => finds(&copy),
        Err(_) => false,
    }
}

fn finds_many(alloc: Global) -> bool {
    match map_of_many(alloc) {
        Some(all) => copy_finds(&all),
        None => false,
    }
}

fn names(context: &mut Context, name: &str, value: Option<Value>) -> bool {
    match value {
        Some(value) => context.insert(name, value).is_ok(),
        None => false,
    }
}

fn lists_names(context: &Context, out: &mut String) -> bool {
    match context.names() {
        Ok(names) => {
            let mut whole = true;
            for at in &names {
                whole = whole && out.push_str(at.as_str()).is_ok() && out.push_str(" ").is_ok();
            }
            whole && out.as_str() == "a ab b é "
        }
        Err(_) => false,
    }
}

fn has_two(found: Option<&Value>) -> bool {
    match found {
        Some(value) => value.len() == Some(2),
        None => false,
    }
}

fn context_keeps(alloc: Global, out: &mut String) -> bool {
    let mut context = Context::new(alloc);
    let mut whole = true;
    for at in ["b", "é", "a", "ab"] {
        whole = whole && names(&mut context, at, value(alloc, Text(at)));
    }
    whole
        && names(&mut context, "a", value(alloc, Ints(&[1, 2])))
        && has_two(context.get("a"))
        && lists_names(&context, out)
}

fn numbered_context(alloc: Global) -> TeraResult<Context> {
    let mut context = Context::new(alloc);
    for (name, number) in [("b", 1), ("é", 2), ("a", 3), ("ab", 4)] {
        context.insert(name, Value::from_int(number))?;
    }
    Ok(context)
}

fn copies_some(alloc: Global) -> TeraResult<bool> {
    let all = numbered_context(alloc)?;
    let some = all.try_clone_with(&["é", "x", "a", "é"])?.to_value()?;
    let others = all.try_clone_without(&["é", "x", "a", "é"])?.to_value()?;
    Ok(
        is_value(alloc, &some, "map {\"a\": 3, \"é\": 2}")
            && is_value(alloc, &others, "map {\"ab\": 4, \"b\": 1}"),
    )
}

fn shares(name: &Name) -> bool {
    match name.share() {
        Ok(other) => other.as_str() == "n",
        Err(_) => false,
    }
}

fn is_shared(alloc: Global) -> bool {
    match Name::new(alloc, "n") {
        Ok(name) => shares(&name),
        Err(_) => false,
    }
}

#[test]
fn names_are_kept(rt: HostRuntime) {
    let alloc = rt.alloc();
    let mut out = String::new(alloc);
    let right = keeps_positions(alloc)
        && finds_many(alloc)
        && context_keeps(alloc, &mut out)
        && is_shared(alloc)
        && matches!(copies_some(alloc), Ok(true));
    assert!(rt; right);
}
