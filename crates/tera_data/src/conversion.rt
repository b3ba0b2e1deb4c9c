// Values of JSON as values of templates. Errors gather the path to what is refused on their way out.
ghost use Rattle.std.specs.Prelude.{◌≡◌, Ok};
ghost use Rattle.json.specs.Value.{value_view, items_view, members_view};
ghost use Rattle.tera_errors.specs.Prelude.{Gives};
ghost use Rattle.tera_values.specs.Named.{text_keys};
ghost use Rattle.tera_data.specs.Values.{then, of_json, of_items, of_members, once};
ghost use Rattle.tera_data.specs.Contexts.{named};

use crate::number::{Floats, number_of};
use crate::words::{at_item, at_member};
use json::Value as Json;
use std::alloc::Global;
use tera_errors::TeraResult;
use tera_value_types::{Key, Map, Value};
use tera_values::Context;

#[cycle(values)]
pub(crate) fn value_of(alloc: Global, json: &Json<'_>, floats: Floats) -> TeraResult<Value>
    ensures { Gives (λ v. v) result (of_json floats (value_view json.now)) }
{
    match json {
        Json::Null => Ok(Value::none()),
        Json::Bool(flag) => Ok(Value::from_bool(*flag)),
        Json::Number(text) => number_of(alloc, *text, floats),
        Json::String(text) => Value::string(alloc, *text),
        Json::Array(items) => Ok(Value::array(items_of(alloc, items, floats)?)),
        Json::Object(members) => Ok(Value::map(map_of(alloc, members, floats)?)),
    }
}

#[cycle(values)]
fn items_of(alloc: Global, items: &Vec<Json<'_>>, floats: Floats) -> TeraResult<Vec<Value>>
    ensures { Gives (λ v. v.items) result (of_items floats (items_view items.now.items)) }
{
    let mut all = Vec::new(alloc);
    for item in items {
        match value_of(alloc, item, floats) {
            Ok(value) => all.push(value)?,
            Err(error) => return Err(at_item(alloc, error, all.len())),
        }
    }
    Ok(all)
}

#[cycle(values)]
#[tactic(auto, using(crate::proofs::Members::once_placed))]
fn map_of(alloc: Global, members: &Vec<(&str, Json<'_>)>, floats: Floats) -> TeraResult<Map>
    ensures { Gives (λ m. m) result
        (then (of_members floats (members_view members.now.items))
        (λ vs. Ok (text_keys (once vs)))) }
{
    let mut all = Map::new(alloc);
    for member in members {
        let value = member_of(alloc, member.0, &member.1, floats)?;
        all.insert(Key::Text(String::from_str(alloc, member.0)?), value)?;
    }
    Ok(all)
}

#[cycle(values)]
fn member_of(alloc: Global, name: &str, member: &Json<'_>, floats: Floats) -> TeraResult<Value>
    ensures { Gives (λ v. v) result (of_json floats (value_view member.now)) }
{
    match value_of(alloc, member, floats) {
        Ok(value) => Ok(value),
        Err(error) => Err(at_member(alloc, error, name)),
    }
}

pub(crate) fn context_of(
    alloc: Global,
    members: &Vec<(&str, Json<'_>)>,
    floats: Floats,
) -> TeraResult<Context>
    ensures { Gives (λ c. c) result (named floats (members_view members.now.items)) }
{
    let mut all = Context::new(alloc);
    for member in members {
        let value = member_of(alloc, member.0, &member.1, floats)?;
        all.insert(member.0, value)?;
    }
    Ok(all)
}
