// Values of TOML as values of templates. Errors gather the path to what is refused on their way out.
ghost use Rattle.std.specs.Prelude.{◌≡◌, Ok, if◌then◌else◌, false, codes, is_nan};
ghost use Rattle.std.specs.Float.{is_sign_negative};
ghost use Rattle.toml.specs.View.{array_view, table_view, view};
ghost use Rattle.toml_datetime.specs.Text.{datetime_text};
ghost use Rattle.tera_errors.specs.Prelude.{Gives, GivesOneOf};
ghost use Rattle.tera_value_types.specs.Val.{text};
ghost use Rattle.tera_values.specs.Named.{text_keys};
ghost use Rattle.tera_data.specs.Values.{Follows, once};
ghost use Rattle.tera_data.specs.Toml.{OfFloat, OfItems, OfMembers, OfTable, OfToml};

use crate::number::{Floats, value_of_other};
use crate::words::{at_item, at_member};
use ryu::Buffer;
use std::alloc::Global;
use tera_errors::TeraResult;
use tera_value_types::{Key, Map, Value};
use tera_values::Context;
use toml::value::{Array, Datetime, Table, Value as Toml};

#[cycle(values)]
fn value_of(alloc: Global, toml: &Toml, floats: Floats) -> TeraResult<Value>
    ensures { GivesOneOf (λ v. v) result (OfToml floats (view toml.now)) }
{
    match toml {
        Toml::String(text) => Value::string(alloc, text.as_str()),
        Toml::Integer(number) => Ok(Value::from_int(i128::from(*number))),
        Toml::Float(number) => float_of(alloc, *number, floats),
        Toml::Boolean(flag) => Ok(Value::from_bool(*flag)),
        Toml::Datetime(datetime) => date_of(alloc, datetime),
        Toml::Array(items) => Ok(Value::array(items_of(alloc, items, floats)?)),
        Toml::Table(members) => Ok(Value::map(map_of(alloc, members, floats)?)),
    }
}

#[cycle(values)]
fn items_of(alloc: Global, items: &Array, floats: Floats) -> TeraResult<Vec<Value>>
    ensures { GivesOneOf (λ v. v.items) result (OfItems floats (array_view items.now)) }
{
    let mut all = Vec::new(alloc);
    for item in items {
        match value_of(alloc, item, floats) {
            Ok(value) => all.push(value)?,
            Err(error) => return Err(at_item(alloc, error, all.len())),
        }
    }
    Ok(all)
}

/// The map of the members.
#[cycle(values)]
pub(crate) fn map_of(alloc: Global, members: &Table, floats: Floats) -> TeraResult<Map>
    ensures { GivesOneOf (λ m. m) result
        (Follows (OfMembers floats (table_view members.now))
        (λ vs a. a ≡ Ok (text_keys (once vs)))) }
{
    let mut all = Map::new(alloc);
    for (name, member) in members.iter() {
        let value = member_of(alloc, name, member, floats)?;
        all.insert(Key::Text(name.clone()?), value)?;
    }
    Ok(all)
}

#[cycle(values)]
fn member_of(alloc: Global, name: &String, member: &Toml, floats: Floats) -> TeraResult<Value>
    ensures { GivesOneOf (λ v. v) result (OfToml floats (view member.now)) }
{
    match value_of(alloc, member, floats) {
        Ok(value) => Ok(value),
        Err(error) => Err(at_member(alloc, error, name.as_str())),
    }
}

/// The members at their names.
pub(crate) fn context_of(alloc: Global, members: &Table, floats: Floats) -> TeraResult<Context>
    ensures { GivesOneOf (λ c. c) result (OfTable floats (table_view members.now)) }
{
    let mut all = Context::new(alloc);
    for (name, member) in members.iter() {
        let value = member_of(alloc, name, member, floats)?;
        all.insert(name.as_str(), value)?;
    }
    Ok(all)
}

fn float_of(alloc: Global, number: f64, floats: Floats) -> TeraResult<Value>
    ensures { GivesOneOf (λ v. v) result (OfFloat floats number) }
{
    if number.is_finite() {
        value_of_other(alloc, Buffer::new().format_finite(number), floats)
    } else {
        value_of_other(alloc, word_of(number), floats)
    }
}

// The word for a float that is no number.
fn word_of(number: f64) -> &'static str
    ensures { result.now
        ≡ (if is_nan number then codes "nan" else if is_sign_negative number then codes "-inf"
        else codes "inf") }
{
    if number.is_nan() {
        "nan"
    } else if number.is_sign_negative() {
        "-inf"
    } else {
        "inf"
    }
}

fn date_of(alloc: Global, datetime: &Datetime) -> TeraResult<Value>
    ensures { Gives (λ v. v) result (Ok (text (datetime_text datetime.now) false)) }
{
    let text = format!(in alloc; "{datetime}")?;
    Value::from_string(alloc, text, false)
}
