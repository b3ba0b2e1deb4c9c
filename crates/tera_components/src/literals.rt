// Values that are written out, as values.
ghost use Rattle.std.specs.Prelude.{[], Ok, map as map_list};
ghost use Rattle.tera_errors.specs.Prelude.{Gives};
ghost use Rattle.tera_syntax_tree.specs.Prelude.{written_of, literal_of, literal_entries_of};
ghost use Rattle.tera_values.specs.Prelude.{plain, key_view};
ghost use Rattle.tera_operators.specs.Prelude.{key_val};
ghost use Rattle.tera_components.specs.Context.{literal_value, literal_pairs_in};

use std::alloc::Global;
use tera_syntax_tree::{Literal, LiteralEntry, LiteralKey};
use tera_values::{Key, Map, TeraResult, Value};

/// What stands at the position of the literal.
#[cycle(literals)]
pub(crate) fn value_from(alloc: Global, literal: &Literal<'_>) -> TeraResult<Value>
    ensures { Gives (λ v. v) result (Ok (literal_value (written_of literal.now))) }
{
    match literal {
        Literal::None => Ok(Value::none()),
        Literal::Bool(flag) => Ok(Value::from_bool(*flag)),
        Literal::Int(number) => Ok(Value::from_int(*number)),
        Literal::Text(text) => Value::string(alloc, text.as_str()),
        Literal::Array(items) => Ok(Value::array(items_from(alloc, items.as_slice())?)),
        Literal::Map(entries) => Ok(Value::map(map_from(alloc, entries.as_slice())?)),
    }
}

#[cycle(literals)]
fn items_from(alloc: Global, items: &[Literal<'_>]) -> TeraResult<Vec<Value>>
    ensures { Gives (λ v. v.items) result
        (Ok (map_list (λ v. literal_value (written_of v)) items.now)) }
{
    let mut all = Vec::with_capacity(alloc, items.len())?;
    for item in items {
        all.push(value_from(alloc, item)?)?;
    }
    Ok(all)
}

// From left to right; a key that is there takes the later value.
#[cycle(literals)]
fn map_from(alloc: Global, entries: &[LiteralEntry<'_>]) -> TeraResult<Map>
    ensures { Gives (λ m. m) result
        (Ok (literal_pairs_in plain (literal_entries_of entries.now) [])) }
{
    let mut all = Map::new(alloc);
    for entry in entries {
        let key = key_from(alloc, &entry.key)?;
        let value = value_from(alloc, &entry.value)?;
        all.insert(key, value)?;
    }
    Ok(all)
}

fn key_from(alloc: Global, key: &LiteralKey<'_>) -> TeraResult<Key>
    ensures { Gives key_view result (Ok (key_val (literal_of key.now))) }
{
    match key {
        LiteralKey::Bool(flag) => Ok(Key::Bool(*flag)),
        LiteralKey::Int(number) => Ok(Key::Int(*number)),
        LiteralKey::Text(text) => Ok(Key::Text(String::from_str(alloc, text.as_str())?)),
    }
}
