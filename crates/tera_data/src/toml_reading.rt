// Texts of TOML as values and as contexts.
ghost use Rattle.std.specs.Prelude.{◌≡◌, OnErr};
ghost use Rattle.toml.specs.View.{table_view};
ghost use Rattle.tera_errors.specs.Prelude.{Gives, GivesOneOf};
ghost use Rattle.tera_data.specs.Toml.{Over, TomlContextIn, TomlIn, read_toml};

use crate::number::Floats;
use crate::reading::lay_over;
use crate::toml_tables::{context_of, map_of};
use crate::words::{no_toml, with_path};
use std::alloc::Global;
use tera_errors::{Error, TeraResult};
use tera_value_types::Value;
use tera_values::Context;
use toml::Table;

/// The map that the text spells. Members stand in byte order of their names. A date is its text, as `1979-05-27T07:32:00Z`. A
/// float is, where it is no refusal, a decimal that reads back as the same float, or `inf`, `-inf` or `nan`.
pub fn toml_value(alloc: Global, text: &str, floats: Floats) -> TeraResult<Value>
    ensures { GivesOneOf (λ v. v) result (TomlIn floats text.now) }
{
    let table = read(alloc, text)?;
    match map_of(alloc, &table, floats) {
        Ok(map) => Ok(Value::map(map)),
        Err(error) => Err(with_path(alloc, error)),
    }
}

/// The context that the text spells: the members of the document at their names.
pub fn toml_context(alloc: Global, text: &str, floats: Floats) -> TeraResult<Context>
    ensures { GivesOneOf (λ c. c) result (TomlContextIn floats text.now) }
{
    let table = read(alloc, text)?;
    match context_of(alloc, &table, floats) {
        Ok(context) => Ok(context),
        Err(error) => Err(with_path(alloc, error)),
    }
}

/// Puts what the text spells over the context, name by name, all of it or nothing.
pub fn put_toml(context: &mut Context, text: &str, floats: Floats) -> TeraResult<()>
    ensures put { GivesOneOf (λ _. context.new) result
        (Over context.old (TomlContextIn floats text.now)) }
    ensures err { OnErr result (context.new ≡ context.old) }
{
    let data = toml_context(context.alloc(), text, floats)?;
    lay_over(context, &data)
}

fn read(alloc: Global, text: &str) -> TeraResult<Table>
    ensures { Gives table_view result (read_toml text.now) }
{
    match toml::table_from_str(alloc, text) {
        Ok(table) => Ok(table),
        Err(error) if error.is_memory() => Err(Error::out_of_memory()),
        Err(error) => Err(no_toml(alloc, text, &error)),
    }
}
