// Records of CSV as values of templates.
ghost use Rattle.std.specs.Prelude.{◌≡◌, ◌<◌, [], Ok, get_or, length, map};
ghost use Rattle.csv.specs.Reading.{default_config, records, strip_bom};
ghost use Rattle.csv.specs.Records.{fields_of};
ghost use Rattle.tera_errors.specs.Prelude.{Gives};
ghost use Rattle.tera_values.specs.Named.{text_keys};
ghost use Rattle.tera_data.specs.Values.{once};
ghost use Rattle.tera_data.specs.Csv.{of_record, of_records, of_rows, under};

use crate::words::unlike_header;
use csv::{ReaderBuilder, StringRecord};
use std::alloc::Global;
use tera_errors::{Error, TeraResult};
use tera_value_types::{Key, Map, Value};

/// All records of the text.
pub(crate) fn records_of(alloc: Global, text: &str) -> TeraResult<Vec<StringRecord>>
    ensures { Gives (λ v. map fields_of v.items) result
        (Ok (records default_config (strip_bom text.now))) }
{
    let reader = ReaderBuilder::new()
        .has_headers(false)
        .flexible(true)
        .from_reader(alloc, text.as_bytes());
    let mut all = Vec::new(alloc);
    for row in reader.into_records() {
        match row {
            Ok(row) => all.push(row)?,
            // A slice is read without a fault, records may differ in length, and the fields of a text are texts.
            Err(_) => return Err(Error::out_of_memory()),
        }
    }
    Ok(all)
}

/// The records after the first as maps, by the names that the first has. The text is the one that they stand in.
pub(crate) fn array_of(alloc: Global, text: &str, records: &[StringRecord]) -> TeraResult<Value>
    ensures { Gives (λ v. v) result (of_rows (map fields_of records.now)) }
{
    match records {
        [] => Ok(Value::array(Vec::new(alloc))),
        [names, rest @ ..] => Ok(Value::array(maps_of(alloc, text, names, rest)?)),
    }
}

fn maps_of(
    alloc: Global,
    text: &str,
    names: &StringRecord,
    records: &[StringRecord],
) -> TeraResult<Vec<Value>>
    ensures { Gives (λ v. v.items) result
        (of_records (fields_of names.now) (map fields_of records.now)) }
{
    let mut all = Vec::new(alloc);
    for row in records {
        all.push(record_of(alloc, text, names, row)?)?;
    }
    Ok(all)
}

fn record_of(
    alloc: Global,
    text: &str,
    names: &StringRecord,
    fields: &StringRecord,
) -> TeraResult<Value>
    ensures { Gives (λ v. v) result (of_record (fields_of names.now) (fields_of fields.now)) }
{
    if fields.len() != names.len() {
        return Err(unlike_header(alloc, text, names.len(), fields));
    }
    Ok(Value::map(map_of(alloc, names, fields)?))
}

fn map_of(alloc: Global, names: &StringRecord, fields: &StringRecord) -> TeraResult<Map>
    requires { length (fields_of fields.now) ≡ length (fields_of names.now) }
    ensures { Gives (λ m. m) result
        (Ok (text_keys (once (under (fields_of names.now) (fields_of fields.now))))) }
{
    let mut all = Map::new(alloc);
    for position in 0..names.len() {
        let value = Value::string(alloc, field_of(fields, position))?;
        let name = String::from_str(alloc, field_of(names, position))?;
        all.insert(Key::Text(name), value)?;
    }
    Ok(all)
}

fn field_of(row: &StringRecord, position: usize) -> &str
    ensures { result.now ≡ get_or (fields_of row.now) position [] }
{
    row.get(position).unwrap_or("")
}
