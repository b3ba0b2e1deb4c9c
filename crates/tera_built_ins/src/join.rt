// Items in a row, as one text.
ghost use Rattle.std.specs.Prelude.{◌≡◌, ◌++◌, OnOk, IfErr, Ok, string_bytes, option_map};
ghost use Rattle.std.specs.List.{list_any, join_by};
ghost use Rattle.std.specs.Cow.{cow_str_bytes};
ghost use Rattle.tera_errors.specs.Prelude.{Gives, Lacks};
ghost use Rattle.tera_values.specs.Prelude.{plain};
ghost use Rattle.tera_built_ins.specs.Escaping.{escaping_of, applied};
ghost use Rattle.tera_built_ins.specs.Reading.{given_of};
ghost use Rattle.tera_built_ins.specs.Join.{is_safe_text, item_part, separator_part, join_of};

use crate::arguments::{Given, as_array, optional_text};
use crate::escape_fn::{EscapeFn, Escaping, Filtering};
use crate::safe_answers::{is_given_safe, part};
use std::borrow::CowStr;
use tera_values::{Shape, TeraResult, Value};

/// The items of an array as they are printed, with `sep` between them. Where autoescape is on and one of these texts
/// is safe, the others are escaped, and the answer is safe.
pub fn join<E: EscapeFn>(filtering: Filtering<'_, E>) -> TeraResult<Value>
    ensures { Gives (λ v. v) result (applied E.escaped (join_of plain) filtering.entry) }
{
    let items = as_array(filtering.alloc, filtering.value)?;
    let separator = optional_text(filtering.arguments, "sep")?;
    let is_safe = filtering.escaping.autoescape
        && (has_safe_text(items) || is_given_safe(separator));
    let between = separator_part(filtering, is_safe, separator)?;
    let row = join_items(filtering, is_safe, items, between.as_str())?;
    Value::from_string(filtering.alloc, row, is_safe)
}

fn has_safe_text(items: &[Value]) -> bool
    ensures { result ≡ list_any is_safe_text items.now }
{
    for item in items {
        if is_safe_text(item) {
            return true;
        }
    }
    false
}

fn is_safe_text(item: &Value) -> bool
    ensures { result ≡ is_safe_text item.now }
{
    match item.shape() {
        Shape::Text(_, is_safe) => is_safe,
        _ => false,
    }
}

fn separator_part<'a, E: EscapeFn>(
    filtering: Filtering<'_, E>,
    is_safe: bool,
    separator: Option<Given<'a>>,
) -> TeraResult<CowStr<'a>>
    ensures { Gives cow_str_bytes result (Ok (separator_part plain
        (escaping_of E.escaped filtering.entry.escaping) is_safe
        (option_map given_of separator.entry))) }
{
    match separator {
        Some(given) => part(filtering, is_safe, given),
        None => Ok(CowStr::Borrowed("")),
    }
}

fn join_items<E: EscapeFn>(
    filtering: Filtering<'_, E>,
    is_safe: bool,
    items: &[Value],
    between: &str,
) -> TeraResult<String>
    ensures { Gives string_bytes result (Ok (join_by
        (item_part plain (escaping_of E.escaped filtering.entry.escaping) is_safe)
        between.now items.now)) }
{
    let mut out = String::new(filtering.alloc);
    if let [first, rest @ ..] = items {
        append_item(filtering.escaping, is_safe, first, &mut out)?;
        for item in rest {
            out.push_str(between)?;
            append_item(filtering.escaping, is_safe, item, &mut out)?;
        }
    }
    Ok(out)
}

fn append_item<E: EscapeFn>(
    escaping: Escaping<'_, E>,
    is_safe: bool,
    item: &Value,
    out: &mut String,
) -> TeraResult<()>
    ensures ok { OnOk result (string_bytes out.new ≡ string_bytes out.old
        ++ item_part plain (escaping_of E.escaped escaping.entry) is_safe item.now) }
    ensures lacks { IfErr result Lacks }
{
    if is_safe && !item.is_undefined() && !item.is_safe() {
        let printed = item.printed(*out.allocator())?;
        escaping.escape(printed.as_str(), out)
    } else {
        item.print_to(out)?;
        Ok(())
    }
}
