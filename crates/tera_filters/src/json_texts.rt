// Values as JSON.
ghost use Rattle.std.specs.Prelude.{◌≡◌, ◌∷◌, [], Ok, IfOk, string_bytes};
ghost use Rattle.json.specs.Token as token;
ghost use Rattle.std.specs.Fmt.{signed_decimal};
ghost use Rattle.tera_errors.specs.Prelude.{Gives};
ghost use Rattle.tera_values.specs.Prelude.{key_view, entries, array, map, vals};
ghost use Rattle.tera_values.specs.Val.{bytes};
ghost use Rattle.tera_filters.specs.JsonTexts as spec;
ghost use Rattle.tera_filters.specs.Sheets.{page_of, with_all, with_tokens};

use crate::json_sheet::Sheet;
use itoa::Buffer;
use json::Token;
use std::alloc::{AllocError, Global};
use tera_built_ins::arguments::flag;
use tera_values::refusals::unfit_value;
use tera_values::{Arguments, Key, Map, Shape, TeraResult, Value};

/// The value as JSON that may stand in a script element: `<`, `>`, `&` and `'` are written as escapes. With `pretty` there is a
/// line for each item and member. It is not marked safe.
pub fn json_encode(alloc: Global, value: &Value, arguments: &Arguments<'_>) -> TeraResult<Value>
    ensures { Gives (λ v. v) result (spec.json_encode_of value.now arguments.now) }
{
    let is_pretty = flag(arguments, "pretty")?;
    let text = json_text(alloc, value, is_pretty)?;
    let escaped = escape_for_script(alloc, text.as_str())?;
    Value::from_string(alloc, escaped, false)
}

fn json_text(alloc: Global, value: &Value, is_pretty: bool) -> TeraResult<String>
    ensures { Gives string_bytes result (spec.json_of is_pretty value.now) }
{
    let mut sheet = Sheet::new(alloc, is_pretty);
    put_value(alloc, value, &mut sheet)?;
    Ok(sheet.into_text())
}

/// The text with the characters as escapes that mean something to what JSON may stand in.
fn escape_for_script(alloc: Global, text: &str) -> Result<String, AllocError>
    ensures { IfOk result (λ t. string_bytes t ≡ spec.for_script text.now) }
{
    let mut escaped = String::new(alloc);
    for letter in text.chars() {
        match letter {
            '<' => escaped.push_str("\\u003c")?,
            '>' => escaped.push_str("\\u003e")?,
            '&' => escaped.push_str("\\u0026")?,
            '\'' => escaped.push_str("\\u0027")?,
            _ => escaped.push(letter)?,
        }
    }
    Ok(escaped)
}

#[cycle(writing)]
fn put_value(alloc: Global, value: &Value, out: &mut Sheet) -> TeraResult<()>
    ensures { Gives (λ _. page_of out.new) result
        (with_all (page_of out.old) (spec.tokens_of value.now)) }
{
    match value.shape() {
        Shape::Undefined => Err(unfit_value(alloc, None, value, "another kind of value")),
        Shape::None => out.put(Token::Null),
        Shape::Bool(flag) => out.put(Token::Bool(flag)),
        Shape::Int(number) => put_integer(number, out),
        Shape::Text(text, _) => out.put(Token::String(text)),
        Shape::Bytes(content) => put_bytes(content, out),
        Shape::Array(items) => put_items(alloc, items, out),
        Shape::Map(all) => put_members(alloc, all, out),
    }
}

fn put_integer(number: i128, out: &mut Sheet) -> TeraResult<()>
    ensures { Gives (λ _. page_of out.new) result
        (Ok (with_tokens (page_of out.old) (token.number (signed_decimal number) ∷ []))) }
{
    let mut buffer = Buffer::new();
    out.put(Token::Number(buffer.format(number)))
}

fn put_bytes(content: &[u8], out: &mut Sheet) -> TeraResult<()>
    ensures { Gives (λ _. page_of out.new) result
        (with_all (page_of out.old) (spec.tokens_of (bytes content.now))) }
{
    out.put(Token::BeginArray)?;
    for byte in content {
        put_integer(*byte as i128, out)?;
    }
    out.put(Token::EndArray)
}

#[cycle(writing)]
fn put_items(alloc: Global, items: &[Value], out: &mut Sheet) -> TeraResult<()>
    ensures { Gives (λ _. page_of out.new) result
        (with_all (page_of out.old) (spec.tokens_of (array (vals items.now)))) }
{
    out.put(Token::BeginArray)?;
    for item in items {
        put_value(alloc, item, out)?;
    }
    out.put(Token::EndArray)
}

#[cycle(writing)]
fn put_members(alloc: Global, all: &Map, out: &mut Sheet) -> TeraResult<()>
    ensures { Gives (λ _. page_of out.new) result
        (with_all (page_of out.old) (spec.tokens_of (map (entries all.now)))) }
{
    out.put(Token::BeginObject)?;
    for position in 0..all.len() {
        if let Some((key, item)) = all.entry_at(position) {
            put_name(key, out)?;
            put_value(alloc, item, out)?;
        }
    }
    out.put(Token::EndObject)
}

fn put_name(key: &Key, out: &mut Sheet) -> TeraResult<()>
    ensures { Gives (λ _. page_of out.new) result
        (Ok (with_tokens (page_of out.old) (token.key (spec.name_of (key_view key.now)) ∷ []))) }
{
    match key {
        Key::Bool(true) => out.put(Token::Key("true")),
        Key::Bool(false) => out.put(Token::Key("false")),
        Key::Int(number) => {
            let mut buffer = Buffer::new();
            out.put(Token::Key(buffer.format(*number)))
        }
        Key::Text(name) => out.put(Token::Key(name.as_str())),
    }
}
