// Items, characters, bytes and values at an index.
ghost use Rattle.std.specs.Prelude.{◌≡◌, Ok, length, slice_get, IsOk, IsOkAnd};
ghost use Rattle.std.specs.Str.{chars};
ghost use Rattle.tera_errors.specs.Prelude.{Gives};
ghost use Rattle.tera_value_types.specs.View.{wanted_view};
ghost use Rattle.tera_value_types.specs.Access.{IsScalar, find, key_of};
ghost use Rattle.tera_value_types.specs.Items.{position_of, char_text, item_at, byte_at, char_from, found_at, or_undefined, get_item};

use crate::ascii::char_count;
use crate::key::KeyRef;
use crate::refusals::{no_key, no_position, without_items};
use crate::shape::Shape;
use crate::value::{Map, Value};
use std::alloc::Global;
use tera_errors::TeraResult;

/// Where the integer points in a list of so many items; a negative one counts from the end.
fn position(index: i128, length: usize) -> Option<usize>
    ensures { result ≡ position_of index length }
{
    let distance = index.unsigned_abs();
    let length = length as u128;
    if index < 0 {
        if distance <= length {
            Some((length - distance) as usize)
        } else {
            None
        }
    } else if distance < length {
        Some(distance as usize)
    } else {
        None
    }
}

fn char_at(text: &str, position: usize) -> Option<char>
    ensures { result ≡ slice_get (chars text.now) position }
{
    text.chars().nth(position)
}

fn char_value(alloc: Global, character: char) -> TeraResult<Value>
    ensures { Gives (λ v. v) result (Ok (char_text character)) }
{
    let mut out = String::new(alloc);
    out.push(character)?;
    Value::from_string(alloc, out, false)
}

fn item_in(items: &[Value], index: i128) -> TeraResult<Value>
    ensures value { Gives (λ v. v) result
        (Ok (item_at (position_of index (length items.now)) items.now)) }
    ensures ready { IsScalar (item_at (position_of index (length items.now)) items.now) →
        IsOk result }
{
    match position(index, items.len()) {
        Some(at) => match items.get(at) {
            Some(item) => item.try_clone(),
            None => Ok(Value::undefined()),
        },
        None => Ok(Value::undefined()),
    }
}

fn byte_in(bytes: &[u8], index: i128) -> Value
    ensures { result ≡ byte_at (position_of index (length bytes.now)) bytes.now }
{
    match position(index, bytes.len()) {
        Some(at) => match bytes.get(at) {
            Some(byte) => Value::from_int(*byte as i128),
            None => Value::undefined(),
        },
        None => Value::undefined(),
    }
}

fn char_in(alloc: Global, text: &str, index: i128) -> TeraResult<Value>
    ensures value { Gives (λ v. v) result
        (Ok (char_from (position_of index (length (chars text.now))) (chars text.now))) }
    ensures ready { let at = position_of index (length (chars text.now)) in
        IsScalar (char_from at (chars text.now)) → IsOk result }
{
    match position(index, char_count(text)) {
        Some(at) => match char_at(text, at) {
            Some(character) => char_value(alloc, character),
            None => Ok(Value::undefined()),
        },
        None => Ok(Value::undefined()),
    }
}

fn value_in(all: &Map, wanted: &KeyRef<'_>) -> TeraResult<Value>
    ensures value { Gives (λ v. v) result
        (Ok (or_undefined (find (wanted_view wanted.now) all.now))) }
    ensures ready { IsScalar (or_undefined (find (wanted_view wanted.now) all.now)) →
        IsOk result }
{
    match all.value_at(wanted) {
        Some(value) => value.try_clone(),
        None => Ok(Value::undefined()),
    }
}

fn entry_in(alloc: Global, all: &Map, index: &Value) -> TeraResult<Value>
    ensures value { Gives (λ v. v) result (found_at (key_of index.now) all.now) }
    ensures ready { IsOkAnd (found_at (key_of index.now) all.now) IsScalar → IsOk result }
{
    match index.shape() {
        Shape::Bool(flag) => value_in(all, &KeyRef::Bool(flag)),
        Shape::Int(number) => value_in(all, &KeyRef::Int(number)),
        Shape::Text(name, _) => value_in(all, &KeyRef::Text(name)),
        _ => Err(no_key(alloc, index)),
    }
}

impl Value {
    /// The item, character, byte or value at an index.
    pub fn get_item(&self, alloc: Global, index: &Value) -> TeraResult<Value>
        ensures value { Gives (λ v. v) result (get_item self.now index.now) }
        ensures ready { IsOkAnd (get_item self.now index.now) IsScalar → IsOk result }
    {
        match self.shape() {
            Shape::Map(all) => entry_in(alloc, all, index),
            Shape::Array(items) => match index.shape() {
                Shape::Int(n) => item_in(items, n),
                _ => Err(no_position(alloc, self, index)),
            },
            Shape::Text(text, _) => match index.shape() {
                Shape::Int(n) => char_in(alloc, text, n),
                _ => Err(no_position(alloc, self, index)),
            },
            Shape::Bytes(bytes) => match index.shape() {
                Shape::Int(n) => Ok(byte_in(bytes, n)),
                _ => Err(no_position(alloc, self, index)),
            },
            _ => Err(without_items(alloc, self)),
        }
    }
}
