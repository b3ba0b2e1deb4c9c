// What an open loop goes over, by position.
ghost use Rattle.std.specs.Prelude.{◌≡◌, ◌&&◌, IsOk, None, Ok, drop, length, not, slice_get};
ghost use Rattle.tera_errors.specs.Prelude.{Gives, Tells, message};
ghost use Rattle.tera_values.specs.Prelude.{plain, array, text_of, vals};
ghost use Rattle.tera_state.specs.FoundValue.{found_value};
ghost use Rattle.tera_state.specs.Items.{clusters_in};
ghost use Rattle.tera_state.specs.Scope.{is_map};
ghost use Rattle.tera_state.specs.Opened.{walked, items_for, key_at, value_at};

use crate::found_value::FoundValue;
use std::alloc::Global;
use tera_values::{Error, Shape, TeraResult, Value};
use unicode_segmentation::UnicodeSegmentation;

/// The items of a loop that are still to be handed out, each with its key where they are those of a map. They are lent.
#[derive(Drop)]
pub struct ForLoopIterator<'a> {
    items: &'a Value,
    index: usize,
}

impl<'a> ForLoopIterator<'a> {
    ghost use Rattle.tera_state.specs.Lending.{items_left};

    /// The items from a position on. A text is gone over as the array of its clusters.
    pub(crate) fn new(items: &'a Value, index: usize) -> ForLoopIterator<'a>
        ensures { items_left result ≡ drop index (walked items.now) }
    {
        ForLoopIterator { items, index }
    }
}

impl<'a> Iterator for ForLoopIterator<'a> {
    ghost use Rattle.std.specs.Iterator.{YieldsFirstBy, item_count};
    ghost use Rattle.tera_state.specs.Lending.{items_left, lent_item};

    type Item = (FoundValue<'a>, FoundValue<'a>);

    ghost next_gives = { YieldsFirstBy lent_item items_left };

    ghost remaining = { item_count items_left };

    /// The key and the value of the next item. Takes no memory.
    fn next(&mut self) -> Option<(FoundValue<'a>, FoundValue<'a>)> {
        let items = self.items;
        let index = self.index;
        if index >= size_of(items) {
            return None;
        }
        self.index = index + 1;
        Some((key_at(items, index), value_at(items, index)))
    }
}

/// How many items there are in all.
pub(crate) fn size_of(items: &Value) -> usize
    ensures { result ≡ length (walked items.now) }
{
    match items.shape() {
        Shape::Array(items) => items.len(),
        Shape::Map(entries) => entries.len(),
        Shape::Bytes(bytes) => bytes.len(),
        _ => 0,
    }
}

/// The item at a position.
pub(crate) fn value_at(items: &Value, index: usize) -> FoundValue<'_>
    ensures { found_value result ≡ value_at (slice_get (walked items.now) index) }
{
    match items.shape() {
        Shape::Array(items) => match items.get(index) {
            Some(value) => FoundValue::Kept(value),
            None => FoundValue::Unbound,
        },
        Shape::Map(entries) => match entries.entry_at(index) {
            Some((_, value)) => FoundValue::Kept(value),
            None => FoundValue::Unbound,
        },
        Shape::Bytes(bytes) => match bytes.get(index) {
            Some(byte) => FoundValue::Number(*byte as usize),
            None => FoundValue::Unbound,
        },
        _ => FoundValue::Unbound,
    }
}

/// The key of the item at a position.
pub(crate) fn key_at(items: &Value, index: usize) -> FoundValue<'_>
    ensures { found_value result ≡ key_at (slice_get (walked items.now) index) }
{
    match items.shape() {
        Shape::Map(entries) => match entries.entry_at(index) {
            Some((key, _)) => FoundValue::Key(key),
            None => FoundValue::Unbound,
        },
        Shape::Array(_) => FoundValue::Unbound,
        Shape::Bytes(_) => FoundValue::Unbound,
        _ => FoundValue::Unbound,
    }
}

/// What a loop over the value goes over by position: the value itself, and for a text, whose clusters are made here, their
/// array. With a key it must be a map.
pub(crate) fn loop_items(alloc: Global, is_keyed: bool, target: Value) -> TeraResult<Value>
    ensures items { Gives walked result (items_for is_keyed target) }
    ensures ready { text_of target ≡ None → IsOk (items_for is_keyed target) → IsOk result }
{
    if lacks_keys(is_keyed, &target) {
        return Err(no_keys(alloc, &target));
    }
    match target.shape() {
        Shape::Text(content, _) => clusters(alloc, content),
        Shape::Array(_) => Ok(target),
        Shape::Map(_) => Ok(target),
        Shape::Bytes(_) => Ok(target),
        _ => Err(no_items(alloc, &target)),
    }
}

// A loop with a key goes over a map, and nothing else.
#[inline(never)]
fn no_keys(alloc: Global, target: &Value) -> Error
    ensures { Tells result message }
{
    let kind = target.in_words();
    Error::message_from(format!(in alloc;
        "the value is {kind}, and a loop with a key and a value goes over a map"
    ))
}

// A loop goes over what has items, and nothing else.
#[inline(never)]
fn no_items(alloc: Global, target: &Value) -> Error
    ensures { Tells result message }
{
    let kind = target.in_words();
    Error::message_from(format!(in alloc;
        "the value is {kind}, and a loop goes over an array, a map, a string or bytes"
    ))
}

// Whether keys are wanted of a value that has none.
fn lacks_keys(is_keyed: bool, value: &Value) -> bool
    ensures { result ≡ (is_keyed && not (is_map value.now)) }
{
    match value.shape() {
        Shape::Map(_) => false,
        _ => is_keyed,
    }
}

// The clusters of a text, made once.
fn clusters(alloc: Global, content: &str) -> TeraResult<Value>
    ensures { Gives (λ v. v) result (Ok (array (vals (clusters_in plain content.now)))) }
{
    let mut parts = Vec::new(alloc);
    for cluster in content.graphemes(true) {
        parts.push(Value::string(alloc, cluster)?)?;
    }
    Ok(Value::array(parts))
}
