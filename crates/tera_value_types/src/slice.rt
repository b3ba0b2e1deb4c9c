// Slices of arrays and texts, and their items the last one first.
ghost use Rattle.std.specs.Prelude.{◌≡◌, IsTrue, IsFalse, ◌≢◌, pos, string_bytes, ◌<◌, ◌≤◌, ◌^◌, Ok, length, reverse, EachIndex, slice_index};
ghost use Rattle.std.specs.Str.{chars, encode_utf8_all};
ghost use Rattle.tera_errors.specs.Prelude.{Gives};
ghost use Rattle.tera_value_types.specs.Slices.{before, through, bound, upward, downward, positions, picked_items, picked_chars, slice, reversed};

use crate::ascii::reversed_bytes;
use crate::refusals::{without_order, without_slices};
use crate::shape::Shape;
use crate::value::Value;
use std::alloc::Global;
use tera_errors::{Error, TeraResult};

/// How many of so many items stand before the position that the number names, or before it and at it; the default where no
/// number is given.
fn slice_bound(number: Option<i128>, default: usize, length: usize, at_it: bool) -> usize
    requires { default ≤ length }
    ensures before { IsFalse at_it → result ≡ bound (before length) default number }
    ensures through { IsTrue at_it → result ≡ bound (through length) default number }
    ensures within { result ≤ length }
{
    let Some(number) = number else {
        return default;
    };
    let distance = number.unsigned_abs();
    let length = length as u128;
    let more = at_it as u128;
    if number < 0 {
        (length + more).saturating_sub(distance) as usize
    } else {
        (distance + more).min(length) as usize
    }
}

fn positions_upward(alloc: Global, start: usize, end: usize, step: u128) -> TeraResult<Vec<usize>>
    requires moves { 0 < step }
    requires fits { step ≤ 2 ^ 127 }
    ensures { Gives (λ v. v.items) result (Ok (upward end start end step)) }
{
    let mut positions = Vec::new(alloc);
    let mut at = start as u128;
    while at < end as u128 {
        positions.push(at as usize)?;
        at += step;
    }
    Ok(positions)
}

fn positions_downward(alloc: Global, start: usize, end: usize, step: u128) -> TeraResult<Vec<usize>>
    requires { 0 < step }
    ensures { Gives (λ v. v.items) result (Ok (downward start start end step)) }
{
    let mut positions = Vec::new(alloc);
    let mut at = start as u128;
    while at > end as u128 {
        positions.push((at - 1) as usize)?;
        at = at.saturating_sub(step);
    }
    Ok(positions)
}

/// The positions of a slice of so many items, by a step that is not 0.
fn positions(
    alloc: Global,
    start: Option<i128>,
    end: Option<i128>,
    step: i128,
    length: usize,
) -> TeraResult<Vec<usize>>
    requires { step ≢ pos 0 }
    ensures { Gives (λ v. v.items) result (Ok (positions start end step length)) }
{
    let stride = step.unsigned_abs();
    if step > 0 {
        let first = slice_bound(start, 0, length, false);
        let last = slice_bound(end, length, length, false);
        positions_upward(alloc, first, last, stride)
    } else {
        let first = slice_bound(start, length, length, true);
        let last = slice_bound(end, 0, length, true);
        positions_downward(alloc, first, last, stride)
    }
}

fn pick_items(alloc: Global, items: &[Value], positions: &[usize]) -> TeraResult<Vec<Value>>
    requires { EachIndex positions.now (λ k. slice_index positions.now k < length items.now) }
    ensures { Gives (λ v. v.items) result (Ok (picked_items positions.now items.now)) }
{
    let mut picked = Vec::new(alloc);
    for position in positions {
        let item = items[*position].try_clone()?;
        picked.push(item)?;
    }
    Ok(picked)
}

fn pick_chars(alloc: Global, letters: &[char], positions: &[usize]) -> TeraResult<String>
    requires { EachIndex positions.now (λ k. slice_index positions.now k < length letters.now) }
    ensures { Gives string_bytes result (Ok (encode_utf8_all
        (picked_chars positions.now letters.now))) }
{
    let mut picked = String::new(alloc);
    for position in positions {
        picked.push(letters[*position])?;
    }
    Ok(picked)
}

fn letters(alloc: Global, content: &str) -> TeraResult<Vec<char>>
    ensures { Gives (λ v. v.items) result (Ok (chars content.now)) }
{
    let letters = content.chars().collect(alloc)?;
    Ok(letters)
}

fn reversed_items(alloc: Global, items: &[Value]) -> TeraResult<Vec<Value>>
    ensures { Gives (λ v. v.items) result (Ok (reverse items.now)) }
{
    let mut backward = Vec::new(alloc);
    let mut left = items.len();
    while left > 0 {
        left -= 1;
        let item = items[left].try_clone()?;
        backward.push(item)?;
    }
    Ok(backward)
}

fn reversed_text(alloc: Global, content: &str) -> TeraResult<String>
    ensures { Gives string_bytes result (Ok (encode_utf8_all (reverse (chars content.now)))) }
{
    if content.is_ascii() {
        return reversed_bytes(alloc, content);
    }
    let letters = letters(alloc, content)?;
    let mut backward = String::new(alloc);
    let mut left = letters.len();
    while left > 0 {
        left -= 1;
        backward.push(letters[left])?;
    }
    Ok(backward)
}

fn slice_items(
    alloc: Global,
    items: &[Value],
    start: Option<i128>,
    end: Option<i128>,
    step: i128,
) -> TeraResult<Vec<Value>>
    requires { step ≢ pos 0 }
    ensures { Gives (λ v. v.items) result (Ok
        (picked_items (positions start end step (length items.now)) items.now)) }
{
    let positions = positions(alloc, start, end, step, items.len())?;
    pick_items(alloc, items, positions.as_slice())
}

fn slice_text(
    alloc: Global,
    content: &str,
    start: Option<i128>,
    end: Option<i128>,
    step: i128,
) -> TeraResult<String>
    requires { step ≢ pos 0 }
    ensures { let picked = positions start end step (length (chars content.now)) in
        Gives string_bytes result
        (Ok (encode_utf8_all (picked_chars picked (chars content.now)))) }
{
    let letters = letters(alloc, content)?;
    let positions = positions(alloc, start, end, step, letters.len())?;
    pick_chars(alloc, letters.as_slice(), positions.as_slice())
}

impl Value {
    /// The items of an array, or the characters of a text, from the start to before the end, each
    /// step further, which is 1 where none is given. Negative bounds count from the end, and a
    /// negative step goes back. A `Message` where the step is 0, or for other kinds.
    pub fn slice(
        &self,
        alloc: Global,
        start: Option<i128>,
        end: Option<i128>,
        step: Option<i128>,
    ) -> TeraResult<Value>
        ensures { Gives (λ v. v) result (slice start end step self.now) }
    {
        let step = step.unwrap_or(1);
        if step == 0 {
            return Err(Error::message(alloc, "a slice has no step of 0"));
        }
        match self.shape() {
            Shape::Array(items) => Ok(Value::array(slice_items(alloc, items, start, end, step)?)),
            Shape::Text(content, _) => {
                let part = slice_text(alloc, content, start, end, step)?;
                Value::from_string(alloc, part, false)
            }
            _ => Err(without_slices(alloc, self)),
        }
    }

    /// The items of an array, or the characters of a text, the last one first. A `Message` for other kinds.
    pub fn reverse(&self, alloc: Global) -> TeraResult<Value>
        ensures { Gives (λ v. v) result (reversed self.now) }
    {
        match self.shape() {
            Shape::Array(items) => Ok(Value::array(reversed_items(alloc, items)?)),
            Shape::Text(content, _) => {
                let backward = reversed_text(alloc, content)?;
                Value::from_string(alloc, backward, false)
            }
            _ => Err(without_order(alloc, self)),
        }
    }
}
