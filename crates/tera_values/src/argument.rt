// What an argument is read as.
ghost use Rattle.std.specs.Prelude.{◌≡◌, ◌^◌, ◌+◌, ◌≤◌, pos, false, string_bytes, Some, Result, Ok, IfOk, IsErr};
ghost use Rattle.tera_errors.specs.Prelude.{Fault, Gives, MemorySuffices, invalid_argument};
ghost use Rattle.tera_value_types.specs.Prelude.{Val, bool, int, text, array, map, vals, entries, IsScalar};
ghost use Rattle.tera_values.specs.Arguments.{as_bool, as_int, as_natural, as_text, as_array, as_map};

use crate::refusals::not_of_type;
use std::alloc::Global;
use tera_errors::{Error, TeraResult};
use tera_value_types::{Map, Shape, Value, copy_items};

/// A type that a value can be read as.
pub trait ArgFromValue: Drop {
    // What a contract sees of what was read.
    ghost stands_for: { Self → Val };

    // What reading a value gives: what the argument stands for, or the fault.
    ghost reading: { Val → Result Val Fault };

    // The values whose reading takes no memory.
    ghost is_ready: { Val → Type 0 } = { λ _. ⊥ };

    /// The value as an argument; `InvalidArgument` where it is of a wrong type, which takes no memory.
    fn from_value(alloc: Global, value: &Value) -> TeraResult<Self>
        ensures read { Gives stands_for result (reading value.now) }
        ensures fault { IsErr (reading value.now) → MemorySuffices result }
        ensures ready { is_ready value.now → MemorySuffices result };
}

impl ArgFromValue for Value {
    ghost stands_for = { λ v. v };

    ghost reading = { λ v. Ok v };

    ghost is_ready = { IsScalar };

    fn from_value(_alloc: Global, value: &Value) -> TeraResult<Value> {
        value.try_clone()
    }
}

impl ArgFromValue for bool {
    ghost stands_for = { λ flag. bool flag };

    ghost reading = { as_bool };

    ghost is_ready = { λ _. Unit {0} };

    fn from_value(alloc: Global, value: &Value) -> TeraResult<bool> {
        match value.shape() {
            Shape::Bool(flag) => Ok(flag),
            _ => Err(not_of_type(alloc, "a bool")),
        }
    }
}

impl ArgFromValue for i128 {
    ghost stands_for = { λ number. int number };

    ghost reading = { as_int };

    ghost is_ready = { λ _. Unit {0} };

    fn from_value(alloc: Global, value: &Value) -> TeraResult<i128> {
        match value.shape() {
            Shape::Int(number) => Ok(number),
            _ => Err(not_of_type(alloc, "an integer")),
        }
    }
}

impl ArgFromValue for u32 {
    ghost stands_for = { λ number. int (pos number) };

    ghost reading = { as_natural (2 ^ 32) };

    ghost is_ready = { λ _. Unit {0} };

    fn from_value(alloc: Global, value: &Value) -> TeraResult<u32> {
        let number = natural_of(alloc, value, u32::MAX as u64)?;
        Ok(number as u32)
    }
}

impl ArgFromValue for usize {
    ghost stands_for = { λ number. int (pos number) };

    ghost reading = { as_natural (2 ^ 64) };

    ghost is_ready = { λ _. Unit {0} };

    fn from_value(alloc: Global, value: &Value) -> TeraResult<usize> {
        let number = natural_of(alloc, value, usize::MAX as u64)?;
        Ok(number as usize)
    }
}

impl ArgFromValue for String {
    ghost stands_for = { λ content. text (string_bytes content) false };

    ghost reading = { as_text };

    fn from_value(alloc: Global, value: &Value) -> TeraResult<String> {
        match value.shape() {
            Shape::Text(content, _) => Ok(String::from_str(alloc, content)?),
            _ => Err(not_of_type(alloc, "a string")),
        }
    }
}

impl ArgFromValue for Vec<Value> {
    ghost stands_for = { λ items. array (vals items.items) };

    ghost reading = { as_array };

    fn from_value(alloc: Global, value: &Value) -> TeraResult<Vec<Value>> {
        match value.shape() {
            Shape::Array(items) => copy_items(alloc, items),
            _ => Err(not_of_type(alloc, "an array")),
        }
    }
}

impl ArgFromValue for Map {
    ghost stands_for = { λ all. map (entries all) };

    ghost reading = { as_map };

    fn from_value(alloc: Global, value: &Value) -> TeraResult<Map> {
        match value.shape() {
            Shape::Map(all) => all.try_clone(),
            _ => Err(not_of_type(alloc, "a map")),
        }
    }
}

/// The integer from 0 to the greatest that is taken; `InvalidArgument` for any other value.
#[inline(always)]
fn natural_of(alloc: Global, value: &Value, greatest: u64) -> TeraResult<u64>
    ensures read { Gives (λ n. int (pos n)) result (as_natural (greatest + 1) value.now) }
    ensures high { IfOk result (λ n. n ≤ greatest) }
    ensures ready { MemorySuffices result }
{
    match value.shape() {
        Shape::Int(number) if 0 <= number && number <= greatest as i128 => Ok(number as u64),
        _ => Err(unfit_for_natural(alloc, greatest)),
    }
}

// The value is no integer from 0 to the greatest one.
#[inline(never)]
fn unfit_for_natural(alloc: Global, greatest: u64) -> Error
    ensures { result ≡ Some invalid_argument }
{
    match format!(in alloc; "an integer from 0 to {greatest}") {
        Ok(wanted) => not_of_type(alloc, wanted.as_str()),
        Err(_) => Error::invalid_argument(),
    }
}
