//! Copies for which no memory is left: that of a value in shared form is a count.
use std::alloc::Global;
use tera::{TeraResult, Value};
use test_memory::{with_budget, with_little};

fn put_numbers(items: &mut Vec<Value>) -> bool {
    for number in 0..1_000_u32 {
        if items.push(Value::from_int(i128::from(number))).is_err() {
            return false;
        }
    }
    true
}

fn numbers(alloc: Global) -> Option<Value> {
    let mut items = Vec::new(alloc);
    if put_numbers(&mut items) {
        return Some(Value::array(items));
    }
    None
}

fn shared_numbers(alloc: Global) -> Option<Value> {
    match numbers(alloc) {
        Some(numbers) => numbers.into_shared(alloc).ok(),
        None => None,
    }
}

fn is_same(copy: TeraResult<Value>, value: &Value) -> bool {
    match copy {
        Ok(copy) => copy == *value,
        Err(_) => false,
    }
}

fn copy_without_memory(alloc: Global, value: &Value) -> Option<TeraResult<Value>> {
    with_little(alloc, || with_budget(alloc, 0, || value.try_clone()))?
}

/// Whether the value is copied where no memory is left; none where the test itself finds no room.
fn is_copied(alloc: Global, value: &Value) -> Option<bool> {
    Some(is_same(copy_without_memory(alloc, value)?, value))
}

fn is_some_copied(alloc: Global, value: Option<Value>) -> Option<bool> {
    match value {
        Some(value) => is_copied(alloc, &value),
        None => None,
    }
}

#[test]
fn shared_values_are_copied_without_memory(rt: HostRuntime) {
    assert!(rt;
        is_some_copied(rt.alloc(), numbers(rt.alloc())) == Some(false)
            && is_some_copied(rt.alloc(), shared_numbers(rt.alloc())) == Some(true)
    );
}
