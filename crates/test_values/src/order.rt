// Order, equality and which values are comparable.
use crate::sample::Sample::{Bytes, Int, Ints, Nothing, Pairs, Safe, Text, Truth, Undefined};
use crate::sample::{Sample, array, put, value};
use std::alloc::Global;
use std::cmp::Ordering;
use tera_values::{Key, Map, Value};

fn stand(low: &Value, high: Option<Value>, standing: Ordering) -> bool {
    match high {
        Some(high) => {
            low.cmp(&high) == standing
                && (*low == high) == standing.is_eq()
                && (*low < high) == standing.is_lt()
        }
        None => false,
    }
}

/// Whether the first stands so to the second, by each way of asking.
fn stands(alloc: Global, low: Sample, high: Sample, standing: Ordering) -> bool {
    match value(alloc, low) {
        Some(low) => stand(&low, value(alloc, high), standing),
        None => false,
    }
}

/// Whether the samples rise, each compared with each.
fn rise(alloc: Global, samples: &[Sample]) -> bool {
    for (i, low) in samples.iter().enumerate() {
        for (j, high) in samples.iter().enumerate() {
            if !stands(alloc, *low, *high, i.cmp(&j)) {
                return false;
            }
        }
    }
    true
}

#[test]
fn values_are_ordered(rt: HostRuntime) {
    let alloc = rt.alloc();
    let kinds = [
        Undefined,
        Nothing,
        Truth(true),
        Int(-9),
        Safe("z"),
        Bytes(b"a"),
        Ints(&[]),
        Pairs(&[]),
    ];
    let scalars = [
        Undefined,
        Nothing,
        Truth(false),
        Truth(true),
        Int(-1),
        Int(2),
        Text("B"),
        Text("a"),
    ];
    let collections = [
        Bytes(b"a"),
        Ints(&[1]),
        Ints(&[1, 1]),
        Ints(&[2]),
        Pairs(&[("x", 0)]),
        Pairs(&[("x", 0), ("y", 1)]),
        Pairs(&[("y", 0)]),
    ];
    assert!(rt; rise(alloc, &kinds) && rise(alloc, &scalars) && rise(alloc, &collections));
}

/// Two entries, of which the marked text goes last.
fn marked_map(alloc: Global) -> Option<Map> {
    let mut all = Map::new(alloc);
    if all.insert(Key::Int(1), Value::none()).is_ok()
        && put(alloc, &mut all, "a", value(alloc, Safe("t")))
    {
        Some(all)
    } else {
        None
    }
}

/// The same entries the other way round, the text unmarked.
fn unmarked_map(alloc: Global) -> Option<Map> {
    let mut all = Map::new(alloc);
    if put(alloc, &mut all, "a", value(alloc, Text("t")))
        && all.insert(Key::Int(1), Value::none()).is_ok()
    {
        Some(all)
    } else {
        None
    }
}

fn is_same(one: &Map, other: Option<Map>) -> bool {
    match other {
        Some(other) => one.is_same_as(&other),
        None => false,
    }
}

fn maps_are_same(alloc: Global) -> bool {
    match marked_map(alloc) {
        Some(one) => is_same(&one, unmarked_map(alloc)),
        None => false,
    }
}

fn is_equal(one: &Value, other: Option<Value>) -> bool {
    match other {
        Some(other) => *one == other,
        None => false,
    }
}

fn are_equal(one: Option<Value>, other: Option<Value>) -> bool {
    match one {
        Some(one) => is_equal(&one, other),
        None => false,
    }
}

#[test]
fn values_are_equal_by_content(rt: HostRuntime) {
    let alloc = rt.alloc();
    let mut right = maps_are_same(alloc)
        && are_equal(
            marked_map(alloc).map(Value::map),
            unmarked_map(alloc).map(Value::map),
        );
    for (one, other, same) in [
        (Text("a"), Safe("a"), true),
        (Text("a"), Bytes(b"a"), false),
        (Text("1"), Int(1), false),
        (Truth(true), Int(1), false),
        (Undefined, Nothing, false),
        (Ints(&[]), Pairs(&[]), false),
    ] {
        right = right && are_equal(value(alloc, one), value(alloc, other)) == same;
    }
    assert!(rt; right);
}

fn is_comparable(one: &Value, other: Option<Value>, wanted: bool) -> bool {
    match other {
        Some(other) => one.comparable(&other) == wanted && other.comparable(one) == wanted,
        None => false,
    }
}

/// Whether the two are comparable, either way round, or are not.
fn are_comparable(one: Option<Value>, other: Option<Value>, wanted: bool) -> bool {
    match one {
        Some(one) => is_comparable(&one, other, wanted),
        None => false,
    }
}

#[test]
fn values_are_comparable(rt: HostRuntime) {
    let alloc = rt.alloc();
    let mut right = true;
    for (one, other) in [
        (Nothing, Nothing),
        (Int(1), Truth(true)),
        (Pairs(&[]), Pairs(&[])),
    ] {
        right = right && are_comparable(value(alloc, one), value(alloc, other), false);
    }
    for (one, other, wanted) in [
        ([Int(1), Int(2)], [Int(1), Text("2")], false),
        ([Int(1), Int(2)], [Int(0), Text("2")], true),
        ([Ints(&[1, 3]), Nothing], [Ints(&[1, 2]), Int(5)], true),
        ([Ints(&[1, 2]), Nothing], [Ints(&[1, 2]), Int(5)], false),
        ([Ints(&[1, 2]), Nothing], [Ints(&[1, 2]), Nothing], false),
    ] {
        right = right && are_comparable(array(alloc, &one), array(alloc, &other), wanted);
    }
    assert!(rt; right);
}
