// Printing, slices, items, paths and what values hold.
use crate::sample::Sample::{Bytes, Int, Ints, Nothing, Pairs, Safe, Text, Truth, Undefined};
use crate::sample::{Sample, answers, array, entry, is_value, prints, put, value};
use std::alloc::Global;
use tera_values::{Key, Map, TeraResult, Value, escape_html};

const NESTED: [Sample; 3] = [Nothing, Undefined, Text("x\"y\n")];

fn nested_prints(alloc: Global) -> bool {
    match entry(alloc, "a", array(alloc, &NESTED)) {
        Some(value) => prints(alloc, &value, "{\"a\": [none, undefined, \"x\\\"y\\n\"]}"),
        None => false,
    }
}

fn with_number(alloc: Global) -> Option<Map> {
    let mut all = Map::new(alloc);
    if put(alloc, &mut all, "a", array(alloc, &NESTED))
        && all.insert(Key::Int(-3), Value::from_bool(true)).is_ok()
    {
        Some(all)
    } else {
        None
    }
}

/// Whether the value in shared form goes to the end, and a text escaped behind it.
fn goes_to_end(alloc: Global, value: Value, out: &mut String) -> bool {
    match value.into_shared(alloc) {
        Ok(value) => {
            value.print_to(out).is_ok()
                && escape_html("a&<b>\"'日", out).is_ok()
                && out.as_str()
                    == "> {\"a\": [none, undefined, \"x\\\"y\\n\"], -3: true}a&amp;&lt;b&gt;&quot;&#x27;日"
        }
        Err(_) => false,
    }
}

fn prints_at_end(alloc: Global) -> bool {
    match String::from_str(alloc, "> ") {
        Ok(mut out) => match with_number(alloc) {
            Some(all) => goes_to_end(alloc, Value::map(all), &mut out),
            None => false,
        },
        Err(_) => false,
    }
}

fn sample_prints(alloc: Global, sample: Sample, text: &str) -> bool {
    match value(alloc, sample) {
        Some(value) => prints(alloc, &value, text),
        None => false,
    }
}

#[test]
fn values_print(rt: HostRuntime) {
    let alloc = rt.alloc();
    let mut right = nested_prints(alloc) && prints_at_end(alloc);
    for (sample, text) in [
        (Truth(true), "true"),
        (Int(i128::MIN), "-170141183460469231731687303715884105728"),
        (Nothing, ""),
        (Text("\\ \" \n"), "\\ \" \n"),
        (Ints(&[1, 2, 3]), "[1, 2, 3]"),
        (Bytes(&[0xff, 0xfe, 0xfd]), "\u{fffd}\u{fffd}\u{fffd}"),
        (Bytes(&[0xe2, 0x82, 0x41]), "\u{fffd}A"),
    ] {
        right = right && sample_prints(alloc, sample, text);
    }
    assert!(rt; right);
}

type SliceBounds = (Option<i128>, Option<i128>, Option<i128>);

fn slices(alloc: Global, sample: Sample, bounds: SliceBounds, want: &str) -> bool {
    match value(alloc, sample) {
        Some(value) => answers(
            alloc,
            value.slice(alloc, bounds.0, bounds.1, bounds.2),
            want,
        ),
        None => false,
    }
}

fn turns(alloc: Global, sample: Sample, want: &str) -> bool {
    match value(alloc, sample) {
        Some(value) => answers(alloc, value.reverse(alloc), want),
        None => false,
    }
}

#[test]
fn slices_are_cut(rt: HostRuntime) {
    let alloc = rt.alloc();
    let numbers = Ints(&[1, 2, 3]);
    let letters = Safe("日本語");
    let mut right = true;
    for (sample, bounds, want) in [
        (numbers, (Some(-1), Some(0), Some(-1)), "array [3, 2]"),
        (numbers, (None, None, Some(-1)), "array [3, 2, 1]"),
        (numbers, (Some(-9), Some(9), Some(2)), "array [1, 3]"),
        (numbers, (Some(2), Some(1), None), "array []"),
        (numbers, (None, None, Some(0)), "message"),
        (letters, (Some(1), None, None), "string 本語"),
        (letters, (None, None, Some(-2)), "string 語日"),
    ] {
        right = right && slices(alloc, sample, bounds, want);
    }
    for (sample, want) in [
        (Text("日本語"), "string 語本日"),
        (Ints(&[1, 2]), "array [2, 1]"),
        (Nothing, "message"),
    ] {
        right = right && turns(alloc, sample, want);
    }
    assert!(rt; right);
}

fn nested_value(alloc: Global) -> Option<Value> {
    entry(alloc, "a", array(alloc, &[Pairs(&[("b", 7)])]))
}

fn leads(alloc: Global, path: &str, want: &str) -> bool {
    match nested_value(alloc) {
        Some(root) => match root.get_from_path(path) {
            Some(value) => is_value(alloc, value, want),
            None => want == "absent",
        },
        None => false,
    }
}

fn item_is(alloc: Global, value: &Value, index: Option<Value>, want: &str) -> bool {
    match index {
        Some(index) => answers(alloc, value.get_item(alloc, &index), want),
        None => false,
    }
}

fn has_item(alloc: Global, value: Option<Value>, index: Sample, want: &str) -> bool {
    match value {
        Some(whole) => item_is(alloc, &whole, crate::sample::value(alloc, index), want),
        None => false,
    }
}

fn is_key(key: &Key, name: &str) -> bool {
    match key {
        Key::Text(text) => text.as_str() == name,
        _ => false,
    }
}

fn text_is_key(alloc: Global) -> bool {
    match value(alloc, Text("k")) {
        Some(text) => match text.as_key(alloc) {
            Ok(key) => is_key(&key, "k"),
            Err(_) => false,
        },
        None => false,
    }
}

#[test]
fn parts_are_reached(rt: HostRuntime) {
    let alloc = rt.alloc();
    let mut right = leads(alloc, "a.0.b", "int 7")
        && leads(alloc, "a.1.b", "absent")
        && has_item(alloc, nested_value(alloc), Text("a"), "array [{\"b\": 7}]")
        && text_is_key(alloc);
    for (sample, index, want) in [
        (Text("añb"), -2, "string ñ"),
        (Text("añb"), 3, "undefined "),
        (Ints(&[4, 5]), -1, "int 5"),
        (Bytes(b"ab"), 1, "int 98"),
        (Nothing, 1, "message"),
    ] {
        right = right && has_item(alloc, value(alloc, sample), Int(index), want);
    }
    assert!(rt; right);
}

fn bool_value(answer: TeraResult<bool>) -> TeraResult<Value> {
    answer.map(|found| Value::from_bool(found))
}

fn is_held(alloc: Global, whole: &Value, part: Option<Value>, want: &str) -> bool {
    match part {
        Some(part) => answers(alloc, bool_value(whole.contains(alloc, &part)), want),
        None => false,
    }
}

fn holds(alloc: Global, whole: Sample, part: Sample, want: &str) -> bool {
    match value(alloc, whole) {
        Some(whole) => is_held(alloc, &whole, value(alloc, part), want),
        None => false,
    }
}

#[test]
fn parts_are_found(rt: HostRuntime) {
    let alloc = rt.alloc();
    let mut right = true;
    for (whole, part, want) in [
        (Ints(&[1, 2]), Int(2), "bool true"),
        (Ints(&[1, 2]), Int(3), "bool false"),
        (Text("abcabd"), Text("abd"), "bool true"),
        (Text("abcabd"), Text(""), "bool true"),
        (Text("abcabd"), Text("abe"), "bool false"),
        (Text("1"), Int(1), "message"),
        (Pairs(&[("x", 0)]), Text("x"), "bool true"),
        (Pairs(&[("x", 0)]), Ints(&[1]), "bool false"),
    ] {
        right = right && holds(alloc, whole, part, want);
    }
    assert!(rt; right);
}
