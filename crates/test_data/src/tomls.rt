// What a text of TOML spells.
use crate::checks::answers;
use std::alloc::Global;
use tera_data::{Floats, toml_value};
use tera_values::TeraResult;

fn spells(alloc: Global, text: &str, floats: Floats, want: &str) -> bool {
    answers(alloc, toml_value(alloc, text, floats), want)
}

#[test]
fn texts_spell_maps(rt: HostRuntime) {
    for (text, want) in [
        ("", "map {}"),
        ("# nothing\n\n", "map {}"),
        ("\u{feff}a = 1", "map {\"a\": 1}"),
        ("b = true\na = \"x\"\r\n", "map {\"a\": \"x\", \"b\": true}"),
        ("a = [1, [2, 'c'], {}]", "map {\"a\": [1, [2, \"c\"], {}]}"),
        ("a = {c = 1, b = [ ]}", "map {\"a\": {\"b\": [], \"c\": 1}}"),
        (
            "a.b.c = 1\na.d = 2",
            "map {\"a\": {\"b\": {\"c\": 1}, \"d\": 2}}",
        ),
        (
            "[a]\nx = 1\n[a.b]\ny = 2",
            "map {\"a\": {\"b\": {\"y\": 2}, \"x\": 1}}",
        ),
        (
            "[[a]]\nx = 1\n[[a]]\ny = 2",
            "map {\"a\": [{\"x\": 1}, {\"y\": 2}]}",
        ),
        ("\"é ß\" = '''\nl1\nl2'''", "map {\"é ß\": \"l1\\nl2\"}"),
        ("a = \"\\u00e9\\t\"", "map {\"a\": \"é\\t\"}"),
        ("\"\" = 0", "map {\"\": 0}"),
        ("a", "message"),
        ("a =", "message"),
        ("= 1", "message"),
        ("a = 1 b = 2", "message"),
        ("a = 1\na = 2", "message"),
        ("a = 1\na.b = 2", "message"),
        ("[a]\n[a]", "message"),
        ("[a\nb = 1", "message"),
        ("a = [1 2]", "message"),
        ("a = \"x", "message"),
        ("a = \"\\q\"", "message"),
        ("a = nul", "message"),
        ("{\"a\": 1}", "message"),
    ] {
        assert!(rt; spells(rt.alloc(), text, Floats::Refuse, want), "{text}");
    }
}

#[test]
fn numbers_and_dates(rt: HostRuntime) {
    for (text, want, as_text) in [
        ("a = 0", "map {\"a\": 0}", "map {\"a\": 0}"),
        ("a = -1_000", "map {\"a\": -1000}", "map {\"a\": -1000}"),
        ("a = 0xFF", "map {\"a\": 255}", "map {\"a\": 255}"),
        (
            "a = 9223372036854775807",
            "map {\"a\": 9223372036854775807}",
            "map {\"a\": 9223372036854775807}",
        ),
        ("a = 9223372036854775808", "message", "message"),
        ("a = 1.5", "message", "map {\"a\": \"1.5\"}"),
        ("a = [-0.10]", "message", "map {\"a\": [\"-0.1\"]}"),
        ("a = 5e+22", "message", "map {\"a\": \"5e22\"}"),
        (
            "a = inf\nb = -inf\nc = nan",
            "message",
            "map {\"a\": \"inf\", \"b\": \"-inf\", \"c\": \"nan\"}",
        ),
        ("a = 01", "message", "message"),
        ("a = 1__0", "message", "message"),
        (
            "a = 1979-05-27T00:32:00.5-07:00",
            "map {\"a\": \"1979-05-27T00:32:00.5-07:00\"}",
            "map {\"a\": \"1979-05-27T00:32:00.5-07:00\"}",
        ),
        (
            "a = 1979-05-27",
            "map {\"a\": \"1979-05-27\"}",
            "map {\"a\": \"1979-05-27\"}",
        ),
        (
            "a = 07:32:00",
            "map {\"a\": \"07:32:00\"}",
            "map {\"a\": \"07:32:00\"}",
        ),
        ("a = 1979-13-27", "message", "message"),
    ] {
        assert!(rt; spells(rt.alloc(), text, Floats::Refuse, want), "{text}");
        assert!(rt; spells(rt.alloc(), text, Floats::Text, as_text), "{text}");
    }
}

/// A member whose value is so many arrays in one another.
fn text_of_nested_arrays(alloc: Global, depth: usize) -> TeraResult<String> {
    let mut text = String::from_str(alloc, "a = ")?;
    for _ in 0..depth {
        text.push('[')?;
    }
    for _ in 0..depth {
        text.push(']')?;
    }
    Ok(text)
}

/// A member whose name has so many parts.
fn text_of_dotted_key(alloc: Global, parts: usize) -> TeraResult<String> {
    let mut text = String::from_str(alloc, "a")?;
    for _ in 1..parts {
        text.push_str(".a")?;
    }
    text.push_str(" = 1")?;
    Ok(text)
}

fn is_read(alloc: Global, text: TeraResult<String>) -> bool {
    match text {
        Ok(text) => toml_value(alloc, text.as_str(), Floats::Refuse).is_ok(),
        Err(_) => false,
    }
}

#[test]
fn values_nest_to_a_depth(rt: HostRuntime) {
    let alloc = rt.alloc();
    for (depth, want) in [(80, true), (81, false), (10_000, false), (300_000, false)] {
        assert!(rt;
            is_read(alloc, text_of_nested_arrays(alloc, depth)) == want,
            "arrays: {depth}"
        );
        assert!(rt;
            is_read(alloc, text_of_dotted_key(alloc, depth)) == want,
            "parts: {depth}"
        );
    }
}
