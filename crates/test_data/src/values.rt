// What a text of JSON spells.
use crate::checks::spells;
use std::alloc::Global;
use tera_data::{Floats, json_value};
use tera_values::TeraResult;

#[test]
fn texts_spell_values(rt: HostRuntime) {
    for (text, want) in [
        ("{}", "map {}"),
        ("[]", "array []"),
        ("null", "none "),
        (" \t\r\n true \n", "bool true"),
        ("[ 1 , 2 ]", "array [1, 2]"),
        ("\"\"", "string "),
        (
            "{\"a\":[{\"b\":{}},[[]]],\"c\":null}",
            "map {\"a\": [{\"b\": {}}, [[]]], \"c\": none}",
        ),
        (
            "{\"z\":1,\"b\":2,\"a\":3}",
            "map {\"z\": 1, \"b\": 2, \"a\": 3}",
        ),
        ("{\"a\":1,\"b\":2,\"a\":3}", "map {\"a\": 3, \"b\": 2}"),
        ("{\"a\":1,\"\\u0061\":2}", "map {\"a\": 2}"),
        ("\"\\u0041\\n\\/\"", "string A\n/"),
        ("\"\\ud83d\\ude00é\"", "string 😀é"),
        ("\"\\ud83d\"", "message"),
        ("\"\\x41\"", "message"),
        ("\"a\tb\"", "message"),
        ("", "message"),
        (" ", "message"),
        ("[1,]", "message"),
        ("{\"a\":1,}", "message"),
        ("{a:1}", "message"),
        ("['a']", "message"),
        ("[1 2]", "message"),
        ("[1", "message"),
        ("{\"a\":", "message"),
        ("\"ab", "message"),
        ("tru", "message"),
        ("1 2", "message"),
        ("[]]", "message"),
        ("// no\n1", "message"),
        ("NaN", "message"),
    ] {
        assert!(rt; spells(rt.alloc(), text, Floats::Refuse, want), "{text}");
    }
}

#[test]
fn numbers_are_integers_or_texts(rt: HostRuntime) {
    for (text, want, as_text) in [
        ("7", "int 7", "int 7"),
        ("0", "int 0", "int 0"),
        ("-0", "int 0", "int 0"),
        (
            "170141183460469231731687303715884105727",
            "int 170141183460469231731687303715884105727",
            "int 170141183460469231731687303715884105727",
        ),
        (
            "-170141183460469231731687303715884105728",
            "int -170141183460469231731687303715884105728",
            "int -170141183460469231731687303715884105728",
        ),
        (
            "170141183460469231731687303715884105728",
            "message",
            "string 170141183460469231731687303715884105728",
        ),
        (
            "-170141183460469231731687303715884105729",
            "message",
            "string -170141183460469231731687303715884105729",
        ),
        ("1.5", "message", "string 1.5"),
        ("1.0", "message", "string 1.0"),
        ("1e3", "message", "string 1e3"),
        ("-2E-7", "message", "string -2E-7"),
        ("[0.10]", "message", "array [\"0.10\"]"),
        ("{\"a\":1.5,\"a\":2}", "message", "map {\"a\": 2}"),
        ("01", "message", "message"),
        ("-", "message", "message"),
        ("+1", "message", "message"),
        ("1.", "message", "message"),
        (".5", "message", "message"),
        ("0x1F", "message", "message"),
    ] {
        assert!(rt; spells(rt.alloc(), text, Floats::Refuse, want), "{text}");
        assert!(rt; spells(rt.alloc(), text, Floats::Text, as_text), "{text}");
    }
}

/// A text of so many brackets that open, and as many that close.
pub(crate) fn nested_arrays(alloc: Global, depth: usize) -> TeraResult<String> {
    let mut text = String::new(alloc);
    for _ in 0..depth {
        text.push('[')?;
    }
    for _ in 0..depth {
        text.push(']')?;
    }
    Ok(text)
}

fn is_read(alloc: Global, depth: usize) -> bool {
    match nested_arrays(alloc, depth) {
        Ok(text) => json_value(alloc, text.as_str(), Floats::Refuse).is_ok(),
        Err(_) => false,
    }
}

#[test]
fn values_nest_to_a_depth(rt: HostRuntime) {
    for (depth, want) in [
        (100, true),
        (128, true),
        (129, false),
        (200, false),
        (10_000, false),
        (300_000, false),
    ] {
        assert!(rt; is_read(rt.alloc(), depth) == want, "{depth}");
    }
}
