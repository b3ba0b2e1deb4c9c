// Contexts from data, one over another.
use crate::checks::is_value;
use std::alloc::Global;
use tera_data::{Floats, json_context, put_csv, put_json, put_toml, toml_context};
use tera_values::{Context, TeraResult};

fn shows(alloc: Global, context: &Context, want: &str) -> bool {
    match context.to_value() {
        Ok(value) => is_value(alloc, &value, want),
        Err(_) => false,
    }
}

/// The context of the first text, with the second put over it, or as it was where the second is refused.
fn put_over(alloc: Global, first: &str, second: &str) -> TeraResult<Context> {
    let mut context = json_context(alloc, first, Floats::Refuse)?;
    match put_json(&mut context, second, Floats::Refuse) {
        Ok(()) => {}
        Err(error) => drop(error),
    }
    Ok(context)
}

fn becomes(alloc: Global, first: &str, second: &str, want: &str) -> bool {
    match put_over(alloc, first, second) {
        Ok(context) => shows(alloc, &context, want),
        Err(_) => false,
    }
}

#[test]
fn texts_are_contexts(rt: HostRuntime) {
    for (first, second, want) in [
        ("{}", "{}", "map {}"),
        ("{\"b\":1,\"a\":[2]}", "{}", "map {\"a\": [2], \"b\": 1}"),
        (
            "{\"a\":1,\"b\":2}",
            "{\"b\":3,\"c\":4}",
            "map {\"a\": 1, \"b\": 3, \"c\": 4}",
        ),
        (
            "{\"a\":{\"x\":1}}",
            "{\"a\":{\"y\":2}}",
            "map {\"a\": {\"y\": 2}}",
        ),
        (
            "{\"a\":1,\"a\":2}",
            "{\"b\":3,\"b\":4}",
            "map {\"a\": 2, \"b\": 4}",
        ),
        ("{\"a\":1}", "{\"a\":2,\"b\":1.5}", "map {\"a\": 1}"),
        ("{\"a\":1}", "{\"a\":2", "map {\"a\": 1}"),
        ("{\"a\":1}", "[2]", "map {\"a\": 1}"),
    ] {
        assert!(rt;
            becomes(rt.alloc(), first, second, want),
            "{first} {second}"
        );
    }
}

fn put_toml_over(alloc: Global, first: &str, second: &str) -> TeraResult<Context> {
    let mut context = toml_context(alloc, first, Floats::Refuse)?;
    match put_toml(&mut context, second, Floats::Refuse) {
        Ok(()) => {}
        Err(error) => drop(error),
    }
    Ok(context)
}

#[test]
fn texts_of_toml_are_contexts(rt: HostRuntime) {
    for (first, second, want) in [
        ("", "", "map {}"),
        ("b = 1\na = [2]", "", "map {\"a\": [2], \"b\": 1}"),
        (
            "a = 1\nb = 2",
            "b = 3\nc = 4",
            "map {\"a\": 1, \"b\": 3, \"c\": 4}",
        ),
        ("[a]\nx = 1", "a.y = 2", "map {\"a\": {\"y\": 2}}"),
        ("a = 1", "a = 2\nb = 1.5", "map {\"a\": 1}"),
        ("a = 1", "a = 2\nb", "map {\"a\": 1}"),
    ] {
        assert!(rt;
            match put_toml_over(rt.alloc(), first, second) {
                Ok(context) => shows(rt.alloc(), &context, want),
                Err(_) => false,
            },
            "{first} {second}"
        );
    }
}

fn put_csv_over(alloc: Global, first: &str, text: &str) -> TeraResult<Context> {
    let mut context = toml_context(alloc, first, Floats::Refuse)?;
    match put_csv(&mut context, "rows", text) {
        Ok(()) => {}
        Err(error) => drop(error),
    }
    Ok(context)
}

#[test]
fn texts_of_csv_are_put_at_names(rt: HostRuntime) {
    for (first, text, want) in [
        ("a = 1", "", "map {\"a\": 1, \"rows\": []}"),
        ("rows = 1", "n\n7", "map {\"rows\": [{\"n\": \"7\"}]}"),
        ("rows = 1", "n\n7,8", "map {\"rows\": 1}"),
    ] {
        assert!(rt;
            match put_csv_over(rt.alloc(), first, text) {
                Ok(context) => shows(rt.alloc(), &context, want),
                Err(_) => false,
            },
            "{first} {text}"
        );
    }
}
