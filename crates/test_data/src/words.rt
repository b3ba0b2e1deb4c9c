// What people are told of data that is refused.
use crate::checks::tells;
use crate::values::nested_arrays;
use std::alloc::Global;
use tera_data::{Floats, json_context, json_value, text_of};

fn is_told(alloc: Global, text: &str, words: &str) -> bool {
    match json_value(alloc, text, Floats::Refuse) {
        Ok(_) => false,
        Err(error) => tells(&error, words),
    }
}

fn is_told_of_context(alloc: Global, text: &str, words: &str) -> bool {
    match json_context(alloc, text, Floats::Refuse) {
        Ok(_) => false,
        Err(error) => tells(&error, words),
    }
}

fn is_told_of_bytes(alloc: Global, bytes: &[u8], words: &str) -> bool {
    match text_of(alloc, bytes) {
        Ok(_) => false,
        Err(error) => tells(&error, words),
    }
}

#[test]
fn refusals_say_where(rt: HostRuntime) {
    for (text, words) in [
        ("1.5", "the data is 1.5, which is no integer of 128 bits"),
        (
            "{\"users\":[0,1,2,{\"rate\":1e3}]}",
            "`users[3].rate` is 1e3, which is no integer of 128 bits",
        ),
        (
            "[[0.5]]",
            "`[0][0]` is 0.5, which is no integer of 128 bits",
        ),
        ("", "line 1, column 1: a value is wanted here"),
        ("[1,\n 2,]", "line 2, column 4: a value is wanted here"),
        (
            "[1 2]",
            "line 1, column 4: `,` or a closing bracket is wanted here",
        ),
        (
            "[1",
            "line 1, column 3: `,` or a closing bracket is wanted here",
        ),
        ("{\"é\" 1}", "line 1, column 6: `:` is wanted here"),
        ("{1:2}", "line 1, column 2: a name in quotes is wanted here"),
        (
            "{\"a\":1,}",
            "line 1, column 8: a name in quotes is wanted here",
        ),
        ("{\"a\":}", "line 1, column 6: a value is wanted here"),
        ("[\n[", "line 2, column 2: a value is wanted here"),
        ("1 2", "line 1, column 3: the data is to end before this"),
        ("[}", "line 1, column 2: a value is wanted here"),
        ("[\"a]", "line 1, column 2: a value is wanted here"),
    ] {
        assert!(rt; is_told(rt.alloc(), text, words), "{text}");
    }
    assert!(rt; is_deep(rt.alloc()));
}

/// Whether a text that nests too deep is told of as such.
fn is_deep(alloc: Global) -> bool {
    match nested_arrays(alloc, 129) {
        Ok(text) => is_told(
            alloc,
            text.as_str(),
            "line 1, column 129: this nests deeper than 128",
        ),
        Err(_) => false,
    }
}

#[test]
fn refusals_of_contexts_say_where(rt: HostRuntime) {
    for (text, words) in [
        (
            "[]",
            "the data is an array, and an object is expected, whose members are the names",
        ),
        (
            "null",
            "the data is null, and an object is expected, whose members are the names",
        ),
        (
            "{\"a\":{\"b c\":[-1.5]}}",
            "`a.b c[0]` is -1.5, which is no integer of 128 bits",
        ),
        ("{\n", "line 2, column 1: a name in quotes is wanted here"),
    ] {
        assert!(rt; is_told_of_context(rt.alloc(), text, words), "{text}");
    }
}

#[test]
fn bytes_are_texts_or_not(rt: HostRuntime) {
    let alloc = rt.alloc();
    assert!(rt; matches!(text_of(alloc, "é".as_bytes()), Ok("é")));
    assert!(rt; is_told_of_bytes(alloc, b"a\nb\xff", "line 2: this is no text in UTF-8"));
}
