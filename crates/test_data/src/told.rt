// What people are told of data of TOML and of CSV that is refused.
use crate::checks::tells;
use std::alloc::Global;
use tera_data::{Floats, csv_value, toml_context, toml_value};

fn is_told_of_toml(alloc: Global, text: &str, words: &str) -> bool {
    match toml_value(alloc, text, Floats::Refuse) {
        Ok(_) => false,
        Err(error) => tells(&error, words),
    }
}

fn is_told_of_context(alloc: Global, text: &str, words: &str) -> bool {
    match toml_context(alloc, text, Floats::Refuse) {
        Ok(_) => false,
        Err(error) => tells(&error, words),
    }
}

fn is_told_of_csv(alloc: Global, text: &str, words: &str) -> bool {
    match csv_value(alloc, text) {
        Ok(_) => false,
        Err(error) => tells(&error, words),
    }
}

#[test]
fn refusals_of_toml_say_where(rt: HostRuntime) {
    for (text, words) in [
        ("a = 1.5", "`a` is 1.5, which is no integer of 128 bits"),
        ("a = nan", "`a` is nan, which is no integer of 128 bits"),
        (
            "[[users]]\n[[users]]\nrates = [1, 1e3]",
            "`users[1].rates[1]` is 1000.0, which is no integer of 128 bits",
        ),
        ("a", "line 1, column 2: key with no value, expected `=`"),
        (
            "a = 1\né = 2",
            "line 2, column 1: invalid key, expected letters, numbers, `-`, `_` or a quoted key",
        ),
        ("a = 1\na = 2", "line 2, column 1: duplicate key"),
        (
            "a = [1\n  2]",
            "line 2, column 3: missing comma between array elements, expected `,` or `]`",
        ),
        (
            "a = 9223372036854775808",
            "line 1, column 5: number out of range",
        ),
        ("[a\n", "line 1, column 3: unclosed table, expected `]`"),
    ] {
        assert!(rt; is_told_of_toml(rt.alloc(), text, words), "{text}");
        assert!(rt; is_told_of_context(rt.alloc(), text, words), "{text}");
    }
}

#[test]
fn refusals_of_csv_say_where(rt: HostRuntime) {
    for (text, words) in [
        (
            "a,b\n1,2\n3\n",
            "line 3, column 1: fields in this record: 1, and in the first record, which names them: 2",
        ),
        (
            "a\n\"x\ny\"\n\n1,2,3",
            "line 5, column 1: fields in this record: 3, and in the first record, which names them: 1",
        ),
    ] {
        assert!(rt; is_told_of_csv(rt.alloc(), text, words), "{text}");
    }
}
