// What a call answers, in words.
use std::alloc::Global;
use tera_data::{Floats, json_value};
use tera_values::{Error, ErrorKind, TeraResult, Value};

fn prints(alloc: Global, value: &Value, text: &str) -> bool {
    match value.printed(alloc) {
        Ok(printed) => printed.as_str() == text,
        Err(_) => false,
    }
}

/// The kind and the printed text, as `int 7`.
pub(crate) fn is_value(alloc: Global, value: &Value, want: &str) -> bool {
    match want.split_once(' ') {
        Some((kind, text)) => value.name() == kind && prints(alloc, value, text),
        None => false,
    }
}

/// Whether the error is a message of these words.
pub(crate) fn tells(error: &Error, words: &str) -> bool {
    matches!(error.kind(), ErrorKind::Message(_)) && error.words() == Some(words)
}

/// Whether the call answered this value, or refused by a message where that is wanted.
pub(crate) fn answers(alloc: Global, answer: TeraResult<Value>, want: &str) -> bool {
    match answer {
        Ok(value) => is_value(alloc, &value, want),
        Err(error) => want == "message" && matches!(error.kind(), ErrorKind::Message(_)),
    }
}

/// Whether the text spells this value, or none.
pub(crate) fn spells(alloc: Global, text: &str, floats: Floats, want: &str) -> bool {
    answers(alloc, json_value(alloc, text, floats), want)
}
