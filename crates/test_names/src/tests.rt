// What a caller names and calls, by what it is about, and what the tests share.
mod code;
mod components;
mod engines;
mod errors;
mod machines;
mod states;
mod values;

use tera::{TeraResult, Value};

pub fn is_true(answer: TeraResult<bool>) -> bool {
    matches!(answer, Ok(true))
}

/// Whether a call answers this integer.
pub fn is_integer(answer: TeraResult<Value>, wanted: i128) -> bool {
    match answer {
        Ok(value) => value.as_i128() == Some(wanted),
        Err(_) => false,
    }
}

/// Whether what was rendered is this text.
pub fn is_text(answer: TeraResult<String>, wanted: &str) -> bool {
    match answer {
        Ok(text) => text.as_str() == wanted,
        Err(_) => false,
    }
}
