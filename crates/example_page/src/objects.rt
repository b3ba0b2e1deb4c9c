// A filter, a test, a function and an escape of this program.
ghost use Rattle.std.specs.Prelude.{Ok, true, false, codes, string_bytes};
ghost use Rattle.tera.specs.Prelude.{text};
ghost use Rattle.example_page.specs.Objects.{strong, is_adult};

use std::alloc::Global;
use tera::{Error, EscapeFn, Filter, Function, Kwargs, State, TeraResult, Test, Value};

/// A filter that puts a value between `<b>` and `</b>`, escaped where texts are.
#[derive(Drop)]
pub struct Strong {
    pub alloc: Global,
}

impl Filter for Strong {
    ghost meaning = { λ o v given view. strong v view };

    ghost safe = { λ _. true };

    fn call(&self, value: &Value, _arguments: Kwargs, state: &State<'_>) -> TeraResult<Value> {
        let written = state.escape_if_needed(value)?;
        let mut text = String::from_str(self.alloc, "<b>")?;
        text.push_str(written.as_str())?;
        text.push_str("</b>")?;
        Value::string(self.alloc, text.as_str())
    }

    fn is_safe(&self) -> bool {
        true
    }
}

/// A test for ages of eighteen and more.
#[derive(Drop)]
pub struct Adult;

impl Test for Adult {
    ghost meaning = { λ o v given view. is_adult v };

    fn call(&self, value: &Value, _arguments: Kwargs, _state: &State<'_>) -> TeraResult<bool> {
        match value.as_i128() {
            Some(age) => Ok(age >= 18),
            None => Err(Error::invalid_argument()),
        }
    }
}

/// A function that answers where the program runs.
#[derive(Drop)]
pub struct Place {
    pub alloc: Global,
    pub name: String,
}

impl Function for Place {
    ghost meaning = { λ o given view. Ok (text (string_bytes o.name) false) };

    ghost safe = { λ _. false };

    fn call(&self, _arguments: Kwargs, _state: &State<'_>) -> TeraResult<Value> {
        Value::string(self.alloc, self.name.as_str())
    }

    fn is_safe(&self) -> bool {
        false
    }
}

/// An escape that tells nothing of a text.
#[derive(Drop)]
pub struct Masked;

impl EscapeFn for Masked {
    ghost escaped = { λ o input. codes "***" };

    fn escape(&self, _input: &str, out: &mut String) -> TeraResult<()> {
        out.push_str("***")?;
        Ok(())
    }
}
