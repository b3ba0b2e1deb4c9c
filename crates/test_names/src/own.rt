//! Objects of a caller, one of each kind, which the tests register.
ghost use Rattle.std.specs.Prelude.{Ok, codes, false, true};
ghost use Rattle.tera.specs.Prelude.{text};

use tera::{Error, EscapeFn, Filter, Function, Kwargs, State, TeraResult, Test, Value};

/// A filter and a function that answer `<b>`, a text that is marked safe.
#[derive(Drop)]
pub struct Bold;

impl Filter for Bold {
    ghost meaning = { λ o v given view. Ok (text (codes "<b>") false) };

    ghost safe = { λ _. true };

    fn call(&self, _value: &Value, _kwargs: Kwargs, state: &State<'_>) -> TeraResult<Value> {
        Value::string(state.alloc(), "<b>")
    }

    fn is_safe(&self) -> bool {
        true
    }
}

impl Function for Bold {
    ghost meaning = { λ o given view. Ok (text (codes "<b>") false) };

    ghost safe = { λ _. true };

    fn call(&self, _kwargs: Kwargs, state: &State<'_>) -> TeraResult<Value> {
        Value::string(state.alloc(), "<b>")
    }

    fn is_safe(&self) -> bool {
        true
    }
}

/// A test that always holds.
#[derive(Drop)]
pub struct AlwaysPasses;

impl Test for AlwaysPasses {
    ghost meaning = { λ o v given view. Ok true };

    fn call(&self, _value: &Value, _kwargs: Kwargs, _state: &State<'_>) -> TeraResult<bool> {
        Ok(true)
    }
}

/// An escape that says that memory was refused.
#[derive(Drop)]
pub struct RefusesMemory;

impl EscapeFn for RefusesMemory {
    ghost escaped = { λ o input. input };

    fn escape(&self, _input: &str, _out: &mut String) -> TeraResult<()> {
        Err(Error::out_of_memory())
    }
}
