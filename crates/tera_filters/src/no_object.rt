// Where a caller has no objects of its own.
ghost use Rattle.std.specs.Prelude.{Err, false};
ghost use Rattle.tera_errors.specs.Prelude.{message};

use tera_state::{Filter, Function, State, Test};
use tera_values::{Error, Kwargs, TeraResult, Value};

/// Stands for the filters, tests or functions of a caller that has none. Each call of it is refused.
#[derive(Clone, Copy)]
pub struct NoObject;

impl Filter for NoObject {
    ghost meaning = { λ o v given view. Err message };

    ghost safe = { λ o. false };

    fn call(&self, _value: &Value, _kwargs: Kwargs, state: &State<'_>) -> TeraResult<Value> {
        Err(Error::message(state.alloc(), "the caller has no filters of its own"))
    }

    fn is_safe(&self) -> bool {
        false
    }
}

impl Test for NoObject {
    ghost meaning = { λ o v given view. Err message };

    fn call(&self, _value: &Value, _kwargs: Kwargs, state: &State<'_>) -> TeraResult<bool> {
        Err(Error::message(state.alloc(), "the caller has no tests of its own"))
    }
}

impl Function for NoObject {
    ghost meaning = { λ o given view. Err message };

    ghost safe = { λ o. false };

    fn call(&self, _kwargs: Kwargs, state: &State<'_>) -> TeraResult<Value> {
        Err(Error::message(state.alloc(), "the caller has no functions of its own"))
    }

    fn is_safe(&self) -> bool {
        false
    }
}
