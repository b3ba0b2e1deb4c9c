// The functions, as objects that an engine calls by name.
use crate::clocks::{Clock, now};
use tera_state::{Function, State};
use tera_values::{Kwargs, TeraResult, Value};

/// A function of this crate.
#[derive(Clone, Copy)]
pub enum ExtraFunction {
    /// The time that the host gave.
    Now(Clock),
}

impl Function for ExtraFunction {
    ghost use Rattle.std.specs.Prelude.{false};
    ghost use Rattle.tera_filters.specs.Extra.{function_of};

    ghost meaning = { λ f given view. function_of f given };

    ghost safe = { λ f. false };

    fn call(&self, kwargs: Kwargs, state: &State<'_>) -> TeraResult<Value> {
        let arguments = kwargs.as_arguments();
        match self {
            ExtraFunction::Now(clock) => now(state.alloc(), *clock, &arguments),
        }
    }

    fn is_safe(&self) -> bool {
        false
    }
}
