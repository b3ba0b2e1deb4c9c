// What an object of the caller is: a filter, a test or a function.
ghost use Rattle.std.specs.Prelude.{◌≡◌, Bool, Result};
ghost use Rattle.tera_errors.specs.Prelude.{Gives, Fault};
ghost use Rattle.tera_values.specs.Prelude.{Named, Val};
ghost use Rattle.tera_state.specs.View.{View, view_of};

use crate::state::State;
use tera_values::{Kwargs, TeraResult, Value};

/// A filter of the caller. It answers what it means, or want of memory.
pub trait Filter: Drop {
    // What it makes of a value and arguments, where it sees this of the rendering.
    ghost meaning: { Self → Val → Named Val → View → Result Val Fault };

    // Whether its texts are marked safe.
    ghost safe: { Self → Bool };

    /// What it makes of the value.
    fn call(&self, value: &Value, kwargs: Kwargs, state: &State<'_>) -> TeraResult<Value>
        ensures { Gives (λ v. v) result
            (meaning self.now value.now kwargs (view_of (λ e. escaped e.now) state.now)) };

    /// Whether a text that it answers is marked safe; it is asked at each answer.
    fn is_safe(&self) -> bool
        ensures { result ≡ safe self.now };
}

/// A test of the caller. It answers what it means, or want of memory.
pub trait Test: Drop {
    // Whether it holds of a value with arguments, where it sees this of the rendering.
    ghost meaning: { Self → Val → Named Val → View → Result Bool Fault };

    /// Whether it holds of the value.
    fn call(&self, value: &Value, kwargs: Kwargs, state: &State<'_>) -> TeraResult<bool>
        ensures { Gives (λ b. b) result
            (meaning self.now value.now kwargs (view_of (λ e. escaped e.now) state.now)) };
}

/// A function of the caller. It answers what it means, or want of memory.
pub trait Function: Drop {
    // What it makes of arguments, where it sees this of the rendering.
    ghost meaning: { Self → Named Val → View → Result Val Fault };

    // Whether its texts are marked safe.
    ghost safe: { Self → Bool };

    /// What it makes of the arguments.
    fn call(&self, kwargs: Kwargs, state: &State<'_>) -> TeraResult<Value>
        ensures { Gives (λ v. v) result
            (meaning self.now kwargs (view_of (λ e. escaped e.now) state.now)) };

    /// Whether a text that it answers is marked safe; it is asked at each answer.
    fn is_safe(&self) -> bool
        ensures { result ≡ safe self.now };
}
