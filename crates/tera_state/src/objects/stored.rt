// What names stand for, as they are found.
ghost use Rattle.std.specs.Prelude.{◌≡◌};
ghost use Rattle.tera_errors.specs.Prelude.{Gives};
ghost use Rattle.tera_state.specs.Prelude.{view_of};
ghost use Rattle.tera_state.specs.Stored.{filter_answer, test_answer, function_answer, is_marked};

use crate::object::{Filter, Function, Test};
use crate::state::State;
use tera_built_ins::{BuiltInFilter, BuiltInFunction, BuiltInTest};
use tera_values::{Kwargs, TeraResult, Value};

/// What a name stands for: something built in, or what the caller registered, which is lent.
#[derive(Drop)]
pub enum Stored<'a, B, X> {
    BuiltIn(B),
    Own(&'a X),
}

/// A filter: a built-in one, or the caller's box.
pub type StoredFilter<'a> = Stored<'a, BuiltInFilter, Box<dyn Filter>>;

/// A test: a built-in one, or the caller's box.
pub type StoredTest<'a> = Stored<'a, BuiltInTest, Box<dyn Test>>;

/// A function: a built-in one, or the caller's box.
pub type StoredFunction<'a> = Stored<'a, BuiltInFunction, Box<dyn Function>>;

impl<'a> Stored<'a, BuiltInFilter, Box<dyn Filter>> {
    /// What it makes of the value.
    pub fn call(&self, value: &Value, kwargs: Kwargs, state: &State<'_>) -> TeraResult<Value>
        ensures { Gives (λ v. v) result (filter_answer
            (λ b. (⟦<dyn Filter as Filter>⟧ b.vtable).meaning b.value)
            (view_of (λ e. escaped e.now) state.now) self.now value.now kwargs) }
    {
        match self {
            Stored::BuiltIn(filter) => {
                filter.call(
                    state.alloc(),
                    value,
                    &kwargs.as_arguments(),
                    state.escaping(),
                )
            },
            Stored::Own(filter) => filter.call(value, kwargs, state),
        }
    }

    /// Whether a text that it answers is to be marked safe. What is built in marks its texts itself.
    pub fn is_safe(&self) -> bool
        ensures { result ≡ is_marked (λ b. (⟦<dyn Filter as Filter>⟧ b.vtable).safe b.value)
            self.now }
    {
        match self {
            Stored::BuiltIn(_) => false,
            Stored::Own(filter) => filter.is_safe(),
        }
    }
}

impl<'a, F: Filter> Stored<'a, BuiltInFilter, F> {
    /// What it makes of the value.
    pub fn call(&self, value: &Value, kwargs: Kwargs, state: &State<'_>) -> TeraResult<Value>
        ensures { Gives (λ v. v) result (filter_answer F.meaning
            (view_of (λ e. escaped e.now) state.now) self.now value.now kwargs) }
    {
        match self {
            Stored::BuiltIn(filter) => {
                filter.call(
                    state.alloc(),
                    value,
                    &kwargs.as_arguments(),
                    state.escaping(),
                )
            },
            Stored::Own(filter) => filter.call(value, kwargs, state),
        }
    }

    /// Whether a text that it answers is to be marked safe. What is built in marks its texts itself.
    pub fn is_safe(&self) -> bool
        ensures { result ≡ is_marked F.safe self.now }
    {
        match self {
            Stored::BuiltIn(_) => false,
            Stored::Own(filter) => filter.is_safe(),
        }
    }
}

impl<'a> Stored<'a, BuiltInTest, Box<dyn Test>> {
    /// Whether it holds of the value.
    pub fn call(&self, value: &Value, kwargs: Kwargs, state: &State<'_>) -> TeraResult<bool>
        ensures { Gives (λ b. b) result (test_answer
            (λ b. (⟦<dyn Test as Test>⟧ b.vtable).meaning b.value)
            (view_of (λ e. escaped e.now) state.now) self.now value.now kwargs) }
    {
        match self {
            Stored::BuiltIn(test) => test.call(state.alloc(), value, &kwargs.as_arguments()),
            Stored::Own(test) => test.call(value, kwargs, state),
        }
    }
}

impl<'a, T: Test> Stored<'a, BuiltInTest, T> {
    /// Whether it holds of the value.
    pub fn call(&self, value: &Value, kwargs: Kwargs, state: &State<'_>) -> TeraResult<bool>
        ensures { Gives (λ b. b) result (test_answer T.meaning
            (view_of (λ e. escaped e.now) state.now) self.now value.now kwargs) }
    {
        match self {
            Stored::BuiltIn(test) => test.call(state.alloc(), value, &kwargs.as_arguments()),
            Stored::Own(test) => test.call(value, kwargs, state),
        }
    }
}

impl<'a> Stored<'a, BuiltInFunction, Box<dyn Function>> {
    /// What it makes of the arguments.
    pub fn call(&self, kwargs: Kwargs, state: &State<'_>) -> TeraResult<Value>
        ensures { Gives (λ v. v) result (function_answer
            (λ b. (⟦<dyn Function as Function>⟧ b.vtable).meaning b.value)
            (view_of (λ e. escaped e.now) state.now) self.now kwargs) }
    {
        match self {
            Stored::BuiltIn(function) => function.call(state.alloc(), &kwargs.as_arguments()),
            Stored::Own(function) => function.call(kwargs, state),
        }
    }

    /// Whether a text that it answers is to be marked safe, as for a filter.
    pub fn is_safe(&self) -> bool
        ensures { result ≡ is_marked (λ b. (⟦<dyn Function as Function>⟧ b.vtable).safe b.value)
            self.now }
    {
        match self {
            Stored::BuiltIn(_) => false,
            Stored::Own(function) => function.is_safe(),
        }
    }
}

impl<'a, G: Function> Stored<'a, BuiltInFunction, G> {
    /// What it makes of the arguments.
    pub fn call(&self, kwargs: Kwargs, state: &State<'_>) -> TeraResult<Value>
        ensures { Gives (λ v. v) result (function_answer G.meaning
            (view_of (λ e. escaped e.now) state.now) self.now kwargs) }
    {
        match self {
            Stored::BuiltIn(function) => function.call(state.alloc(), &kwargs.as_arguments()),
            Stored::Own(function) => function.call(kwargs, state),
        }
    }

    /// Whether a text that it answers is to be marked safe, as for a filter.
    pub fn is_safe(&self) -> bool
        ensures { result ≡ is_marked G.safe self.now }
    {
        match self {
            Stored::BuiltIn(_) => false,
            Stored::Own(function) => function.is_safe(),
        }
    }
}
