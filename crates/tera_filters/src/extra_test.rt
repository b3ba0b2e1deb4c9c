// The tests, as objects that an engine calls by name.
use crate::{patterns, ranges};
use tera_state::{State, Test};
use tera_values::{Kwargs, TeraResult, Value};

/// A test of this crate.
#[derive(Clone, Copy)]
pub enum ExtraTest {
    InRange,
    Matching,
}

impl Test for ExtraTest {
    ghost use Rattle.tera_filters.specs.Extra.{test_of};

    ghost meaning = { λ t v given view. test_of t v given };

    fn call(&self, value: &Value, kwargs: Kwargs, state: &State<'_>) -> TeraResult<bool> {
        let arguments = kwargs.as_arguments();
        match self {
            ExtraTest::InRange => ranges::in_range(state.alloc(), value, &arguments),
            ExtraTest::Matching => patterns::matching(state.alloc(), value, &arguments),
        }
    }
}
