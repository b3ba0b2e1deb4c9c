// Objects of this crate, and a caller's own beside them.
use crate::extra_filter::ExtraFilter;
use crate::extra_function::ExtraFunction;
use crate::extra_test::ExtraTest;
use tera_state::{Filter, Function, State, Test, UnboxedObjects};
use tera_values::{Kwargs, TeraResult, Value};

/// An object of a library, or one of the caller's own.
#[derive(Clone, Copy)]
pub enum Pack<Extra, Own> {
    Extra(Extra),
    Own(Own),
}

/// Objects of an engine that has those of this crate, and a caller's own filters, tests and functions of these types.
pub type PackObjects<F, T, G> = UnboxedObjects<
    Pack<ExtraFilter, F>,
    Pack<ExtraTest, T>,
    Pack<ExtraFunction, G>,
>;

impl<E: Filter, O: Filter> Filter for Pack<E, O> {
    ghost use Rattle.tera_filters.specs.Pack.{in_pack};

    ghost meaning = { in_pack E.meaning O.meaning };

    ghost safe = { in_pack E.safe O.safe };

    fn call(&self, value: &Value, kwargs: Kwargs, state: &State<'_>) -> TeraResult<Value> {
        match self {
            Pack::Extra(filter) => filter.call(value, kwargs, state),
            Pack::Own(filter) => filter.call(value, kwargs, state),
        }
    }

    fn is_safe(&self) -> bool {
        match self {
            Pack::Extra(filter) => filter.is_safe(),
            Pack::Own(filter) => filter.is_safe(),
        }
    }
}

impl<E: Test, O: Test> Test for Pack<E, O> {
    ghost use Rattle.tera_filters.specs.Pack.{in_pack};

    ghost meaning = { in_pack E.meaning O.meaning };

    fn call(&self, value: &Value, kwargs: Kwargs, state: &State<'_>) -> TeraResult<bool> {
        match self {
            Pack::Extra(test) => test.call(value, kwargs, state),
            Pack::Own(test) => test.call(value, kwargs, state),
        }
    }
}

impl<E: Function, O: Function> Function for Pack<E, O> {
    ghost use Rattle.tera_filters.specs.Pack.{in_pack};

    ghost meaning = { in_pack E.meaning O.meaning };

    ghost safe = { in_pack E.safe O.safe };

    fn call(&self, kwargs: Kwargs, state: &State<'_>) -> TeraResult<Value> {
        match self {
            Pack::Extra(function) => function.call(kwargs, state),
            Pack::Own(function) => function.call(kwargs, state),
        }
    }

    fn is_safe(&self) -> bool {
        match self {
            Pack::Extra(function) => function.is_safe(),
            Pack::Own(function) => function.is_safe(),
        }
    }
}
