// Objects without boxes, of types that a caller names.
use crate::object::{Filter, Function, Test};
use crate::objects::caller_objects::ObjectsOver;
use crate::objects::interface::Objects;
use crate::objects::object_call::ObjectCall;
use crate::objects::safe_answers::mark_if;
use crate::writing::write_value;
use std::alloc::{AllocError, Global};
use tera_built_ins::{BuiltInFilter, EscapeFn, Escaping};
use tera_errors::{Guess, alloc_result};
use tera_values::{Arguments, Error, Shape, TeraResult, Value, escape_html};

/// `escape_html`, which is all that objects without a box are escaped by.
#[derive(Clone, Copy)]
pub struct HtmlEscape;

impl EscapeFn for HtmlEscape {
    ghost use Rattle.tera_values.specs.Escape.{escape_html};

    ghost escaped = { λ e. escape_html };

    fn escape(&self, input: &str, out: &mut String) -> TeraResult<()> {
        escape_html(input, out)
    }
}

/// Objects without a box: filters, tests and functions of one type each, as an enum of all that a caller has. A library can hand
/// out such objects. Texts are escaped by `escape_html`.
pub type UnboxedObjects<F, T, G> = ObjectsOver<HtmlEscape, F, T, G>;

impl<F: Filter, T: Test, G: Function> Objects for UnboxedObjects<F, T, G> {
    ghost use Rattle.tera_state.specs.Kept.{engine_of};
    ghost use Rattle.tera_values.specs.Escape.{escape_html};

    ghost engine = { engine_of (record {
      escape = λ e. escape_html;
      filter = λ f. record { meaning = F.meaning f; safe = F.safe f };
      test = λ t. record { meaning = T.meaning t };
      function = λ g. record { meaning = G.meaning g; safe = G.safe g };
    }) };

    // One look at the shape tells how it is written: an integer is printed without a call.
    #[inline(always)]
    fn write(
        &self,
        alloc: Global,
        autoescape: bool,
        value: &Value,
        out: &mut String,
    ) -> Result<(), AllocError> {
        match value.shape() {
            Shape::Int(_) => value.print_to(out),
            Shape::Text(text, false) if autoescape => alloc_result(self.escape.escape(text, out)),
            _ => {
                let escaping = Escaping {
                    autoescape,
                    escape: &self.escape,
                };
                write_value(alloc, escaping, value, out)
            }
        }
    }

    fn has_filter(&self, name: &str) -> bool {
        self.knows_filter(name)
    }

    fn has_test(&self, name: &str) -> bool {
        self.knows_test(name)
    }

    fn has_function(&self, name: &str) -> bool {
        self.knows_function(name)
    }

    fn has_own_filter(&self, name: &str) -> bool {
        self.has_registered_filter(name)
    }

    fn has_own_test(&self, name: &str) -> bool {
        self.has_registered_test(name)
    }

    fn apply_built_in(
        &self,
        alloc: Global,
        autoescape: bool,
        filter: BuiltInFilter,
        value: &Value,
        arguments: &Arguments<'_>,
    ) -> TeraResult<Value> {
        let escaping = Escaping {
            autoescape,
            escape: &self.escape,
        };
        filter.call(alloc, value, arguments, escaping)
    }

    fn call_filter(&self, call: ObjectCall<'_>, value: &Value) -> TeraResult<Value> {
        let Some(filter) = self.filter(call.name) else {
            return Err(Error::message(call.alloc, "there is no such filter"));
        };
        let taken = Some(self.filters.taken.as_slice());
        let state = call.scopes.state(call.autoescape, None, taken);
        mark_if(filter.is_safe(), filter.call(value, call.arguments, &state))
    }

    fn call_test(&self, call: ObjectCall<'_>, value: &Value) -> TeraResult<bool> {
        let Some(test) = self.test(call.name) else {
            return Err(Error::message(call.alloc, "there is no such test"));
        };
        let taken = Some(self.filters.taken.as_slice());
        let state = call.scopes.state(call.autoescape, None, taken);
        test.call(value, call.arguments, &state)
    }

    fn call_function(&self, call: ObjectCall<'_>) -> TeraResult<Value> {
        let Some(function) = self.function(call.name) else {
            return Err(Error::message(call.alloc, "there is no such function"));
        };
        let taken = Some(self.filters.taken.as_slice());
        let state = call.scopes.state(call.autoescape, None, taken);
        mark_if(function.is_safe(), function.call(call.arguments, &state))
    }

    fn guess_filter(&self, guess: &mut Guess<'_>) -> Result<(), AllocError> {
        self.filters.table.guess(guess)
    }

    fn guess_test(&self, guess: &mut Guess<'_>) -> Result<(), AllocError> {
        self.tests.guess(guess)
    }

    fn guess_function(&self, guess: &mut Guess<'_>) -> Result<(), AllocError> {
        self.functions.guess(guess)
    }
}
