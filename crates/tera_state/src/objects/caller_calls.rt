// What renders asks the caller's boxes.
use crate::objects::boxed_escape::{apply_by, escape_by, state_of_call, write_by};
use crate::objects::caller_objects::CallerObjects;
use crate::objects::interface::Objects;
use crate::objects::object_call::ObjectCall;
use crate::objects::safe_answers::mark_if;
use std::alloc::{AllocError, Global};
use tera_built_ins::BuiltInFilter;
use tera_errors::Guess;
use tera_values::{Arguments, Error, Shape, TeraResult, Value};

impl Objects for CallerObjects {
    ghost use Rattle.tera_state.specs.Kept.{engine_of};

    ghost engine = { engine_of (record {
      escape = λ b. (EscapeFn-box b).escaped b.value;
      filter = λ b. record {
        meaning = (Filter-box b).meaning b.value;
        safe = (Filter-box b).safe b.value;
      };
      test = λ b. record { meaning = (Test-box b).meaning b.value };
      function = λ b. record {
        meaning = (Function-box b).meaning b.value;
        safe = (Function-box b).safe b.value;
      };
    }) };

    // One look at the shape tells how it is written: an integer is printed without a call.
    #[inline(always)]
    fn write(
        &self,
        alloc: Global,
        autoescape: bool,
        value: &Value,
        out: &mut String,
    ) -> Result<(), AllocError> {
        match value.shape() {
            Shape::Int(_) => value.print_to(out),
            Shape::Text(text, false) if autoescape => escape_by(&self.escape, text, out),
            _ => write_by(&self.escape, alloc, autoescape, value, out),
        }
    }

    fn has_filter(&self, name: &str) -> bool {
        self.knows_filter(name)
    }

    fn has_test(&self, name: &str) -> bool {
        self.knows_test(name)
    }

    fn has_function(&self, name: &str) -> bool {
        self.knows_function(name)
    }

    fn has_own_filter(&self, name: &str) -> bool {
        self.has_registered_filter(name)
    }

    fn has_own_test(&self, name: &str) -> bool {
        self.has_registered_test(name)
    }

    fn apply_built_in(
        &self,
        alloc: Global,
        autoescape: bool,
        filter: BuiltInFilter,
        value: &Value,
        arguments: &Arguments<'_>,
    ) -> TeraResult<Value> {
        apply_by(&self.escape, alloc, autoescape, filter, value, arguments)
    }

    fn call_filter(&self, call: ObjectCall<'_>, value: &Value) -> TeraResult<Value> {
        let Some(filter) = self.filter(call.name) else {
            return Err(Error::message(call.alloc, "there is no such filter"));
        };
        let state = state_of_call(self, &call);
        mark_if(filter.is_safe(), filter.call(value, call.arguments, &state))
    }

    fn call_test(&self, call: ObjectCall<'_>, value: &Value) -> TeraResult<bool> {
        let Some(test) = self.test(call.name) else {
            return Err(Error::message(call.alloc, "there is no such test"));
        };
        let state = state_of_call(self, &call);
        test.call(value, call.arguments, &state)
    }

    fn call_function(&self, call: ObjectCall<'_>) -> TeraResult<Value> {
        let Some(function) = self.function(call.name) else {
            return Err(Error::message(call.alloc, "there is no such function"));
        };
        let state = state_of_call(self, &call);
        mark_if(function.is_safe(), function.call(call.arguments, &state))
    }

    fn guess_filter(&self, guess: &mut Guess<'_>) -> Result<(), AllocError> {
        self.filters.table.guess(guess)
    }

    fn guess_test(&self, guess: &mut Guess<'_>) -> Result<(), AllocError> {
        self.tests.guess(guess)
    }

    fn guess_function(&self, guess: &mut Guess<'_>) -> Result<(), AllocError> {
        self.functions.guess(guess)
    }
}
