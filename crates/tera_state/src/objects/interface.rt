// What a rendering asks of an engine's objects.
ghost use Rattle.std.specs.Prelude.{◌≡◌, ◌++◌, is_some, string_bytes, OnOk, OnErr};
ghost use Rattle.tera_errors.specs.Prelude.{Gives};
ghost use Rattle.tera_values.specs.Prelude.{at_name, plain};
ghost use Rattle.tera_built_ins.specs.Filters.{filter_of};
ghost use Rattle.tera_state.specs.Prelude.{rendered};
ghost use Rattle.tera_state.specs.Engine.{Engine, has_filter, has_test, has_function};
ghost use Rattle.tera_state.specs.Called.{filtered, tested, called};
ghost use Rattle.tera_state.specs.BuiltIn.{escaping_by};

use crate::objects::object_call::ObjectCall;
use std::alloc::{AllocError, Global};
use tera_built_ins::BuiltInFilter;
use tera_errors::Guess;
use tera_values::{Arguments, TeraResult, Value};

/// The escape of an engine, and its filters, tests and functions: what is built in, and the caller's own. What renders takes
/// these by a type parameter, since no functions that call each other may name a trait object.
pub trait Objects: Drop {
    // What they mean.
    ghost engine: { Self → Engine };

    /// Puts a value behind a text: its printed text, escaped where texts are escaped and the value is not safe. Want of
    /// memory leaves the text as it was.
    fn write(
        &self,
        alloc: Global,
        autoescape: bool,
        value: &Value,
        out: &mut String,
    ) -> Result<(), AllocError>
        ensures ok { OnOk result (string_bytes out.new
            ≡ string_bytes out.old ++ rendered autoescape (engine self.now).escape value.now) }
        ensures err { OnErr result (string_bytes out.new ≡ string_bytes out.old) };

    /// Whether the name stands for a filter.
    fn has_filter(&self, name: &str) -> bool
        ensures { result ≡ has_filter (engine self.now) name.now };

    /// Whether the name stands for a test.
    fn has_test(&self, name: &str) -> bool
        ensures { result ≡ has_test (engine self.now) name.now };

    /// Whether the name stands for a function.
    fn has_function(&self, name: &str) -> bool
        ensures { result ≡ has_function (engine self.now) name.now };

    /// Whether the caller registered a filter under the name.
    fn has_own_filter(&self, name: &str) -> bool
        ensures { result ≡ is_some (at_name name.now (engine self.now).filters) };

    /// Whether the caller registered a test under the name.
    fn has_own_test(&self, name: &str) -> bool
        ensures { result ≡ is_some (at_name name.now (engine self.now).tests) };

    /// What a filter that is built in makes of the value, with its own faults.
    fn apply_built_in(
        &self,
        alloc: Global,
        autoescape: bool,
        filter: BuiltInFilter,
        value: &Value,
        arguments: &Arguments<'_>,
    ) -> TeraResult<Value>
        ensures { Gives (λ v. v) result (filter_of plain (escaping_by (engine self.now) autoescape)
            filter value.now arguments.now) };

    /// What the filter of this name makes of the value, with its own faults; a `Message` where there is none. An object sees
    /// the scopes, and whether texts are escaped.
    fn call_filter(&self, call: ObjectCall<'_>, value: &Value) -> TeraResult<Value>
        ensures { Gives (λ v. v) result (filtered (engine self.now) call.entry value.now) };

    /// Whether the test of this name holds of the value.
    fn call_test(&self, call: ObjectCall<'_>, value: &Value) -> TeraResult<bool>
        ensures { Gives (λ b. b) result (tested (engine self.now) call.entry value.now) };

    /// What the function of this name makes of the arguments.
    fn call_function(&self, call: ObjectCall<'_>) -> TeraResult<Value>
        ensures { Gives (λ v. v) result (called (engine self.now) call.entry) };

    /// Tries the names of the caller's filters in the place of one that is not there.
    fn guess_filter(&self, guess: &mut Guess<'_>) -> Result<(), AllocError>;

    /// Tries the names of the caller's tests.
    fn guess_test(&self, guess: &mut Guess<'_>) -> Result<(), AllocError>;

    /// Tries the names of the caller's functions.
    fn guess_function(&self, guess: &mut Guess<'_>) -> Result<(), AllocError>;
}
