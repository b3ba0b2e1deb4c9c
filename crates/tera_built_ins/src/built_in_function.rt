// The functions by their names.
ghost use Rattle.std.specs.Prelude.{◌≡◌};
ghost use Rattle.tera_errors.specs.Prelude.{Gives};
ghost use Rattle.tera_values.specs.Prelude.{plain};
ghost use Rattle.tera_built_ins.specs.FunctionTable.{function_named, function_of};

use crate::functions;
use std::alloc::Global;
use tera_values::{Arguments, TeraResult, Value};

/// A function that every engine has.
#[derive(Clone, Copy)]
pub enum BuiltInFunction {
    Range,
    Throw,
}

/// The names of the functions, for guesses at names that are misspelled.
pub const FUNCTIONS: [&str; 2] = ["range", "throw"];

impl BuiltInFunction {
    /// The one with this name, if there is one.
    pub fn by_name(name: &str) -> Option<BuiltInFunction>
        ensures { result ≡ function_named name.now }
    {
        match name {
            "range" => Some(BuiltInFunction::Range),
            "throw" => Some(BuiltInFunction::Throw),
            _ => None,
        }
    }

    /// What it makes of the arguments.
    pub fn call(self, alloc: Global, arguments: &Arguments<'_>) -> TeraResult<Value>
        ensures { Gives (λ v. v) result (function_of plain self arguments.now) }
    {
        match self {
            BuiltInFunction::Range => functions::range(alloc, arguments),
            BuiltInFunction::Throw => functions::throw(alloc, arguments),
        }
    }
}
