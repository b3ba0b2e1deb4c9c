// What calls name.
ghost use Rattle.std.specs.Prelude.{◌≡◌};
ghost use Rattle.tera_built_ins.specs.Prelude.{filter_named, test_named};

use tera_built_ins::{BuiltInFilter, BuiltInTest};
use tera_values::Name;

/// What a call names: what is called, and its arguments. What is built in under that name is found once, where the call is
/// compiled.
#[derive(Drop)]
pub(crate) struct CallNames {
    pub(crate) name: Name,
    pub(crate) arguments: Vec<Name>,
    filter: Option<BuiltInFilter>,
    test: Option<BuiltInTest>,
    ghost filter_has_name: { filter ≡ filter_named name },
    ghost test_has_name: { test ≡ test_named name },
}

impl CallNames {
    /// The name of what is called, and those of the arguments.
    pub(crate) fn new(name: Name, arguments: Vec<Name>) -> CallNames
        ensures name { result.name ≡ name }
        ensures arguments { result.arguments ≡ arguments }
    {
        let filter = BuiltInFilter::by_name(name.as_str());
        let test = BuiltInTest::by_name(name.as_str());
        CallNames {
            name,
            arguments,
            filter,
            test,
        }
    }

    /// The filter that is built in under the name.
    #[inline(always)]
    pub(crate) fn filter(&self) -> Option<BuiltInFilter>
        ensures { result ≡ filter_named self.now.name }
    {
        self.filter
    }

    /// The test that is built in under the name.
    #[inline(always)]
    pub(crate) fn test(&self) -> Option<BuiltInTest>
        ensures { result ≡ test_named self.now.name }
    {
        self.test
    }
}
