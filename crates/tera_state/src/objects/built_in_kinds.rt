// Which filters, tests and functions every engine has.
ghost use Rattle.std.specs.Prelude.{is_some};
ghost use Rattle.tera_built_ins.specs.Prelude.{filter_named, test_named, function_named};

use crate::objects::table::BuiltInKind;
use tera_built_ins::{BuiltInFilter, BuiltInFunction, BuiltInTest};

impl BuiltInKind for BuiltInFilter {
    ghost stands = { λ name. is_some (filter_named name) };

    fn is_one(name: &str) -> bool {
        BuiltInFilter::by_name(name).is_some()
    }
}

impl BuiltInKind for BuiltInTest {
    ghost stands = { λ name. is_some (test_named name) };

    fn is_one(name: &str) -> bool {
        BuiltInTest::by_name(name).is_some()
    }
}

impl BuiltInKind for BuiltInFunction {
    ghost stands = { λ name. is_some (function_named name) };

    fn is_one(name: &str) -> bool {
        BuiltInFunction::by_name(name).is_some()
    }
}
