// The tests by their names.
ghost use Rattle.std.specs.Prelude.{◌≡◌};
ghost use Rattle.tera_errors.specs.Prelude.{Gives};
ghost use Rattle.tera_values.specs.Prelude.{plain};
ghost use Rattle.tera_built_ins.specs.TestTable.{test_named, test_of};

use crate::tests;
use std::alloc::Global;
use tera_values::{Arguments, Shape, TeraResult, Value};

/// A test that every engine has.
#[derive(Clone, Copy)]
pub enum BuiltInTest {
    String,
    Number,
    Map,
    Bool,
    Array,
    Integer,
    None,
    Iterable,
    Defined,
    Undefined,
    Odd,
    Even,
    DivisibleBy,
    StartingWith,
    EndingWith,
    Containing,
}

/// The names of the tests, for guesses at names that are misspelled.
pub const TESTS: [&str; 16] = [
    "string",
    "number",
    "map",
    "bool",
    "array",
    "integer",
    "none",
    "iterable",
    "defined",
    "undefined",
    "odd",
    "even",
    "divisible_by",
    "starting_with",
    "ending_with",
    "containing",
];

impl BuiltInTest {
    /// The one with this name, if there is one. Only names of its length are compared with it.
    pub fn by_name(name: &str) -> Option<BuiltInTest>
        ensures { result ≡ test_named name.now }
    {
        match name.len() {
            3 => match name {
                "map" => Some(BuiltInTest::Map),
                "odd" => Some(BuiltInTest::Odd),
                _ => None,
            },
            4 => match name {
                "bool" => Some(BuiltInTest::Bool),
                "none" => Some(BuiltInTest::None),
                "even" => Some(BuiltInTest::Even),
                _ => None,
            },
            5 => match name {
                "array" => Some(BuiltInTest::Array),
                _ => None,
            },
            6 => match name {
                "string" => Some(BuiltInTest::String),
                "number" => Some(BuiltInTest::Number),
                _ => None,
            },
            7 => match name {
                "integer" => Some(BuiltInTest::Integer),
                "defined" => Some(BuiltInTest::Defined),
                _ => None,
            },
            8 => match name {
                "iterable" => Some(BuiltInTest::Iterable),
                _ => None,
            },
            9 => match name {
                "undefined" => Some(BuiltInTest::Undefined),
                _ => None,
            },
            10 => match name {
                "containing" => Some(BuiltInTest::Containing),
                _ => None,
            },
            11 => match name {
                "ending_with" => Some(BuiltInTest::EndingWith),
                _ => None,
            },
            12 => match name {
                "divisible_by" => Some(BuiltInTest::DivisibleBy),
                _ => None,
            },
            13 => match name {
                "starting_with" => Some(BuiltInTest::StartingWith),
                _ => None,
            },
            _ => None,
        }
    }

    /// What it says of the value. For a kind of values the arguments say nothing, and there are no numbers but integers.
    pub fn call(self, alloc: Global, value: &Value, arguments: &Arguments<'_>) -> TeraResult<bool>
        ensures { Gives (λ b. b) result (test_of plain self value.now arguments.now) }
    {
        match self {
            BuiltInTest::String => Ok(matches!(&value.shape(), Shape::Text(_, _))),
            BuiltInTest::Number => Ok(matches!(&value.shape(), Shape::Int(_))),
            BuiltInTest::Map => Ok(matches!(&value.shape(), Shape::Map(_))),
            BuiltInTest::Bool => Ok(matches!(&value.shape(), Shape::Bool(_))),
            BuiltInTest::Array => Ok(matches!(&value.shape(), Shape::Array(_))),
            BuiltInTest::Integer => Ok(matches!(&value.shape(), Shape::Int(_))),
            BuiltInTest::None => Ok(matches!(&value.shape(), Shape::None)),
            BuiltInTest::Iterable => tests::iterable(value, arguments),
            BuiltInTest::Defined => tests::defined(value, arguments),
            BuiltInTest::Undefined => tests::undefined(value, arguments),
            BuiltInTest::Odd => tests::odd(alloc, value, arguments),
            BuiltInTest::Even => tests::even(alloc, value, arguments),
            BuiltInTest::DivisibleBy => tests::divisible_by(alloc, value, arguments),
            BuiltInTest::StartingWith => tests::starting_with(alloc, value, arguments),
            BuiltInTest::EndingWith => tests::ending_with(alloc, value, arguments),
            BuiltInTest::Containing => tests::containing(alloc, value, arguments),
        }
    }
}
