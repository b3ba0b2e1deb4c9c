// What is registered.
ghost use Rattle.std.specs.Prelude.{◌≡◌, OnOk, OnErr, IfErr, is_some, option_map};
ghost use Rattle.tera_errors.specs.Prelude.{Lacks};
ghost use Rattle.tera_values.specs.Prelude.{at_name, escape_html};

use crate::object::{Filter, Function, Test};
use crate::objects::filters::OwnFilters;
use crate::objects::stored::Stored;
use crate::objects::table::ObjectTable;
use std::alloc::Global;
use tera_built_ins::{BuiltInFilter, BuiltInFunction, BuiltInTest, EscapeFn};
use tera_values::TeraResult;

/// The caller's objects, over any types of them: the escape, or none, and filters, tests and functions by name.
#[derive(Drop)]
pub struct ObjectsOver<E, F, T, G> {
    pub escape: Option<E>,
    pub filters: OwnFilters<F>,
    pub tests: ObjectTable<T>,
    pub functions: ObjectTable<G>,
}

/// The objects that a caller boxes.
pub type CallerObjects = ObjectsOver<
    Box<dyn EscapeFn>,
    Box<dyn Filter>,
    Box<dyn Test>,
    Box<dyn Function>,
>;

impl<E: Drop, F: Drop, T: Drop, G: Drop> ObjectsOver<E, F, T, G> {
    ghost use Rattle.tera_state.specs.Engine.{standard_engine, filter_at, test_at, function_at, has_filter, has_test, has_function, with_escape, with_filter, with_test, with_function};
    ghost use Rattle.tera_state.specs.Kept.{Meanings, Registers, engine_of};
    ghost use Rattle.tera_state.specs.Moving.{with_those_of, MovedInPart};
    ghost use Rattle.tera_state.specs.Stored.{callee_of};

    /// No objects: `escape_html`, and what is built in. Takes no memory.
    pub fn new(alloc: Global) -> ObjectsOver<E, F, T, G>
        ensures { (m : Meanings E F T G) → engine_of m result ≡ standard_engine }
    {
        ObjectsOver {
            escape: None,
            filters: OwnFilters::new(alloc),
            tests: ObjectTable::new(alloc),
            functions: ObjectTable::new(alloc),
        }
    }

    /// Texts are escaped by this from now on. The old escape is dropped. Takes no memory.
    pub fn set_escape_fn(&mut self, escape: E)
        ensures { (m : Meanings E F T G) →
            engine_of m self.new ≡ with_escape (m.escape escape) (engine_of m self.old) }
    {
        self.escape = Some(escape);
    }

    /// Texts are escaped by `escape_html` from now on. The old escape is dropped. Takes no memory.
    pub fn reset_escape_fn(&mut self)
        ensures { (m : Meanings E F T G) →
            engine_of m self.new ≡ with_escape escape_html (engine_of m self.old) }
    {
        self.escape = None;
    }

    /// The name stands for this filter from now on. The caller's filter that it stood for is dropped. Want of memory leaves all
    /// as it was.
    pub fn register_filter(&mut self, name: &str, filter: F) -> TeraResult<()>
        ensures { Registers result self.old self.new (λ m. with_filter name.now (m.filter filter)) }
    {
        self.filters.put(name, filter)
    }

    /// The name stands for this test from now on, as for a filter.
    pub fn register_test(&mut self, name: &str, test: T) -> TeraResult<()>
        ensures { Registers result self.old self.new (λ m. with_test name.now (m.test test)) }
    {
        self.tests.put(name, test)
    }

    /// The name stands for this function from now on, as for a filter.
    pub fn register_function(&mut self, name: &str, function: G) -> TeraResult<()>
        ensures { Registers result self.old self.new
            (λ m. with_function name.now (m.function function)) }
    {
        self.functions.put(name, function)
    }

    /// Moves the other's filters here, then its tests, then its functions, each in byte order of the names, but those whose names
    /// stand for something here. After want of memory those that were moved stay, and the rest is dropped.
    pub fn register_from(&mut self, other: ObjectsOver<E, F, T, G>) -> TeraResult<()>
        ensures ok { (m : Meanings E F T G) → OnOk result
            (engine_of m self.new ≡ with_those_of (engine_of m other) (engine_of m self.old)) }
        ensures part { (m : Meanings E F T G) → OnErr result
            (MovedInPart (engine_of m other) (engine_of m self.old) (engine_of m self.new)) }
        ensures lacks { IfErr result Lacks }
    {
        let ObjectsOver {
            escape: _,
            filters,
            tests,
            functions,
        } = other;
        self.filters.move_from(filters)?;
        self.tests.move_from::<BuiltInTest>(tests)?;
        self.functions.move_from::<BuiltInFunction>(functions)
    }

    /// The filter that the name stands for: one of the caller's goes before what is built in.
    pub fn filter(&self, name: &str) -> Option<Stored<'_, BuiltInFilter, F>>
        ensures { (m : Meanings E F T G) → option_map (callee_of m.filter) result
            ≡ filter_at (engine_of m self.now) name.now }
    {
        match self.filters.table.get(name) {
            Some(own) => Some(Stored::Own(own)),
            None => match BuiltInFilter::by_name(name) {
                Some(filter) => Some(Stored::BuiltIn(filter)),
                None => None,
            },
        }
    }

    /// The test that the name stands for, as for a filter.
    pub fn test(&self, name: &str) -> Option<Stored<'_, BuiltInTest, T>>
        ensures { (m : Meanings E F T G) → option_map (callee_of m.test) result
            ≡ test_at (engine_of m self.now) name.now }
    {
        match self.tests.get(name) {
            Some(own) => Some(Stored::Own(own)),
            None => match BuiltInTest::by_name(name) {
                Some(test) => Some(Stored::BuiltIn(test)),
                None => None,
            },
        }
    }

    /// The function that the name stands for, as for a filter.
    pub fn function(&self, name: &str) -> Option<Stored<'_, BuiltInFunction, G>>
        ensures { (m : Meanings E F T G) → option_map (callee_of m.function) result
            ≡ function_at (engine_of m self.now) name.now }
    {
        match self.functions.get(name) {
            Some(own) => Some(Stored::Own(own)),
            None => match BuiltInFunction::by_name(name) {
                Some(function) => Some(Stored::BuiltIn(function)),
                None => None,
            },
        }
    }

    /// Whether a filter is registered under the name.
    pub fn has_registered_filter(&self, name: &str) -> bool
        ensures { (m : Meanings E F T G) →
            result ≡ is_some (at_name name.now (engine_of m self.now).filters) }
    {
        self.filters.table.contains(name)
    }

    /// Whether a test is registered under the name.
    pub fn has_registered_test(&self, name: &str) -> bool
        ensures { (m : Meanings E F T G) →
            result ≡ is_some (at_name name.now (engine_of m self.now).tests) }
    {
        self.tests.contains(name)
    }

    /// Whether the name stands for a filter.
    pub fn knows_filter(&self, name: &str) -> bool
        ensures { (m : Meanings E F T G) → result ≡ has_filter (engine_of m self.now) name.now }
    {
        self.filters.table.stands_for::<BuiltInFilter>(name)
    }

    /// Whether the name stands for a test.
    pub fn knows_test(&self, name: &str) -> bool
        ensures { (m : Meanings E F T G) → result ≡ has_test (engine_of m self.now) name.now }
    {
        self.tests.stands_for::<BuiltInTest>(name)
    }

    /// Whether the name stands for a function.
    pub fn knows_function(&self, name: &str) -> bool
        ensures { (m : Meanings E F T G) → result ≡ has_function (engine_of m self.now) name.now }
    {
        self.functions.stands_for::<BuiltInFunction>(name)
    }
}
