// The caller's filters, tests, functions and escape.
ghost use Rattle.std.specs.Prelude.{◌≡◌};
ghost use Rattle.tera_values.specs.Prelude.{escape_html};
ghost use Rattle.tera_state.specs.Prelude.{with_escape, with_filter, with_test, with_function, Meanings, engine_of};

use crate::engine::TeraOver;
use std::mem::replace;
use tera_state::ObjectsOver;
use tera_values::TeraResult;

/// Calls that register objects, of any types. In `Tera` these are `Box<dyn EscapeFn>`, `Box<dyn Filter>`, `Box<dyn Test>` and
/// `Box<dyn Function>`. The contracts hold whatever the objects mean.
impl<E: Drop, F: Drop, T: Drop, G: Drop> TeraOver<ObjectsOver<E, F, T, G>> {
    ghost use Rattle.tera.specs.Registry.{registry_of};
    ghost use Rattle.tera.specs.Registering.{with_engine, Registers, MovesFrom};

    /// Texts are escaped by this from now on, also in templates that are there. The escape of before is dropped. Takes no memory.
    pub fn set_escape_fn(&mut self, escape: E)
        ensures { (m : Meanings E F T G) → registry_of (engine_of m) self.new
            ≡ with_engine (with_escape (m.escape escape)) (registry_of (engine_of m) self.old) }
    {
        self.objects.set_escape_fn(escape);
    }

    /// Texts are escaped by `escape_html` from now on. The escape of before is dropped. Takes no memory.
    pub fn reset_escape_fn(&mut self)
        ensures { (m : Meanings E F T G) → registry_of (engine_of m) self.new
            ≡ with_engine (with_escape escape_html) (registry_of (engine_of m) self.old) }
    {
        self.objects.reset_escape_fn();
    }

    /// Registers the filter under this name, also for templates that are there already. A filter that was registered under it before
    /// is dropped. Out of memory, the engine stays as it is, and `filter` is dropped.
    pub fn register_filter(&mut self, name: &str, filter: F) -> TeraResult<()>
        ensures { Registers result (λ m. with_filter name.now (m.filter filter)) self.old self.new }
    {
        self.objects.register_filter(name, filter)
    }

    /// Registers the test under this name, as `register_filter` does with a filter.
    pub fn register_test(&mut self, name: &str, test: T) -> TeraResult<()>
        ensures { Registers result (λ m. with_test name.now (m.test test)) self.old self.new }
    {
        self.objects.register_test(name, test)
    }

    /// Registers the function under this name, as `register_filter` does with a filter.
    pub fn register_function(&mut self, name: &str, function: G) -> TeraResult<()>
        ensures { Registers result (λ m. with_function name.now (m.function function))
            self.old self.new }
    {
        self.objects.register_function(name, function)
    }

    /// Moves the filters, then the tests, then the functions of `other` to this engine, each in byte order of names, except those
    /// whose names this engine knows already. The rest of `other` is dropped. Out of memory, the objects that were moved stay here.
    pub fn register_from(&mut self, other: TeraOver<ObjectsOver<E, F, T, G>>) -> TeraResult<()>
        ensures { (m : Meanings E F T G) → let seen = registry_of (engine_of m) in
            MovesFrom result (seen other).engine (seen self.old) (seen self.new) }
    {
        let mut other = other;
        let objects = replace(&mut other.objects, ObjectsOver::new(self.alloc));
        self.objects.register_from(objects)
    }
}
