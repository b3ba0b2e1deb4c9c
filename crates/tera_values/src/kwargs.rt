// Arguments by name.
ghost use Rattle.std.specs.Prelude.{◌≡◌, [], Ok, Some, IfErr, IfSome, IsErr, OnOk, OnErr, option_copied, option_map};
ghost use Rattle.tera_errors.specs.Prelude.{Gives, Lacks, MemorySuffices, missing_argument};
ghost use Rattle.tera_values.specs.Named.{at_name, put, put_all};
ghost use Rattle.tera_values.specs.Arguments.{read, read_needed};

use crate::argument::ArgFromValue;
use crate::arguments::{Arguments, position};
use crate::context::Context;
use crate::name::{Name, NameRef};
use std::alloc::Global;
use std::collections::BTreeMap;
use std::marker::Model;
use tera_errors::{Error, TeraResult};
use tera_value_types::Value;

/// Arguments by name. Those that nothing asks for are ignored. They stand in byte order of their names, since a call has
/// few and gives them in that order: each goes to the end, and none is hashed.
#[derive(Drop)]
pub struct Kwargs {
    entries: Vec<(Name, Value)>,
}

impl Model for Kwargs {
    ghost use Rattle.tera_value_types.specs.Val.{Val};
    ghost use Rattle.tera_value_types.specs.Coding.{val_coding};
    ghost use Rattle.tera_values.specs.Named.{Named, named_code, IsAscending};

    ghost Value = { Named Val };

    ghost coded = { named_code val_coding };

    ghost view = { λ k. k.entries.items };

    ghost invariant = { λ k. IsAscending k.entries.items };
}

impl Kwargs {
    /// No arguments. Takes no memory.
    pub fn new(alloc: Global) -> Kwargs
        ensures { result ≡ [] }
    {
        Kwargs {
            entries: Vec::new(alloc),
        }
    }

    /// No arguments yet, with room for so many.
    pub fn with_capacity(alloc: Global, capacity: usize) -> TeraResult<Kwargs>
        ensures { Gives (λ k. k) result (Ok []) }
    {
        Ok(Kwargs {
            entries: Vec::with_capacity(alloc, capacity)?,
        })
    }

    /// The arguments of the map, moved and not copied. Gather many unordered arguments in a map first: `put` moves all arguments
    /// after the new one.
    pub fn of_map(alloc: Global, map: BTreeMap<Name, Value>) -> TeraResult<Kwargs>
        ensures { Gives (λ k. k) result (Ok map.entries) }
    {
        Ok(Kwargs {
            entries: map.into_iter().collect(alloc)?,
        })
    }

    /// The allocator that was given at first.
    pub fn alloc(&self) -> Global {
        *self.entries.allocator()
    }

    /// Puts the value at the name, in place of one that stood there. The name is copied.
    pub fn insert(&mut self, name: &str, value: Value) -> TeraResult<()>
        ensures ok { OnOk result (self.new ≡ put name.now value self.old) }
        ensures err { OnErr result (self.new ≡ self.old) }
        ensures lacks { IfErr result Lacks }
    {
        self.put(
            Name::new(self.alloc(), name)?,
            value.into_shared(self.alloc())?,
        )
    }

    /// Puts the value at the name, as `insert` does, but keeps both as they are, without a copy.
    pub fn put(&mut self, name: Name, value: Value) -> TeraResult<()>
        ensures ok { OnOk result (self.new ≡ put name value self.old) }
        ensures err { OnErr result (self.new ≡ self.old) }
        ensures lacks { IfErr result Lacks }
    {
        match position(self.entries.as_slice(), name.as_str()) {
            Ok(at) => self.entries[at] = (name, value),
            Err(at) => self.entries.insert(at, (name, value))?,
        }
        Ok(())
    }

    /// The same arguments, lent.
    pub fn as_arguments(&self) -> Arguments<'_>
        ensures { result ≡ self.now }
    {
        Arguments::of_entries(self.alloc(), self.entries.as_slice())
    }

    /// The argument as it lies. Takes no memory.
    pub fn value(&self, name: &str) -> Option<&Value>
        ensures { option_copied result ≡ at_name name.now self.now }
    {
        self.as_arguments().value(name)
    }

    /// The same by a name whose hash is known. Takes no memory.
    pub fn look(&self, name: &NameRef<'_>) -> Option<&Value>
        ensures { option_copied result ≡ at_name name.now self.now }
    {
        self.as_arguments().look(name)
    }

    /// Puts all into the names of a context.
    pub fn put_into(&self, names: &mut Context) -> TeraResult<()>
        ensures ok { OnOk result (names.new ≡ put_all self.now names.old) }
        ensures lacks { IfErr result Lacks }
    {
        for entry in self.entries.iter() {
            names.insert(entry.0.as_str(), entry.1.try_clone()?)?;
        }
        Ok(())
    }

    /// A context with the same values at the same names.
    pub fn to_context(&self) -> TeraResult<Context>
        ensures { Gives (λ c. c) result (Ok self.now) }
    {
        let mut names = Context::new(*self.entries.allocator());
        self.put_into(&mut names)?;
        Ok(names)
    }

    /// The argument, or none where it is absent; `InvalidArgument` where it is of a wrong type. Only what is read takes memory.
    pub fn get<T: ArgFromValue>(&self, name: &str) -> TeraResult<Option<T>>
        ensures read { Gives (λ o. option_map T.stands_for o) result
            (read T.reading (at_name name.now self.now)) }
        ensures fault { IsErr (read T.reading (at_name name.now self.now)) →
            MemorySuffices result }
        ensures ready { IfSome (at_name name.now self.now) T.is_ready → MemorySuffices result }
    {
        self.as_arguments().get(name)
    }

    /// The argument; `MissingArgument` where it is absent, `InvalidArgument` where it is of a wrong type.
    pub fn must_get<T: ArgFromValue>(&self, name: &str) -> TeraResult<T>
        ensures read { Gives T.stands_for result
            (read_needed T.reading (at_name name.now self.now)) }
        ensures fault { IsErr (read_needed T.reading (at_name name.now self.now)) →
            MemorySuffices result }
        ensures ready { IfSome (at_name name.now self.now) T.is_ready → MemorySuffices result }
    {
        self.as_arguments().must_get(name)
    }

    /// The fault of a call that needs the argument, which is absent. It suggests a given name that is spelled nearly so.
    pub fn missing_error(&self, name: &str) -> Error
        ensures { result ≡ Some missing_argument }
    {
        self.as_arguments().missing_error(name)
    }
}
