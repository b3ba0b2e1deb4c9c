// Things by name.
ghost use Rattle.std.specs.Prelude.{◌≡◌, ◌||◌, ℕ, Bool, [], take, is_some, OnOk, OnErr, IfErr, option_copied};
ghost use Rattle.tera_errors.specs.Prelude.{Lacks, Name};
ghost use Rattle.tera_values.specs.Prelude.{at_name, put};

use std::alloc::{AllocError, Global};
use std::collections::BTreeMap;
use tera_errors::Guess;
use tera_values::TeraResult;

/// What every engine has of a kind.
pub trait BuiltInKind: Drop {
    // Whether a name stands for one of them.
    ghost stands: { Name → Bool };

    /// Whether the name stands for one of them.
    fn is_one(name: &str) -> bool
        ensures { result ≡ stands name.now };
}

/// Things by name, in byte order of the names.
#[derive(Drop)]
pub struct ObjectTable<X> {
    alloc: Global,
    entries: BTreeMap<String, X>,
}

impl<X: Drop> ObjectTable<X> {
    ghost use Rattle.tera_state.specs.Table.{listed, moved};

    /// Without any. Takes no memory.
    pub fn new(alloc: Global) -> ObjectTable<X>
        ensures { listed result ≡ [] }
    {
        ObjectTable {
            alloc,
            entries: BTreeMap::new(alloc),
        }
    }

    /// What stands at the name.
    pub fn get(&self, name: &str) -> Option<&X>
        ensures { option_copied result ≡ at_name name.now (listed self.now) }
    {
        self.entries.get(name)
    }

    /// Whether something stands at the name.
    pub fn contains(&self, name: &str) -> bool
        ensures { result ≡ is_some (at_name name.now (listed self.now)) }
    {
        self.entries.contains_key(name)
    }

    /// Puts it at the name. What stood there is dropped. Want of memory leaves all as it was.
    pub fn put(&mut self, name: &str, thing: X) -> TeraResult<()>
        ensures ok { OnOk result (listed self.new ≡ put name.now thing (listed self.old)) }
        ensures err { OnErr result (listed self.new ≡ listed self.old) }
        ensures lacks { IfErr result Lacks }
    {
        let key = String::from_str(self.alloc, name)?;
        self.entries.insert(key, thing)?;
        Ok(())
    }

    /// Tries each name in the place of one that is not there.
    pub fn guess(&self, guess: &mut Guess<'_>) -> Result<(), AllocError> {
        for name in self.entries.keys() {
            guess.add(name.as_str())?;
        }
        Ok(())
    }

    /// Whether the name stands for something here, or for one of those that every engine has.
    pub fn stands_for<S: BuiltInKind>(&self, name: &str) -> bool
        ensures { result ≡ (S.stands name.now || is_some (at_name name.now (listed self.now))) }
    {
        S::is_one(name) || self.contains(name)
    }

    /// Moves the others here, in byte order of their names, but those whose names stand for something already. After want of
    /// memory those that were moved stay.
    pub fn move_from<S: BuiltInKind>(&mut self, other: ObjectTable<X>) -> TeraResult<()>
        ensures ok { OnOk result (listed self.new
            ≡ moved S.stands (listed self.old) (listed other)) }
        ensures part { OnErr result ((k : ℕ) × (listed self.new
            ≡ moved S.stands (listed self.old) (take k (listed other)))) }
        ensures lacks { IfErr result Lacks }
    {
        let ObjectTable { alloc: _, entries } = other;
        for (name, thing) in entries {
            if !self.stands_for::<S>(name.as_str()) {
                self.entries.insert(name, thing)?;
            }
        }
        Ok(())
    }
}
