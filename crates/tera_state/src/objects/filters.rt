// Filters of the caller.
ghost use Rattle.std.specs.Prelude.{◌≡◌, ◌&&◌, not, ℕ, [], take, is_some, OnOk, OnErr, IfErr};
ghost use Rattle.tera_errors.specs.Prelude.{Lacks};
ghost use Rattle.tera_values.specs.Prelude.{at_name, put};
ghost use Rattle.tera_state.specs.Table.{listed, moved};
ghost use Rattle.tera_state.specs.Taken.{AreTaken, is_built_in};
ghost use Rattle.std.proofs.Props.{props};

use crate::objects::table::{BuiltInKind, ObjectTable};
use std::alloc::Global;
use tera_built_ins::BuiltInFilter;
use tera_values::{Name, TeraResult};

/// Filters of the caller by name, and the names of built-in filters that they took.
#[derive(Drop)]
pub struct OwnFilters<F> {
    alloc: Global,
    pub table: ObjectTable<F>,
    pub taken: Vec<Name>,
    ghost are_taken: { AreTaken taken.items (listed table) } by { Prim.hlevel props },
}

impl<F: Drop> OwnFilters<F> {
    /// Without any. Takes no memory.
    pub fn new(alloc: Global) -> OwnFilters<F>
        ensures { listed result.table ≡ [] }
    {
        OwnFilters {
            alloc,
            table: ObjectTable::new(alloc),
            taken: Vec::new(alloc),
        }
    }

    /// Puts the filter at the name. The one that stood there is dropped. Want of memory leaves all as it was.
    pub fn put(&mut self, name: &str, filter: F) -> TeraResult<()>
        ensures ok { OnOk result
            (listed self.new.table ≡ put name.now filter (listed self.old.table)) }
        ensures err { OnErr result (listed self.new.table ≡ listed self.old.table) }
        ensures lacks { IfErr result Lacks }
    {
        if self.takes_built_in(name) {
            self.put_over_built_in(name, filter)
        } else {
            self.table.put(name, filter)
        }
    }

    // Whether a filter at the name takes the place of a built-in one that no other took.
    fn takes_built_in(&self, name: &str) -> bool
        ensures { result ≡ (is_built_in name.now
            && not (is_some (at_name name.now (listed self.now.table)))) }
    {
        BuiltInFilter::is_one(name) && !self.table.contains(name)
    }

    // Puts a filter at the name of a built-in one.
    fn put_over_built_in(&mut self, name: &str, filter: F) -> TeraResult<()>
        ensures ok { OnOk result
            (listed self.new.table ≡ put name.now filter (listed self.old.table)) }
        ensures err { OnErr result (listed self.new.table ≡ listed self.old.table) }
        ensures lacks { IfErr result Lacks }
    {
        let taken = Name::new(self.alloc, name)?;
        self.taken.push(taken)?;
        match self.table.put(name, filter) {
            Ok(()) => Ok(()),
            Err(error) => {
                self.taken.pop();
                Err(error)
            }
        }
    }

    /// Moves the others here, in byte order of their names, but those whose names stand for a filter already. After want of
    /// memory those that were moved stay.
    pub fn move_from(&mut self, other: OwnFilters<F>) -> TeraResult<()>
        ensures ok { OnOk result (listed self.new.table ≡ moved is_built_in
            (listed self.old.table) (listed other.table)) }
        ensures part { OnErr result ((k : ℕ) × (listed self.new.table ≡ moved is_built_in
            (listed self.old.table) (take k (listed other.table)))) }
        ensures lacks { IfErr result Lacks }
    {
        let OwnFilters {
            alloc: _,
            table,
            taken: _,
        } = other;
        self.table.move_from::<BuiltInFilter>(table)
    }
}
