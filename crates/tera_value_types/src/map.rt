// Maps: a table, from the first entry on.
ghost use Rattle.std.specs.Prelude.{◌≡◌, [], OnOk, OnErr, IfErr, IsSome, IsOk, length, option_copied, option_map, slice_get};
ghost use Rattle.tera_errors.specs.Prelude.{Lacks};
ghost use Rattle.tera_value_types.specs.Val.{ktext};
ghost use Rattle.tera_value_types.specs.View.{key_view, wanted_view, entry_views};
ghost use Rattle.tera_value_types.specs.Index.{IsIndex, IsDistinct};
ghost use Rattle.tera_value_types.specs.KeyOrder.{left};
ghost use Rattle.tera_value_types.specs.Access.{find, insert_pair};

use crate::key::{Key, KeyRef};
use crate::key_order::KeyWalk;
use crate::value::{Entry, EntryTable, Map, Value};
use std::alloc::Global;
use tera_errors::TeraResult;

impl Map {
    /// A map of no entries. Takes no memory.
    pub fn new(alloc: Global) -> Map
        ensures { result ≡ [] }
    {
        Map { alloc, table: None }
    }

    /// The entries in memory, in the order of insertion.
    pub(crate) fn entries(&self) -> &[Entry]
        ensures { entry_views result.now ≡ self.now }
    {
        match &self.table {
            Some(table) => table.all.as_slice(),
            None => &[],
        }
    }

    /// The positions of the entries, in the order of their keys.
    pub(crate) fn by_key(&self) -> KeyWalk<'_>
        ensures { IsIndex (left result) self.now }
    {
        match &self.table {
            Some(table) => table.by_key.walk(),
            None => KeyWalk::of_none(),
        }
    }

    /// How many entries there are.
    pub fn len(&self) -> usize
        ensures count { result ≡ length self.now }
        ensures distinct { IsDistinct self.now }
    {
        match &self.table {
            Some(table) => table.len(),
            None => 0,
        }
    }

    /// The entry at a position, in the order of insertion.
    pub fn entry_at(&self, position: usize) -> Option<(&Key, &Value)>
        ensures { option_map (λ e. (key_view e.0.now, e.1.now)) result
            ≡ slice_get self.now position }
    {
        match &self.table {
            Some(table) => table.entry_at(position),
            None => None,
        }
    }

    /// The value at a key.
    pub fn get(&self, key: &Key) -> Option<&Value>
        ensures { option_copied result ≡ find (key_view key.now) self.now }
    {
        self.value_at(&key.as_key_ref())
    }

    /// The value at a text key.
    pub fn get_text(&self, name: &str) -> Option<&Value>
        ensures { option_copied result ≡ find (ktext name.now) self.now }
    {
        match &self.table {
            Some(table) => table.text_at(name),
            None => None,
        }
    }

    pub(crate) fn value_at(&self, wanted: &KeyRef<'_>) -> Option<&Value>
        ensures { option_copied result ≡ find (wanted_view wanted.now) self.now }
    {
        match &self.table {
            Some(table) => table.value_at(wanted),
            None => None,
        }
    }

    /// Puts the value at the key: a key that is there keeps its position, and a new one goes last.
    /// A key that is there takes no memory.
    pub fn insert(&mut self, key: Key, value: Value) -> TeraResult<()>
        ensures ok { OnOk result (self.new ≡ insert_pair self.old (key_view key) value) }
        ensures err { OnErr result (self.new ≡ self.old) }
        ensures there { IsSome (find (key_view key) self.old) → IsOk result }
        ensures lacks { IfErr result Lacks }
    {
        match &mut self.table {
            Some(table) => table.insert(key, value),
            None => {
                let mut table = EntryTable::new(self.alloc);
                table.insert(key, value)?;
                self.table = Some(Box::new(self.alloc, table)?);
                Ok(())
            }
        }
    }

    /// The same at a text key. A key that is there takes no memory.
    pub fn insert_text(&mut self, name: &str, value: Value) -> TeraResult<()>
        ensures ok { OnOk result (self.new ≡ insert_pair self.old (ktext name.now) value) }
        ensures err { OnErr result (self.new ≡ self.old) }
        ensures there { IsSome (find (ktext name.now) self.old) → IsOk result }
        ensures lacks { IfErr result Lacks }
    {
        match &mut self.table {
            Some(table) => table.insert_text(name, value),
            None => self.insert(Key::Text(String::from_str(self.alloc, name)?), value),
        }
    }
}
