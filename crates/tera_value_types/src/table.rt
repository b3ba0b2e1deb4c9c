// The table of a map: entries in order of insertion, found by key.
ghost use Rattle.std.specs.Prelude.{◌≡◌, ◌<◌, [], IfOk, IfErr, OnOk, OnErr, IsSome, IsOk, length, option_copied, option_map, slice_get, slice_set};
ghost use Rattle.tera_errors.specs.Prelude.{Lacks};
ghost use Rattle.tera_value_types.specs.Val.{ktext};
ghost use Rattle.tera_value_types.specs.View.{key_view, wanted_view, entry_views};
ghost use Rattle.tera_value_types.specs.Index.{IsDistinct, key_at};
ghost use Rattle.tera_value_types.specs.Access.{find, insert_pair, key_eq};

use crate::key::{Key, KeyRef};
use crate::key_order::KeyOrder;
use crate::value::{Entry, EntryTable, Value};
use std::alloc::Global;
use std::mem::replace;
use tera_errors::TeraResult;

/// Whether the key is this text.
#[inline]
fn is_text(key: &Key, name: &str) -> bool
    ensures { result ≡ key_eq (ktext name.now) (key_view key.now) }
{
    match key {
        Key::Text(text) => name == text.as_str(),
        _ => false,
    }
}

/// The value at a text key, looked for from the first entry on: of few entries that is the shorter way.
fn first_value_at<'a>(all: &'a [Entry], name: &str) -> Option<&'a Value>
    ensures { option_copied result ≡ find (ktext name.now) (entry_views all.now) }
{
    for entry in all {
        if is_text(&entry.key, name) {
            return Some(&entry.value);
        }
    }
    None
}

impl EntryTable {
    pub(crate) fn new(alloc: Global) -> EntryTable
        ensures { result ≡ [] }
    {
        EntryTable {
            all: Vec::new(alloc),
            by_key: KeyOrder::new(alloc),
        }
    }

    pub(crate) fn len(&self) -> usize
        ensures count { result ≡ length self.now }
        ensures distinct { IsDistinct self.now }
    {
        self.all.len()
    }

    pub(crate) fn entry_at(&self, position: usize) -> Option<(&Key, &Value)>
        ensures { option_map (λ e. (key_view e.0.now, e.1.now)) result
            ≡ slice_get self.now position }
    {
        match self.all.get(position) {
            Some(entry) => Some((&entry.key, &entry.value)),
            None => None,
        }
    }

    pub(crate) fn value_at(&self, wanted: &KeyRef<'_>) -> Option<&Value>
        ensures { option_copied result ≡ find (wanted_view wanted.now) self.now }
    {
        match self.by_key.find(self.all.as_slice(), wanted) {
            Ok(position) => Some(&self.all[position].value),
            Err(_) => None,
        }
    }

    pub(crate) fn text_at(&self, name: &str) -> Option<&Value>
        ensures { option_copied result ≡ find (ktext name.now) self.now }
    {
        if self.all.len() <= 8 {
            first_value_at(self.all.as_slice(), name)
        } else {
            self.value_at(&KeyRef::Text(name))
        }
    }

    pub(crate) fn insert(&mut self, key: Key, value: Value) -> TeraResult<()>
        ensures ok { OnOk result (self.new ≡ insert_pair self.old (key_view key) value) }
        ensures err { OnErr result (self.new ≡ self.old) }
        ensures there { IsSome (find (key_view key) self.old) → IsOk result }
        ensures lacks { IfErr result Lacks }
    {
        match self.by_key.find(self.all.as_slice(), &key.as_key_ref()) {
            Ok(position) => {
                self.write(position, value);
                drop(key);
                Ok(())
            }
            Err(gap) => {
                let position = self.all.len();
                self.all.push(Entry { key, value })?;
                match self.by_key.fill(gap, position) {
                    Ok(()) => Ok(()),
                    Err(error) => {
                        self.all.pop();
                        Err(error.into())
                    }
                }
            }
        }
    }

    /// The same at a text key, of which a copy is made only where it is new.
    pub(crate) fn insert_text(&mut self, name: &str, value: Value) -> TeraResult<()>
        ensures ok { OnOk result (self.new ≡ insert_pair self.old (ktext name.now) value) }
        ensures err { OnErr result (self.new ≡ self.old) }
        ensures there { IsSome (find (ktext name.now) self.old) → IsOk result }
        ensures lacks { IfErr result Lacks }
    {
        match self.by_key.find(self.all.as_slice(), &KeyRef::Text(name)) {
            Ok(position) => {
                self.write(position, value);
                Ok(())
            }
            Err(_) => {
                let name = String::from_str(*self.all.allocator(), name)?;
                self.insert(Key::Text(name), value)
            }
        }
    }

    /// Puts the value in place of the one at a position.
    fn write(&mut self, position: usize, value: Value)
        requires { position < length self.old }
        ensures { self.new ≡ slice_set self.old position (key_at self.old position, value) }
    {
        let old = replace(&mut self.all[position].value, value);
        drop(old);
    }
}
