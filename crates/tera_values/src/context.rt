// What a rendering is given: values by name.
ghost use Rattle.std.specs.Prelude.{◌≡◌, [], ◌∷◌, false, Ok, IfErr, OnOk, OnErr, bytes_eq, map, option_copied, string_bytes};
ghost use Rattle.std.specs.List.{IsDistinct};
ghost use Rattle.tera_errors.specs.Prelude.{Gives, Lacks};
ghost use Rattle.tera_value_types.specs.Prelude.{bool, entries, int, map as map_of, text};
ghost use Rattle.tera_values.specs.Named.{at_name, put, put_all, text_keys, with_names, without_names, IsAscending};
ghost use Rattle.tera_values.specs.Names.{by_name};

use crate::context_entries::ContextEntries;
use crate::name::{Name, NameRef};
use indexmap::IndexMap;
use std::alloc::Global;
use std::collections::BTreeMap;
use std::marker::Model;
use tera_errors::TeraResult;
use tera_value_types::{Key, Map, Value};

/// Values by name. Each is kept so that a copy of it, or of any part of it, is a count.
pub struct Context {
    alloc: Global,
    names: IndexMap<Name, Value>,
}

// By hand, so that a context that goes out of scope is one call.
impl Drop for Context {
    fn drop(self) {
        let Context { alloc: _, names } = self;
        drop(names);
    }
}

impl Model for Context {
    ghost use Rattle.tera_value_types.specs.Val.{Val};
    ghost use Rattle.tera_value_types.specs.Coding.{val_coding};
    ghost use Rattle.tera_values.specs.Named.{Named, named_code};
    ghost use Rattle.tera_values.specs.Names.{by_name};

    ghost Value = { Named Val };

    ghost coded = { named_code val_coding };

    ghost view = { λ c. by_name c.names.entries };
}

impl Context {
    /// A context without names. Takes no memory.
    pub fn new(alloc: Global) -> Context
        ensures { result ≡ [] }
    {
        Context {
            alloc,
            names: IndexMap::new(alloc),
        }
    }

    /// The allocator that was given at first.
    pub fn alloc(&self) -> Global {
        self.alloc
    }

    /// Puts the value at the name, in place of one that stood there.
    pub fn insert(&mut self, name: &str, value: Value) -> TeraResult<()>
        ensures ok { OnOk result (self.new ≡ put name.now value self.old) }
        ensures err { OnErr result (self.new ≡ self.old) }
        ensures lacks { IfErr result Lacks }
    {
        self.put(
            Name::new(self.alloc(), name)?,
            value.into_shared(self.alloc())?,
        )
    }

    /// Puts a boolean at the name, as `insert` does.
    pub fn insert_bool(&mut self, name: &str, flag: bool) -> TeraResult<()>
        ensures ok { OnOk result (self.new ≡ put name.now (bool flag) self.old) }
        ensures err { OnErr result (self.new ≡ self.old) }
        ensures lacks { IfErr result Lacks }
    {
        self.insert(name, Value::from(flag))
    }

    /// Puts an integer at the name, as `insert` does.
    pub fn insert_int(&mut self, name: &str, number: i64) -> TeraResult<()>
        ensures ok { OnOk result (self.new ≡ put name.now (int number) self.old) }
        ensures err { OnErr result (self.new ≡ self.old) }
        ensures lacks { IfErr result Lacks }
    {
        self.insert(name, Value::from(number))
    }

    /// Puts a text without the safe mark at the name, as `insert` does.
    pub fn insert_text(&mut self, name: &str, content: &str) -> TeraResult<()>
        ensures ok { OnOk result (self.new ≡ put name.now (text content.now false) self.old) }
        ensures err { OnErr result (self.new ≡ self.old) }
        ensures lacks { IfErr result Lacks }
    {
        self.insert(name, Value::string(self.alloc(), content)?)
    }

    // The same by a name and a value that are shared already: both are kept as they lie.
    fn put(&mut self, name: Name, value: Value) -> TeraResult<()>
        ensures ok { OnOk result (self.new ≡ put name value self.old) }
        ensures err { OnErr result (self.new ≡ self.old) }
        ensures lacks { IfErr result Lacks }
    {
        let old = self.names.insert(name, value)?;
        drop(old);
        Ok(())
    }

    /// The value at the name.
    pub fn get(&self, name: &str) -> Option<&Value>
        ensures { option_copied result ≡ at_name name.now self.now }
    {
        self.look(&NameRef::new(name))
    }

    /// The same by a name whose hash is known: its text is not hashed anew. Takes no memory.
    pub fn look(&self, name: &NameRef<'_>) -> Option<&Value>
        ensures { option_copied result ≡ at_name name.now self.now }
    {
        self.names.get(name)
    }

    /// The names with their values, in no set order. Takes no memory.
    pub fn iter(&self) -> ContextEntries<'_>
        ensures all { by_name result ≡ self.now }
        ensures once { IsDistinct bytes_eq (map (λ e. e.0) result) }
    {
        ContextEntries::new(self.names.iter())
    }

    /// Puts all values of the other at their names.
    pub fn put_all(&mut self, other: &Context) -> TeraResult<()>
        ensures ok { OnOk result (self.new ≡ put_all other.now self.old) }
        ensures lacks { IfErr result Lacks }
    {
        for (name, value) in other.names.iter() {
            self.put(name.share()?, value.try_clone()?)?;
        }
        Ok(())
    }

    /// A copy of the context, which shares its values.
    pub fn try_clone(&self) -> TeraResult<Context>
        ensures { Gives (λ c. c) result (Ok self.now) }
    {
        let mut copy = Context::new(self.alloc);
        copy.put_all(self)?;
        Ok(copy)
    }

    /// A copy with these names alone, as far as they are there.
    pub fn try_clone_with(&self, names: &[&str]) -> TeraResult<Context>
        ensures { Gives (λ c. c) result (Ok (with_names (map (λ n. n.now) names.now) self.now)) }
    {
        let mut copy = Context::new(self.alloc);
        for name in names {
            if let Some(value) = self.get(*name) {
                copy.insert(*name, value.try_clone()?)?;
            }
        }
        Ok(copy)
    }

    /// A copy without these names.
    pub fn try_clone_without(&self, names: &[&str]) -> TeraResult<Context>
        ensures { Gives (λ c. c) result (Ok (without_names (map (λ n. n.now) names.now) self.now)) }
    {
        let mut copy = self.try_clone()?;
        for name in names {
            copy.leave_out(*name);
        }
        Ok(copy)
    }

    // Takes out what stands at the name. The order in which names were put is lost: none is promised.
    fn leave_out(&mut self, name: &str)
        ensures { self.new ≡ without_names (name.now ∷ []) self.old }
    {
        let old = self.names.swap_remove(&NameRef::new(name));
        drop(old);
    }

    /// The map of the values at their names, in byte order of these.
    pub fn to_map(&self) -> TeraResult<Map>
        ensures { Gives (λ all. all) result (Ok (text_keys self.now)) }
    {
        let mut all = Map::new(self.alloc);
        for (name, value) in self.to_sorted_map()? {
            all.insert(Key::Text(name), value)?;
        }
        Ok(all)
    }

    /// The same map as a value.
    pub fn to_value(&self) -> TeraResult<Value>
        ensures { Gives (λ v. v) result (Ok (map_of (entries (text_keys self.now)))) }
    {
        Ok(Value::map(self.to_map()?))
    }

    /// The names, in byte order.
    pub fn names(&self) -> TeraResult<Vec<String>>
        ensures names { Gives (λ v. map string_bytes v.items) result
            (Ok (map (λ e. e.0) self.now)) }
        ensures ascending { IsAscending self.now }
    {
        let names = self.to_sorted_map()?.into_keys().collect(self.alloc)?;
        Ok(names)
    }

    // The values at copies of their names, in byte order of these.
    #[tactic(auto, using(crate::proofs::Contexts::named_ascend))]
    fn to_sorted_map(&self) -> TeraResult<BTreeMap<String, Value>>
        ensures all { Gives (λ m. map (λ e. (string_bytes e.0, e.1)) m.entries) result
            (Ok self.now) }
        ensures ascending { IsAscending self.now }
    {
        let mut ordered = BTreeMap::new(self.alloc);
        for (name, value) in self.names.iter() {
            let name = String::from_str(self.alloc, name.as_str())?;
            let value = value.try_clone()?;
            let old = ordered.insert(name, value)?;
            drop(old);
        }
        Ok(ordered)
    }
}
