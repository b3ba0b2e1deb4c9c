// The same value once more, and the form in which that is a count.
ghost use Rattle.std.specs.Prelude.{◌≡◌, Ok, OnOk, IfErr, IsOk};
ghost use Rattle.tera_errors.specs.Prelude.{Gives, Lacks};
ghost use Rattle.tera_value_types.specs.Access.{IsScalar, IsFlat};
ghost use Rattle.tera_value_types.specs.View.{entry_views};

use crate::value::{Entry, EntryTable, Map, Representation, Value};
use std::alloc::Global;
use std::mem::replace;
use std::rc::Rc;
use tera_errors::TeraResult;

impl Value {
    /// The same value, marks too; what is shared is shared with the copy.
    #[cycle(copying)]
    pub fn try_clone(&self) -> TeraResult<Value>
        ensures value { Gives (λ v. v) result (Ok self.now) }
        ensures ready { IsScalar self.now → IsOk result }
    {
        match &self.node {
            Representation::Undefined => Ok(Value {
                node: Representation::Undefined,
            }),
            Representation::None => Ok(Value {
                node: Representation::None,
            }),
            Representation::Bool(flag) => Ok(Value {
                node: Representation::Bool(*flag),
            }),
            Representation::Int(number) => Ok(Value {
                node: Representation::Int(*number),
            }),
            Representation::Short(safe, content) => Ok(Value {
                node: Representation::Short(*safe, *content),
            }),
            Representation::Text(safe, content) => Ok(Value {
                node: Representation::Text(*safe, content.clone()?),
            }),
            Representation::Bytes(content) => Ok(Value {
                node: Representation::Bytes(content.clone()?),
            }),
            Representation::Array(items) => Ok(Value {
                node: Representation::Array(copy_items(*items.allocator(), items.as_slice())?),
            }),
            Representation::Shared(items) => Ok(Value {
                node: Representation::Shared(items.clone()?),
            }),
            Representation::Map(all) => Ok(Value {
                node: Representation::Map(all.try_clone()?),
            }),
            Representation::SharedMap(all) => Ok(Value {
                node: Representation::SharedMap(all.clone()?),
            }),
        }
    }
}

/// The same items once more, each as `try_clone` copies it.
#[cycle(copying)]
pub fn copy_items(alloc: Global, items: &[Value]) -> TeraResult<Vec<Value>>
    ensures { Gives (λ v. v.items) result (Ok items.now) }
{
    let mut copies = Vec::new(alloc);
    for item in items {
        copies.push(item.try_clone()?)?;
    }
    Ok(copies)
}

#[cycle(copying)]
fn copy_entries(alloc: Global, all: &[Entry]) -> TeraResult<Vec<Entry>>
    ensures { Gives (λ v. entry_views v.items) result (Ok (entry_views all.now)) }
{
    let mut copies = Vec::new(alloc);
    for item in all {
        let key = item.key.try_clone()?;
        let value = item.value.try_clone()?;
        copies.push(Entry { key, value })?;
    }
    Ok(copies)
}

impl Map {
    /// The same entries, keys and values copied one by one.
    #[cycle(copying)]
    pub fn try_clone(&self) -> TeraResult<Map>
        ensures { Gives (λ m. m) result (Ok self.now) }
    {
        match &self.table {
            Some(table) => {
                let by_key = table.by_key.try_clone()?;
                let all = copy_entries(self.alloc, table.all.as_slice())?;
                Ok(Map {
                    alloc: self.alloc,
                    table: Some(Box::new(self.alloc, EntryTable { all, by_key })?),
                })
            }
            None => Ok(Map::new(self.alloc)),
        }
    }
}

impl Value {
    /// The same value, kept so that a copy of it or of any part of it is a count.
    #[cycle(sharing)]
    pub fn into_shared(self, alloc: Global) -> TeraResult<Value>
        ensures value { Gives (λ v. v) result (Ok self) }
        ensures ready { IsFlat self → IsOk result }
    {
        match self.into_representation() {
            Representation::Array(items) => {
                let mut items = items;
                share_items(alloc, items.as_mut_slice())?;
                Ok(Value {
                    node: Representation::Shared(Rc::new(alloc, items)?),
                })
            }
            Representation::Map(all) => Ok(Value {
                node: Representation::SharedMap(Rc::new(alloc, share_map(alloc, all)?)?),
            }),
            node => Ok(Value { node }),
        }
    }
}

#[cycle(sharing)]
fn share_items(alloc: Global, items: &mut [Value]) -> TeraResult<()>
    ensures ok { OnOk result (items.new ≡ items.old) }
    ensures lacks { IfErr result Lacks }
{
    for item in items.iter_mut() {
        share(alloc, item)?;
    }
    Ok(())
}

// The value in shared form, where it lies. Most values are that already.
#[cycle(sharing)]
fn share(alloc: Global, value: &mut Value) -> TeraResult<()>
    ensures ok { OnOk result (value.new ≡ value.old) }
    ensures lacks { IfErr result Lacks }
{
    match &value.node {
        Representation::Array(_) | Representation::Map(_) => {}
        _ => return Ok(()),
    }
    let whole = replace(value, Value::undefined());
    let kept = whole.into_shared(alloc)?;
    let hole = replace(value, kept);
    drop(hole);
    Ok(())
}

#[cycle(sharing)]
fn share_map(alloc: Global, all: Map) -> TeraResult<Map>
    ensures { Gives (λ m. m) result (Ok all) }
{
    let Map {
        alloc: kept_by,
        table,
    } = all;
    match table {
        Some(table) => {
            let mut table = table;
            let EntryTable { all, by_key } = replace(&mut *table, EntryTable::new(kept_by));
            let mut all = all;
            share_entries(alloc, all.as_mut_slice())?;
            let empty = replace(&mut *table, EntryTable { all, by_key });
            drop(empty);
            Ok(Map {
                alloc: kept_by,
                table: Some(table),
            })
        }
        None => Ok(Map::new(kept_by)),
    }
}

#[cycle(sharing)]
fn share_entries(alloc: Global, all: &mut [Entry]) -> TeraResult<()>
    ensures ok { OnOk result (entry_views all.new ≡ entry_views all.old) }
    ensures lacks { IfErr result Lacks }
{
    for entry in all.iter_mut() {
        share(alloc, &mut entry.value)?;
    }
    Ok(())
}
