// What a value is, and how it is kept.
ghost use Rattle.std.specs.Prelude.{◌≡◌, ◌++◌, false, true, Ok, string_bytes};
ghost use Rattle.tera_errors.specs.Prelude.{Gives};
ghost use Rattle.tera_value_types.specs.Val.{Val, bool, bytes, array, map, undefined, none, int, text, vals, entries};
ghost use Rattle.tera_value_types.specs.Access.{marked};
ghost use Rattle.tera_value_types.specs.View.{node_view};

use crate::key::Key;
use crate::key_order::KeyOrder;
use arrayvec::ArrayString;
use std::alloc::Global;
use std::marker::Model;
use std::rc::Rc;
use tera_errors::TeraResult;

/// The kinds of values.
#[derive(Clone, Copy, Debug, PartialEq, Eq)]
pub enum ValueKind {
    Undefined,
    None,
    Bool,
    Int,
    String,
    Bytes,
    Array,
    Map,
}

/// A value of a template. A copy of a long text, of bytes and of what is in shared form is a count.
#[cycle(value)]
pub struct Value {
    pub(crate) node: Representation,
}

// By hand, so that a value that goes out of scope is one call and not a match on every node. What holds no memory is
// let go in place.
impl Drop for Value {
    #[cycle(dropping)]
    #[inline(always)]
    fn drop(self) {
        let Value { node } = self;
        match node {
            Representation::Undefined
            | Representation::None
            | Representation::Bool(_)
            | Representation::Int(_)
            | Representation::Short(_, _) => {}
            node => drop(node),
        }
    }
}

/// How a value is kept. What `Shared` and `SharedMap` hold is shared all the way down.
#[cycle(value)]
#[derive(Drop)]
pub(crate) enum Representation {
    Undefined,
    None,
    Bool(bool),
    Int(i128),
    /// A text of few bytes, which takes no memory.
    Short(bool, ArrayString<16>),
    Text(bool, Rc<String>),
    Bytes(Rc<Vec<u8>>),
    Array(Vec<Value>),
    Shared(Rc<Vec<Value>>),
    Map(Map),
    SharedMap(Rc<Map>),
}

#[cycle(value)]
#[derive(Drop)]
pub(crate) struct Entry {
    pub(crate) key: Key,
    pub(crate) value: Value,
}

/// Entries in order of insertion, and beside them the order of their keys.
#[cycle(value)]
#[derive(Drop)]
pub(crate) struct EntryTable {
    pub(crate) all: Vec<Entry>,
    pub(crate) by_key: KeyOrder,
}

/// Values at keys, in order of insertion. Its table is in a box, taken by the first entry, so that a map, and so every
/// value, is small, and a map without entries takes no memory.
#[cycle(value)]
#[derive(Drop)]
pub struct Map {
    pub(crate) alloc: Global,
    pub(crate) table: Option<Box<EntryTable>>,
}

impl Model for Value {
    ghost use Rattle.tera_value_types.specs.Val.{Val, val_size};
    ghost use Rattle.tera_value_types.specs.Coding.{val_coding};

    ghost Value = { Val };

    ghost coded = { val_coding };

    ghost use Rattle.tera_value_types.specs.View.{node_view};

    ghost view = { λ v. node_view v.node };

    ghost size = { val_size };

    ghost use Rattle.tera_value_types.specs.Falls.{falls};

    ghost size_decreases = { λ v h. falls v.node };
}

impl Model for EntryTable {
    ghost use Rattle.std.specs.Prelude.{List};
    ghost use Rattle.tera_value_types.specs.Val.{Val, KeyVal, entries, entries_size};
    ghost use Rattle.tera_value_types.specs.Coding.{entries_coding};

    ghost Value = { List (KeyVal × Val) };

    ghost coded = { entries_coding };

    ghost use Rattle.tera_value_types.specs.View.{entry_views};

    ghost view = { λ t. entry_views t.all.items };

    ghost use Rattle.tera_value_types.specs.KeyOrder.{IsKept};

    ghost invariant = { λ t. IsKept t.by_key (entry_views t.all.items) };

    ghost size = { λ es. entries_size (entries es) };

    ghost use Rattle.tera_value_types.specs.Falls.{entries_fall};

    ghost size_decreases = { λ t h. entries_fall t.all.items };
}

impl Model for Map {
    ghost use Rattle.std.specs.Prelude.{List, ◌+◌};
    ghost use Rattle.tera_value_types.specs.Val.{Val, KeyVal, entries, entries_size};
    ghost use Rattle.tera_value_types.specs.Coding.{entries_coding};

    ghost Value = { List (KeyVal × Val) };

    ghost coded = { entries_coding };

    ghost use Rattle.tera_value_types.specs.View.{boxed_entries};

    ghost view = { λ m. boxed_entries m.table };

    ghost size = { λ es. entries_size (entries es) + 1 };

    ghost use Rattle.tera_value_types.specs.Falls.{table_falls};

    ghost size_decreases = { λ m h. table_falls m.alloc m.table };
}

impl Value {
    /// What a name stands for that is bound nowhere.
    pub fn undefined() -> Value
        ensures { result ≡ undefined }
    {
        Value {
            node: Representation::Undefined,
        }
    }

    /// Nothing, which is printed as nothing.
    pub fn none() -> Value
        ensures { result ≡ none }
    {
        Value {
            node: Representation::None,
        }
    }

    /// A boolean.
    pub fn from_bool(flag: bool) -> Value
        ensures { result ≡ bool flag }
    {
        Value {
            node: Representation::Bool(flag),
        }
    }

    /// An integer.
    pub fn from_int(number: i128) -> Value
        ensures { result ≡ int number }
    {
        Value {
            node: Representation::Int(number),
        }
    }

    /// A text without the safe mark.
    #[inline(always)]
    pub fn string(alloc: Global, content: &str) -> TeraResult<Value>
        ensures { Gives (λ v. v) result (Ok (text content.now false)) }
    {
        Value::text(alloc, content, false)
    }

    /// A text that is taken as markup already: it goes out as it is.
    #[inline(always)]
    pub fn safe_string(alloc: Global, content: &str) -> TeraResult<Value>
        ensures { Gives (λ v. v) result (Ok (text content.now true)) }
    {
        Value::text(alloc, content, true)
    }

    /// A text whose buffer the value keeps, where it is long.
    pub fn from_string(alloc: Global, content: String, is_safe: bool) -> TeraResult<Value>
        ensures { Gives (λ v. v) result (Ok (text (string_bytes content) is_safe)) }
    {
        match ArrayString::from(content.as_str()) {
            Ok(short) => Ok(Value {
                node: Representation::Short(is_safe, short),
            }),
            Err(_) => Value::long_text(alloc, content, is_safe),
        }
    }

    fn text(alloc: Global, content: &str, is_safe: bool) -> TeraResult<Value>
        ensures { Gives (λ v. v) result (Ok (text content.now is_safe)) }
    {
        match ArrayString::from(content) {
            Ok(short) => Ok(Value {
                node: Representation::Short(is_safe, short),
            }),
            Err(_) => Value::long_text(alloc, String::from_str(alloc, content)?, is_safe),
        }
    }

    /// The two texts as one, in a buffer of the right size.
    pub fn join(alloc: Global, left: &str, right: &str, is_safe: bool) -> TeraResult<Value>
        ensures { Gives (λ v. v) result (Ok (text (left.now ++ right.now) is_safe)) }
    {
        let mut short = ArrayString::new();
        if short.try_push_str(left).is_ok() && short.try_push_str(right).is_ok() {
            return Ok(Value {
                node: Representation::Short(is_safe, short),
            });
        }
        let length = left.len().saturating_add(right.len());
        let mut long = String::with_capacity(alloc, length)?;
        long.push_str(left)?;
        long.push_str(right)?;
        Value::long_text(alloc, long, is_safe)
    }

    #[inline(never)]
    fn long_text(alloc: Global, content: String, is_safe: bool) -> TeraResult<Value>
        ensures { Gives (λ v. v) result (Ok (text (string_bytes content) is_safe)) }
    {
        Ok(Value {
            node: Representation::Text(is_safe, Rc::new(alloc, content)?),
        })
    }

    /// A copy of the bytes.
    pub fn bytes(alloc: Global, content: &[u8]) -> TeraResult<Value>
        ensures { Gives (λ v. v) result (Ok (bytes content.now)) }
    {
        let content = Vec::from_slice(alloc, content)?;
        Ok(Value {
            node: Representation::Bytes(Rc::new(alloc, content)?),
        })
    }

    /// The items themselves, in their order.
    pub fn array(items: Vec<Value>) -> Value
        ensures { result ≡ array (vals items.items) }
    {
        Value {
            node: Representation::Array(items),
        }
    }

    /// The entries themselves, in their order.
    pub fn map(all: Map) -> Value
        ensures { result ≡ map (entries all) }
    {
        Value {
            node: Representation::Map(all),
        }
    }

    pub(crate) fn into_representation(self) -> Representation
        ensures { node_view result ≡ self }
    {
        let Value { node } = self;
        node
    }

    /// The same text with the safe mark; any other value as it is.
    pub fn mark_safe(self) -> Value
        ensures { result ≡ marked self }
    {
        match self.into_representation() {
            Representation::Short(_, content) => Value {
                node: Representation::Short(true, content),
            },
            Representation::Text(_, content) => Value {
                node: Representation::Text(true, content),
            },
            node => Value { node },
        }
    }
}
