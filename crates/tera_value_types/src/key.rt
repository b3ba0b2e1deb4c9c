// Keys of maps.
ghost use Rattle.std.specs.Prelude.{◌≡◌, Ok, IsOk};
ghost use Rattle.tera_errors.specs.Prelude.{Gives};
ghost use Rattle.tera_value_types.specs.Access.{IsScalar, value_of_key};
ghost use Rattle.tera_value_types.specs.Keys.{key_cmp};
ghost use Rattle.tera_value_types.specs.View.{key_view, wanted_view};

use std::cmp::Ordering;
use tera_errors::TeraResult;

/// A key of a map.
#[derive(Drop)]
pub enum Key {
    Bool(bool),
    Int(i128),
    Text(String),
}

/// A key that is looked for.
#[derive(Drop)]
pub(crate) enum KeyRef<'a> {
    Bool(bool),
    Int(i128),
    Text(&'a str),
}

impl Key {
    pub(crate) fn as_key_ref(&self) -> KeyRef<'_>
        ensures { wanted_view result ≡ key_view self.now }
    {
        match self {
            Key::Bool(flag) => KeyRef::Bool(*flag),
            Key::Int(number) => KeyRef::Int(*number),
            Key::Text(name) => KeyRef::Text(name.as_str()),
        }
    }

    /// The same key.
    pub fn try_clone(&self) -> TeraResult<Key>
        ensures key { Gives key_view result (Ok (key_view self.now)) }
        ensures ready { IsScalar (value_of_key (key_view self.now)) → IsOk result }
    {
        match self {
            Key::Bool(flag) => Ok(Key::Bool(*flag)),
            Key::Int(number) => Ok(Key::Int(*number)),
            Key::Text(name) => Ok(Key::Text(name.clone()?)),
        }
    }
}

/// How the key stands to the wanted one in the order of keys.
pub(crate) fn compare_key(key: &Key, wanted: &KeyRef<'_>) -> Ordering
    ensures { result ≡ key_cmp (key_view key.now) (wanted_view wanted.now) }
{
    match key {
        Key::Bool(a) => match wanted {
            KeyRef::Bool(b) => a.cmp(b),
            _ => Ordering::Less,
        },
        Key::Int(a) => match wanted {
            KeyRef::Bool(_) => Ordering::Greater,
            KeyRef::Int(b) => a.cmp(b),
            KeyRef::Text(_) => Ordering::Less,
        },
        Key::Text(a) => match wanted {
            KeyRef::Text(b) => a.as_str().cmp(*b),
            _ => Ordering::Greater,
        },
    }
}
