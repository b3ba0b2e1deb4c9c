// What is asked of a value as a whole.
ghost use Rattle.std.specs.Prelude.{◌≡◌, Ok, option_copied, IsOk};
ghost use Rattle.tera_errors.specs.Prelude.{Gives};
ghost use Rattle.tera_value_types.specs.View.{key_view};
ghost use Rattle.tera_value_types.specs.Access.{IsScalar, is_undefined, is_safe, kind_of, kind_name, int_of, text_of, truthy, count, key_of, value_of_key, attr};

use crate::ascii::char_count;
use crate::key::Key;
use crate::refusals::no_key;
use crate::shape::Shape;
use crate::value::{Value, ValueKind};
use std::alloc::Global;
use tera_errors::TeraResult;

impl Value {
    /// Which of the eight kinds the value is of.
    pub fn kind(&self) -> ValueKind
        ensures { result ≡ kind_of self.now }
    {
        match self.shape() {
            Shape::Undefined => ValueKind::Undefined,
            Shape::None => ValueKind::None,
            Shape::Bool(_) => ValueKind::Bool,
            Shape::Int(_) => ValueKind::Int,
            Shape::Text(_, _) => ValueKind::String,
            Shape::Bytes(_) => ValueKind::Bytes,
            Shape::Array(_) => ValueKind::Array,
            Shape::Map(_) => ValueKind::Map,
        }
    }

    /// The kind as a word in small letters.
    pub fn name(&self) -> &'static str
        ensures { result.now ≡ kind_name self.now }
    {
        match self.shape() {
            Shape::Undefined => "undefined",
            Shape::None => "none",
            Shape::Bool(_) => "bool",
            Shape::Int(_) => "int",
            Shape::Text(_, _) => "string",
            Shape::Bytes(_) => "bytes",
            Shape::Array(_) => "array",
            Shape::Map(_) => "map",
        }
    }

    /// Whether the value is what an unbound name stands for.
    #[inline(always)]
    pub fn is_undefined(&self) -> bool
        ensures { result ≡ is_undefined self.now }
    {
        matches!(&self.shape(), Shape::Undefined)
    }

    /// Whether the printed form needs no escape: a marked text, an integer, a boolean, none.
    #[inline(always)]
    pub fn is_safe(&self) -> bool
        ensures { result ≡ is_safe self.now }
    {
        match self.shape() {
            Shape::None => true,
            Shape::Bool(_) => true,
            Shape::Int(_) => true,
            Shape::Text(_, safe) => safe,
            _ => false,
        }
    }

    /// The integer; none for other kinds.
    #[inline(always)]
    pub fn as_i128(&self) -> Option<i128>
        ensures { result ≡ int_of self.now }
    {
        match self.shape() {
            Shape::Int(number) => Some(number),
            _ => None,
        }
    }

    /// The text, without its mark; none for other kinds.
    #[inline(always)]
    pub fn as_str(&self) -> Option<&str>
        ensures { option_copied result ≡ text_of self.now }
    {
        match self.shape() {
            Shape::Text(content, _) => Some(content),
            _ => None,
        }
    }

    /// Whether the value counts as true in a condition.
    #[inline(always)]
    pub fn is_truthy(&self) -> bool
        ensures { result ≡ truthy self.now }
    {
        match self.shape() {
            Shape::Undefined => false,
            Shape::None => false,
            Shape::Bool(b) => b,
            Shape::Int(n) => n != 0,
            Shape::Text(t, _) => !t.is_empty(),
            Shape::Bytes(b) => !b.is_empty(),
            Shape::Array(items) => !items.is_empty(),
            Shape::Map(all) => all.len() != 0,
        }
    }

    /// The number of characters, bytes, items or entries.
    pub fn len(&self) -> Option<usize>
        ensures { result ≡ count self.now }
    {
        match self.shape() {
            Shape::Text(t, _) => Some(char_count(t)),
            Shape::Bytes(b) => Some(b.len()),
            Shape::Array(items) => Some(items.len()),
            Shape::Map(all) => Some(all.len()),
            _ => None,
        }
    }

    /// The value as a key.
    pub fn as_key(&self, alloc: Global) -> TeraResult<Key>
        ensures key { Gives key_view result (key_of self.now) }
        ensures ready { IsScalar self.now → IsOk (key_of self.now) → IsOk result }
    {
        match self.shape() {
            Shape::Bool(b) => Ok(Key::Bool(b)),
            Shape::Int(n) => Ok(Key::Int(n)),
            Shape::Text(t, _) => Ok(Key::Text(String::from_str(alloc, t)?)),
            _ => Err(no_key(alloc, self)),
        }
    }

    /// A key as a value; a text without a mark.
    #[inline(never)]
    pub fn from_key(alloc: Global, key: &Key) -> TeraResult<Value>
        ensures value { Gives (λ v. v) result (Ok (value_of_key (key_view key.now))) }
        ensures ready { IsScalar (value_of_key (key_view key.now)) → IsOk result }
    {
        match key {
            Key::Bool(flag) => Ok(Value::from_bool(*flag)),
            Key::Int(number) => Ok(Value::from_int(*number)),
            Key::Text(name) => Value::string(alloc, name.as_str()),
        }
    }

    /// The value of a map at a text key.
    pub fn get_attr(&self, name: &str) -> Option<&Value>
        ensures { option_copied result ≡ attr name.now self.now }
    {
        match self.shape() {
            Shape::Map(all) => all.get_text(name),
            _ => None,
        }
    }
}
