// What a look-up hands out.
ghost use Rattle.std.specs.Prelude.{◌≡◌, Ok, Some, IfSome, unwrap_or};
ghost use Rattle.tera_errors.specs.Prelude.{Gives};
ghost use Rattle.tera_values.specs.Prelude.{undefined, is_undefined};
ghost use Rattle.tera_state.specs.FoundValue.{found_value};

use std::alloc::Global;
use tera_values::{Key, Shape, TeraResult, Value};

// The value once more. An integer is made anew in place, since loops walk over many.
#[inline(always)]
fn copy_of(value: &Value) -> TeraResult<Value>
    ensures { Gives (λ v. v) result (Ok value.now) }
{
    match value.shape() {
        Shape::Int(number) => Ok(Value::from_int(number)),
        _ => value.try_clone(),
    }
}

/// What a name stands for: a value or a key that is kept elsewhere, or a number, the one after it or a flag that is made. Takes no memory.
#[derive(Drop)]
pub enum FoundValue<'a> {
    Kept(&'a Value),
    Key(&'a Key),
    Number(usize),
    Index1(usize),
    Flag(bool),
    Unbound,
}

impl<'a> FoundValue<'a> {
    /// Whether nothing is bound, or an undefined value.
    #[inline(always)]
    pub fn is_undefined(&self) -> bool
        ensures { result ≡ is_undefined (unwrap_or (found_value self.now) undefined) }
    {
        match self {
            FoundValue::Kept(value) => value.is_undefined(),
            FoundValue::Unbound => true,
            _ => false,
        }
    }

    /// The value that is kept elsewhere, if it is one.
    #[inline(always)]
    pub fn value(self) -> Option<&'a Value>
        ensures { IfSome result (λ value. found_value self.entry ≡ Some value.now) }
    {
        match self {
            FoundValue::Kept(value) => Some(value),
            _ => None,
        }
    }

    /// The value itself. Only a text key takes memory, and only what is not in shared form is copied.
    #[inline(always)]
    pub fn to_value(&self, alloc: Global) -> TeraResult<Value>
        ensures { Gives (λ v. v) result (Ok (unwrap_or (found_value self.now) undefined)) }
    {
        match self {
            FoundValue::Kept(value) => copy_of(value),
            FoundValue::Key(key) => Value::from_key(alloc, *key),
            FoundValue::Number(number) => Ok(Value::from_int(*number as i128)),
            FoundValue::Index1(number) => Ok(Value::from_int(*number as i128 + 1)),
            FoundValue::Flag(flag) => Ok(Value::from_bool(*flag)),
            FoundValue::Unbound => Ok(Value::undefined()),
        }
    }
}
