// Values that are written out.
ghost use Rattle.std.specs.Prelude.{◌≡◌, Ok, IsOk, IfSome, IfNone};
ghost use Rattle.tera_errors.specs.Prelude.{Gives};
ghost use Rattle.tera_values.specs.Prelude.{IsScalar};
ghost use Rattle.tera_values.specs.Val as val;
ghost use Rattle.tera_code.specs.Constant.{small_integer};

use std::marker::Model;
use tera_values::{TeraResult, Value};

/// A value that is written out. A contract sees the value.
#[derive(Drop)]
pub struct Constant<'a> {
    pub(crate) kept: Kept<'a>,
}

/// How a constant is kept: small values stand in the instruction itself, and any other beside the code, shared, so that loading
/// it copies nothing.
#[derive(Clone, Copy)]
pub(crate) enum Kept<'a> {
    None,
    Bool(bool),
    Int(i64),
    Shared(&'a Value),
}

/// The integer that a value is, if it has at most 64 bits with its sign.
pub(crate) fn small_integer(value: &Value) -> Option<i64>
    ensures { result ≡ small_integer value.now }
{
    match value.as_i128() {
        None => None,
        Some(number) => match i64::try_from(number) {
            Ok(number) => Some(number),
            Err(_) => None,
        },
    }
}

impl<'a> Model for Constant<'a> {
    ghost use Rattle.tera_values.specs.Val.{Val};
    ghost use Rattle.tera_values.specs.Coding.{val_coding};
    ghost use Rattle.tera_code.specs.Constant.{value_of};

    ghost Value = { Val };

    ghost coded = { val_coding };

    ghost view = { λ c. value_of c.kept };
}

impl<'a> Constant<'a> {
    /// `none`.
    pub fn none() -> Constant<'a>
        ensures { result ≡ val.none }
    {
        Constant { kept: Kept::None }
    }

    /// `true` or `false`.
    pub fn from_bool(flag: bool) -> Constant<'a>
        ensures { result ≡ val.bool flag }
    {
        Constant {
            kept: Kept::Bool(flag),
        }
    }

    /// An integer.
    pub fn from_int(number: i64) -> Constant<'a>
        ensures { result ≡ val.int number }
    {
        Constant {
            kept: Kept::Int(number),
        }
    }

    /// The value itself, which is not copied.
    pub fn from_shared(value: &'a Value) -> Constant<'a>
        ensures { result ≡ value.now }
    {
        Constant {
            kept: Kept::Shared(value),
        }
    }

    /// The value where it lies beside the code; none where it stands in the instruction itself, so that it takes no memory.
    #[inline(always)]
    pub fn shared_value(&self) -> Option<&'a Value>
        ensures value { IfSome result (λ value. value.now ≡ self.now) }
        ensures small { IfNone result (IsScalar self.now) }
    {
        match self.kept {
            Kept::Shared(value) => Some(value),
            _ => None,
        }
    }

    /// The value once more: a count where it is shared, and no copy.
    #[inline(always)]
    pub fn load(&self) -> TeraResult<Value>
        ensures value { Gives (λ v. v) result (Ok self.now) }
        ensures ready { IsScalar self.now → IsOk result }
    {
        match self.kept {
            Kept::None => Ok(Value::none()),
            Kept::Bool(flag) => Ok(Value::from_bool(flag)),
            Kept::Int(number) => Ok(Value::from_int(i128::from(number))),
            Kept::Shared(value) => value.try_clone(),
        }
    }
}
