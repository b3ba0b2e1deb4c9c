// Values of Rust's own types. None takes memory.
ghost use Rattle.std.specs.Prelude.{◌≡◌, pos};
ghost use Rattle.tera_value_types.specs.Val.{bool, int, array, map, vals, entries};

use crate::value::{Map, Value};

impl From<bool> for Value {
    ghost from_gives = { λ flag v. v ≡ bool flag };

    fn from(flag: bool) -> Value {
        Value::from_bool(flag)
    }
}

impl From<i32> for Value {
    ghost from_gives = { λ number v. v ≡ int number };

    fn from(number: i32) -> Value {
        Value::from_int(i128::from(number))
    }
}

impl From<i64> for Value {
    ghost from_gives = { λ number v. v ≡ int number };

    fn from(number: i64) -> Value {
        Value::from_int(i128::from(number))
    }
}

impl From<i128> for Value {
    ghost from_gives = { λ number v. v ≡ int number };

    fn from(number: i128) -> Value {
        Value::from_int(number)
    }
}

impl From<u32> for Value {
    ghost from_gives = { λ number v. v ≡ int (pos number) };

    fn from(number: u32) -> Value {
        Value::from_int(i128::from(number))
    }
}

impl From<u64> for Value {
    ghost from_gives = { λ number v. v ≡ int (pos number) };

    fn from(number: u64) -> Value {
        Value::from_int(i128::from(number))
    }
}

impl From<usize> for Value {
    ghost from_gives = { λ number v. v ≡ int (pos number) };

    fn from(number: usize) -> Value {
        Value::from_int(number as i128)
    }
}

impl From<Vec<Value>> for Value {
    ghost from_gives = { λ items v. v ≡ array (vals items.items) };

    fn from(items: Vec<Value>) -> Value {
        Value::array(items)
    }
}

impl From<Map> for Value {
    ghost from_gives = { λ all v. v ≡ map (entries all) };

    fn from(all: Map) -> Value {
        Value::map(all)
    }
}
