// What stands in for a value.
ghost use Rattle.tera_errors.specs.Prelude.{Gives};
ghost use Rattle.tera_built_ins.specs.Defaults.{default_of};

use crate::arguments::{flag, needed_value};
use tera_values::{Arguments, TeraResult, Value};

/// `value` where there is none, and with `boolean` where there is a false one; else what there is.
pub fn default(value: &Value, arguments: &Arguments<'_>) -> TeraResult<Value>
    ensures { Gives (λ v. v) result (default_of value.now arguments.now) }
{
    let other = needed_value(arguments, "value")?;
    let is_replaced = if flag(arguments, "boolean")? {
        !value.is_truthy()
    } else {
        value.is_undefined()
    };
    if is_replaced {
        other.try_clone()
    } else {
        value.try_clone()
    }
}
