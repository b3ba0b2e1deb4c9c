// Values as texts that are safe, or are not.
ghost use Rattle.tera_errors.specs.Prelude.{Gives};
ghost use Rattle.tera_values.specs.Prelude.{plain};
ghost use Rattle.tera_built_ins.specs.Escaping.{escaping_of};
ghost use Rattle.tera_built_ins.specs.Safety.{safe_of, escape_of, str_of};

use crate::arguments::as_text;
use crate::escape_fn::{EscapeFn, Filtering};
use std::alloc::Global;
use tera_values::refusals::unfit_value;
use tera_values::{Shape, TeraResult, Value};

/// The printed text, marked safe. A text is not copied.
pub fn safe(alloc: Global, value: &Value) -> TeraResult<Value>
    ensures { Gives (λ v. v) result (safe_of plain value.now) }
{
    match value.shape() {
        Shape::Undefined => Err(unfit_value(alloc, None, value, "a value that is defined")),
        Shape::Text(_, _) => Ok(value.try_clone()?.mark_safe()),
        _ => Value::safe_string(alloc, value.printed(alloc)?.as_str()),
    }
}

/// The escape of a text, marked safe. A text that is safe already is not copied.
pub fn escape<E: EscapeFn>(filtering: Filtering<'_, E>) -> TeraResult<Value>
    ensures { Gives (λ v. v) result (escape_of plain
        (escaping_of E.escaped filtering.entry.escaping) filtering.entry.value.now) }
{
    let given = as_text(filtering.alloc, filtering.value)?;
    if given.is_safe {
        return filtering.value.try_clone();
    }
    let mut escaped = String::new(filtering.alloc);
    filtering.escaping.escape(given.text, &mut escaped)?;
    Value::safe_string(filtering.alloc, escaped.as_str())
}

/// The printed text, without a mark.
pub fn str(alloc: Global, value: &Value) -> TeraResult<Value>
    ensures { Gives (λ v. v) result (str_of plain value.now) }
{
    Value::from_string(alloc, value.printed(alloc)?, false)
}
