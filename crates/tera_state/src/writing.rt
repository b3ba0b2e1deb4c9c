// The text that a value is rendered as.
ghost use Rattle.std.specs.Prelude.{◌≡◌, ◌++◌, string_bytes, OnOk, OnErr};
ghost use Rattle.tera_values.specs.Prelude.{printed};
ghost use Rattle.tera_built_ins.specs.Prelude.{escaping_of};
ghost use Rattle.tera_state.specs.Rendered.{written_by};

use std::alloc::{AllocError, Global};
use tera_built_ins::{EscapeFn, Escaping};
use tera_errors::alloc_result;
use tera_values::Value;

/// Puts a value behind a text: its printed text, escaped where texts are escaped and the value is not safe. A text is not
/// copied on the way. Want of memory leaves the text as it was. What needs no escape is printed without a call.
#[inline(always)]
pub fn write_value<E: EscapeFn>(
    alloc: Global,
    escaping: Escaping<'_, E>,
    value: &Value,
    out: &mut String,
) -> Result<(), AllocError>
    ensures ok { OnOk result (string_bytes out.new ≡ string_bytes out.old
        ++ written_by (escaping_of E.escaped escaping.entry) value.now) }
    ensures err { OnErr result (string_bytes out.new ≡ string_bytes out.old) }
{
    if !escaping.autoescape || value.is_safe() {
        return value.print_to(out);
    }
    write_escaped(alloc, escaping.escape, value, out)
}

// The printed text of a value, escaped.
fn write_escaped<E: EscapeFn>(
    alloc: Global,
    escape: &E,
    value: &Value,
    out: &mut String,
) -> Result<(), AllocError>
    ensures ok { OnOk result (string_bytes out.new ≡ string_bytes out.old
        ++ E.escaped escape.now (printed value.now)) }
    ensures err { OnErr result (string_bytes out.new ≡ string_bytes out.old) }
{
    match value.as_str() {
        Some(text) => alloc_result(escape.escape(text, out)),
        None => {
            let text = alloc_result(value.printed(alloc))?;
            alloc_result(escape.escape(text.as_str(), out))
        }
    }
}
