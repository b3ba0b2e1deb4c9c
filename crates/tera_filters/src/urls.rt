// Texts as they stand in URLs.
ghost use Rattle.std.specs.Prelude.{◌≡◌, IfOk, string_bytes};
ghost use Rattle.percent_encoding.specs.Percent.{percent_encode};
ghost use Rattle.tera_errors.specs.Prelude.{Gives};
ghost use Rattle.tera_filters.specs.Urls as spec;

use percent_encoding::{AsciiSet, NON_ALPHANUMERIC, ascii_set, utf8_percent_encode};
use std::alloc::{AllocError, Global};
use tera_built_ins::arguments::as_text;
use tera_values::{TeraResult, Value};

/// What is encoded in a path: all but letters, digits and what parts or joins words there.
const IN_PATH: AsciiSet = ascii_set!(
    NON_ALPHANUMERIC
        .remove(b'/')
        .remove(b'-')
        .remove(b'_')
        .remove(b'.')
        .remove(b'~')
);

fn encode(alloc: Global, text: &str, escaped: AsciiSet) -> Result<String, AllocError>
    ensures { IfOk result (λ t. string_bytes t ≡ percent_encode escaped text.now) }
{
    let mut encoded = String::new(alloc);
    utf8_percent_encode(text, escaped).append_to(&mut encoded)?;
    Ok(encoded)
}

/// The text with all of its UTF-8 bytes percent-encoded but ASCII letters and digits and `/ - _ . ~`. It is safe where the
/// text is.
pub fn urlencode(alloc: Global, value: &Value) -> TeraResult<Value>
    ensures { Gives (λ v. v) result (spec.urlencode_of value.now) }
{
    let given = as_text(alloc, value)?;
    let encoded = encode(alloc, given.text, IN_PATH)?;
    Value::from_string(alloc, encoded, given.is_safe)
}

/// The same, with `/ - _ . ~` encoded too.
pub fn urlencode_strict(alloc: Global, value: &Value) -> TeraResult<Value>
    ensures { Gives (λ v. v) result (spec.urlencode_strict_of value.now) }
{
    let given = as_text(alloc, value)?;
    let encoded = encode(alloc, given.text, NON_ALPHANUMERIC)?;
    Value::from_string(alloc, encoded, given.is_safe)
}
