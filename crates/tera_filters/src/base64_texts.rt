// Texts in Base64.
ghost use Rattle.std.specs.Prelude.{◌≡◌, Ok, IfOk, string_bytes};
ghost use Rattle.tera_errors.specs.Prelude.{Gives, Tells, message};
ghost use Rattle.base64.specs.GeneralPurpose.{encode_of, decode_of};
ghost use Rattle.tera_filters.specs.Base64Texts as spec;

use base64::engine::general_purpose::{STANDARD, URL_SAFE};
use base64::{DecodeAllocError, DecodeError};
use std::alloc::{AllocError, Global};
use tera_built_ins::arguments::{as_text, flag};
use tera_values::{Arguments, Error, TeraResult, Value};

/// The text's bytes in Base64, which is safe where the text is. With `url_safe` its symbols may stand in a URL.
pub fn b64encode(alloc: Global, value: &Value, arguments: &Arguments<'_>) -> TeraResult<Value>
    ensures { Gives (λ v. v) result (spec.b64encode_of value.now arguments.now) }
{
    let given = as_text(alloc, value)?;
    let url_safe = flag(arguments, "url_safe")?;
    let encoded = encode(alloc, given.text, url_safe)?;
    Value::from_string(alloc, encoded, given.is_safe)
}

fn encode(alloc: Global, text: &str, url_safe: bool) -> Result<String, AllocError>
    ensures { IfOk result (λ t. string_bytes t ≡ encode_of (spec.engine url_safe) text.now) }
{
    if url_safe {
        URL_SAFE.encode(alloc, text.as_bytes())
    } else {
        STANDARD.encode(alloc, text.as_bytes())
    }
}

/// The text whose bytes stand in Base64. It is not marked safe, since there may be markup in it.
pub fn b64decode(alloc: Global, value: &Value, arguments: &Arguments<'_>) -> TeraResult<Value>
    ensures { Gives (λ v. v) result (spec.b64decode_of value.now arguments.now) }
{
    let given = as_text(alloc, value)?;
    let url_safe = flag(arguments, "url_safe")?;
    let bytes = decode(alloc, given.text, url_safe)?;
    text_of(alloc, bytes)
}

/// The text whose bytes these are.
fn text_of(alloc: Global, bytes: Vec<u8>) -> TeraResult<Value>
    ensures { Gives (λ v. v) result (spec.unsafe_text bytes.items) }
{
    match String::from_utf8(bytes) {
        Ok(text) => Value::from_string(alloc, text, false),
        Err(_) => Err(no_text(alloc)),
    }
}

fn decode(alloc: Global, text: &str, url_safe: bool) -> TeraResult<Vec<u8>>
    ensures { Gives (λ v. v.items) result
        (spec.or_message (decode_of (spec.engine url_safe) text.now)) }
{
    let decoded = if url_safe {
        URL_SAFE.decode(alloc, text.as_bytes())
    } else {
        STANDARD.decode(alloc, text.as_bytes())
    };
    match decoded {
        Ok(bytes) => Ok(bytes),
        Err(DecodeAllocError::OutOfMemory) => Err(Error::out_of_memory()),
        Err(DecodeAllocError::DecodeError(error)) => Err(no_base64(alloc, error, url_safe)),
    }
}

#[inline(never)]
fn no_base64(alloc: Global, error: DecodeError, url_safe: bool) -> Error
    ensures { Tells result message }
{
    let alphabet = if url_safe { "URL-safe " } else { "" };
    Error::message_from(format!(in alloc; "the value is no {alphabet}Base64: {error}"))
}

#[inline(never)]
fn no_text(alloc: Global) -> Error
    ensures { Tells result message }
{
    Error::message(
        alloc,
        "what the value stands for in Base64 is no text in UTF-8",
    )
}
