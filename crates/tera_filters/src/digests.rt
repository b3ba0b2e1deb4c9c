// Digests of texts.
ghost use Rattle.tera_errors.specs.Prelude.{Gives};
ghost use Rattle.tera_filters.specs.Digests as spec;

use md5::Md5;
use sha2::Sha256;
use std::alloc::Global;
use tera_built_ins::arguments::as_text;
use tera_values::{TeraResult, Value};

/// The SHA-256 digest of the text's bytes in hex. It is safe where the text is.
pub fn sha256(alloc: Global, value: &Value) -> TeraResult<Value>
    ensures { Gives (λ v. v) result (spec.sha256_of value.now) }
{
    let given = as_text(alloc, value)?;
    let digest = <Sha256 as sha2::Digest>::digest(given.text.as_bytes());
    Value::from_string(alloc, hex::encode(alloc, digest.as_slice())?, given.is_safe)
}

/// The MD5 digest of the text's bytes in hex. It is safe where the text is. MD5 tells texts apart by chance only: nobody should
/// trust it where someone may wish for two texts with the same digest.
pub fn md5(alloc: Global, value: &Value) -> TeraResult<Value>
    ensures { Gives (λ v. v) result (spec.md5_of value.now) }
{
    let given = as_text(alloc, value)?;
    let digest = <Md5 as md5::Digest>::digest(given.text.as_bytes());
    Value::from_string(alloc, hex::encode(alloc, digest.as_slice())?, given.is_safe)
}
