// Texts as they stand in readable URLs.
ghost use Rattle.std.specs.Prelude.{◌≡◌, ◌<◌, ◌++◌, ◌∷◌, [], ◌&&◌, not, if◌then◌else◌, IfOk, OnOk, codes, string_bytes};
ghost use Rattle.tera_errors.specs.Prelude.{Gives};
ghost use Rattle.tera_built_ins.specs.Words.{has_some};
ghost use Rattle.tera_filters.specs.Slugs as spec;

use std::alloc::{AllocError, Global};
use tera_built_ins::arguments::as_text;
use tera_values::{TeraResult, Value};
use unicode_normalization::to_nfkd;

/// Puts a letter behind a slug: where no word goes on, a new one begins.
fn put_letter(letter: u8, goes_on: bool, slug: &mut String) -> Result<(), AllocError>
    requires { letter < 128 }
    ensures { OnOk result (string_bytes slug.new ≡ string_bytes slug.old
        ++ ((if not goes_on && has_some (string_bytes slug.old) then codes "-" else [])
        ++ letter ∷ [])) }
{
    if !goes_on && !slug.is_empty() {
        slug.push('-')?;
    }
    slug.push(letter as char)
}

/// The words of a text's ASCII letters and digits, in lower case. What is no ASCII is left out and parts no words.
fn slug_of(alloc: Global, text: &[u8]) -> Result<String, AllocError>
    ensures { IfOk result (λ slug. string_bytes slug ≡ spec.slug text.now) }
{
    let mut slug = String::new(alloc);
    let mut goes_on = false;
    for byte in text {
        if byte.is_ascii_alphanumeric() {
            put_letter(byte.to_ascii_lowercase(), goes_on, &mut slug)?;
            goes_on = true;
        } else if byte.is_ascii() {
            goes_on = false;
        }
    }
    Ok(slug)
}

/// The text's words of ASCII letters and digits in lower case, with `-` between them. A letter that Unicode's NFKD takes apart,
/// as `é`, keeps its ASCII part. The answer is safe where the text is.
pub fn slugify(alloc: Global, value: &Value) -> TeraResult<Value>
    ensures { Gives (λ v. v) result (spec.slugify_of value.now) }
{
    let given = as_text(alloc, value)?;
    let decomposed = to_nfkd(alloc, given.text)?;
    let slug = slug_of(alloc, decomposed.as_bytes())?;
    Value::from_string(alloc, slug, given.is_safe)
}
