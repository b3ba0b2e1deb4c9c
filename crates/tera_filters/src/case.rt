// Texts in upper and in lower case.
ghost use Rattle.std.specs.Prelude.{◌≡◌, ◌++◌, Ok, OnOk, IfErr, string_bytes};
ghost use Rattle.std.specs.Char.{encode_utf8};
ghost use Rattle.std.specs.StrCase.Upper.{str_to_uppercase};
ghost use Rattle.std.specs.StrCase.Lower.{str_to_lowercase};
ghost use Rattle.tera_errors.specs.Prelude.{Gives, Lacks};
ghost use Rattle.tera_filters.specs.Case as spec;

use std::alloc::Global;
use tera_built_ins::arguments::as_text;
use tera_values::{TeraResult, Value};
use unicode_segmentation::UnicodeSegmentation;

/// The text in upper case, as Unicode has it. It keeps its mark.
pub fn upper(alloc: Global, value: &Value) -> TeraResult<Value>
    ensures { Gives (λ v. v) result (spec.upper_of value.now) }
{
    let given = as_text(alloc, value)?;
    let raised = given.text.to_uppercase(alloc)?;
    Value::from_string(alloc, raised, given.is_safe)
}

/// The text in lower case, as Unicode has it. It keeps its mark.
pub fn lower(alloc: Global, value: &Value) -> TeraResult<Value>
    ensures { Gives (λ v. v) result (spec.lower_of value.now) }
{
    let given = as_text(alloc, value)?;
    let lowered = given.text.to_lowercase(alloc)?;
    Value::from_string(alloc, lowered, given.is_safe)
}

// Appends the character in upper case, and the text in lower case.
fn put_changed(alloc: Global, first: char, others: &str, out: &mut String) -> TeraResult<()>
    ensures ok { OnOk result (string_bytes out.new ≡ string_bytes out.old
        ++ (str_to_uppercase (encode_utf8 first) ++ str_to_lowercase others.now)) }
    ensures lacks { IfErr result Lacks }
{
    let mut buffer = [0; 4];
    let raised = first.encode_utf8(&mut buffer).to_uppercase(alloc)?;
    let lowered = others.to_lowercase(alloc)?;
    out.push_str(raised.as_str())?;
    out.push_str(lowered.as_str())?;
    Ok(())
}

// Appends the text with its first character in upper case, and the others in lower case.
fn put_capitalized(alloc: Global, text: &str, out: &mut String) -> TeraResult<()>
    ensures ok { OnOk result
        (string_bytes out.new ≡ string_bytes out.old ++ spec.capitalized text.now) }
    ensures lacks { IfErr result Lacks }
{
    let mut letters = text.chars();
    match letters.next() {
        None => Ok(()),
        Some(first) => put_changed(alloc, first, letters.as_str(), out),
    }
}

/// The text with its first character in upper case, and the others in lower case. It keeps its mark.
pub fn capitalize(alloc: Global, value: &Value) -> TeraResult<Value>
    ensures { Gives (λ v. v) result (spec.capitalize_of value.now) }
{
    let given = as_text(alloc, value)?;
    let mut capitalized = String::new(alloc);
    put_capitalized(alloc, given.text, &mut capitalized)?;
    Value::from_string(alloc, capitalized, given.is_safe)
}

// The text with each of its pieces between the boundaries of words capitalized.
fn title_text(alloc: Global, text: &str) -> TeraResult<String>
    ensures { Gives string_bytes result (Ok (spec.titled text.now)) }
{
    let mut titled = String::new(alloc);
    for piece in text.split_word_bounds() {
        put_capitalized(alloc, piece, &mut titled)?;
    }
    Ok(titled)
}

/// The text with each of its words capitalized: a word ends where Unicode has a boundary of words. It keeps its mark.
pub fn title(alloc: Global, value: &Value) -> TeraResult<Value>
    ensures { Gives (λ v. v) result (spec.title_of value.now) }
{
    let given = as_text(alloc, value)?;
    let titled = title_text(alloc, given.text)?;
    Value::from_string(alloc, titled, given.is_safe)
}
