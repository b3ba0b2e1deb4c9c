// Texts that an engine keeps, and texts that it hands out.
ghost use Rattle.std.specs.Prelude.{◌≡◌, ◌++◌, IfOk, Ok, OnErr, OnOk, map, nat_eq, string_bytes};
ghost use Rattle.std.specs.List.{list_any, ends_with};
ghost use Rattle.tera_errors.specs.Prelude.{Gives};
ghost use Rattle.tera_meaning.specs.Prelude.{standard_suffixes};
ghost use Rattle.tera.specs.Lent.{texts_of};

use std::alloc::{AllocError, Global};
use std::mem;
use tera_values::TeraResult;

/// A copy of each text.
pub fn copies_of(alloc: Global, texts: &[&str]) -> TeraResult<Vec<String>>
    ensures { Gives (λ v. map string_bytes v.items) result (Ok (texts_of texts.now)) }
{
    let mut copies = Vec::new(alloc);
    for text in texts {
        copies.push(String::from_str(alloc, text)?)?;
    }
    Ok(copies)
}

/// The suffixes of an engine that was told no others.
pub fn standard_suffixes(alloc: Global) -> TeraResult<Vec<String>>
    ensures { Gives (λ v. map string_bytes v.items) result (Ok standard_suffixes) }
{
    copies_of(alloc, &[".html", ".htm", ".xml"])
}

/// Whether the name ends with one of the suffixes. Takes no memory.
pub fn ends_with_one_of(name: &str, suffixes: &[String]) -> bool
    ensures { result ≡ list_any (λ s. ends_with nat_eq name.now s) (map string_bytes suffixes.now) }
{
    suffixes
        .iter()
        .any(|suffix| name.ends_with(suffix.as_str()))
}

/// The memory of a vector that holds nothing, for a text that is to be put there; any other keeps its own. Takes no memory.
pub fn lend_memory(alloc: Global, out: &mut Vec<u8>) -> String
    ensures { out.new.items ≡ out.old.items }
{
    if !out.is_empty() {
        return String::new(alloc);
    }
    match String::from_utf8(mem::replace(out, Vec::new(alloc))) {
        Ok(memory) => memory,
        Err(_) => String::new(alloc),
    }
}

/// Puts the text after what is there. A vector that holds nothing takes over the memory of the text. Where another one has no room for
/// it, the shorter of the two is copied.
pub fn append_text(text: String, out: &mut Vec<u8>) -> Result<(), AllocError>
    ensures ok { OnOk result (out.new.items ≡ out.old.items ++ string_bytes text) }
    ensures err { OnErr result (out.new.items ≡ out.old.items) }
{
    if out.is_empty() {
        *out = text.into_bytes();
        return Ok(());
    }
    let room = out.capacity().saturating_sub(out.len());
    if text.len() <= room.max(out.len()) {
        return out.extend_from_slice(text.as_bytes());
    }
    *out = text_after(out.as_slice(), text)?;
    Ok(())
}

// These bytes and then the text, in the memory of the text.
fn text_after(bytes: &[u8], text: String) -> Result<Vec<u8>, AllocError>
    ensures { IfOk result (λ v. v.items ≡ bytes.now ++ string_bytes text) }
{
    let mut all = text.into_bytes();
    let len = all.len();
    all.extend_from_slice(bytes)?;
    all.as_mut_slice().rotate_left(len);
    Ok(all)
}
