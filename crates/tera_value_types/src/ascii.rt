// Texts of ASCII alone, whose characters are their bytes.
ghost use Rattle.std.specs.Prelude.{◌≡◌, Ok, IsAscii, length, reverse, string_bytes};
ghost use Rattle.std.specs.Str.{chars};
ghost use Rattle.tera_errors.specs.Prelude.{Gives};

use std::alloc::Global;
use tera_errors::TeraResult;

/// How many characters the text has.
pub(crate) fn char_count(text: &str) -> usize
    ensures { result ≡ length (chars text.now) }
{
    if text.is_ascii() {
        text.len()
    } else {
        text.chars().count()
    }
}

/// The bytes of the text, the last one first.
pub(crate) fn reversed_bytes(alloc: Global, text: &str) -> TeraResult<String>
    requires { IsAscii text.now }
    ensures { Gives string_bytes result (Ok (reverse text.now)) }
{
    let mut bytes = Vec::from_slice(alloc, text.as_bytes())?;
    bytes.reverse();
    match String::from_utf8(bytes) {
        Ok(backward) => Ok(backward),
        Err(_) => unreachable!(),
    }
}
