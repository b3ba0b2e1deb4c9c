// The words of a text.
ghost use Rattle.std.specs.Prelude.{◌≡◌, IsAscii};
ghost use Rattle.tera_errors.specs.Prelude.{Gives};
ghost use Rattle.tera_values.specs.Prelude.{plain};
ghost use Rattle.tera_built_ins.specs.Words.{word_count, wordcount_of};

use crate::arguments::as_text;
use std::alloc::Global;
use tera_values::{TeraResult, Value};

/// How many words the text has. One begins at each character that is no white space, and has none of a word before it.
fn word_count(text: &str) -> usize
    ensures { result ≡ word_count text.now }
{
    if text.is_ascii() {
        ascii_word_count(text.as_bytes())
    } else {
        letters_word_count(text)
    }
}

/// The same of ASCII, whose characters are its bytes. Its remainder is the byte itself: it says that no more than ASCII needs
/// to be asked.
fn ascii_word_count(bytes: &[u8]) -> usize
    requires { IsAscii bytes.now }
    ensures { result ≡ word_count bytes.now }
{
    let mut count: usize = 0;
    let mut inside = false;
    for byte in bytes {
        let white = ((*byte % 128) as char).is_whitespace();
        if !white && !inside {
            count += 1;
        }
        inside = !white;
    }
    count
}

/// The same of any text.
fn letters_word_count(text: &str) -> usize
    ensures { result ≡ word_count text.now }
{
    let mut count: usize = 0;
    let mut inside = false;
    for letter in text.chars() {
        let white = letter.is_whitespace();
        if !white && !inside {
            count += 1;
        }
        inside = !white;
    }
    count
}

/// How many words a text has: pieces between white space, as Unicode has it. Takes no memory but for a fault's words.
pub fn wordcount(alloc: Global, value: &Value) -> TeraResult<Value>
    ensures { Gives (λ v. v) result (wordcount_of plain value.now) }
{
    let given = as_text(alloc, value)?;
    Ok(Value::from_int(word_count(given.text) as i128))
}
