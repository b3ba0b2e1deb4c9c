// Texts cut short behind so many words.
ghost use Rattle.std.specs.Prelude.{◌≡◌, ◌++◌, Ok, OnOk, IfErr, cond, codes, [], string_bytes};
ghost use Rattle.tera_errors.specs.Prelude.{Gives, Lacks};
ghost use Rattle.tera_filters.specs.Words as spec;

use std::alloc::Global;
use tera_built_ins::arguments::{as_text, needed_size, text_or};
use tera_values::{Arguments, TeraResult, Value};

// Whether the text has more words than so many. No more of them are looked for.
fn has_more_words(content: &str, count: usize) -> bool
    ensures { result ≡ spec.has_more count content.now }
{
    match content.split_whitespace().nth(count) {
        Some(_) => true,
        None => false,
    }
}

// Appends a word, and before it a space where another stands there.
fn put_word(word: &str, is_behind: bool, out: &mut String) -> TeraResult<()>
    ensures ok { OnOk result (string_bytes out.new
        ≡ string_bytes out.old ++ (cond is_behind (codes " ") [] ++ word.now)) }
    ensures lacks { IfErr result Lacks }
{
    if is_behind {
        out.push_str(" ")?;
    }
    out.push_str(word)?;
    Ok(())
}

// So many words at most, with single spaces between them.
fn first_words(alloc: Global, content: &str, count: usize) -> TeraResult<String>
    ensures { Gives string_bytes result (Ok (spec.first_words count content.now)) }
{
    let mut joined = String::new(alloc);
    let mut is_behind = false;
    for word in content.split_whitespace().take(count) {
        put_word(word, is_behind, &mut joined)?;
        is_behind = true;
    }
    Ok(joined)
}

// The first words of a text that has more than so many, and then the end; else the text.
fn shorten(alloc: Global, content: &str, count: usize, end: &str) -> TeraResult<String>
    ensures { Gives string_bytes result (Ok (spec.truncated count end.now content.now)) }
{
    if !has_more_words(content, count) {
        return Ok(String::from_str(alloc, content)?);
    }
    let mut shortened = first_words(alloc, content, count)?;
    shortened.push_str(end)?;
    Ok(shortened)
}

/// A text of more than `length` words, which are what stands between white space, cut behind the last of these: they are joined
/// by single spaces, and `end` stands behind them. Any other text stays. Never marked safe, since it may be cut inside a tag.
pub fn truncate_words(alloc: Global, value: &Value, arguments: &Arguments<'_>) -> TeraResult<Value>
    ensures { Gives (λ v. v) result (spec.truncate_words_of value.now arguments.now) }
{
    let given = as_text(alloc, value)?;
    let count = needed_size(arguments, "length")?;
    let end = text_or(arguments, "end", "…")?;
    let shortened = shorten(alloc, given.text, count, end)?;
    Value::from_string(alloc, shortened, false)
}
