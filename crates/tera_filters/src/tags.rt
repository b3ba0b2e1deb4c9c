// Markup without its tags, and without the white space between them.
ghost use Rattle.std.specs.Prelude.{◌≡◌, ◌≢◌, ◌++◌, ◌<◌, ◌≤◌, Ok, [], drop, length, option_copied, option_map, string_bytes, IfSome, MatchOption};
ghost use Rattle.tera_errors.specs.Prelude.{Gives};
ghost use Rattle.tera_filters.specs.Tags as spec;

use std::alloc::Global;
use tera_built_ins::arguments::as_text;
use tera_values::{TeraResult, Value};

// What stands behind the first place of a pattern.
fn text_behind<'a>(text: &'a str, pattern: &str) -> Option<&'a str>
    requires { pattern.now ≢ [] }
    ensures value { option_copied result
        ≡ option_map (λ n. drop n text.now) (spec.through pattern.now text.now) }
    ensures shorter { IfSome result (λ r. length r.now ≤ length text.now) }
{
    match text.split_once(pattern) {
        Some((_, rest)) => Some(rest),
        None => None,
    }
}

// What stands behind a tag or a comment, of which this is what follows its `<`.
fn behind_tag(text: &str) -> Option<&str>
    ensures value { option_copied result
        ≡ option_map (λ n. drop n text.now) (spec.tag_size text.now) }
    ensures shorter { IfSome result (λ r. length r.now ≤ length text.now) }
{
    match text.strip_prefix("!--") {
        Some(comment) => text_behind(comment, "-->"),
        None => text_behind(text, ">"),
    }
}

// What stands before the first tag or comment, and what stands behind it, unless nothing closes it.
fn split_at_tag(text: &str) -> Option<(&str, &str)>
    ensures cases { MatchOption result (spec.stripped text.now ≡ text.now)
        (λ x. spec.stripped text.now ≡ x.0.now ++ spec.stripped x.1.now) }
    ensures shorter { IfSome result (λ x. length x.1.now < length text.now) }
{
    match text.split_once("<") {
        Some((before, tag)) => match behind_tag(tag) {
            Some(rest) => Some((before, rest)),
            None => None,
        },
        None => None,
    }
}

fn without_tags(alloc: Global, text: &str) -> TeraResult<String>
    ensures { Gives string_bytes result (Ok (spec.stripped text.now)) }
{
    let mut kept = String::new(alloc);
    let mut rest = text;
    while let Some((before, behind)) = split_at_tag(rest) {
        kept.push_str(before)?;
        rest = behind;
    }
    kept.push_str(rest)?;
    Ok(kept)
}

/// The text without its comments `<!-- .. -->` and its tags, each from a `<` to the next `>`. Where one begins that nothing
/// closes, it stays with all that follows. What is left keeps its mark.
pub fn striptags(alloc: Global, value: &Value) -> TeraResult<Value>
    ensures { Gives (λ v. v) result (spec.striptags_of value.now) }
{
    let given = as_text(alloc, value)?;
    let stripped = without_tags(alloc, given.text)?;
    Value::from_string(alloc, stripped, given.is_safe)
}

// The text without white space at its start, where a tag follows.
fn past_gap(text: &str) -> &str
    ensures value { result.now ≡ drop (spec.gap_size text.now) text.now }
    ensures shorter { length result.now ≤ length text.now }
{
    let trimmed = text.trim_ascii_start();
    if trimmed.starts_with("<") {
        trimmed
    } else {
        text
    }
}

fn without_gaps(alloc: Global, text: &str) -> TeraResult<String>
    ensures { Gives string_bytes result (Ok (spec.compact text.now)) }
{
    let mut kept = String::new(alloc);
    let mut rest = text;
    while let Some((before, behind)) = rest.split_once(">") {
        kept.push_str(before)?;
        kept.push_str(">")?;
        rest = past_gap(behind);
    }
    kept.push_str(rest)?;
    Ok(kept)
}

/// The text without white space between a `>` and the next `<`: spaces, tabs, line feeds, carriage returns and form feeds. All
/// else stays, and so does its mark.
pub fn spaceless(alloc: Global, value: &Value) -> TeraResult<Value>
    ensures { Gives (λ v. v) result (spec.spaceless_of value.now) }
{
    let given = as_text(alloc, value)?;
    let compact = without_gaps(alloc, given.text)?;
    Value::from_string(alloc, compact, given.is_safe)
}
