// Texts that are searched by regular expressions.
ghost use Rattle.std.specs.Prelude.{◌≡◌, Some, is_some, string_bytes, IfOk};
ghost use Rattle.std.specs.Result.{MatchResult};
ghost use Rattle.regex.specs.Patterns.{find_str};
ghost use Rattle.tera_errors.specs.Answer.{Says};
ghost use Rattle.tera_errors.specs.Prelude.{Gives, invalid_argument};
ghost use Rattle.tera_filters.specs.Patterns as spec;

use regex::{Regex, Template};
use std::alloc::{AllocError, Global};
use tera_built_ins::arguments::{as_text, needed_text};
use tera_values::{Arguments, Error, TeraResult, Value};

/// Whether the regular expression `pat` is found anywhere in the text.
pub fn matching(alloc: Global, value: &Value, arguments: &Arguments<'_>) -> TeraResult<bool>
    ensures { Gives (λ b. b) result (spec.matching_of value.now arguments.now) }
{
    let given = as_text(alloc, value)?;
    let source = needed_text(arguments, "pat")?;
    let pattern = compile(alloc, "pat", source.text)?;
    Ok(is_found(alloc, &pattern, given.text)?)
}

/// The text with `rep` in the place of each match of the regular expression `pattern`, from the left. In `rep`, `$1` and
/// `${name}` stand for what a group matched, and `$$` for a dollar sign. Safe where both texts are.
pub fn regex_replace(alloc: Global, value: &Value, arguments: &Arguments<'_>) -> TeraResult<Value>
    ensures { Gives (λ v. v) result (spec.regex_replace_of value.now arguments.now) }
{
    let given = as_text(alloc, value)?;
    let source = needed_text(arguments, "pattern")?;
    let rep = needed_text(arguments, "rep")?;
    let pattern = compile(alloc, "pattern", source.text)?;
    let replaced = replace_matches(alloc, &pattern, rep.text, given.text)?;
    Value::from_string(alloc, replaced, given.is_safe && rep.is_safe)
}

/// The argument of this name as a regular expression. One that would take too much room once it is compiled wants memory.
fn compile(alloc: Global, argument: &str, source: &str) -> TeraResult<Regex>
    ensures { MatchResult result
        (spec.IsCompiled source.now) (λ e. Says e (spec.pattern_in source.now)) }
{
    match Regex::new(alloc, source) {
        Ok(pattern) => Ok(pattern),
        Err(regex::Error::Syntax(error)) => Err(no_pattern(alloc, argument, source, error)),
        Err(_) => Err(Error::out_of_memory()),
    }
}

/// The argument of this name is no regular expression.
#[inline(never)]
fn no_pattern(alloc: Global, argument: &str, source: &str, error: regex_syntax::Error) -> Error
    ensures { result ≡ Some invalid_argument }
{
    let why = error.kind.message();
    let start = error.span.start;
    let words = format!(in alloc;
        "the argument `{argument}` is {source:?}, which is no regular expression: {why} at byte {start}"
    );
    match words {
        Ok(words) => Error::invalid_argument().with_message(alloc, words.as_str()),
        Err(_) => Error::invalid_argument(),
    }
}

// Whether the text has a match.
fn is_found(alloc: Global, pattern: &Regex, text: &str) -> Result<bool, AllocError>
    ensures { IfOk result (λ found. (p : spec.Pattern) → spec.Compiles p pattern.now
        → found ≡ is_some (find_str p.0 text.now 0)) }
{
    let mut matcher = pattern.matcher(alloc)?;
    Ok(matcher.is_match(text))
}

// The text with a replacement in the place of each match.
fn replace_matches(
    alloc: Global,
    pattern: &Regex,
    rep: &str,
    text: &str,
) -> Result<String, AllocError>
    ensures { IfOk result (λ s. (p : spec.Pattern) → spec.Compiles p pattern.now
        → string_bytes s ≡ spec.replaced p rep.now text.now) }
{
    let template = Template::new(alloc, pattern.capture_names(), rep)?;
    let mut matcher = pattern.matcher(alloc)?;
    matcher.replace_all(alloc, text, &template)
}
