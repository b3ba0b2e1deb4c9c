// Where a pattern stands in a text that is not short.
ghost use Rattle.std.specs.Prelude.{◌≡◌, ◌≢◌, ◌<◌, [], None, length, IfSome, MatchOption};
ghost use Rattle.std.specs.Str.Pattern.{FindsText, SplitsAroundMatch};

use memchr::memmem::Finder;

// A text of at most so many bytes is looked through sooner than a search by vectors is prepared.
const SHORT: usize = 64;

/// Whether a search by vectors is not worth while. One byte is always found sooner by it.
pub(crate) fn is_short(pattern: &str, text: &str) -> bool {
    text.len() <= SHORT && 1 < pattern.len()
}

/// What stands before the first place of a pattern, and what stands behind it.
pub(crate) fn split_at_first<'a>(
    finder: &Finder<'_>,
    pattern: &str,
    text: &'a str,
) -> Option<(&'a str, &'a str)>
    requires some { pattern.now ≢ [] }
    requires of_pattern { finder.now ≡ pattern.now }
    ensures cases { MatchOption result (FindsText pattern.now text.now None)
        (λ x. SplitsAroundMatch (FindsText pattern.now) text.now x.0.now x.1.now) }
    ensures shorter { IfSome result (λ x. length x.1.now < length text.now) }
{
    let place = finder.find(text.as_bytes())?;
    let (before, rest) = text.split_at(place);
    let (_, behind) = rest.split_at(pattern.len());
    Some((before, behind))
}
