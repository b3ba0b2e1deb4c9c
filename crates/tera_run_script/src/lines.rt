// The lines of a text, and the words of a line.
ghost use Rattle.std.specs.Prelude.{◌≡◌, ◌∷◌, [], MatchOption, IfSome, length, ◌<◌};
ghost use Rattle.tera_run_script.specs.Lines.{lines_of};
ghost use Rattle.tera_run_script.specs.Words.{words_of, words_after};

/// The first line, and what follows its line feed.
pub fn first_line(text: &str) -> Option<(&str, &str)>
    ensures lines { MatchOption result (lines_of text.now ≡ [])
        (λ found. lines_of text.now ≡ found.0.now ∷ lines_of found.1.now) }
    ensures shorter { IfSome result (λ found. length found.1.now < length text.now) }
{
    if text.is_empty() {
        return None;
    }
    match text.split_once('\n') {
        Some(found) => Some(found),
        None => Some((text, "")),
    }
}

/// The first word, and what follows the space behind it, if there is one.
pub fn first_word(line: &str) -> (&str, Option<&str>)
    ensures { words_of line.now ≡ result.0.now ∷ words_after result.1 }
{
    match line.split_once(' ') {
        Some((word, rest)) => (word, Some(rest)),
        None => (line, None),
    }
}
