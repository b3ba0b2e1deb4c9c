// Why a text is not read, in words.
ghost use Rattle.tera_errors.specs.Prelude.{Tells};
ghost use Rattle.tera_errors.specs.Fault.{syntax_error};

use std::alloc::{AllocError, Global};
use std::collections::BTreeSet;
use tera_errors::{Error, Guess, Span, place_of};
use tera_syntax_tokens::refusal::Reason;
use tera_syntax_tree::Delimiters;

/// The longest part of a tag that is quoted.
const MOST_QUOTED: usize = 40;

/// The words that begin a tag, or go on in a statement.
const STATEMENTS: [&str; 15] = [
    "if",
    "elif",
    "else",
    "for",
    "break",
    "continue",
    "set",
    "set_global",
    "filter",
    "block",
    "include",
    "extends",
    "component",
    "endcomponent",
    "raw",
];

/// A text that is not read.
#[derive(Clone, Copy)]
pub(crate) struct UnreadText<'a> {
    pub(crate) source: &'a str,
    pub(crate) delimiters: &'a Delimiters,
}

impl<'a> UnreadText<'a> {
    /// The error of the text, which is refused at this span.
    #[inline(never)]
    pub(crate) fn error_at(&self, alloc: Global, name: &str, why: Reason, span: Span) -> Error
        ensures { Tells result (syntax_error (record { file = name.now; span = span })) }
    {
        match self.in_words(alloc, why, span) {
            Ok(words) => Error::syntax(alloc, words.as_str(), name, span),
            Err(_) => Error::out_of_memory(),
        }
    }

    fn in_words(&self, alloc: Global, why: Reason, span: Span) -> Result<String, AllocError> {
        let quoted = self.source.get(span.start..span.end).unwrap_or("");
        match why {
            Reason::NotOpen => self.not_open_words(alloc, span.start, quoted),
            Reason::OtherOpen(opened) => self.other_open_words(alloc, span.start, opened),
            Reason::ElseTwice(opened) => {
                let (tag, line) = (self.opening(opened), self.line(opened));
                format!(in alloc; "`{tag}` of line {line} has its `else` already")
            }
            Reason::OutOfPlace => misplaced_words(alloc, quoted, self.tag_at(span.start)),
            Reason::NoEnd => no_end_words(alloc, why, self.opening(span.start)),
            Reason::NoStatement if is_word(quoted) => no_statement_words(alloc, quoted),
            Reason::BlockTwice if is_word(quoted) => {
                format!(in alloc; "the template has two blocks `{quoted}`")
            }
            Reason::ComponentTwice => match self.component_twice(alloc)? {
                Some(name) => format!(in alloc; "the template defines two components `{name}`"),
                None => String::from_str(alloc, why.words()),
            },
            Reason::ArgumentTwice => format!(in alloc; "the argument `{quoted}` is given twice"),
            _ => String::from_str(alloc, why.words()),
        }
    }

    // The name of two components, as it is seen in the text: what was read of it keeps no place of a name.
    fn component_twice(&self, alloc: Global) -> Result<Option<&'a str>, AllocError> {
        let mut names: BTreeSet<&'a str> = BTreeSet::new(alloc);
        for tag in self.source.split(self.delimiters.block_start.as_str()) {
            let tag = tag.strip_prefix("-").unwrap_or(tag).trim_start();
            if let Some((name, _)) = tag.strip_prefix("component ").unwrap_or("").split_once("(") {
                let name = name.trim();
                if !names.insert(name)? {
                    return Ok(Some(name));
                }
            }
        }
        Ok(None)
    }

    // Nothing is open that the tag could end or go on with, but for a component perhaps.
    fn not_open_words(&self, alloc: Global, at: usize, word: &str) -> Result<String, AllocError> {
        let tag = self.tag_at(at);
        match word {
            "break" | "continue" => format!(in alloc; "`{word}` stands in no loop"),
            "else" | "elif" => {
                format!(in alloc;
                    "`{word}` goes on with nothing: no `if` and no `for` is open here"
                )
            }
            _ => match self.open_component(at) {
                Some(opened) => self.other_open_words(alloc, at, opened),
                None => format!(in alloc; "`{tag}` ends nothing: no statement is open here"),
            },
        }
    }

    // Where the tag begins that opened the component around this byte, as it is seen in the text.
    fn open_component(&self, at: usize) -> Option<usize> {
        let start = self.delimiters.block_start.as_str();
        let (before, _) = self.source.get(..at)?.rsplit_once(start)?;
        let mut open = None;
        for (tag, _) in before.match_indices(start) {
            let rest = self.first_word_on(tag);
            if rest.starts_with("component") {
                open = Some(tag);
            } else if rest.starts_with("endcomponent") {
                open = None;
            }
        }
        open
    }

    // The text from the first word of the tag on that begins at this byte. Its end is not looked for: a comment may be full
    // of signs that begin a tag.
    fn first_word_on(&self, at: usize) -> &'a str {
        let Some((_, rest)) = self.source.split_at_checked(at) else {
            return "";
        };
        let start = self.delimiters.block_start.as_str();
        let rest = rest.strip_prefix(start).unwrap_or(rest);
        rest.strip_prefix("-").unwrap_or(rest).trim_start()
    }

    // A tag belongs to a statement that is not the one which is open.
    fn other_open_words(
        &self,
        alloc: Global,
        at: usize,
        opened: usize,
    ) -> Result<String, AllocError> {
        let (tag, opening, line) = (self.tag_at(at), self.opening(opened), self.line(opened));
        if tag.starts_with("end") || tag.starts_with("<") {
            format!(in alloc; "`{tag}` ends nothing: `{opening}` of line {line} is open")
        } else {
            format!(in alloc;
                "`{tag}` does not belong to `{opening}` of line {line}, which is open"
            )
        }
    }

    // What stands between the delimiters of the tag that begins at this byte, or its first word where it is long.
    fn opening(&self, at: usize) -> &'a str {
        let Some((_, rest)) = self.source.split_at_checked(at) else {
            return "";
        };
        let start = self.delimiters.block_start.as_str();
        self.tag_text(rest.strip_prefix(start).unwrap_or(rest))
    }

    // The same of a tag whose first token begins at this byte.
    fn tag_at(&self, at: usize) -> &'a str {
        match self.source.split_at_checked(at) {
            Some((_, rest)) => self.tag_text(rest),
            None => "",
        }
    }

    // The rest of a tag that goes on here, up to its end, without white space and signs that take such away around it.
    fn tag_text(&self, rest: &'a str) -> &'a str {
        let end = self.delimiters.block_end.as_str();
        let inner = match rest.split_once(end) {
            Some((inner, _)) => inner,
            None => rest,
        };
        let inner = inner.strip_prefix("-").unwrap_or(inner);
        let inner = inner.strip_suffix("-").unwrap_or(inner).trim();
        if inner.len() <= MOST_QUOTED && !inner.contains("\n") && !inner.contains("`") {
            return inner;
        }
        first_word(inner)
    }

    fn line(&self, at: usize) -> usize {
        if at > self.source.len() {
            return 1;
        }
        place_of(self.source, at).line
    }
}

// The text up to its first white space.
fn first_word(text: &str) -> &str {
    match text.split_whitespace().next() {
        Some(word) => word,
        None => text,
    }
}

// Whether a text can be quoted as a word.
fn is_word(text: &str) -> bool {
    match text.chars().next() {
        Some(first) => {
            (first.is_alphabetic() || first == '_')
                && text.len() <= MOST_QUOTED
                && !text.contains("`")
        }
        None => false,
    }
}

// The tag begins what may not stand where it stands.
fn misplaced_words(alloc: Global, word: &str, tag: &str) -> Result<String, AllocError> {
    match word {
        "block" => format!(in alloc; "`{tag}` stands in a component, and no block may stand there"),
        _ => format!(in alloc;
            "`{tag}` stands inside of something, and a component is defined outside of everything"
        ),
    }
}

// The statement that begins with this tag has no end.
fn no_end_words(alloc: Global, why: Reason, tag: &str) -> Result<String, AllocError> {
    let end = match first_word(tag) {
        "if" => "endif",
        "for" => "endfor",
        "set" => "endset",
        "set_global" => "endset_global",
        "filter" => "endfilter",
        "block" => "endblock",
        "component" => "endcomponent",
        _ => return String::from_str(alloc, why.words()),
    };
    format!(in alloc; "`{tag}` has no `{end}`")
}

// No statement begins with this word. What other engines have is told by what stands for it here.
fn no_statement_words(alloc: Global, word: &str) -> Result<String, AllocError> {
    let instead = match word {
        "elseif" | "elsif" => "another condition is an `elif`",
        "else" => "`else` stands alone in its tag, and another condition is an `elif`",
        "macro" | "call" => "a component stands for a macro: `component Name(argument: string)`",
        "import" | "from" => "nothing is imported: the components of all templates are known",
        "with" => "`set` binds names, and a component takes arguments",
        "do" => "an expression is put out between the delimiters of a variable, or `set` to a name",
        "autoescape" => "what escapes is told by the template's name",
        _ => "",
    };
    if word == "else" {
        return String::from_str(alloc, instead);
    }
    let mut words = format!(in alloc; "there is no statement `{word}`")?;
    if !instead.is_empty() {
        words.push_str(": ")?;
        words.push_str(instead)?;
        return Ok(words);
    }
    let mut guess = Guess::new(alloc, word);
    for statement in STATEMENTS.iter() {
        guess.add(*statement)?;
    }
    guess.put(&mut words)?;
    Ok(words)
}
