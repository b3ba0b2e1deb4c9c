// The inside of a tag: its tokens, up to the end delimiter.
ghost use Rattle.std.specs.Prelude.{◌≡◌, ◌<◌, ◌≤◌, ◌+◌, ◌-◌, ◌^◌, length, get_or, IfOk, IfErr};
ghost use Rattle.tera_syntax_tokens.specs.Answers.{Answers, Follows};
ghost use Rattle.tera_syntax_tokens.specs.Bytes.{begins};
ghost use Rattle.tera_syntax_tokens.specs.Found.{inside_of};
ghost use Rattle.tera_syntax_tokens.specs.Inside as spec;
ghost use Rattle.tera_syntax_tokens.specs.Points.{PointsInto};

use crate::bytes::{begins, bytes_from};
use crate::refusal::{Reason, Refusal};
use crate::token::{Kind, Token, is_blank, next_token};
use tera_errors::Span;

/// The end of a tag: how long it is, and whether a `-` belongs to it.
#[derive(Clone, Copy, Debug)]
pub(crate) struct Ending {
    pub size: usize,
    pub trims: bool,
}

/// What follows a tag. The flag stands first, as the kind of a refusal does, so that a result of either is moved by words.
#[derive(Drop)]
pub(crate) struct Inside<'a> {
    pub trims: bool,
    pub next: usize,
    pub rest: &'a str,
}

pub(crate) fn is_hyphen(text: &[u8]) -> bool
    ensures { result ≡ begins spec.hyphen text.now }
{
    match text {
        [b'-', ..] => true,
        _ => false,
    }
}

#[inline]
pub(crate) fn tag_ending(end: &[u8], text: &[u8]) -> Option<Ending>
    ensures { result ≡ spec.closing end.now text.now }
{
    if is_hyphen(text) && begins(end, bytes_from(text, 1)) {
        return Some(Ending {
            size: end.len() + 1,
            trims: true,
        });
    }
    if begins(end, text) {
        return Some(Ending {
            size: end.len(),
            trims: false,
        });
    }
    None
}

/// The end of a tag, where no bracket is open. Most positions are told by their first byte.
fn tag_ending_in(opened: usize, first: u8, end: &[u8], text: &[u8]) -> Option<Ending>
    requires first { first ≡ get_or end.now 0 0 }
    requires some { 0 < length end.now }
    requires more { 0 < length text.now }
    ensures { result ≡ spec.closing_in opened end.now text.now }
{
    if opened == 0 && (text[0] == first || text[0] == b'-') {
        tag_ending(end, text)
    } else {
        None
    }
}

/// How many brackets are open behind a token.
fn open_after(opened: usize, kind: Kind) -> usize
    requires { opened < 2 ^ 63 }
    ensures value { result ≡ spec.open_after opened kind }
    ensures small { result ≤ opened + 1 }
{
    match kind {
        Kind::LeftParenthesis | Kind::LeftBracket | Kind::OptionalBracket | Kind::LeftBrace => {
            opened + 1
        }
        Kind::RightParenthesis | Kind::RightBracket | Kind::RightBrace => opened.saturating_sub(1),
        _ => opened,
    }
}

/// Cuts what stands behind a start delimiter, at a position of the source. Its tokens take the place of those that were there.
pub(crate) fn cut_inside<'a>(
    tokens: &mut Vec<Token<'a>>,
    text: &'a str,
    end: &str,
    at: usize,
) -> Result<Inside<'a>, Refusal>
    requires room { at + length text.now < 2 ^ 64 }
    requires some { 0 < length end.now }
    ensures value { Answers (inside_of tokens.new.items) (spec.inside end.now 0 0 at text.now)
        result }
    ensures rest { IfOk result (λ x. Follows at text.now x.next x.rest.now) }
    ensures points { IfErr result (PointsInto at text.now) }
{
    let bytes = text.as_bytes();
    let first = end.as_bytes()[0];
    tokens.clear();
    let mut opened = 0;
    let mut i = 0;
    while i < bytes.len() {
        if let Some(ending) = tag_ending_in(opened, first, end.as_bytes(), bytes_from(bytes, i)) {
            let (_, rest) = text.split_at(i + ending.size);
            return Ok(Inside {
                next: at + i + ending.size,
                trims: ending.trims,
                rest,
            });
        }
        if is_blank(bytes[i]) {
            i += 1;
        } else {
            let Some(token) = next_token(text, i, at) else {
                return Err(Refusal::Syntax(
                    Reason::NoToken,
                    Span {
                        start: at + i,
                        end: at + bytes.len(),
                    },
                ));
            };
            opened = open_after(opened, token.kind);
            i += token.text.len();
            tokens.push(token)?;
        }
    }
    Err(Refusal::Syntax(
        Reason::OpenTag,
        Span {
            start: at,
            end: at + bytes.len(),
        },
    ))
}
