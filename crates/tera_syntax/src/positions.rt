// Where a refusal points: at the tag, or at what in it is wrong.
ghost use Rattle.std.specs.Prelude.{ℕ, ◌<◌, ◌≤◌, ◌+◌, ◌^◌, length, IfSome, IsTrue};
ghost use Rattle.tera_syntax.specs.Positions.{StandsWithin};
ghost use Rattle.tera_syntax_tokens.specs.Prelude.{IsSyntax, piece_of, PointsInto, PointsWithin, InOrder, PieceInside, tokens_of};
ghost use Rattle.tera_syntax_tree.specs.Prelude.{accepted, delimiters_of, Within};

use tera_errors::Span;
use tera_syntax_tokens::cut::{FoundPiece, Piece, block_end};
use tera_syntax_tokens::refusal::{Reason, Refusal};
use tera_syntax_tokens::token::Token;
use tera_syntax_tree::Delimiters;

/// Where a piece of the source stands, with its delimiters, and where the end delimiter of a tag does.
#[derive(Clone, Copy)]
pub(crate) struct PieceSpans {
    pub whole: Span,
    pub end: Span,
}

impl PieceSpans {
    /// Of a piece that begins at this position.
    #[inline(always)]
    pub fn new(delimiters: &Delimiters, at: usize, found: &FoundPiece<'_>) -> PieceSpans
        ensures { (size : ℕ) → at ≤ found.now.next → found.now.next ≤ size
            → StandsWithin size result }
    {
        let size = match found.piece {
            Piece::Variable => delimiters.variable_end.len(),
            Piece::Block => delimiters.block_end.len(),
            Piece::Words(_, _) | Piece::Comment => 0,
        };
        let next = found.next;
        PieceSpans {
            whole: Span {
                start: at,
                end: next,
            },
            end: Span {
                start: next.saturating_sub(size),
                end: next,
            },
        }
    }

    /// Where a refusal points that reading the piece gave. The tokens are those of a tag.
    pub fn refusal_span(&self, piece: Piece<'_>, span: Span, tokens: &[Token<'_>]) -> Span
        ensures { (size : ℕ) → StandsWithin size self.now
            → PieceInside size (piece_of tokens.now piece.entry) → Within size result }
    {
        match piece {
            Piece::Words(_, words) => words,
            Piece::Comment => self.whole,
            Piece::Variable => self.span_in_tag(span, tokens),
            Piece::Block => self.span_in_tag(span, tokens),
        }
    }

    /// The same in a tag: at the token that starts where the refusal does. An empty tag is wrong as a whole, and where no
    /// token is left the end delimiter stands in the place of what is due.
    fn span_in_tag(&self, span: Span, tokens: &[Token<'_>]) -> Span
        ensures { (size : ℕ) → StandsWithin size self.now
            → InOrder size 0 (tokens_of tokens.now) → Within size result }
    {
        if tokens.is_empty() {
            return self.whole;
        }
        match token_at(tokens, span.start) {
            Some(token) => token,
            None => self.end,
        }
    }
}

/// Where the token stands that starts at a position, if one does.
fn token_at(tokens: &[Token<'_>], start: usize) -> Option<Span>
    ensures { (size from : ℕ) → InOrder size from (tokens_of tokens.now)
        → IfSome result (Within size) }
{
    for token in tokens {
        if token.span.start == start {
            return Some(token.span);
        }
    }
    None
}

/// How many bytes the first character of a text has.
fn first_size(text: &str) -> usize
    ensures { result ≤ length text.now }
{
    match text.chars().next() {
        Some(character) => character.len_utf8(),
        None => 0,
    }
}

/// Where the character stands that begins at a byte of a text, which stands at a position: an empty stretch, if none does.
fn character_at(text: &str, at: usize, i: usize) -> Span
    requires room { at + length text.now < 2 ^ 64 }
    requires within { i ≤ length text.now }
    ensures { Within (at + length text.now) result }
{
    let start = at + i;
    match text.split_at_checked(i) {
        Some((_, rest)) => Span {
            start,
            end: start + first_size(rest),
        },
        None => Span { start, end: start },
    }
}

/// A refusal that the cut of a text gave, which stands at the position: it points at the start of what has no end, or at the
/// character that begins no token.
pub(crate) fn cut_refusal(refusal: Refusal, text: &str, at: usize) -> Refusal
    requires room { at + length text.now < 2 ^ 64 }
    requires points { PointsInto at text.now refusal }
    ensures same { IsSyntax result → IsSyntax refusal }
    ensures points { PointsWithin (at + length text.now) result }
{
    let Refusal::Syntax(why, span) = refusal else {
        return Refusal::OutOfMemory;
    };
    let position = match why {
        Reason::OpenTag | Reason::OpenComment | Reason::OpenRaw => Span {
            start: at,
            end: span.start,
        },
        Reason::NoToken => character_at(text, at, span.start - at),
        _ => span,
    };
    Refusal::Syntax(why, position)
}

/// A refusal that points at the tag of a block which begins at a position of the source. The tag is cut once more, so that nothing
/// that is open has to keep where its first tag ends. Where no such tag begins there, the end of the source is told of.
pub(crate) fn refusal_at<'a>(
    tokens: &mut Vec<Token<'a>>,
    delimiters: &Delimiters,
    source: &'a str,
    why: Reason,
    start: usize,
) -> Refusal
    requires usable { IsTrue (accepted (delimiters_of delimiters.now)) }
    ensures { PointsWithin (length source.now) result }
{
    let size = source.len();
    let nowhere = Span {
        start: size,
        end: size,
    };
    let Some((_, rest)) = source.split_at_checked(start) else {
        return Refusal::Syntax(why, nowhere);
    };
    match block_end(tokens, delimiters, rest, start) {
        Ok(Some(end)) => Refusal::Syntax(why, Span { start, end }),
        Ok(None) => Refusal::Syntax(why, nowhere),
        Err(refusal) => refusal,
    }
}
