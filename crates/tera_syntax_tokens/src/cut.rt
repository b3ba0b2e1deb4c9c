// The cut of a text into text, comments and tags.
ghost use Rattle.std.specs.Prelude.{List, ◌≡◌, ◌<◌, ◌≤◌, ◌+◌, ◌-◌, ◌^◌, [], length, drop, IfOk, IfErr, IfSome, IsTrue, Some, None, get_or};
ghost use Rattle.memchr.specs.Find.{is_byte3};
ghost use Rattle.tera_syntax_tokens.specs.Answers.{Answers, Follows};
ghost use Rattle.tera_syntax_tokens.specs.Bytes.{position};
ghost use Rattle.tera_syntax_tokens.specs.Cut as spec;
ghost use Rattle.tera_syntax_tokens.specs.Cut.{Knows};
ghost use Rattle.tera_syntax_tree.specs.Prelude.{accepted, delimiters_of};
ghost use Rattle.std.specs.Str.{IsCharBoundary};
ghost use Rattle.tera_syntax_tokens.specs.Found.{found_of, piece_of};
ghost use Rattle.tera_syntax_tokens.specs.Inside.{inside};
ghost use Rattle.tera_syntax_tokens.specs.Points.{PointsInto};
ghost use Rattle.tera_syntax_tokens.specs.Token.{tokens_of};
ghost use Rattle.tera_syntax_tokens.specs.declared.refusal.Refusal.TheVariants.{OutOfMemory};
ghost use Rattle.tera_syntax_tokens.specs.declared.token.Token.{Token};

use crate::bytes::{begins, bytes_from, bytes_to, position as position_of, position_of_byte};
use crate::raw::raw_piece;
use crate::refusal::{Reason, Refusal};
use crate::tag_tokens::{cut_inside, is_hyphen};
use crate::token::Token;
use tera_errors::Span;
use tera_syntax_tree::Delimiters;

/// What a start delimiter begins.
#[derive(Clone, Copy, PartialEq, Eq, Debug)]
pub enum Tag {
    Variable,
    Block,
    Comment,
}

/// A start delimiter in the text.
#[derive(Clone, Copy, Debug)]
pub struct Opening {
    pub tag: Tag,
    /// How long it is.
    pub size: usize,
}

/// Where the next start delimiter begins, and which it is; with none, the end of the text.
#[derive(Clone, Copy)]
struct Ahead {
    at: usize,
    opening: Option<Opening>,
}

/// A piece of a text. The tokens of a tag are kept beside it.
#[derive(Clone, Copy)]
pub enum Piece<'a> {
    /// Text as it is written out, and what it covers. It is empty where trimming leaves nothing.
    Words(&'a str, Span),
    Comment,
    /// What stands between the delimiters of a variable.
    Variable,
    /// What stands between the delimiters of a block. The block `raw` is no such piece: it gives words, and takes its
    /// `endraw` along.
    Block,
}

/// A piece, and what follows it.
#[derive(Drop)]
pub struct FoundPiece<'a> {
    pub piece: Piece<'a>,
    /// The position behind it in the source.
    pub next: usize,
    /// Whether a `-` at its end trims the text that follows.
    pub trims: bool,
    /// The text from that position on.
    pub rest: &'a str,
    /// The start delimiter that begins it, where that is known by now.
    pub opening: Option<Opening>,
}

fn opening_by(tag: Tag, start: &[u8], text: &[u8]) -> Option<Opening>
    ensures { result ≡ spec.opened_by tag start.now text.now }
{
    if begins(start, text) {
        Some(Opening {
            tag,
            size: start.len(),
        })
    } else {
        None
    }
}

fn longer_opening(a: Option<Opening>, b: Option<Opening>) -> Option<Opening>
    ensures { result ≡ spec.longer a b }
{
    match (a, b) {
        (Some(x), Some(y)) => Some(if x.size < y.size { y } else { x }),
        (Some(x), None) => Some(x),
        (None, y) => y,
    }
}

/// The start delimiter that begins the text, the longest of them.
#[inline(always)]
#[tactic(auto, unfolding(crate::specs::Cut::opening_at))]
pub(crate) fn opening_at(delimiters: &Delimiters, text: &[u8]) -> Option<Opening>
    ensures { result ≡ spec.opening_at (delimiters_of delimiters.now) text.now }
{
    let variable = opening_by(Tag::Variable, delimiters.variable_start.as_bytes(), text);
    let block = opening_by(Tag::Block, delimiters.block_start.as_bytes(), text);
    let comment = opening_by(Tag::Comment, delimiters.comment_start.as_bytes(), text);
    longer_opening(variable, longer_opening(block, comment))
}

/// Whether the text begins with the first byte of a start delimiter.
fn may_open(delimiters: &Delimiters, text: &[u8]) -> bool
    requires usable { IsTrue (accepted (delimiters_of delimiters.now)) }
    requires some { 0 < length text.now }
    ensures { let d = delimiters_of delimiters.now in
        let a = get_or d.variable_start 0 0 in
        let b = get_or d.block_start 0 0 in
        let c = get_or d.comment_start 0 0 in
        result ≡ is_byte3 a b c (get_or text.now 0 0) }
{
    let byte = text[0];
    byte == delimiters.variable_start.as_bytes()[0]
        || byte == delimiters.block_start.as_bytes()[0]
        || byte == delimiters.comment_start.as_bytes()[0]
}

/// The start delimiter that begins the text, if that isn't known.
fn opening_of(delimiters: &Delimiters, text: &[u8], known: Option<Opening>) -> Option<Opening>
    requires usable { IsTrue (accepted (delimiters_of delimiters.now)) }
    requires some { 0 < length text.now }
    requires known { Knows (delimiters_of delimiters.now) text.now known }
    ensures { result ≡ spec.opening_at (delimiters_of delimiters.now) text.now }
{
    match known {
        Some(opening) => Some(opening),
        None if may_open(delimiters, text) => opening_at(delimiters, text),
        None => None,
    }
}

/// What comes next in the text. Most of it is passed over by the first bytes alone.
#[inline(always)]
fn opening_ahead(delimiters: &Delimiters, text: &[u8]) -> Ahead
    requires usable { IsTrue (accepted (delimiters_of delimiters.now)) }
    ensures value { result.at ≡ position (spec.opens (delimiters_of delimiters.now)) text.now }
    ensures within { result.at ≤ length text.now }
    ensures known { let rest = drop result.at text.now in
        result.opening ≡ spec.opening_at (delimiters_of delimiters.now) rest }
{
    let variable = delimiters.variable_start.as_bytes()[0];
    let block = delimiters.block_start.as_bytes()[0];
    let comment = delimiters.comment_start.as_bytes()[0];
    let mut i = position_of_byte(variable, block, comment, text);
    while i < text.len() {
        let opening = opening_at(delimiters, bytes_from(text, i));
        if opening.is_some() {
            return Ahead { at: i, opening };
        }
        i = i + 1 + position_of_byte(variable, block, comment, bytes_from(text, i + 1));
    }
    Ahead {
        at: i,
        opening: None,
    }
}

/// The first position where a start delimiter begins, or the end.
pub(crate) fn next_opening(delimiters: &Delimiters, text: &[u8]) -> usize
    requires usable { IsTrue (accepted (delimiters_of delimiters.now)) }
    ensures value { result ≡ position (spec.opens (delimiters_of delimiters.now)) text.now }
    ensures within { result ≤ length text.now }
{
    opening_ahead(delimiters, text).at
}

/// Whether a start delimiter with a `-` begins the text.
pub(crate) fn trims_before(text: &[u8], opening: Option<Opening>) -> bool
    requires { IfSome opening (λ o. o.size ≤ length text.now) }
    ensures { result ≡ spec.trims_before text.now opening }
{
    match opening {
        Some(opening) => is_hyphen(bytes_from(text, opening.size)),
        None => false,
    }
}

/// How long a start delimiter is with the `-` that may follow it.
pub(crate) fn start_size(opening: Opening, text: &[u8]) -> usize
    requires { opening.size ≤ length text.now }
    ensures { result ≡ spec.start_size opening text.now }
{
    if is_hyphen(bytes_from(text, opening.size)) {
        opening.size + 1
    } else {
        opening.size
    }
}

/// The first n bytes of a text, without the white space that a `-` on either side removes. Mostly there is none.
#[inline(always)]
pub(crate) fn trimmed_words<'a>(
    text: &'a str,
    n: usize,
    at: usize,
    before: bool,
    behind: bool,
) -> Piece<'a>
    requires room { at + length text.now < 2 ^ 64 }
    requires whole { IsCharBoundary text.now n }
    ensures { (tokens : List Token) → piece_of tokens result
        ≡ spec.words before behind n at text.now }
{
    if before || behind {
        return trimmed_sides(text, n, at, before, behind);
    }
    let (front, _) = text.split_at(n);
    Piece::Words(
        front,
        Span {
            start: at,
            end: at + front.len(),
        },
    )
}

/// The same where a side is trimmed.
fn trimmed_sides<'a>(text: &'a str, n: usize, at: usize, before: bool, behind: bool) -> Piece<'a>
    requires room { at + length text.now < 2 ^ 64 }
    requires whole { IsCharBoundary text.now n }
    ensures { (tokens : List Token) → piece_of tokens result
        ≡ spec.words before behind n at text.now }
{
    let (front, _) = text.split_at(n);
    let front = if before { front.trim_start() } else { front };
    let kept = if behind { front.trim_end() } else { front };
    let start = at + (n - front.len());
    Piece::Words(
        kept,
        Span {
            start,
            end: start + kept.len(),
        },
    )
}

/// Text up to the next start delimiter.
fn words<'a>(delimiters: &Delimiters, text: &'a str, at: usize, trims: bool) -> FoundPiece<'a>
    requires room { at + length text.now < 2 ^ 64 }
    requires usable { IsTrue (accepted (delimiters_of delimiters.now)) }
    ensures value { (tokens : List Token) → let meant = spec.piece_by (delimiters_of delimiters.now)
        trims at text.now None in
        meant ≡ Some (found_of tokens result) }
    ensures rest { Follows at text.now result.next result.rest.now }
    ensures known { Knows (delimiters_of delimiters.now) result.rest.now result.opening }
{
    let ahead = opening_ahead(delimiters, text.as_bytes());
    let n = ahead.at;
    let (_, rest) = text.split_at(n);
    let behind = trims_before(rest.as_bytes(), ahead.opening);
    FoundPiece {
        piece: trimmed_words(text, n, at, trims, behind),
        next: at + n,
        trims: false,
        rest,
        opening: ahead.opening,
    }
}

/// What is left of a comment behind its start delimiter.
fn comment<'a>(end: &str, text: &'a str, at: usize) -> Result<FoundPiece<'a>, Refusal>
    requires room { at + length text.now < 2 ^ 64 }
    requires some { 0 < length end.now }
    ensures value { (tokens : List Token) → Answers (found_of tokens)
        (spec.comment end.now at text.now) result }
    ensures rest { IfOk result (λ x. Follows at text.now x.next x.rest.now) }
    ensures points { IfErr result (PointsInto at text.now) }
    ensures unknown { IfOk result (λ x. x.opening ≡ None) }
{
    let bytes = text.as_bytes();
    let n = position_of(end.as_bytes(), bytes);
    if n >= bytes.len() {
        return Err(Refusal::Syntax(
            Reason::OpenComment,
            Span {
                start: at,
                end: at + bytes.len(),
            },
        ));
    }
    let size = n + end.len();
    let (_, rest) = text.split_at(size);
    Ok(FoundPiece {
        piece: Piece::Comment,
        next: at + size,
        trims: bytes_to(bytes, n).ends_with(b"-"),
        rest,
        opening: None,
    })
}

/// Whether the tokens are this word alone.
pub fn is_alone(word: &str, tokens: &[Token<'_>]) -> bool
    ensures { result ≡ spec.is_alone word.now (tokens_of tokens.now) }
{
    match tokens {
        [token] => token.text == word,
        _ => false,
    }
}

/// What is left of a block behind its start delimiter; `raw_piece` takes the text up to its end along.
fn block<'a>(
    tokens: &mut Vec<Token<'a>>,
    delimiters: &Delimiters,
    text: &'a str,
    at: usize,
) -> Result<FoundPiece<'a>, Refusal>
    requires room { at + length text.now < 2 ^ 64 }
    requires usable { IsTrue (accepted (delimiters_of delimiters.now)) }
    ensures value { let d = delimiters_of delimiters.now in
        let meant = spec.block d at text.now (inside d.block_end 0 0 at text.now) in
        Answers (found_of tokens.new.items) meant result }
    ensures rest { IfOk result (λ x. Follows at text.now x.next x.rest.now) }
    ensures points { IfErr result (PointsInto at text.now) }
    ensures unknown { IfOk result (λ x. x.opening ≡ None) }
{
    let x = cut_inside(tokens, text, delimiters.block_end.as_str(), at)?;
    if is_alone("raw", tokens.as_slice()) {
        return raw_piece(delimiters, x.rest, x.next, x.trims);
    }
    Ok(FoundPiece {
        piece: Piece::Block,
        next: x.next,
        trims: x.trims,
        rest: x.rest,
        opening: None,
    })
}

/// What is left of a tag or a comment behind its start delimiter.
fn rest_of_tag<'a>(
    tokens: &mut Vec<Token<'a>>,
    delimiters: &Delimiters,
    tag: Tag,
    text: &'a str,
    at: usize,
) -> Result<FoundPiece<'a>, Refusal>
    requires room { at + length text.now < 2 ^ 64 }
    requires usable { IsTrue (accepted (delimiters_of delimiters.now)) }
    ensures value { let meant = spec.behind (delimiters_of delimiters.now) tag at text.now in
        Answers (found_of tokens.new.items) meant result }
    ensures rest { IfOk result (λ x. Follows at text.now x.next x.rest.now) }
    ensures points { IfErr result (PointsInto at text.now) }
    ensures unknown { IfOk result (λ x. x.opening ≡ None) }
{
    match tag {
        Tag::Variable => {
            let x = cut_inside(tokens, text, delimiters.variable_end.as_str(), at)?;
            Ok(FoundPiece {
                piece: Piece::Variable,
                next: x.next,
                trims: x.trims,
                rest: x.rest,
                opening: None,
            })
        }
        Tag::Block => block(tokens, delimiters, text, at),
        Tag::Comment => comment(delimiters.comment_end.as_str(), text, at),
    }
}

/// The first piece of a text that stands at the position `at` of the source. A `-` before it trims it where `trims` says so:
/// that is what the piece before it found, and `false` at the start. The tokens of a tag take the place of those that were
/// there, so that one list serves all tags of a text; beside any other piece it holds what it may. The start delimiter that
/// begins the text may be known: the piece before it tells.
#[tactic(auto, unfolding(crate::specs::Cut::piece))]
pub fn next_piece<'a>(
    tokens: &mut Vec<Token<'a>>,
    delimiters: &Delimiters,
    text: &'a str,
    at: usize,
    trims: bool,
    known: Option<Opening>,
) -> Result<FoundPiece<'a>, Refusal>
    requires room { at + length text.now < 2 ^ 64 }
    requires some { 0 < length text.now }
    requires usable { IsTrue (accepted (delimiters_of delimiters.now)) }
    requires known { Knows (delimiters_of delimiters.now) text.now known }
    ensures value { let meant = spec.piece (delimiters_of delimiters.now) trims at text.now in
        Answers (found_of tokens.new.items) meant result }
    ensures rest { IfOk result (λ x. Follows at text.now x.next x.rest.now) }
    ensures points { IfErr result (PointsInto at text.now) }
    ensures moves { IfOk result (λ x. at < x.next) }
    ensures known { let d = delimiters_of delimiters.now in
        IfOk result (λ x. Knows d x.rest.now x.opening) }
{
    match opening_of(delimiters, text.as_bytes(), known) {
        None => Ok(words(delimiters, text, at, trims)),
        Some(opening) => {
            let size = start_size(opening, text.as_bytes());
            let (_, inner) = text.split_at(size);
            rest_of_tag(tokens, delimiters, opening.tag, inner, at + size)
        }
    }
}

/// The position behind the block tag that begins a text, which stands at the position `at` of the source; none where no such tag does.
pub fn block_end<'a>(
    tokens: &mut Vec<Token<'a>>,
    delimiters: &Delimiters,
    text: &'a str,
    at: usize,
) -> Result<Option<usize>, Refusal>
    requires room { at + length text.now < 2 ^ 64 }
    requires usable { IsTrue (accepted (delimiters_of delimiters.now)) }
    ensures order { IfOk result (λ end. IfSome end (λ next. at ≤ next)) }
    ensures within { IfOk result (λ end. IfSome end (λ next. next ≤ at + length text.now)) }
    ensures lacks { IfErr result (λ r. r ≡ OutOfMemory) }
{
    let Some(opening) = opening_at(delimiters, text.as_bytes()) else {
        return Ok(None);
    };
    let size = start_size(opening, text.as_bytes());
    let (_, inner) = text.split_at(size);
    match cut_inside(tokens, inner, delimiters.block_end.as_str(), at + size) {
        Ok(inside) => Ok(Some(inside.next)),
        Err(Refusal::Syntax(_, _)) => Ok(None),
        Err(Refusal::OutOfMemory) => Err(Refusal::OutOfMemory),
    }
}
