// The text that `raw` keeps: up to the first tag `endraw`, with nothing in it read.
ghost use Rattle.std.specs.Prelude.{ℕ, List, None, ◌≡◌, ◌<◌, ◌≤◌, ◌+◌, ◌^◌, ◌&&◌, ◌||◌, not, length, drop, get_or, codes, option_map, is_some, true, IfOk, IfErr, IfSome, IsTrue};
ghost use Rattle.std.specs.Str.{IsCharBoundary, IsUtf8};
ghost use Rattle.tera_syntax_tokens.specs.Answers.{Answers, Follows};
ghost use Rattle.tera_syntax_tokens.specs.Bytes as bytes;
ghost use Rattle.tera_syntax_tokens.specs.Bytes.{position};
ghost use Rattle.tera_syntax_tokens.specs.Cut as spec;
ghost use Rattle.tera_syntax_tokens.specs.Found.{end_of, end_from, found_of};
ghost use Rattle.tera_syntax_tokens.specs.Inside as tag;
ghost use Rattle.tera_syntax_tokens.specs.Points.{PointsInto};
ghost use Rattle.tera_syntax_tokens.specs.Token as token;
ghost use Rattle.tera_syntax_tokens.specs.declared.token.Token.{Token};
ghost use Rattle.tera_syntax_tree.specs.Prelude.{accepted, delimiters_of};

use crate::bytes::{begins, bytes_from};
use crate::cut::{
    FoundPiece, Tag, next_opening, opening_at, start_size, trimmed_words, trims_before,
};
use crate::refusal::{Reason, Refusal};
use crate::tag_tokens::{Ending, tag_ending};
use crate::token::{byte_at, is_blank, is_name_byte};
use tera_errors::Span;
use tera_syntax_tree::Delimiters;

/// How many blanks stand before the first token of a tag, or before its end.
fn blanks_len(end: &[u8], text: &[u8]) -> usize
    ensures within { result ≤ length text.now }
    ensures same { (at : ℕ) → tag.inside end.now 0 0 at text.now
        ≡ tag.inside end.now 0 0 (at + result) (drop result text.now) }
    ensures stops { result < length text.now →
        (is_some (tag.closing end.now (drop result text.now))
        || not (token.is_blank (get_or text.now result 0))) ≡ true }
{
    for i in 0..text.len() {
        if tag_ending(end, bytes_from(text, i)).is_some() || !is_blank(text[i]) {
            return i;
        }
    }
    text.len()
}

/// Whether the text begins with the name `endraw`.
fn names_endraw(text: &[u8]) -> bool
    ensures { result ≡ (bytes.begins (codes "endraw") text.now
        && not (token.is_name_byte (get_or text.now 6 0))) }
{
    begins(b"endraw", text) && !is_name_byte(byte_at(text, 6))
}

/// What ends the tag `endraw`, behind its start delimiter, with all that stands before it. It takes no token but the first:
/// else a text of many starts would be read again from each.
fn ending(end: &[u8], text: &[u8]) -> Option<Ending>
    requires some { 0 < length end.now }
    ensures value { (at : ℕ) → option_map (end_from at) result
        ≡ option_map end_of (spec.of_word (codes "endraw") (tag.inside end.now 0 0 at text.now)) }
    ensures within { IfSome result (λ e. e.size ≤ length text.now) }
    ensures fits { IsUtf8 text.now → IsUtf8 end.now
        → IfSome result (λ e. IsCharBoundary text.now e.size) }
{
    let n = blanks_len(end, text);
    let name = bytes_from(text, n);
    if tag_ending(end, name).is_some() {
        return None;
    }
    if !names_endraw(name) {
        return None;
    }
    let more = bytes_from(name, 6);
    let m = blanks_len(end, more);
    match tag_ending(end, bytes_from(more, m)) {
        Some(ending) => Some(Ending {
            size: n + 6 + m + ending.size,
            trims: ending.trims,
        }),
        None => None,
    }
}

/// The tag `endraw` at the front of a text: how long it is, and whether a `-` stands at its end.
fn endraw(delimiters: &Delimiters, text: &[u8]) -> Option<Ending>
    requires usable { IsTrue (accepted (delimiters_of delimiters.now)) }
    ensures value { (at : ℕ) → option_map (end_from at) result
        ≡ option_map end_of (spec.endraw (delimiters_of delimiters.now) at text.now) }
    ensures within { IfSome result (λ e. e.size ≤ length text.now) }
    ensures fits { IsUtf8 text.now → IfSome result (λ e. IsCharBoundary text.now e.size) }
{
    let opening = match opening_at(delimiters, text) {
        Some(opening) => opening,
        None => return None,
    };
    if opening.tag != Tag::Block {
        return None;
    }
    let size = start_size(opening, text);
    match ending(delimiters.block_end.as_bytes(), bytes_from(text, size)) {
        Some(ending) => Some(Ending {
            size: size + ending.size,
            trims: ending.trims,
        }),
        None => None,
    }
}

/// The first position where the tag `endraw` begins, or the end.
fn next_endraw(delimiters: &Delimiters, text: &[u8]) -> usize
    requires usable { IsTrue (accepted (delimiters_of delimiters.now)) }
    ensures { result ≡ position (spec.ends_raw (delimiters_of delimiters.now)) text.now }
{
    let mut i = next_opening(delimiters, text);
    while i < text.len() {
        if endraw(delimiters, bytes_from(text, i)).is_some() {
            return i;
        }
        i = i + 1 + next_opening(delimiters, bytes_from(text, i + 1));
    }
    i
}

/// What the tag `raw` gives, by the text behind it.
pub(crate) fn raw_piece<'a>(
    delimiters: &Delimiters,
    text: &'a str,
    at: usize,
    trims: bool,
) -> Result<FoundPiece<'a>, Refusal>
    requires room { at + length text.now < 2 ^ 64 }
    requires usable { IsTrue (accepted (delimiters_of delimiters.now)) }
    ensures value { (tokens : List Token) → let meant = spec.raw (delimiters_of delimiters.now)
        trims at text.now in
        Answers (found_of tokens) meant result }
    ensures rest { IfOk result (λ x. Follows at text.now x.next x.rest.now) }
    ensures points { IfErr result (PointsInto at text.now) }
    ensures unknown { IfOk result (λ x. x.opening ≡ None) }
{
    let n = next_endraw(delimiters, text.as_bytes());
    let (_, tag) = text.split_at(n);
    let Some(ending) = endraw(delimiters, tag.as_bytes()) else {
        return Err(Refusal::Syntax(
            Reason::OpenRaw,
            Span {
                start: at,
                end: at + text.len(),
            },
        ));
    };
    let (_, rest) = tag.split_at(ending.size);
    let behind = trims_before(tag.as_bytes(), opening_at(delimiters, tag.as_bytes()));
    Ok(FoundPiece {
        piece: trimmed_words(text, n, at, trims, behind),
        next: at + n + ending.size,
        trims: ending.trims,
        rest,
        opening: None,
    })
}
