// What literals stand for.
ghost use Rattle.std.specs.Prelude.{◌≡◌, ◌<◌, ◌≤◌, ◌+◌, ◌-◌, drop, length, false, Some, IfOk, IfSome, string_bytes, get_or, option_map, IsTrue};
ghost use Rattle.tera_syntax_tree.specs.Prelude.{quoted_of};
ghost use Rattle.tera_syntax_tokens.specs.Bytes.{leading};
ghost use Rattle.tera_syntax_tokens.specs.Literal as spec;

use crate::bytes::{bytes_from, leading_len};
use crate::token::is_quote;
use std::alloc::{AllocError, Global};
use tera_syntax_tree::Quoted;

/// The number that digits stand for, if it is below 2^127. It does not look for other bytes: a token has none.
pub fn integer(digits: &str) -> Option<i128>
    ensures { result ≡ spec.integer digits.now }
{
    match small_integer(digits) {
        Some(number) => Some(i128::from(number)),
        None => large_integer(digits),
    }
}

/// The same where the number fits 64 bits, as most do.
fn small_integer(digits: &str) -> Option<u64>
    ensures { IfSome result (λ n. n ≡ spec.number_from 0 digits.now) }
{
    let mut number: u64 = 0;
    for b in digits.as_bytes() {
        let digit = u64::from(b.saturating_sub(b'0'));
        number = number.checked_mul(10)?.checked_add(digit)?;
    }
    Some(number)
}

/// The same for any number.
fn large_integer(digits: &str) -> Option<i128>
    ensures { result ≡ spec.integer digits.now }
{
    let mut number: u128 = 0;
    for b in digits.as_bytes() {
        let digit = u128::from(b.saturating_sub(b'0'));
        number = number.checked_mul(10)?.checked_add(digit)?;
    }
    match i128::try_from(number) {
        Ok(number) => Some(number),
        Err(_) => None,
    }
}

/// The byte that a backslash before this one stands for, with it.
fn byte_of_escape(b: u8) -> Option<u8>
    ensures value { result ≡ spec.escaped b }
    ensures low { IfSome result (λ c. (c < 128) × (b < 128)) }
{
    match b {
        b'n' => Some(b'\n'),
        b'r' => Some(b'\r'),
        b't' => Some(b'\t'),
        b'\\' | b'"' | b'\'' | b'`' => Some(b),
        _ => None,
    }
}

/// How many bytes there are before the first backslash.
fn plain_len(text: &[u8]) -> usize
    ensures value { result ≡ leading spec.is_plain text.now }
    ensures within { result ≤ length text.now }
{
    leading_len(text, |b| b != b'\\')
}

/// What a backslash before this position stands for, with the byte there.
fn escape_at(text: &[u8], i: usize) -> Option<u8>
    ensures value { result ≡ spec.escape_of (drop i text.now) }
    ensures low { IfSome result (λ c. (c < 128) × (i < length text.now)
        × (get_or text.now i 0 < 128)) }
{
    if i < text.len() {
        byte_of_escape(text[i])
    } else {
        None
    }
}

/// What is written between quotes, without the backslashes that stand for other characters.
fn unescape(alloc: Global, text: &str) -> Result<String, AllocError>
    ensures { IfOk result (λ s. string_bytes s ≡ spec.unescaped false text.now) }
{
    let bytes = text.as_bytes();
    let mut all = String::new(alloc);
    let mut from = 0;
    while from < bytes.len() {
        let end = from + plain_len(bytes_from(bytes, from));
        all.push_str(&text[from..end])?;
        if end == bytes.len() {
            return Ok(all);
        }
        match escape_at(bytes, end + 1) {
            Some(c) => {
                all.push(char::from(c))?;
                from = end + 2;
            }
            None => {
                all.push('\\')?;
                from = end + 1;
            }
        }
    }
    Ok(all)
}

fn is_quoted(text: &[u8]) -> bool
    ensures value { result ≡ spec.is_quoted text.now }
    ensures cut { IsTrue result → (2 ≤ length text.now) × (get_or text.now 0 0 < 128)
        × (get_or text.now (length text.now - 1) 0 < 128) }
{
    text.len() >= 2 && is_quote(text[0]) && is_quote(text[text.len() - 1])
}

/// What is written between quotes, as it stands there or without its backslashes.
#[tactic(auto, using(crate::proofs::Literals::all_plain))]
fn text_in_quotes<'s>(alloc: Global, text: &'s str) -> Result<Quoted<'s>, AllocError>
    ensures { IfOk result (λ q. quoted_of q ≡ spec.unescaped false text.now) }
{
    if plain_len(text.as_bytes()) == text.len() {
        return Ok(Quoted::Lent(text));
    }
    let made = unescape(alloc, text)?;
    Ok(Quoted::Made(Box::new(alloc, made)?))
}

/// What a quoted text stands for; none where the text is not quoted. It takes memory only for a text with a backslash.
#[tactic(auto, unfolding(crate::specs::Literal::literal))]
pub fn literal<'s>(alloc: Global, text: &'s str) -> Result<Option<Quoted<'s>>, AllocError>
    ensures { IfOk result (λ o. option_map quoted_of o ≡ spec.literal text.now) }
{
    if !is_quoted(text.as_bytes()) {
        return Ok(None);
    }
    let inner = &text[1..text.len() - 1];
    Ok(Some(text_in_quotes(alloc, inner)?))
}
