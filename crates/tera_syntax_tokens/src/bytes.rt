// Parts of a text, by bytes.
ghost use Rattle.std.specs.Prelude.{◌≡◌, ◌≤◌, ℕ, Bool, length, drop, take, IsTrue};
ghost use Rattle.memchr.specs.Find.{is_byte, is_byte3};
ghost use Rattle.tera_syntax_tokens.specs.Bytes as spec;

use memchr::{memchr, memchr3};

/// The bytes from a position on.
pub(crate) fn bytes_from(bytes: &[u8], i: usize) -> &[u8]
    requires { i ≤ length bytes.now }
    ensures { result.now ≡ drop i bytes.now }
{
    bytes.split_at(i).1
}

/// The bytes up to a position.
pub(crate) fn bytes_to(bytes: &[u8], i: usize) -> &[u8]
    requires { i ≤ length bytes.now }
    ensures { result.now ≡ take i bytes.now }
{
    bytes.split_at(i).0
}

/// Whether the bytes begin with the word. It has two bytes mostly, which are compared without a loop.
#[inline]
pub(crate) fn begins(word: &[u8], bytes: &[u8]) -> bool
    ensures { result ≡ spec.begins word.now bytes.now }
{
    match (word, bytes) {
        ([a, b], [c, d, ..]) => a == c && b == d,
        _ => begins_any(word, bytes),
    }
}

/// The same for a word of any length.
fn begins_any(word: &[u8], bytes: &[u8]) -> bool
    ensures { result ≡ spec.begins word.now bytes.now }
{
    for (i, b) in word.iter().enumerate() {
        if i >= bytes.len() {
            return false;
        }
        if bytes[i] != *b {
            return false;
        }
    }
    true
}

/// How many bytes at the front of the text pass the test.
#[inline(always)]
#[tactic(auto, unfolding(crate::specs::Bytes::leading))]
pub(crate) fn leading_len<F: Fn(u8) -> bool>(text: &[u8], passes: F) -> usize
    requires { F.IsAlwaysCallable passes }
    ensures value { (test : ℕ → Bool) →
        ((b : _) (answer : Bool) → F.post passes b answer → answer ≡ test b) →
        result ≡ spec.leading test text.now }
    ensures within { result ≤ length text.now }
{
    for (i, b) in text.iter().enumerate() {
        if !passes(*b) {
            return i;
        }
    }
    text.len()
}

/// The first position where a word begins, or the end.
#[tactic(auto, unfolding(crate::specs::Bytes::position))]
pub(crate) fn position(word: &[u8], bytes: &[u8]) -> usize
    ensures { result ≡ spec.position (spec.begins word.now) bytes.now }
{
    for i in 0..bytes.len() {
        if begins(word, bytes_from(bytes, i)) {
            return i;
        }
    }
    bytes.len()
}

/// The first position where one of three bytes stands, or the end. Mostly they are one byte, which is looked for faster.
pub(crate) fn position_of_byte(a: u8, b: u8, c: u8, bytes: &[u8]) -> usize
    ensures value { result ≡ spec.position (spec.heads (is_byte3 a b c)) bytes.now }
    ensures within { result ≤ length bytes.now }
{
    if are_one(a, b, c) {
        return position_of_one(a, bytes);
    }
    match memchr3(a, b, c, bytes) {
        Some(i) => i,
        None => bytes.len(),
    }
}

/// Whether the bytes are one.
fn are_one(a: u8, b: u8, c: u8) -> bool
    ensures { IsTrue result → (b ≡ a) × (c ≡ a) }
{
    a == b && a == c
}

/// The first position where this byte stands, or the end.
fn position_of_one(a: u8, bytes: &[u8]) -> usize
    ensures value { result ≡ spec.position (spec.heads (is_byte a)) bytes.now }
    ensures within { result ≤ length bytes.now }
{
    match memchr(a, bytes) {
        Some(i) => i,
        None => bytes.len(),
    }
}
