// Tokens of a tag.
ghost use Rattle.std.specs.Prelude.{◌≡◌, ◌<◌, ◌≤◌, ◌+◌, ◌-◌, ◌^◌, length, drop, option_map, get_or, false, not, ◌&&◌, ◌==◌, IfSome};
ghost use Rattle.tera_syntax_tokens.specs.Bytes.{leading};
ghost use Rattle.tera_syntax_tokens.specs.Token as spec;
ghost use Rattle.tera_syntax_tokens.specs.Token.{token_of};

use crate::bytes::{bytes_from, leading_len};
use tera_errors::Span;

/// What a token is: a word, a number, a text or a sign. A reserved word has a kind of its own.
#[derive(Clone, Copy, PartialEq, Eq, Debug)]
pub enum Kind {
    /// No token is left.
    End,
    /// A word that isn't reserved.
    Name,
    /// Digits.
    Int,
    /// A text between two quotes of one kind.
    Text,
    /// `true` or `True`
    True,
    /// `false` or `False`
    False,
    /// `none` or `None`
    Nothing,
    And,
    Or,
    Not,
    In,
    Is,
    If,
    Elif,
    Else,
    For,
    Equal,
    NotEqual,
    LessOrEqual,
    GreaterOrEqual,
    Less,
    Greater,
    Plus,
    Minus,
    Star,
    /// `**`
    Power,
    Slash,
    /// `//`
    FloorSlash,
    Percent,
    Tilde,
    Bar,
    Dot,
    /// `?.`
    OptionalDot,
    /// `?[`
    OptionalBracket,
    LeftBracket,
    RightBracket,
    LeftParenthesis,
    RightParenthesis,
    LeftBrace,
    RightBrace,
    Comma,
    Colon,
    /// `=`
    Assign,
    /// `...`
    Spread,
    At,
    /// `/>`
    TagEnd,
}

/// A token, as it is written and where.
#[derive(Clone, Copy, Debug)]
pub struct Token<'a> {
    pub kind: Kind,
    /// As it stands in the tag: a text has its quotes and backslashes.
    pub text: &'a str,
    /// In the whole source, not in the tag.
    pub span: Span,
}

/// The kind of a token, and how many bytes it has.
#[derive(Clone, Copy, Debug)]
pub(crate) struct Measure {
    pub kind: Kind,
    pub size: usize,
}

pub(crate) fn is_blank(b: u8) -> bool
    ensures { result ≡ spec.is_blank b }
{
    b == b' ' || b == b'\t' || b == b'\n' || b == b'\r'
}

fn is_letter(b: u8) -> bool
    ensures { result ≡ spec.is_letter b }
{
    b >= b'A' && b <= b'Z' || b >= b'a' && b <= b'z' || b == b'_'
}

fn is_digit(b: u8) -> bool
    ensures { result ≡ spec.is_digit b }
{
    b >= b'0' && b <= b'9'
}

pub(crate) fn is_name_byte(b: u8) -> bool
    ensures { result ≡ spec.is_name_byte b }
{
    is_digit(b) || is_letter(b)
}

pub(crate) fn is_quote(b: u8) -> bool
    ensures { result ≡ spec.is_quote b }
{
    b == b'"' || b == b'\'' || b == b'`'
}

/// How many bytes of a name the text begins with.
fn name_len(text: &[u8]) -> usize
    ensures value { result ≡ leading spec.is_name_byte text.now }
    ensures within { result ≤ length text.now }
{
    leading_len(text, is_name_byte)
}

/// How many digits the text begins with.
fn digits_len(text: &[u8]) -> usize
    ensures value { result ≡ leading spec.is_digit text.now }
    ensures within { result ≤ length text.now }
{
    leading_len(text, is_digit)
}

/// The byte is this one, and no backslash takes it along.
fn is_free(escaped: bool, b: u8, wanted: u8) -> bool
    ensures { result ≡ (not escaped && b == wanted) }
{
    !escaped && b == wanted
}

/// How many bytes there are up to the quote that closes a text, and with it.
fn quoted_len(quote: u8, text: &[u8]) -> Option<usize>
    ensures value { result ≡ spec.quoted quote false text.now }
    ensures within { IfSome result (λ n. n ≤ length text.now) }
{
    let mut escaped = false;
    for (i, b) in text.iter().enumerate() {
        if is_free(escaped, *b, quote) {
            return Some(i + 1);
        }
        escaped = is_free(escaped, *b, b'\\');
    }
    None
}

fn sign_of_pair(b: u8, c: u8) -> Option<Kind>
    ensures { result ≡ spec.pair b c }
{
    match (b, c) {
        (b'=', b'=') => Some(Kind::Equal),
        (b'!', b'=') => Some(Kind::NotEqual),
        (b'<', b'=') => Some(Kind::LessOrEqual),
        (b'>', b'=') => Some(Kind::GreaterOrEqual),
        (b'*', b'*') => Some(Kind::Power),
        (b'/', b'/') => Some(Kind::FloorSlash),
        (b'/', b'>') => Some(Kind::TagEnd),
        (b'?', b'.') => Some(Kind::OptionalDot),
        (b'?', b'[') => Some(Kind::OptionalBracket),
        _ => None,
    }
}

fn sign_of_byte(b: u8) -> Option<Kind>
    ensures { result ≡ spec.single b }
{
    match b {
        b'<' => Some(Kind::Less),
        b'>' => Some(Kind::Greater),
        b'+' => Some(Kind::Plus),
        b'-' => Some(Kind::Minus),
        b'*' => Some(Kind::Star),
        b'/' => Some(Kind::Slash),
        b'%' => Some(Kind::Percent),
        b'~' => Some(Kind::Tilde),
        b'|' => Some(Kind::Bar),
        b'.' => Some(Kind::Dot),
        b'[' => Some(Kind::LeftBracket),
        b']' => Some(Kind::RightBracket),
        b'(' => Some(Kind::LeftParenthesis),
        b')' => Some(Kind::RightParenthesis),
        b'{' => Some(Kind::LeftBrace),
        b'}' => Some(Kind::RightBrace),
        b',' => Some(Kind::Comma),
        b':' => Some(Kind::Colon),
        b'=' => Some(Kind::Assign),
        b'@' => Some(Kind::At),
        _ => None,
    }
}

/// The sign that these three bytes begin with, the longest. Past the end of the text stands 0.
#[tactic(auto, unfolding(crate::specs::Token::sign))]
fn sign(b: u8, c: u8, d: u8) -> Option<Measure>
    ensures { result ≡ spec.sign b c d }
{
    if b == b'.' && c == b'.' && d == b'.' {
        return Some(Measure {
            kind: Kind::Spread,
            size: 3,
        });
    }
    if let Some(kind) = sign_of_pair(b, c) {
        return Some(Measure { kind, size: 2 });
    }
    match sign_of_byte(b) {
        Some(kind) => Some(Measure { kind, size: 1 }),
        None => None,
    }
}

pub(crate) fn byte_at(text: &[u8], i: usize) -> u8
    ensures { result ≡ get_or text.now i 0 }
{
    match text.get(i) {
        Some(b) => *b,
        None => 0,
    }
}

/// What the text begins with, by its longest token.
#[tactic(auto, unfolding(crate::specs::Token::measured))]
fn first_measure(text: &[u8]) -> Option<Measure>
    ensures { result ≡ spec.measured text.now }
{
    match text {
        [] => None,
        [b, rest @ ..] => {
            if is_letter(*b) {
                return Some(Measure {
                    kind: Kind::Name,
                    size: 1 + name_len(rest),
                });
            }
            if is_digit(*b) {
                return Some(Measure {
                    kind: Kind::Int,
                    size: 1 + digits_len(rest),
                });
            }
            if is_quote(*b) {
                return match quoted_len(*b, rest) {
                    Some(n) => Some(Measure {
                        kind: Kind::Text,
                        size: 1 + n,
                    }),
                    None => None,
                };
            }
            sign(*b, byte_at(rest, 0), byte_at(rest, 1))
        }
    }
}

/// The kind of a word: those that are reserved have their own. A word is told by its length, then byte by byte.
#[tactic(auto, unfolding(crate::specs::Token::word_kind))]
fn word_kind(word: &[u8]) -> Kind
    ensures { result ≡ spec.word_kind word.now }
{
    match word {
        [b'i', b'f'] => Kind::If,
        [b'i', b'n'] => Kind::In,
        [b'i', b's'] => Kind::Is,
        [b'o', b'r'] => Kind::Or,
        [b'a', b'n', b'd'] => Kind::And,
        [b'f', b'o', b'r'] => Kind::For,
        [b'n', b'o', b't'] => Kind::Not,
        [b'e', b'l', b'i', b'f'] => Kind::Elif,
        [b'e', b'l', b's', b'e'] => Kind::Else,
        [b't' | b'T', b'r', b'u', b'e'] => Kind::True,
        [b'n' | b'N', b'o', b'n', b'e'] => Kind::Nothing,
        [b'f' | b'F', b'a', b'l', b's', b'e'] => Kind::False,
        _ => Kind::Name,
    }
}

/// A name that is a word with a meaning is of that kind.
fn word_kind_of(kind: Kind, word: &str) -> Kind
    ensures { result ≡ spec.named kind word.now }
{
    match kind {
        Kind::Name => word_kind(word.as_bytes()),
        kind => kind,
    }
}

/// The longest token at a byte of the text, which stands at a position of the source.
pub(crate) fn next_token<'a>(text: &'a str, i: usize, at: usize) -> Option<Token<'a>>
    requires inside { i < length text.now }
    requires room { at + length text.now < 2 ^ 64 }
    ensures { option_map token_of result ≡ spec.next_token (at + i) (drop i text.now) }
{
    let measure = match first_measure(bytes_from(text.as_bytes(), i)) {
        Some(measure) => measure,
        None => return None,
    };
    let end = i + measure.size;
    let word = &text[i..end];
    Some(Token {
        kind: word_kind_of(measure.kind, word),
        text: word,
        span: Span {
            start: at + i,
            end: at + end,
        },
    })
}
