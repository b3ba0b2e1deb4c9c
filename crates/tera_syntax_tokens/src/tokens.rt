// A position among the tokens of a tag.
ghost use Rattle.std.specs.Prelude.{◌≡◌, drop};
ghost use Rattle.tera_syntax_tokens.specs.Answers.{IsSyntax};
ghost use Rattle.tera_syntax_tokens.specs.Input as spec;
ghost use Rattle.tera_syntax_tokens.specs.Takes.{Takes, input};
ghost use Rattle.tera_syntax_tokens.specs.Token.{tokens_of};

use crate::refusal::{Reason, Refusal};
use crate::token::{Kind, Token};
use tera_errors::Span;

/// A position among the tokens of a tag. Past the last token stands one of the kind `End`, with no text, at the position 0.
#[derive(Drop)]
pub struct Tokens<'t, 's> {
    pub ahead: &'t [Token<'s>],
    /// Where the token before them ends: 0 before the first.
    pub last: usize,
    /// Whether the tag stands inside a loop's body, where `loop.index` and its like are names.
    pub in_loop: bool,
}

impl<'t, 's> Tokens<'t, 's> {
    /// The position before all of them.
    pub fn begin(tokens: &'t [Token<'s>], in_loop: bool) -> Tokens<'t, 's>
        ensures { input result ≡ spec.begin in_loop (tokens_of tokens.now) }
    {
        Tokens {
            ahead: tokens,
            last: 0,
            in_loop,
        }
    }

    /// The kind of the next token.
    #[tactic(auto, unfolding(crate::specs::Input::kind))]
    pub fn kind(&self) -> Kind
        ensures { result ≡ spec.kind (input self.now) }
    {
        match self.ahead.first() {
            Some(token) => token.kind,
            None => Kind::End,
        }
    }

    /// The next token as it is written. The source lends it.
    #[tactic(auto, unfolding(crate::specs::Input::text))]
    pub fn text(&self) -> &'s str
        ensures { result.now ≡ spec.text (input self.now) }
    {
        match self.ahead.first() {
            Some(token) => token.text,
            None => "",
        }
    }

    /// Where the next token starts.
    #[tactic(auto, unfolding(crate::specs::Input::start))]
    pub fn start(&self) -> usize
        ensures { result ≡ spec.start (input self.now) }
    {
        match self.ahead.first() {
            Some(token) => token.span.start,
            None => 0,
        }
    }

    /// Goes past the next token. Where none is left, nothing changes.
    #[tactic(auto, unfolding(crate::specs::Input::next))]
    pub fn take(&mut self)
        ensures { input self.new ≡ spec.next (input self.old) }
    {
        if let Some(token) = self.ahead.first() {
            self.last = token.span.end;
        }
        self.ahead = all_but_first(self.ahead);
    }

    /// From a position to the end of what was taken.
    pub fn span(&self, start: usize) -> Span
        ensures { result ≡ spec.span start (input self.now) }
    {
        Span {
            start,
            end: self.last,
        }
    }

    /// How many tokens are ahead.
    #[tactic(auto, unfolding(crate::specs::Input::left))]
    pub fn count_left(&self) -> usize
        ensures { result ≡ spec.left (input self.now) }
    {
        self.ahead.len()
    }

    /// Goes past a token of this kind; any other is refused, and stays.
    #[tactic(auto, unfolding(crate::specs::Input::expect))]
    pub fn expect(&mut self, kind: Kind) -> Result<(), Refusal>
        ensures { Takes (λ done. done) (spec.expect kind (input self.old)) result self.new }
    {
        if self.kind() == kind {
            self.take();
            Ok(())
        } else {
            Err(self.refuse(Reason::Expected(kind)))
        }
    }

    /// A refusal that points at the next token, or behind the last one.
    pub fn refuse(&self, why: Reason) -> Refusal
        ensures { IsSyntax result }
    {
        match self.ahead.first() {
            Some(token) => Refusal::Syntax(why, token.span),
            None => Refusal::Syntax(
                why,
                Span {
                    start: self.last,
                    end: self.last,
                },
            ),
        }
    }
}

/// Whether a token of this kind is a word, reserved or not.
#[tactic(auto, unfolding(crate::specs::Input::is_word))]
pub fn is_word(kind: Kind) -> bool
    ensures { result ≡ spec.is_word kind }
{
    match kind {
        Kind::Name
        | Kind::True
        | Kind::False
        | Kind::Nothing
        | Kind::And
        | Kind::Or
        | Kind::Not
        | Kind::In
        | Kind::Is
        | Kind::If
        | Kind::Elif
        | Kind::Else
        | Kind::For => true,
        _ => false,
    }
}

/// Where the token of this index starts: 0 past the last.
pub fn start_at(tokens: &[Token<'_>], at: usize) -> usize
    ensures { result ≡ spec.start_of (drop at (tokens_of tokens.now)) }
{
    match tokens.get(at) {
        Some(token) => token.span.start,
        None => 0,
    }
}

/// All but the first.
fn all_but_first<T>(items: &[T]) -> &[T]
    ensures { result.now ≡ drop 1 items.now }
{
    match items.split_first() {
        Some((_, rest)) => rest,
        None => items,
    }
}
