// Levels of precedence: which tokens go on with an expression, and to what.
ghost use Rattle.std.specs.Prelude.{◌≡◌, ◌&&◌, ◌||◌, ℕ, IsTrue, nat_le, not};
ghost use Rattle.tera_syntax_tokens.specs.Prelude.{Parser, kind, next, same, input};
ghost use Rattle.tera_syntax_tokens.specs.declared.token.Kind.TheVariants as Kind;
ghost use Rattle.tera_syntax_expressions.specs.Expressions as spec;
ghost use Rattle.tera_syntax_expressions.specs.Precedence as precedence;

use crate::precedence;
use tera_syntax_tokens::token::Kind;
use tera_syntax_tokens::tokens::Tokens;

/// The least level of an expression before this token that goes on with it, and the level of what
/// it goes on to.
#[inline(always)]
#[tactic(auto, unfolding(crate::specs::Expressions::needs, crate::specs::Expressions::gives))]
fn levels(kind: Kind) -> (u8, u8)
    ensures needs { result.0 ≡ spec.needs kind }
    ensures gives { result.1 ≡ spec.gives kind }
{
    match kind {
        Kind::If => (precedence::OR, precedence::CHOICE),
        Kind::Or => (precedence::OR, precedence::OR),
        Kind::And => (precedence::AND, precedence::AND),
        Kind::Not
        | Kind::Equal
        | Kind::NotEqual
        | Kind::Less
        | Kind::Greater
        | Kind::LessOrEqual
        | Kind::GreaterOrEqual
        | Kind::In
        | Kind::Is => (precedence::COMPARISON, precedence::COMPARISON),
        Kind::Tilde => (precedence::CONCATENATION, precedence::CONCATENATION),
        Kind::Plus | Kind::Minus => (precedence::SUM, precedence::SUM),
        Kind::Star | Kind::Slash | Kind::FloorSlash | Kind::Percent => (
            precedence::PRODUCT,
            precedence::PRODUCT,
        ),
        Kind::Power => (precedence::FILTER, precedence::POWER),
        Kind::Bar => (precedence::FILTER, precedence::FILTER),
        Kind::Dot | Kind::OptionalDot | Kind::LeftBracket | Kind::OptionalBracket => (
            precedence::OPERAND,
            precedence::OPERAND,
        ),
        _ => (precedence::NOTHING, precedence::NOTHING),
    }
}

/// The level of what an expression goes on to with this token.
#[inline(always)]
pub(crate) fn gives(kind: Kind) -> u8
    ensures { result ≡ spec.gives kind }
{
    levels(kind).1
}

/// Whether an expression of the level `have` goes on with this token, to the level `floor` or above.
#[inline(always)]
pub(crate) fn goes_on(floor: u8, have: u8, kind: Kind) -> bool
    ensures { result ≡ spec.goes_on floor have kind }
{
    let (needs, gives) = levels(kind);
    floor <= gives && needs <= have
}

/// The level of what begins with this token.
#[tactic(auto, unfolding(crate::specs::Expressions::begins))]
pub(crate) fn begins(kind: Kind) -> u8
    ensures { result ≡ spec.begins kind }
{
    match kind {
        Kind::Not => precedence::NOT,
        Kind::Minus => precedence::MINUS,
        _ => precedence::OPERAND,
    }
}

/// The kinds of the next two tokens.
#[inline]
#[tactic(auto, unfolding(tera_syntax_tokens::specs::Input::kind, tera_syntax_tokens::specs::Input::next))]
pub(crate) fn kinds(tokens: &Tokens<'_, '_>) -> (Kind, Kind)
    ensures first { result.0 ≡ kind (input tokens.now) }
    ensures second { result.1 ≡ kind (next (input tokens.now)) }
{
    match tokens.ahead {
        [] => (Kind::End, Kind::End),
        [first] => (first.kind, Kind::End),
        [first, second, ..] => (first.kind, second.kind),
    }
}

/// Whether the first of two tokens is a name, an integer or a text, and the second neither goes on with it to this level nor
/// opens the arguments of a call.
fn is_alone(floor: u8, first: Kind, second: Kind) -> bool
    ensures { let is_leaf = (same Kind.Name first || same Kind.Int first)
        || same Kind.Text first in
        let goes_on = spec.goes_on floor precedence.operand second in
        let is_called = same Kind.LeftParenthesis second in
        result ≡ (((is_leaf && nat_le floor precedence.operand) && not goes_on) && not is_called) }
{
    (first == Kind::Name || first == Kind::Int || first == Kind::Text)
        && floor <= precedence::OPERAND
        && !goes_on(floor, precedence::OPERAND, second)
        && second != Kind::LeftParenthesis
}

/// Whether the next operand is a name, an integer or a text, and nothing goes on with it to this level. Most are.
#[inline]
pub(crate) fn stands_alone(tokens: &Tokens<'_, '_>, floor: u8) -> bool
    ensures { let here = input tokens.now in
        IsTrue result → (limit : ℕ) → (sub : ℕ → Parser spec.Deep) →
        spec.level limit sub floor here ≡ spec.head limit sub here }
{
    let (first, second) = kinds(tokens);
    is_alone(floor, first, second)
}
