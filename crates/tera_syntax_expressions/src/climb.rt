// The climb from operator to operator. Open parentheses are counted, and cost no call.
ghost use Rattle.std.specs.Prelude.{◌≡◌, [], Some, nat_eq, if◌then◌else◌};
ghost use Rattle.tera_syntax_tokens.specs.Prelude.{left, starts, Takes, input, tokens_of};
ghost use Rattle.tera_syntax_expressions.specs.Expressions as spec;
ghost use Rattle.tera_syntax_expressions.specs.Parts.{GoesOn, Nests, deep_of};
ghost use Rattle.tera_syntax_expressions.specs.Precedence as precedence;

use crate::access::Access;
use crate::expressions::{Read, ReadExpression, Replaced};
use crate::levels::{begins, gives, goes_on};
use crate::operator_forms::Infix::{self, Binary};
use crate::precedence;
use crate::reader::{Reader, read};
use std::alloc::Global;
use tera_syntax_tokens::refusal::{Reason, Refusal};
use tera_syntax_tokens::token::{Kind, Token};
use tera_syntax_tokens::tokens::{Tokens, start_at};
use tera_syntax_tree::BinaryOperator as Operator;

impl<'s, F: Fn(Global, &mut Tokens<'_, 's>, usize, u8) -> Read<'s>> Reader<F> {
    /// An expression of this level or above.
    #[inline(always)]
    #[tactic(auto, unfolding(crate::specs::Expressions::level, crate::specs::Expressions::level_with))]
    pub(crate) fn level(&self, tokens: &mut Tokens<'_, 's>, floor: u8) -> Read<'s>
        requires { Nests self.now.below (F.pre self.now.expr) (F.post self.now.expr) }
        ensures { Takes deep_of (spec.level self.now.limit (spec.expr self.now.below) floor
            (input tokens.old)) result tokens.new }
    {
        let ahead = tokens.ahead;
        let rounds = tokens.count_left();
        let opens = take_parentheses(tokens);
        let begins = begins(tokens.kind());
        if begins < floor_in(opens, floor) {
            return Err(tokens.refuse(Reason::NoExpression));
        }
        let start = tokens.start();
        let x = read!(self.head(tokens));
        self.climb(tokens, ahead, opens, rounds, floor, begins, start, x)
    }

    /// Goes on with operators, and closes the parentheses that are open. `ahead` begins with these.
    #[inline(always)]
    #[tactic(auto, unfolding(crate::specs::Expressions::climb))]
    pub(crate) fn climb(
        &self,
        tokens: &mut Tokens<'_, 's>,
        ahead: &[Token<'_>],
        mut opens: usize,
        rounds: usize,
        floor: u8,
        mut have: u8,
        mut start: usize,
        mut x: ReadExpression<'s>,
    ) -> Read<'s>
        requires { Nests self.now.below (F.pre self.now.expr) (F.post self.now.expr) }
        ensures { Takes deep_of (spec.climb self.now.limit (spec.expr self.now.below) rounds
            (starts (tokens_of ahead.now) opens) floor have start (deep_of x.entry)
            (input tokens.old)) result tokens.new }
    {
        for _round in 0..rounds {
            let kind = tokens.kind();
            if goes_on(floor_in(opens, floor), have, kind) {
                self.operation(tokens, start, &mut x)?;
                have = gives(kind);
            } else if opens == 0 {
                return Ok(x);
            } else {
                match tokens.expect(Kind::RightParenthesis) {
                    Ok(()) => {
                        opens -= 1;
                        start = start_at(ahead, opens);
                        have = precedence::OPERAND;
                    }
                    Err(refusal) => return Err(refusal),
                }
            }
        }
        Err(tokens.refuse(Reason::NoOperation))
    }

    /// What the next token goes on to.
    #[inline(always)]
    #[tactic(auto, unfolding(crate::specs::Expressions::operation, crate::specs::Expressions::applied, crate::specs::Expressions::suffix_form))]
    fn operation(
        &self,
        tokens: &mut Tokens<'_, 's>,
        start: usize,
        x: &mut ReadExpression<'s>,
    ) -> Replaced
        requires { Nests self.now.below (F.pre self.now.expr) (F.post self.now.expr) }
        ensures { GoesOn spec.operation self.now start x.old x.new tokens.old result tokens.new }
    {
        let (level, op) = match tokens.kind() {
            Kind::Or => (precedence::AND, Infix::Or),
            Kind::And => (precedence::NOT, Infix::And),
            Kind::Equal => (precedence::CONCATENATION, Binary(Operator::Equal)),
            Kind::NotEqual => (precedence::CONCATENATION, Binary(Operator::NotEqual)),
            Kind::Less => (precedence::CONCATENATION, Binary(Operator::Less)),
            Kind::Greater => (precedence::CONCATENATION, Binary(Operator::Greater)),
            Kind::LessOrEqual => (precedence::CONCATENATION, Binary(Operator::LessOrEqual)),
            Kind::GreaterOrEqual => (precedence::CONCATENATION, Binary(Operator::GreaterOrEqual)),
            Kind::In => (precedence::CONCATENATION, Binary(Operator::In)),
            Kind::Tilde => (precedence::SUM, Binary(Operator::Concat)),
            Kind::Plus => (precedence::PRODUCT, Binary(Operator::Add)),
            Kind::Minus => (precedence::PRODUCT, Binary(Operator::Subtract)),
            Kind::Star => (precedence::MINUS, Binary(Operator::Multiply)),
            Kind::Slash => (precedence::MINUS, Binary(Operator::Divide)),
            Kind::FloorSlash => (precedence::MINUS, Binary(Operator::FloorDivide)),
            Kind::Percent => (precedence::MINUS, Binary(Operator::Remainder)),
            Kind::Power => (precedence::MINUS, Binary(Operator::Power)),
            _ => return self.suffix_form(tokens, start, x),
        };
        self.infix_form(tokens, level, op, start, x)
    }

    /// What stands behind an operand and is no sign between two. It has a function of its own, so that no room for its
    /// answers is made ready at each sign.
    #[inline(never)]
    #[tactic(auto, unfolding(crate::specs::Expressions::suffix_form))]
    fn suffix_form(
        &self,
        tokens: &mut Tokens<'_, 's>,
        start: usize,
        x: &mut ReadExpression<'s>,
    ) -> Replaced
        requires { Nests self.now.below (F.pre self.now.expr) (F.post self.now.expr) }
        ensures { GoesOn spec.suffix_form self.now start x.old x.new tokens.old result tokens.new }
    {
        match tokens.kind() {
            Kind::If => self.choice(tokens, start, x),
            Kind::Not => self.not_in_form(tokens, start, x),
            Kind::Is => self.test(tokens, start, x),
            Kind::Bar => self.filter(tokens, start, x),
            Kind::Dot => self.attribute(tokens, Access::new(start, false), x),
            Kind::OptionalDot => self.attribute(tokens, Access::new(start, true), x),
            Kind::LeftBracket => self.subscript(tokens, Access::new(start, false), x),
            Kind::OptionalBracket => self.subscript(tokens, Access::new(start, true), x),
            _ => Err(tokens.refuse(Reason::NoOperation)),
        }
    }
}

/// The least level of what stands here. Inside open parentheses any expression may.
#[inline(always)]
fn floor_in(opens: usize, floor: u8) -> u8
    ensures { result ≡ (if nat_eq opens 0 then floor else precedence.choice) }
{
    if opens == 0 {
        floor
    } else {
        precedence::CHOICE
    }
}

/// How many parentheses open here. They are taken.
#[tactic(auto, unfolding(crate::specs::Expressions::opened))]
pub(crate) fn take_parentheses(tokens: &mut Tokens<'_, '_>) -> usize
    ensures { spec.opened (left (input tokens.old)) [] (input tokens.old)
        ≡ Some (starts (tokens_of tokens.old.ahead.now) result, input tokens.new) }
{
    let mut count = 0usize;
    for _round in 0..tokens.count_left() {
        if tokens.kind() != Kind::LeftParenthesis {
            break;
        }
        tokens.take();
        count += 1;
    }
    count
}
