// Operators of one, two and three operands.
ghost use Rattle.std.specs.Prelude.{max};
ghost use Rattle.tera_syntax_tree.specs.Prelude.{Ternary};
ghost use Rattle.tera_syntax_tokens.specs.Prelude.{span, Takes, input};
ghost use Rattle.tera_syntax_expressions.specs.Expressions as spec;
ghost use Rattle.tera_syntax_expressions.specs.Parts.{GoesOn, Nests, deep_of, infix_of, prefix_of};

use crate::expressions::{Read, ReadExpression, Replaced};
use crate::operator_forms::{Infix, Prefix, make_infix, make_prefix};
use crate::precedence;
use crate::reader::{Reader, read, take_operand};
use std::alloc::Global;
use tera_syntax_tokens::refusal::{Reason, Refusal};
use tera_syntax_tokens::token::Kind;
use tera_syntax_tokens::tokens::Tokens;
use tera_syntax_tree::{BinaryOperator, Choice, Expression, Operands};

impl<'s, F: Fn(Global, &mut Tokens<'_, 's>, usize, u8) -> Read<'s>> Reader<F> {
    /// `-x` or `not x`, where the operand is of this level or above.
    #[inline(never)]
    #[tactic(auto, unfolding(crate::specs::Expressions::prefix_form))]
    pub(crate) fn prefix_form(&self, tokens: &mut Tokens<'_, 's>, level: u8, op: Prefix) -> Read<'s>
        requires { Nests self.now.below (F.pre self.now.expr) (F.post self.now.expr) }
        ensures { let meant = spec.prefix_form self.now.limit (spec.expr self.now.below) level in
            Takes deep_of (meant (prefix_of op) (input tokens.old)) result tokens.new }
    {
        let start = tokens.start();
        tokens.take();
        let x = read!(self.sub(tokens, level));
        let depth = x.depth;
        let expression = make_prefix(self.alloc, op, x.expression, tokens.span(start))?;
        self.node(tokens, depth, expression)
    }

    /// An operator and what stands behind it, of this level or above.
    #[inline(never)]
    #[tactic(auto, unfolding(crate::specs::Expressions::infix_form))]
    pub(crate) fn infix_form(
        &self,
        tokens: &mut Tokens<'_, 's>,
        level: u8,
        op: Infix,
        start: usize,
        x: &mut ReadExpression<'s>,
    ) -> Replaced
        requires { Nests self.now.below (F.pre self.now.expr) (F.post self.now.expr) }
        ensures { let meant = spec.infix_form self.now.limit (spec.expr self.now.below) level
            (infix_of op) start (deep_of x.old) in
            Takes (λ done. deep_of x.new) (meant (input tokens.old)) result tokens.new }
    {
        tokens.take();
        let y = read!(self.sub(tokens, level));
        let depth = x.depth.max(y.depth);
        let (left, right) = (take_operand(x), y.expression);
        let operands = Box::new(self.alloc, Operands { left, right })?;
        self.put(
            tokens,
            depth,
            make_infix(op, operands, tokens.span(start)),
            x,
        )
    }

    /// `x not in y`
    #[inline(never)]
    #[tactic(auto, unfolding(crate::specs::Expressions::not_in, crate::specs::Expressions::applied))]
    pub(crate) fn not_in_form(
        &self,
        tokens: &mut Tokens<'_, 's>,
        start: usize,
        x: &mut ReadExpression<'s>,
    ) -> Replaced
        requires { Nests self.now.below (F.pre self.now.expr) (F.post self.now.expr) }
        ensures { GoesOn spec.not_in self.now start x.old x.new tokens.old result tokens.new }
    {
        tokens.take();
        if tokens.kind() != Kind::In {
            return Err(tokens.refuse(Reason::Expected(Kind::In)));
        }
        let within = Infix::Binary(BinaryOperator::In);
        self.infix_form(tokens, precedence::CONCATENATION, within, start, x)?;
        self.inverse(tokens, start, x)
    }

    /// `x if y else z`, from `if` on.
    #[inline(never)]
    #[tactic(auto, unfolding(crate::specs::Expressions::choice, crate::specs::Expressions::other))]
    pub(crate) fn choice(
        &self,
        tokens: &mut Tokens<'_, 's>,
        start: usize,
        x: &mut ReadExpression<'s>,
    ) -> Replaced
        requires { Nests self.now.below (F.pre self.now.expr) (F.post self.now.expr) }
        ensures { GoesOn spec.choice self.now start x.old x.new tokens.old result tokens.new }
    {
        tokens.take();
        let y = read!(self.sub(tokens, precedence::OR));
        tokens.expect(Kind::Else)?;
        let z = read!(self.sub(tokens, precedence::CHOICE));
        self.choose(tokens, start, x, y, z)
    }

    /// `x if y else z`, where all three were read.
    #[inline(never)]
    fn choose(
        &self,
        tokens: &Tokens<'_, 's>,
        start: usize,
        x: &mut ReadExpression<'s>,
        y: ReadExpression<'s>,
        z: ReadExpression<'s>,
    ) -> Replaced
        ensures { let i = input tokens.now in
            let a = deep_of x.old in let b = deep_of y.entry in let c = deep_of z.entry in
            let depth = max a.depth (max b.depth c.depth) in
            let form = Ternary a.expr b.expr c.expr (span start i) in
            Takes (λ done. deep_of x.new) (spec.node self.now.limit depth form i)
            result tokens.now }
    {
        let depth = x.depth.max(y.depth.max(z.depth));
        let choice = Choice {
            value: take_operand(x),
            condition: y.expression,
            other: z.expression,
        };
        let choice = Box::new(self.alloc, choice)?;
        let expression = Expression::ternary(choice, tokens.span(start));
        self.put(tokens, depth, expression, x)
    }
}
