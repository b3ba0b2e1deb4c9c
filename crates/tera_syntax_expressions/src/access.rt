// Attributes, indices and slices.
ghost use Rattle.std.specs.Prelude.{◌≡◌, max};
ghost use Rattle.tera_syntax_tree.specs.Prelude.{Present};
ghost use Rattle.tera_syntax_tokens.specs.Prelude.{Takes, input};
ghost use Rattle.tera_syntax_expressions.specs.Expressions as spec;
ghost use Rattle.tera_syntax_expressions.specs.Parts.{Follows, Nests, deep_of, part_of};

use crate::expressions::{Read, ReadExpression, Replaced};
use crate::precedence;
use crate::reader::{OptionalPart, Reader, read, take_operand};
use crate::shared_forms::{no_part, some_part};
use std::alloc::Global;
use tera_syntax_tokens::refusal::{Reason, Refusal};
use tera_syntax_tokens::token::Kind;
use tera_syntax_tokens::tokens::{Tokens, is_word};
use tera_syntax_tree::{Bounds, Expression, Indexed, Sliced};

/// How a part of a value is asked for.
#[derive(Clone, Copy)]
pub(crate) struct Access {
    /// Where the value starts.
    pub(crate) start: usize,
    /// Whether the value need not have the part.
    pub(crate) optional: bool,
}

impl Access {
    #[inline(always)]
    pub(crate) fn new(start: usize, optional: bool) -> Access
        ensures start { result.start ≡ start }
        ensures optional { result.optional ≡ optional }
    {
        Access { start, optional }
    }
}

impl<'s, F: Fn(Global, &mut Tokens<'_, 's>, usize, u8) -> Read<'s>> Reader<F> {
    /// `x.name`, from the dot on.
    #[inline(never)]
    #[tactic(auto, unfolding(crate::specs::Expressions::attribute))]
    pub(crate) fn attribute(
        &self,
        tokens: &mut Tokens<'_, 's>,
        at: Access,
        x: &mut ReadExpression<'s>,
    ) -> Replaced
        ensures { let meant = spec.attribute self.now.limit (spec.expr self.now.below)
            at.optional at.start (deep_of x.old) in
            Takes (λ done. deep_of x.new) (meant (input tokens.old)) result tokens.new }
    {
        tokens.take();
        if !is_word(tokens.kind()) {
            return Err(tokens.refuse(Reason::Expected(Kind::Name)));
        }
        let name = tokens.text();
        tokens.take();
        let span = tokens.span(at.start);
        let depth = x.depth;
        let target = Box::new(self.alloc, take_operand(x))?;
        let expression = Expression::attribute(target, name, at.optional, span);
        self.put(tokens, depth, expression, x)
    }

    /// `x[y]` or a slice, from the bracket on.
    #[inline(never)]
    #[tactic(auto, unfolding(crate::specs::Expressions::subscript, crate::specs::Expressions::part))]
    pub(crate) fn subscript(
        &self,
        tokens: &mut Tokens<'_, 's>,
        at: Access,
        x: &mut ReadExpression<'s>,
    ) -> Replaced
        requires { Nests self.now.below (F.pre self.now.expr) (F.post self.now.expr) }
        ensures { let meant = spec.subscript self.now.limit (spec.expr self.now.below)
            at.optional at.start (deep_of x.old) in
            Takes (λ done. deep_of x.new) (meant (input tokens.old)) result tokens.new }
    {
        tokens.take();
        if tokens.kind() == Kind::RightBracket {
            return Err(tokens.refuse(Reason::NoExpression));
        }
        if tokens.kind() == Kind::Colon {
            return self.slice(tokens, at, x, no_part());
        }
        let y = read!(self.sub(tokens, precedence::CHOICE));
        if tokens.kind() == Kind::RightBracket {
            self.index(tokens, at, x, y)
        } else {
            self.slice(tokens, at, x, some_part(self.alloc, y)?)
        }
    }

    /// A bound of a slice, if it is written, and how deep it is.
    #[inline(always)]
    #[tactic(auto, unfolding(crate::specs::Expressions::part))]
    pub(crate) fn part(&self, tokens: &mut Tokens<'_, 's>) -> Result<OptionalPart<'s>, Refusal>
        requires { Nests self.now.below (F.pre self.now.expr) (F.post self.now.expr) }
        ensures { Follows part_of spec.part self.now tokens.old result tokens.new }
    {
        if tokens.kind() == Kind::Colon {
            return Ok(no_part());
        }
        if tokens.kind() == Kind::RightBracket {
            return Ok(no_part());
        }
        let x = read!(self.sub(tokens, precedence::CHOICE));
        Ok(some_part(self.alloc, x)?)
    }

    /// The step of a slice, if it is written, and how deep it is.
    #[inline(always)]
    #[tactic(auto, unfolding(crate::specs::Expressions::step))]
    pub(crate) fn step(&self, tokens: &mut Tokens<'_, 's>) -> Result<OptionalPart<'s>, Refusal>
        requires { Nests self.now.below (F.pre self.now.expr) (F.post self.now.expr) }
        ensures { Follows part_of spec.step self.now tokens.old result tokens.new }
    {
        if tokens.kind() == Kind::Colon {
            tokens.take();
            return self.part(tokens);
        }
        Ok(no_part())
    }

    /// `x[y]`, where the index was read, from its bracket on.
    #[inline(never)]
    #[tactic(auto, unfolding(crate::specs::Expressions::index_at))]
    fn index(
        &self,
        tokens: &mut Tokens<'_, 's>,
        at: Access,
        x: &mut ReadExpression<'s>,
        y: ReadExpression<'s>,
    ) -> Replaced
        ensures { let y = deep_of y.entry in
            let meant = spec.index_at self.now.limit (spec.expr self.now.below)
            at.optional at.start (deep_of x.old) (Present y.expr) y.depth in
            Takes (λ done. deep_of x.new) (meant (input tokens.old)) result tokens.new }
    {
        tokens.take();
        let depth = x.depth.max(y.depth);
        let (target, index) = (take_operand(x), y.expression);
        let parts = Box::new(self.alloc, Indexed { target, index })?;
        let span = tokens.span(at.start);
        self.put(
            tokens,
            depth,
            Expression::index(parts, at.optional, span),
            x,
        )
    }

    /// A slice, from the first colon on.
    #[inline(never)]
    #[tactic(auto, unfolding(crate::specs::Expressions::slice))]
    fn slice(
        &self,
        tokens: &mut Tokens<'_, 's>,
        at: Access,
        x: &mut ReadExpression<'s>,
        p: OptionalPart<'s>,
    ) -> Replaced
        requires { Nests self.now.below (F.pre self.now.expr) (F.post self.now.expr) }
        ensures { let meant = spec.slice self.now.limit (spec.expr self.now.below)
            at.optional at.start (deep_of x.old) (part_of p.entry) in
            Takes (λ done. deep_of x.new) (meant (input tokens.old)) result tokens.new }
    {
        tokens.expect(Kind::Colon)?;
        let q = self.part(tokens)?;
        let r = self.step(tokens)?;
        self.slice_made(tokens, at, x, p, q, r)
    }

    /// The same where all bounds were read, from the closing bracket on.
    #[inline(never)]
    #[tactic(auto, unfolding(crate::specs::Expressions::slice_made))]
    fn slice_made(
        &self,
        tokens: &mut Tokens<'_, 's>,
        at: Access,
        x: &mut ReadExpression<'s>,
        p: OptionalPart<'s>,
        q: OptionalPart<'s>,
        r: OptionalPart<'s>,
    ) -> Replaced
        ensures { let rule = spec.slice_made self.now.limit (spec.expr self.now.below) in
            let a = part_of p.entry in let b = part_of q.entry in let c = part_of r.entry in
            let meant = rule at.optional at.start (deep_of x.old) a.0 b.0 c.0
            (max a.1 (max b.1 c.1)) in
            Takes (λ done. deep_of x.new) (meant (input tokens.old)) result tokens.new }
    {
        tokens.expect(Kind::RightBracket)?;
        let (a, b, c) = (p.depth, q.depth, r.depth);
        let depth = x.depth.max(a.max(b.max(c)));
        let bounds = Bounds {
            start: p.expression,
            end: q.expression,
            step: r.expression,
        };
        let target = take_operand(x);
        let sliced = Box::new(self.alloc, Sliced { target, bounds })?;
        let span = tokens.span(at.start);
        self.put(
            tokens,
            depth,
            Expression::slice(sliced, at.optional, span),
            x,
        )
    }
}
