// Comprehensions.
ghost use Rattle.std.specs.Prelude.{◌≡◌, option_copied};
ghost use Rattle.tera_syntax_tree.specs.Prelude.{expr_of};
ghost use Rattle.tera_syntax_tokens.specs.Prelude.{Takes, input};
ghost use Rattle.tera_syntax_expressions.specs.Expressions as spec;
ghost use Rattle.tera_syntax_expressions.specs.Parts.{Follows, GoesOn, Nests, deep_of, names_of, part_of};

use crate::expressions::{Read, ReadExpression, Replaced};
use crate::headings::{HeadingNames, names};
use crate::precedence;
use crate::reader::{OptionalPart, Reader, read, take_operand};
use crate::shared_forms::{no_part, some_part};
use std::alloc::Global;
use tera_syntax_tokens::refusal::Refusal;
use tera_syntax_tokens::token::Kind;
use tera_syntax_tokens::tokens::Tokens;
use tera_syntax_tree::{Collected, Expression, Heading};

impl<'s, F: Fn(Global, &mut Tokens<'_, 's>, usize, u8) -> Read<'s>> Reader<F> {
    /// `[x for name in y]`, from `for` on.
    #[inline(never)]
    #[tactic(auto, unfolding(crate::specs::Expressions::comprehension))]
    pub(crate) fn comprehension(
        &self,
        tokens: &mut Tokens<'_, 's>,
        start: usize,
        x: &mut ReadExpression<'s>,
    ) -> Replaced
        requires { Nests self.now.below (F.pre self.now.expr) (F.post self.now.expr) }
        ensures { GoesOn spec.comprehension self.now start x.old x.new tokens.old result tokens.new }
    {
        tokens.take();
        let names = read!(names(tokens));
        let target = read!(self.sub(tokens, precedence::OR));
        let only = self.condition(tokens)?;
        self.comprehension_made(tokens, start, x, names, target, only)
    }

    /// The same where all parts were read, from the closing bracket on.
    #[inline(never)]
    #[tactic(auto, unfolding(crate::specs::Expressions::comprehension_made))]
    fn comprehension_made(
        &self,
        tokens: &mut Tokens<'_, 's>,
        start: usize,
        x: &mut ReadExpression<'s>,
        names: HeadingNames<'s>,
        target: ReadExpression<'s>,
        only: OptionalPart<'s>,
    ) -> Replaced
        ensures { let rule = spec.comprehension_made self.now.limit (spec.expr self.now.below) in
            let meant = rule start (deep_of x.old) (names_of names.entry) (deep_of target.entry)
            (part_of only.entry) in
            Takes (λ done. deep_of x.new) (meant (input tokens.old)) result tokens.new }
    {
        tokens.expect(Kind::RightBracket)?;
        let (a, b, c) = (x.depth, target.depth, only.depth);
        let depth = a.max(b.max(c));
        let collected = Collected {
            value: take_operand(x),
            heading: heading(names, target.expression),
            condition: only.expression,
        };
        let collected = Box::new(self.alloc, collected)?;
        let expression = Expression::comprehension(collected, tokens.span(start));
        self.put(tokens, depth, expression, x)
    }

    /// The condition of a comprehension, if it is written, and how deep it is.
    #[inline(always)]
    #[tactic(auto, unfolding(crate::specs::Expressions::condition))]
    pub(crate) fn condition(&self, tokens: &mut Tokens<'_, 's>) -> Result<OptionalPart<'s>, Refusal>
        requires { Nests self.now.below (F.pre self.now.expr) (F.post self.now.expr) }
        ensures { Follows part_of spec.condition self.now tokens.old result tokens.new }
    {
        if tokens.kind() != Kind::If {
            return Ok(no_part());
        }
        tokens.take();
        let x = read!(self.sub(tokens, precedence::OR));
        Ok(some_part(self.alloc, x)?)
    }
}

/// The names of a loop and what it goes over, in one.
fn heading<'s>(names: HeadingNames<'s>, target: Expression<'s>) -> Heading<'s>
    ensures key { option_copied result.key ≡ option_copied names.entry.key }
    ensures name { result.name.now ≡ names.entry.name.now }
    ensures target { expr_of result.target ≡ expr_of target.entry }
{
    Heading {
        key: names.key,
        name: names.name,
        target,
    }
}
