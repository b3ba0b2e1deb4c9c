// Forms that more than one rule makes.
ghost use Rattle.std.specs.Prelude.{◌≡◌, max, IfOk};
ghost use Rattle.tera_syntax_tree.specs.Prelude.{Absent, Not, Present, arguments_of, expr_of};
ghost use Rattle.tera_syntax_tokens.specs.Prelude.{span, Takes, input};
ghost use Rattle.tera_syntax_expressions.specs.Applications.{application_of};
ghost use Rattle.tera_syntax_expressions.specs.Expressions as spec;
ghost use Rattle.tera_syntax_expressions.specs.Parts.{Nests, deep_of, part_of};

use crate::expressions::{Read, ReadExpression, Replaced};
use crate::operator_forms::{Application, make_application};
use crate::reader::{OptionalPart, Reader, take_operand};
use std::alloc::{AllocError, Global};
use tera_syntax_tokens::refusal::Refusal;
use tera_syntax_tokens::tokens::Tokens;
use tera_syntax_tree::{Applied, Argument, Expression};

impl<'s, F: Fn(Global, &mut Tokens<'_, 's>, usize, u8) -> Read<'s>> Reader<F> {
    /// What was read, inverted.
    #[inline(never)]
    pub(crate) fn inverse(
        &self,
        tokens: &mut Tokens<'_, 's>,
        start: usize,
        x: &mut ReadExpression<'s>,
    ) -> Replaced
        ensures { let i = input tokens.old in let whole = deep_of x.old in
            let meant = spec.node self.now.limit whole.depth (Not whole.expr (span start i)) in
            Takes (λ done. deep_of x.new) (meant i) result tokens.new }
    {
        let depth = x.depth;
        let expression = Expression::not(self.alloc, take_operand(x), tokens.span(start))?;
        self.put(tokens, depth, expression, x)
    }

    /// What a name and arguments make of a value, from the name on.
    #[inline(always)]
    #[tactic(auto, unfolding(crate::specs::Expressions::application))]
    pub(crate) fn application(
        &self,
        tokens: &mut Tokens<'_, 's>,
        form: Application,
        start: usize,
        x: &mut ReadExpression<'s>,
    ) -> Replaced
        requires { Nests self.now.below (F.pre self.now.expr) (F.post self.now.expr) }
        ensures { let meant = spec.application self.now.limit (spec.expr self.now.below)
            (application_of form) start (deep_of x.old) in
            Takes (λ done. deep_of x.new) (meant (input tokens.old)) result tokens.new }
    {
        let name = tokens.text();
        tokens.take();
        let (arguments, b) = self.optional_arguments(tokens)?;
        self.apply(tokens, form, start, x, name, arguments, b)
    }

    /// The same where the arguments were read.
    #[inline(never)]
    fn apply(
        &self,
        tokens: &Tokens<'_, 's>,
        form: Application,
        start: usize,
        x: &mut ReadExpression<'s>,
        name: &'s str,
        arguments: Vec<Argument<'s>>,
        depth: usize,
    ) -> Replaced
        ensures { let i = input tokens.now in let a = deep_of x.old in
            let all = arguments_of arguments.entry.items in
            let made = application_of form a.expr name.now all (span start i) in
            Takes (λ done. deep_of x.new) (spec.node self.now.limit (max a.depth depth) made i)
            result tokens.now }
    {
        let depth = x.depth.max(depth);
        let applied = Applied {
            value: take_operand(x),
            name,
            arguments,
        };
        let applied = Box::new(self.alloc, applied)?;
        let expression = make_application(form, applied, tokens.span(start));
        self.put(tokens, depth, expression, x)
    }
}

/// A part that is not written.
#[inline(always)]
pub(crate) fn no_part<'s>() -> OptionalPart<'s>
    ensures { part_of result ≡ (Absent, 0) }
{
    OptionalPart {
        expression: None,
        depth: 0,
    }
}

/// A part that is.
#[inline(always)]
pub(crate) fn some_part<'s>(
    alloc: Global,
    x: ReadExpression<'s>,
) -> Result<OptionalPart<'s>, AllocError>
    ensures { IfOk result (λ p. part_of p
        ≡ (Present (expr_of x.entry.expression), x.entry.depth)) }
{
    let depth = x.depth;
    let expression = Box::new(alloc, x.expression)?;
    Ok(OptionalPart {
        expression: Some(expression),
        depth,
    })
}
