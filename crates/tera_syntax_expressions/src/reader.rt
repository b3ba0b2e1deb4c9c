// What every form is read with.
ghost use Rattle.tera_syntax_tree.specs.Prelude.{expr_of};
ghost use Rattle.tera_syntax_tokens.specs.Prelude.{Takes, input};
ghost use Rattle.tera_syntax_expressions.specs.Expressions as spec;
ghost use Rattle.std.specs.Prelude.{◌≡◌};
ghost use Rattle.tera_syntax_expressions.specs.Parts.{IsEmptied, Nests, deep_of};

use crate::expressions::{Read, ReadExpression, Replaced};
use std::alloc::Global;
use std::mem::{forget, replace};
use tera_errors::Span;
use tera_syntax_tokens::refusal::{Reason, Refusal};
use tera_syntax_tokens::tokens::Tokens;
use tera_syntax_tree::Expression;

/// A part that need not be written, in a box if it is, and how deep it is.
#[derive(Drop)]
pub(crate) struct OptionalPart<'s> {
    pub(crate) expression: Option<Box<Expression<'s>>>,
    pub(crate) depth: usize,
}

/// The reader of expressions of one depth.
#[derive(Drop)]
pub(crate) struct Reader<F> {
    pub(crate) alloc: Global,
    /// How deep an expression may be.
    pub(crate) limit: usize,
    /// How deep its parts may be.
    pub(crate) below: usize,
    /// What reads its parts.
    pub(crate) expr: F,
}

/// What reads forms no deeper than a limit, over parts that are one less deep at the most. At 0 nothing is read.
macro_rules! reader_within {
    ($limit:ident, $alloc:ident, $tokens:ident, $expr:ident) => {{
        if $limit == 0 {
            return Err($tokens.refuse(Reason::TooDeep));
        }
        Reader {
            alloc: $alloc,
            limit: $limit,
            below: $limit - 1,
            expr: $expr,
        }
    }};
}

pub(crate) use reader_within;

/// What was read, or at once the refusal. A `?` would copy what was read twice more, and make room for it at each level that is open.
macro_rules! read {
    ($reading:expr) => {
        match $reading {
            Ok(x) => x,
            Err(refusal) => return Err(refusal),
        }
    };
}

pub(crate) use read;

impl<'s, F: Fn(Global, &mut Tokens<'_, 's>, usize, u8) -> Read<'s>> Reader<F> {
    /// A part, of this level or above.
    #[inline(always)]
    pub(crate) fn sub(&self, tokens: &mut Tokens<'_, 's>, floor: u8) -> Read<'s>
        requires { Nests self.now.below (F.pre self.now.expr) (F.post self.now.expr) }
        ensures { Takes deep_of (spec.expr self.now.below floor (input tokens.old))
            result tokens.new }
    {
        (self.expr)(self.alloc, tokens, self.below, floor)
    }

    /// A form over parts of this depth.
    #[inline(always)]
    #[tactic(auto, unfolding(crate::specs::Expressions::node))]
    pub(crate) fn node(&self, tokens: &Tokens<'_, 's>, depth: usize, x: Expression<'s>) -> Read<'s>
        ensures { Takes deep_of (spec.node self.now.limit depth (expr_of x.entry)
            (input tokens.now)) result tokens.now }
    {
        if depth >= self.limit {
            return Err(tokens.refuse(Reason::TooDeep));
        }
        Ok(ReadExpression {
            expression: x,
            depth: depth + 1,
        })
    }

    /// The same in the place of the operand that the form is made of.
    #[inline(always)]
    #[tactic(auto, unfolding(crate::specs::Expressions::node))]
    pub(crate) fn put(
        &self,
        tokens: &Tokens<'_, 's>,
        depth: usize,
        form: Expression<'s>,
        x: &mut ReadExpression<'s>,
    ) -> Replaced
        requires { IsEmptied x.now }
        ensures { Takes (λ done. deep_of x.new) (spec.node self.now.limit depth (expr_of form.entry)
            (input tokens.now)) result tokens.now }
    {
        if depth >= self.limit {
            return Err(tokens.refuse(Reason::TooDeep));
        }
        // The leaf that is left in the place has nothing to drop.
        forget(replace(&mut x.expression, form));
        x.depth = depth + 1;
        Ok(())
    }
}

/// Takes an operand out of its place, up to when the form that is made of it is put there.
#[inline(always)]
pub(crate) fn take_operand<'s>(x: &mut ReadExpression<'s>) -> Expression<'s>
    ensures value { expr_of result ≡ expr_of x.old.expression }
    ensures emptied { IsEmptied x.new }
{
    let span = Span { start: 0, end: 0 };
    replace(&mut x.expression, Expression::None { span })
}
