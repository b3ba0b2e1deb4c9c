// Expressions, to a greatest depth.
ghost use Rattle.tera_syntax_tokens.specs.Prelude.{Takes, input};
ghost use Rattle.tera_syntax_expressions.specs.Expressions as spec;
ghost use Rattle.tera_syntax_expressions.specs.Parts.{deep_of};

use crate::levels::stands_alone;
use crate::reader::{Reader, reader_within};
use std::alloc::Global;
use tera_syntax_tokens::refusal::{Reason, Refusal};
use tera_syntax_tokens::tokens::Tokens;
use tera_syntax_tree::Expression;

/// An expression, and how deep it is.
#[derive(Drop)]
pub struct ReadExpression<'s> {
    /// The expression.
    pub expression: Expression<'s>,
    /// How deep it is: a leaf is 1 deep.
    pub depth: usize,
}

/// What reading an expression gives.
pub(crate) type Read<'s> = Result<ReadExpression<'s>, Refusal>;

/// What going on from an operand gives, where the form that is made of it stands in its place.
pub(crate) type Replaced = Result<(), Refusal>;

/// What reading a row gives: its parts, and how deep the deepest is.
pub type ReadRow<T> = Result<(Vec<T>, usize), Refusal>;

/// What reading one part of a row gives, which is put among the others: how deep it is.
pub(crate) type Depth = Result<usize, Refusal>;

/// An expression of this level or above, no deeper than `limit`.
pub fn expr<'s>(
    alloc: Global,
    tokens: &mut Tokens<'_, 's>,
    limit: usize,
    floor: u8,
) -> Result<ReadExpression<'s>, Refusal>
    ensures { Takes deep_of (spec.expr limit floor (input tokens.old)) result tokens.new }
{
    let reader = reader_within!(limit, alloc, tokens, expr);
    if stands_alone(tokens, floor) {
        reader.leaf(tokens)
    } else {
        reader.level(tokens, floor)
    }
}
