// The forms that signs and names make of their operands.
ghost use Rattle.std.specs.Prelude.{◌≡◌, IfOk};
ghost use Rattle.tera_syntax_tree.specs.Prelude.{applied_of, expr_of};
ghost use Rattle.tera_syntax_expressions.specs.Applications.{application_of};
ghost use Rattle.tera_syntax_expressions.specs.Parts.{infix_of, prefix_of};

use std::alloc::{AllocError, Global};
use tera_errors::Span;
use tera_syntax_tree::{Applied, BinaryOperator, Expression, Operands};

/// What stands before an operand.
#[derive(Clone, Copy)]
pub(crate) enum Prefix {
    /// `-x`
    Negate,
    /// `not x`
    Not,
}

/// What stands between two operands.
#[derive(Clone, Copy)]
pub(crate) enum Infix {
    /// `and`, which reads its right operand only where it has to.
    And,
    /// `or`, likewise.
    Or,
    /// An operator that works on two values.
    Binary(BinaryOperator),
}

/// What a name behind a value makes of it.
#[derive(Clone, Copy)]
pub(crate) enum Application {
    /// `x | name`
    Filter,
    /// `x is name`
    Test,
}

/// The form that a sign makes of the operand behind it.
#[inline(always)]
pub(crate) fn make_prefix<'s>(
    alloc: Global,
    op: Prefix,
    x: Expression<'s>,
    span: Span,
) -> Result<Expression<'s>, AllocError>
    ensures { IfOk result (λ e. expr_of e ≡ prefix_of op (expr_of x.entry) span) }
{
    match op {
        Prefix::Negate => Expression::negate(alloc, x, span),
        Prefix::Not => Expression::not(alloc, x, span),
    }
}

/// The form that an operator makes of its operands.
pub(crate) fn make_infix<'s>(op: Infix, operands: Box<Operands<'s>>, span: Span) -> Expression<'s>
    ensures { expr_of result ≡ infix_of op (expr_of operands.entry.value.left)
        (expr_of operands.entry.value.right)
        span }
{
    match op {
        Infix::And => Expression::and(operands, span),
        Infix::Or => Expression::or(operands, span),
        Infix::Binary(operator) => Expression::binary(operator, operands, span),
    }
}

/// The form that a name and arguments make of a value.
#[inline(always)]
pub(crate) fn make_application<'s>(
    form: Application,
    applied: Box<Applied<'s>>,
    span: Span,
) -> Expression<'s>
    ensures { expr_of result ≡ applied_of (application_of form) applied.entry.value span }
{
    match form {
        Application::Filter => Expression::filter(applied, span),
        Application::Test => Expression::test(applied, span),
    }
}
