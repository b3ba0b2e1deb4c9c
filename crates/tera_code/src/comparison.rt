// Comparisons with a constant.
use crate::constant::Constant;
use tera_syntax_tree::BinaryOperator;
use tera_values::Span;

/// What the topmost operand is compared with, and how. The constant is its right operand.
#[derive(Drop)]
pub struct Comparison<'a> {
    pub constant: Constant<'a>,
    /// Where the constant stands.
    pub constant_span: Span,
    pub operator: BinaryOperator,
    pub span: Span,
}

/// The same with an integer of at most 64 bits with its sign.
#[derive(Clone, Copy)]
pub struct IntegerComparison {
    pub integer: i64,
    /// Where the integer stands.
    pub integer_span: Span,
    pub operator: BinaryOperator,
    pub span: Span,
}
