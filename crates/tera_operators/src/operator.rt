// Operators between two operands.
ghost use Rattle.std.specs.Prelude.{◌≢◌, IsOk};
ghost use Rattle.tera_errors.specs.Prelude.{Gives};
ghost use Rattle.tera_operators.specs.Operators.{binary_of};

use crate::arithmetic::OperandPair;
use crate::membership::is_in;
use crate::operand::Operand;
use crate::text::concatenate;
use std::alloc::Global;
use tera_syntax_tree::BinaryOperator;
use tera_values::number::{add, div, floor_div, mul, pow, rem, sub};
use tera_values::{Span, TeraResult};

/// What the operator makes of the two operands. The span is that of the expression, and only what `in` answers has it: all other
/// answers have the span from the left operand's start to the right one's end. Of the answers that are no fault only a joined
/// text takes memory.
#[inline(always)]
pub fn binary(
    alloc: Global,
    file: &str,
    operator: BinaryOperator,
    left: &Operand,
    right: &Operand,
    span: Span,
) -> TeraResult<Operand>
    ensures value { Gives (λ o. o) result (binary_of file.now operator left.now right.now span) }
    ensures ready { operator ≢ BinaryOperator.Concat →
        IsOk (binary_of file.now operator left.now right.now span) → IsOk result }
{
    let (a, b) = (left.value(), right.value());
    let operands = OperandPair { file, left, right };
    match operator {
        BinaryOperator::Add => operands.result_at_combined_span(alloc, add(alloc, a, b)),
        BinaryOperator::Subtract => operands.calculation_result(alloc, sub(alloc, a, b)),
        BinaryOperator::Multiply => operands.calculation_result(alloc, mul(alloc, a, b)),
        BinaryOperator::Power => operands.calculation_result(alloc, pow(alloc, a, b)),
        BinaryOperator::Divide => operands.division_result(alloc, div(alloc, a, b)),
        BinaryOperator::FloorDivide => operands.division_result(alloc, floor_div(alloc, a, b)),
        BinaryOperator::Remainder => operands.division_result(alloc, rem(alloc, a, b)),
        BinaryOperator::Concat => concatenate(alloc, left, right),
        BinaryOperator::Equal
        | BinaryOperator::NotEqual
        | BinaryOperator::Less
        | BinaryOperator::Greater
        | BinaryOperator::LessOrEqual
        | BinaryOperator::GreaterOrEqual => {
            left.lend().compare(alloc, file, operator, &right.lend())
        }
        BinaryOperator::In => is_in(alloc, file, left, right, span),
    }
}
