// The small calculations: with two integers, done where the left operand lies.
ghost use Rattle.std.specs.Prelude.{◌≡◌, ◌*ℤ◌, ◌<ℤ◌, pos, Ok, IfSome, IsTrue};
ghost use Rattle.std.specs.Bool.{OnFalse, OnTrue};
ghost use Rattle.tera_errors.specs.Prelude.{Name};
ghost use Rattle.tera_errors.specs.declared.span.Span.{Span};
ghost use Rattle.tera_values.specs.Prelude.{bool, int, sum, difference, product, quotient, remainder};
ghost use Rattle.tera_operators.specs.Operators.{Makes, binary_of, is_comparison};

use crate::faults::span_of_both;
use crate::operand::Operand;
use tera_syntax_tree::BinaryOperator;
use tera_values::{Shape, Value};

/// Does where the left operand lies what the operator says, if both operands are integers, and an integer or a flag is made of
/// them at once. Tells whether it did: where it did not, nothing is changed, and `binary` has the answer. Takes no memory.
#[inline(always)]
pub fn binary_in_place(operator: BinaryOperator, left: &mut Operand, right: &Operand) -> bool
    ensures settled { OnTrue result ((file : Name) (span : Span) →
        binary_of file operator left.old right.now span ≡ Ok left.new) }
    ensures untouched { OnFalse result (left.new ≡ left.old) }
{
    if let Shape::Int(a) = left.value().shape() {
        if let Shape::Int(b) = right.value().shape() {
            if let Some(value) = small_result(operator, a, b) {
                *left = Operand::new(value, span_of_both(left, right));
                return true;
            }
        }
    }
    false
}

/// What the operator makes of two integers; none where that is a fault, or takes more than a few steps.
#[inline(always)]
#[tactic(auto, using(crate::proofs::InPlace::sum_is_made, crate::proofs::InPlace::difference_is_made, crate::proofs::InPlace::product_is_made, crate::proofs::InPlace::quotient_is_made, crate::proofs::InPlace::remainder_is_made, crate::proofs::InPlace::tells_less, crate::proofs::InPlace::tells_greater, crate::proofs::InPlace::tells_less_or_equal, crate::proofs::InPlace::tells_greater_or_equal))]
fn small_result(operator: BinaryOperator, a: i128, b: i128) -> Option<Value>
    ensures { IfSome result (Makes operator (int a) (int b)) }
{
    match operator {
        BinaryOperator::Add => sum(a, b),
        BinaryOperator::Subtract => difference(a, b),
        BinaryOperator::Multiply => small_product(a, b),
        BinaryOperator::FloorDivide => small_quotient(a, b),
        BinaryOperator::Remainder => small_remainder(a, b),
        BinaryOperator::Equal => Some(Value::from_bool(a == b)),
        BinaryOperator::NotEqual => Some(Value::from_bool(a != b)),
        BinaryOperator::Less => Some(Value::from_bool(a < b)),
        BinaryOperator::Greater => Some(Value::from_bool(a > b)),
        BinaryOperator::LessOrEqual => Some(Value::from_bool(a <= b)),
        BinaryOperator::GreaterOrEqual => Some(Value::from_bool(a >= b)),
        _ => None,
    }
}

/// What an operator that compares says of two integers.
#[inline(always)]
#[tactic(auto, using(crate::proofs::InPlace::tells_less, crate::proofs::InPlace::tells_greater, crate::proofs::InPlace::tells_less_or_equal, crate::proofs::InPlace::tells_greater_or_equal))]
pub fn compare_integers(operator: BinaryOperator, a: i128, b: i128) -> bool
    requires { IsTrue (is_comparison operator) }
    ensures { Makes operator (int a) (int b) (bool result) }
{
    match operator {
        BinaryOperator::Equal => a == b,
        BinaryOperator::NotEqual => a != b,
        BinaryOperator::Less => a < b,
        BinaryOperator::Greater => a > b,
        BinaryOperator::LessOrEqual => a <= b,
        BinaryOperator::GreaterOrEqual => a >= b,
        _ => unreachable!(),
    }
}

#[inline(always)]
fn sum(a: i128, b: i128) -> Option<Value>
    ensures { IfSome result (λ v. sum a b ≡ Ok v) }
{
    Some(Value::from_int(a.checked_add(b)?))
}

#[inline(always)]
fn difference(a: i128, b: i128) -> Option<Value>
    ensures { IfSome result (λ v. difference a b ≡ Ok v) }
{
    Some(Value::from_int(a.checked_sub(b)?))
}

/// The product of two numbers that a machine word holds each; none of larger ones, which take more than one step.
#[inline(always)]
fn small_product(a: i128, b: i128) -> Option<Value>
    ensures { IfSome result (λ v. product a b ≡ Ok v) }
{
    match (i64::try_from(a), i64::try_from(b)) {
        (Ok(a), Ok(b)) => Some(Value::from_int(word_product(a, b))),
        _ => None,
    }
}

// It always has room.
#[inline(always)]
fn word_product(a: i64, b: i64) -> i128
    ensures { result ≡ a *ℤ b }
{
    a as i128 * b as i128
}

/// Euclid's quotient of two numbers that a machine word holds each, by a positive one; none of others.
#[inline(always)]
fn small_quotient(a: i128, b: i128) -> Option<Value>
    ensures { IfSome result (λ v. quotient a b ≡ Ok v) }
{
    let (a, b) = words_to_divide(a, b)?;
    Some(Value::from_int(a.div_euclid(b) as i128))
}

/// Euclid's remainder of two numbers that a machine word holds each, by a positive one; none of others.
#[inline(always)]
fn small_remainder(a: i128, b: i128) -> Option<Value>
    ensures { IfSome result (λ v. remainder a b ≡ Ok v) }
{
    let (a, b) = words_to_divide(a, b)?;
    Some(Value::from_int(a.rem_euclid(b) as i128))
}

// Both numbers, where a machine word holds each and the second is positive.
#[inline(always)]
fn words_to_divide(a: i128, b: i128) -> Option<(i64, i64)>
    ensures { IfSome result (λ words. (words.0 ≡ a) × (words.1 ≡ b) × (pos 0 <ℤ b)) }
{
    match (i64::try_from(a), i64::try_from(b)) {
        (Ok(a), Ok(b)) if b > 0 => Some((a, b)),
        _ => None,
    }
}
