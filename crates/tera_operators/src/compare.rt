// Truth, equality and order.
ghost use Rattle.std.specs.Prelude.{◌≡◌, Bool, IsOk, IsTrue};
ghost use Rattle.tera_errors.specs.declared.span.Span.{Span};
ghost use Rattle.tera_errors.specs.Prelude.{Gives, Tells, rendering_error};
ghost use Rattle.tera_values.specs.Prelude.{bool, checked_order, same};
ghost use Rattle.tera_operators.specs.Operand.{spanning};
ghost use Rattle.tera_operators.specs.Operators.{not_of, standing_of, compared, is_comparison, binary_of};

use crate::operand::{LentOperand, Operand};
use std::alloc::Global;
use std::cmp::Ordering;
use tera_syntax_tree::BinaryOperator;
use tera_values::{Error, Shape, TeraResult, Value};

/// `not operand`: a truth value, at the operand's span.
pub fn not(operand: &Operand) -> Operand
    ensures { result ≡ not_of operand.now }
{
    Operand::new(
        Value::from_bool(!operand.value().is_truthy()),
        operand.span(),
    )
}

/// Whether an operator compares: it tells whether its operands are the same, or how they stand in order.
#[inline(always)]
pub fn is_comparison(operator: BinaryOperator) -> bool
    ensures { result ≡ is_comparison operator }
{
    match operator {
        BinaryOperator::Equal
        | BinaryOperator::NotEqual
        | BinaryOperator::Less
        | BinaryOperator::Greater
        | BinaryOperator::LessOrEqual
        | BinaryOperator::GreaterOrEqual => true,
        _ => false,
    }
}

impl<'v> LentOperand<'v> {
    /// What an operator that compares makes of this operand and of one on its right: a truth value at the combined span. Nothing
    /// is copied, and no answer but a fault takes memory.
    #[inline(always)]
    pub fn compare(
        &self,
        alloc: Global,
        file: &str,
        operator: BinaryOperator,
        right: &LentOperand<'_>,
    ) -> TeraResult<Operand>
        requires { IsTrue (is_comparison operator) }
        ensures value { (span : Span) →
            Gives (λ o. o) result (binary_of file.now operator self.now right.now span) }
        ensures ready { (span : Span) →
            IsOk (binary_of file.now operator self.now right.now span) → IsOk result }
    {
        match operator {
            BinaryOperator::Equal => Ok(truth(self.is_same(right), self, right)),
            BinaryOperator::NotEqual => Ok(truth(!self.is_same(right), self, right)),
            BinaryOperator::Less => compare_by(alloc, file, self, right, Ordering::is_lt),
            BinaryOperator::Greater => compare_by(alloc, file, self, right, Ordering::is_gt),
            BinaryOperator::LessOrEqual => compare_by(alloc, file, self, right, Ordering::is_le),
            BinaryOperator::GreaterOrEqual => compare_by(alloc, file, self, right, Ordering::is_ge),
            _ => unreachable!(),
        }
    }

    // Whether the two values are the same, as what is undefined is with nothing else.
    #[inline(always)]
    #[tactic(auto, using(crate::proofs::Undefined::undefined_is_same, crate::proofs::Undefined::same_undefined))]
    fn is_same(&self, right: &LentOperand<'_>) -> bool
        ensures { result ≡ same self.now.value right.now.value }
    {
        match self.value() {
            None => right.is_undefined(),
            Some(left) => match right.value() {
                None => left.is_undefined(),
                Some(right) => left == right,
            },
        }
    }

    // How the value stands to the right one; none where the two are not comparable, as what is undefined never is.
    #[inline(always)]
    #[tactic(auto, using(crate::proofs::Undefined::undefined_stands, crate::proofs::Undefined::stands_undefined))]
    fn order(&self, right: &LentOperand<'_>) -> Option<Ordering>
        ensures { result ≡ checked_order self.now.value right.now.value }
    {
        match self.value() {
            None => None,
            Some(left) => match right.value() {
                None => None,
                Some(right) => order_of(left, right),
            },
        }
    }

    // Neither operand stands before the other: both kinds are named.
    #[inline(never)]
    fn incomparable_error(&self, alloc: Global, file: &str, right: &LentOperand<'_>) -> Error
        ensures { Tells result (rendering_error
            (record { file = file.now; span = spanning self.now right.now })) }
    {
        let (left_kind, right_kind) = (self.in_words(), right.in_words());
        let words = format!(in alloc; "{left_kind} and {right_kind} are not comparable");
        match words {
            Ok(words) => Error::rendering(alloc, words.as_str(), file, self.span_to(right)),
            Err(_) => Error::out_of_memory(),
        }
    }

    // What kind of thing the value is, in words.
    fn in_words(&self) -> &'static str {
        match self.value() {
            Some(value) => value.in_words(),
            None => "undefined",
        }
    }

    // How the operand stands to the right one; a fault at the combined span where the two are not comparable.
    #[inline(always)]
    fn order_or_fault(
        &self,
        alloc: Global,
        file: &str,
        right: &LentOperand<'_>,
    ) -> TeraResult<Ordering>
        ensures value { Gives (λ o. o) result (standing_of file.now self.now right.now) }
        ensures ready { IsOk (standing_of file.now self.now right.now) → IsOk result }
    {
        match self.order(right) {
            Some(standing) => Ok(standing),
            None => Err(self.incomparable_error(alloc, file, right)),
        }
    }
}

/// A truth value at the combined span.
#[inline(always)]
fn truth(flag: bool, left: &LentOperand<'_>, right: &LentOperand<'_>) -> Operand
    ensures { result ≡ record { value = bool flag; span = spanning left.now right.now } }
{
    Operand::new(Value::from_bool(flag), left.span_to(right))
}

/// How the left value stands to the right one; none where the two are not comparable. Two integers are compared in place.
#[inline(always)]
fn order_of(left: &Value, right: &Value) -> Option<Ordering>
    ensures { result ≡ checked_order left.now right.now }
{
    match left.shape() {
        Shape::Int(a) => match right.shape() {
            Shape::Int(b) => Some(a.cmp(&b)),
            _ => left.checked_cmp(right),
        },
        _ => left.checked_cmp(right),
    }
}

/// Whether the test holds of how the left operand stands to the right one, at the combined span.
#[inline(always)]
fn compare_by<F: FnOnce(Ordering) -> bool>(
    alloc: Global,
    file: &str,
    left: &LentOperand<'_>,
    right: &LentOperand<'_>,
    holds: F,
) -> TeraResult<Operand>
    requires { F.IsAlwaysCallable holds }
    ensures value { (test : Ordering → Bool) →
        ((o : Ordering) (b : Bool) → F.post holds o b → b ≡ test o) →
        Gives (λ o. o) result (compared file.now test left.now right.now) }
    ensures ready { IsOk (standing_of file.now left.now right.now) → IsOk result }
{
    let standing = left.order_or_fault(alloc, file, right)?;
    Ok(truth(holds(standing), left, right))
}
