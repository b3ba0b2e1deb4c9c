// Arithmetic, with each fault at its position.
ghost use Rattle.std.specs.Prelude.{ℤ, Result, IsOk};
ghost use Rattle.tera_errors.specs.Prelude.{Fault, Gives};
ghost use Rattle.tera_values.specs.Prelude.{Val, integers, on_integers, unless_zero};
ghost use Rattle.tera_operators.specs.Operators.{number_at, numbers, divisor_of, combined, calculated, divided, negative_of};

use crate::faults::{operand_or_fault, span_of_both};
use crate::operand::Operand;
use std::alloc::Global;
use tera_values::{Error, TeraResult, Value, number};

/// The number; a fault at the operand, in these words, where it is none.
fn number_at(alloc: Global, file: &str, operand: &Operand, words: &str) -> TeraResult<i128>
    ensures value { Gives (λ n. n) result (number_at file.now operand.now) }
    ensures ready { IsOk (number_at file.now operand.now) → IsOk result }
{
    match operand.value().as_i128() {
        Some(number) => Ok(number),
        None => Err(Error::rendering(alloc, words, file, operand.span())),
    }
}

/// Both numbers; of two operands that are none the left one is the fault.
fn numbers(
    alloc: Global,
    file: &str,
    left: &Operand,
    right: &Operand,
    words: &str,
) -> TeraResult<(i128, i128)>
    ensures value { Gives (λ p. p) result (numbers file.now left.now right.now) }
    ensures ready { IsOk (numbers file.now left.now right.now) → IsOk result }
{
    let left = number_at(alloc, file, left, words)?;
    let right = number_at(alloc, file, right, words)?;
    Ok((left, right))
}

/// The divisor, after both are numbers; a fault at the right operand where it is zero.
fn divisor(
    alloc: Global,
    file: &str,
    left: &Operand,
    right: &Operand,
    words: &str,
) -> TeraResult<i128>
    ensures value { Gives (λ n. n) result (divisor_of file.now left.now right.now) }
    ensures ready { IsOk (divisor_of file.now left.now right.now) → IsOk result }
{
    let (_, divisor) = numbers(alloc, file, left, right, words)?;
    if divisor == 0 {
        return Err(Error::rendering(alloc, "the divisor is zero", file, right.span()));
    }
    Ok(divisor)
}

// What the error tells.
fn words_of(error: &Error) -> &str {
    match error.words() {
        Some(words) => words,
        None => "a number is wanted here",
    }
}

/// The operands of an operator, and the file that they stand in.
#[derive(Clone, Copy)]
pub(crate) struct OperandPair<'a> {
    pub file: &'a str,
    pub left: &'a Operand,
    pub right: &'a Operand,
}

impl<'a> OperandPair<'a> {
    /// The number, or the fault, at the combined span.
    #[inline(always)]
    pub(crate) fn result_at_combined_span(
        self,
        alloc: Global,
        answer: TeraResult<Value>,
    ) -> TeraResult<Operand>
        ensures value { (meant : Result Val Fault) → Gives (λ v. v) answer meant →
            Gives (λ o. o) result (combined self.entry.file.now
            self.entry.left.now self.entry.right.now meant) }
        ensures ready { IsOk answer → IsOk result }
    {
        let span = span_of_both(self.left, self.right);
        operand_or_fault(alloc, self.file, answer, span, span)
    }

    /// The same of a calculation with two numbers: an operand that is none is the fault before all else. Only where the number
    /// was refused are the operands looked at, since what gives a number was given two.
    #[inline(always)]
    pub(crate) fn calculation_result(
        self,
        alloc: Global,
        answer: TeraResult<Value>,
    ) -> TeraResult<Operand>
        ensures value { (f : ℤ → ℤ → Result Val Fault) →
            Gives (λ v. v) answer
            (on_integers f (integers self.entry.left.now.value self.entry.right.now.value)) →
            Gives (λ o. o) result (calculated self.entry.file.now
            (λ v w. on_integers f (integers v w)) self.entry.left.now self.entry.right.now) }
        ensures ready { IsOk answer → IsOk result }
    {
        if let Err(error) = &answer {
            numbers(alloc, self.file, self.left, self.right, words_of(error))?;
        }
        self.result_at_combined_span(alloc, answer)
    }

    /// The same of a division, at whose zero divisor the fault is at the right operand.
    #[inline(always)]
    pub(crate) fn division_result(
        self,
        alloc: Global,
        answer: TeraResult<Value>,
    ) -> TeraResult<Operand>
        ensures value { (f : ℤ → ℤ → Result Val Fault) →
            let divide : Val → Val → Result Val Fault =
            λ v w. on_integers (λ a b. unless_zero b (f a b)) (integers v w) in
            Gives (λ v. v) answer (divide self.entry.left.now.value self.entry.right.now.value) →
            Gives (λ o. o) result (divided self.entry.file.now divide
            self.entry.left.now self.entry.right.now) }
        ensures ready { IsOk answer → IsOk result }
    {
        if let Err(error) = &answer {
            divisor(alloc, self.file, self.left, self.right, words_of(error))?;
        }
        self.result_at_combined_span(alloc, answer)
    }
}

/// `-operand`, at the operand's span, as its faults are.
pub fn negate(alloc: Global, file: &str, operand: &Operand) -> TeraResult<Operand>
    ensures value { Gives (λ o. o) result (negative_of file.now operand.now) }
    ensures ready { IsOk (negative_of file.now operand.now) → IsOk result }
{
    let answer = number::negate(alloc, operand.value());
    operand_or_fault(alloc, file, answer, operand.span(), operand.span())
}
