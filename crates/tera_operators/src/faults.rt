// Faults at the spans that they tell of.
ghost use Rattle.std.specs.Prelude.{◌≡◌, Result, IsOk};
ghost use Rattle.tera_errors.specs.Prelude.{Fault, rendering_error, Gives, Tells};
ghost use Rattle.tera_values.specs.Prelude.{Val};
ghost use Rattle.tera_operators.specs.Operand.{Retells, at_span, placed, spanning, then};

use crate::operand::Operand;
use std::alloc::{AllocError, Global};
use tera_values::{Error, ErrorKind, Span, TeraResult, Value};

/// From the start of the left operand to the end of the right one.
#[inline(always)]
pub(crate) fn span_of_both(left: &Operand, right: &Operand) -> Span
    ensures { result ≡ spanning left.now right.now }
{
    Span {
        start: left.span().start,
        end: right.span().end,
    }
}

/// The error as a fault at this span of the file, in the same words. Want of memory stays what it is.
#[inline(never)]
pub fn fault_at(alloc: Global, file: &str, error: &Error, span: Span) -> Error
    ensures { Retells error.now result
        (rendering_error (record { file = file.now; span = span })) }
{
    match error.kind() {
        ErrorKind::OutOfMemory => Error::out_of_memory(),
        _ => match error.words() {
            Some(words) => Error::rendering(alloc, words, file, span),
            None => Error::rendering(alloc, "this is refused", file, span),
        },
    }
}

/// The same, where the value at the span is what the error tells of.
#[inline(never)]
pub fn fault_of_value_at(alloc: Global, file: &str, error: &Error, span: Span) -> Error
    ensures { Retells error.now result
        (rendering_error (record { file = file.now; span = span })) }
{
    match error.kind() {
        ErrorKind::OutOfMemory => Error::out_of_memory(),
        _ => match error.words() {
            Some(words) => Error::rendering_of_value(alloc, words, file, span),
            None => Error::rendering(alloc, "this is refused", file, span),
        },
    }
}

/// A fault that tells of the template's text at the span, in words that were made for it and go on behind that text.
#[inline(never)]
pub(crate) fn fault_of(
    alloc: Global,
    words: Result<String, AllocError>,
    file: &str,
    span: Span,
) -> Error
    ensures { Tells result (rendering_error (record { file = file.now; span = span })) }
{
    match words {
        Ok(words) => Error::rendering_of(alloc, words.as_str(), file, span),
        Err(_) => Error::out_of_memory(),
    }
}

/// The value as an operand at a span, or the error as a fault at another.
#[inline(always)]
pub fn operand_or_fault(
    alloc: Global,
    file: &str,
    answer: TeraResult<Value>,
    fault: Span,
    span: Span,
) -> TeraResult<Operand>
    ensures placed { (meant : Result Val Fault) → Gives (λ v. v) answer meant →
        Gives (λ o. o) result (then (placed file.now meant fault) (λ v. at_span v span)) }
    ensures ready { IsOk answer → IsOk result }
{
    match answer {
        Ok(value) => Ok(Operand::new(value, span)),
        Err(error) => Err(fault_at(alloc, file, &error, fault)),
    }
}
