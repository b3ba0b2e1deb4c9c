// Attributes, items and slices.
ghost use Rattle.std.specs.Prelude.{◌≡◌, IsTrue, IsOk, IsOkAnd};
ghost use Rattle.tera_errors.specs.Prelude.{Gives, Tells, rendering_error};
ghost use Rattle.tera_values.specs.Prelude.{IsScalar};
ghost use Rattle.tera_operators.specs.Accesses.{is_missing, part_of, Decides, attribute_of, item_of, bound_at, slice_of};

use crate::faults::{fault_of, operand_or_fault, span_of_both};
use crate::operand::{LentOperand, Operand};
use std::alloc::Global;
use tera_values::{Error, Shape, Span, TeraResult, Value};

/// Undefined or none.
fn is_missing(target: &LentOperand<'_>) -> bool
    ensures { result ≡ is_missing target.now.value }
{
    match target.value() {
        Some(value) => matches!(&value.shape(), Shape::Undefined | Shape::None),
        None => true,
    }
}

/// Whether any access of this target gives undefined, as it has no parts: undefined and none where the access is optional.
/// Where it isn't, undefined is a fault, which names the attribute that is asked for.
#[inline(always)]
fn without_parts(
    alloc: Global,
    file: &str,
    target: &LentOperand<'_>,
    optional: bool,
    part: Option<&str>,
) -> TeraResult<bool>
    ensures answer { Decides result (part_of file.now optional target.now) }
    ensures ready { IsTrue optional → IsTrue (is_missing target.now.value) →
        IsOkAnd result IsTrue }
{
    if optional {
        return Ok(is_missing(target));
    }
    if target.is_undefined() {
        return Err(undefined_target(alloc, file, part, target.span()));
    }
    Ok(false)
}

// The target is undefined, so this attribute, or an item or a slice, can't be taken of it.
#[inline(never)]
fn undefined_target(alloc: Global, file: &str, part: Option<&str>, span: Span) -> Error
    ensures { Tells result (rendering_error (record { file = file.now; span = span })) }
{
    let words = match part {
        Some(name) => format!(in alloc; "is undefined, so `{name}` cannot be taken of it"),
        None => String::from_str(alloc, "is undefined, so nothing can be taken of it"),
    };
    fault_of(alloc, words, file, span)
}

impl<'v> LentOperand<'v> {
    /// `target.name`, or `target?.name` where it is optional: undefined where the target has no such attribute. It is lent
    /// as the target is.
    pub fn attribute(
        &self,
        alloc: Global,
        file: &str,
        name: &str,
        optional: bool,
        span: Span,
    ) -> TeraResult<LentOperand<'v>>
        ensures part { Gives (λ o. o) result
            (attribute_of file.now optional self.now name.now span) }
        ensures ready { IsOk (attribute_of file.now optional self.now name.now span) →
            IsOk result }
    {
        if without_parts(alloc, file, self, optional, Some(name))? {
            return Ok(LentOperand::new(None, span));
        }
        let part = match self.value() {
            Some(value) => value.get_attr(name),
            None => None,
        };
        Ok(LentOperand::new(part, span))
    }
}

/// The same as an operand of its own, of a target that was evaluated.
pub fn attribute(
    alloc: Global,
    file: &str,
    target: &Operand,
    name: &str,
    optional: bool,
    span: Span,
) -> TeraResult<Operand>
    ensures part { Gives (λ o. o) result
        (attribute_of file.now optional target.now name.now span) }
    ensures ready { IsOkAnd (attribute_of file.now optional target.now name.now span)
        (λ o. IsScalar o.value) → IsOk result }
{
    target
        .lend()
        .attribute(alloc, file, name, optional, span)?
        .to_operand()
}

/// `target[index]`, or `target?[index]` where it is optional.
pub fn item(
    alloc: Global,
    file: &str,
    target: &Operand,
    index: &Operand,
    optional: bool,
    span: Span,
) -> TeraResult<Operand>
    ensures part { Gives (λ o. o) result (item_of file.now optional target.now index.now span) }
    ensures ready { IsOkAnd (item_of file.now optional target.now index.now span)
        (λ o. IsScalar o.value) → IsOk result }
{
    if without_parts(alloc, file, &target.lend(), optional, None)? {
        return Ok(Operand::new(Value::undefined(), span));
    }
    let answer = target.value().get_item(alloc, index.value());
    operand_or_fault(
        alloc,
        file,
        answer,
        index.span(),
        span_of_both(target, index),
    )
}

#[inline(never)]
fn no_slice_bound(alloc: Global, file: &str, operand: &Operand) -> Error
    ensures { Tells result
        (rendering_error (record { file = file.now; span = operand.now.span })) }
{
    let kind = operand.value().in_words();
    let words = format!(in alloc; "is {kind}, and the bound of a slice is an integer");
    fault_of(alloc, words, file, operand.span())
}

/// The integer that bounds a slice, or none where the bound is none; a fault at the bound for other values.
fn slice_bound(alloc: Global, file: &str, operand: &Operand) -> TeraResult<Option<i128>>
    ensures bound { Gives (λ b. b) result (bound_at file.now operand.now) }
    ensures ready { IsOk (bound_at file.now operand.now) → IsOk result }
{
    match operand.value().shape() {
        Shape::None => Ok(None),
        Shape::Int(number) => Ok(Some(number)),
        _ => Err(no_slice_bound(alloc, file, operand)),
    }
}

/// `target[start:end:step]`, or the same with `?[` where it is optional. A bound that isn't written is none.
pub fn slice(
    alloc: Global,
    file: &str,
    target: &Operand,
    start: &Operand,
    end: &Operand,
    step: &Operand,
    optional: bool,
    span: Span,
) -> TeraResult<Operand>
    ensures part { Gives (λ o. o) result
        (slice_of file.now optional target.now start.now end.now step.now span) }
    ensures ready { IsTrue optional → IsTrue (is_missing target.now.value) → IsOk result }
{
    if without_parts(alloc, file, &target.lend(), optional, None)? {
        return Ok(Operand::new(Value::undefined(), span));
    }
    let start = slice_bound(alloc, file, start)?;
    let end = slice_bound(alloc, file, end)?;
    let step = slice_bound(alloc, file, step)?;
    let answer = target.value().slice(alloc, start, end, step);
    operand_or_fault(alloc, file, answer, target.span(), target.span())
}
