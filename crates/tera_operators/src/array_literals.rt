// Arrays that are written out.
ghost use Rattle.std.specs.Prelude.{◌≡◌, ◌++◌, length, OnOk, IfErr, option_copied};
ghost use Rattle.std.specs.List.{zip};
ghost use Rattle.tera_errors.specs.Prelude.{Gives, Lacks};
ghost use Rattle.tera_operators.specs.Literals.{items_of, array_of};

use crate::operand::Operand;
use std::alloc::Global;
use tera_values::{Error, Shape, Span, TeraResult, Value};

/// The items of an array.
fn items_in(value: &Value) -> Option<&[Value]>
    ensures { option_copied result ≡ items_of value.now }
{
    match value.shape() {
        Shape::Array(items) => Some(items),
        _ => None,
    }
}

/// Puts a copy of each item after those that are there.
fn append(items: &[Value], all: &mut Vec<Value>) -> TeraResult<()>
    ensures ok { OnOk result (all.new.items ≡ all.old.items ++ items.now) }
    ensures lacks { IfErr result Lacks }
{
    for item in items {
        all.push(item.try_clone()?)?;
    }
    Ok(())
}

/// `[1, ...more]`: each operand is an item, or, where its position among the spreads says so, an array whose items stand in
/// its position. Of the spreads that are no arrays the last one is the fault. The array is in shared form, so a copy is a count.
pub fn array(
    alloc: Global,
    file: &str,
    spreads: &[bool],
    operands: Vec<Operand>,
    span: Span,
) -> TeraResult<Operand>
    requires { length spreads.now ≡ length operands.items }
    ensures { Gives (λ o. o) result (array_of file.now (zip spreads.now operands.items) span) }
{
    let mut items = Vec::with_capacity(alloc, operands.len())?;
    let mut unfit = None;
    for (is_spread, operand) in spreads.iter().zip(operands) {
        if *is_spread {
            match items_in(operand.value()) {
                Some(more) => append(more, &mut items)?,
                None => unfit = Some(operand.span()),
            }
        } else {
            items.push(operand.into_value())?;
        }
    }
    match unfit {
        Some(position) => Err(Error::rendering_of(
            alloc,
            "is no array, and only an array can be spread here",
            file,
            position,
        )),
        None => Ok(Operand::new(Value::array(items).into_shared(alloc)?, span)),
    }
}
