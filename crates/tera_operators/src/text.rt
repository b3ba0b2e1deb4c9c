// Texts that are joined.
ghost use Rattle.std.specs.Prelude.{◌++◌, Ok, false};
ghost use Rattle.tera_errors.specs.Prelude.{Gives};
ghost use Rattle.tera_values.specs.Prelude.{text, printed};
ghost use Rattle.tera_operators.specs.Operand.{at_span, spanning};

use crate::faults::span_of_both;
use crate::operand::Operand;
use std::alloc::Global;
use tera_values::{Shape, TeraResult, Value};

/// `left ~ right`: the printed texts joined, without the safe mark.
pub(crate) fn concatenate(alloc: Global, left: &Operand, right: &Operand) -> TeraResult<Operand>
    ensures { Gives (λ o. o) result (at_span
        (text (printed left.now.value ++ printed right.now.value) false)
        (spanning left.now right.now)) }
{
    let value = join_values(alloc, left.value(), right.value())?;
    Ok(Operand::new(value, span_of_both(left, right)))
}

// Two texts are copied once, into a buffer of the right size.
fn join_values(alloc: Global, left: &Value, right: &Value) -> TeraResult<Value>
    ensures { Gives (λ v. v) result (Ok (text (printed left.now ++ printed right.now) false)) }
{
    match (left.shape(), right.shape()) {
        (Shape::Text(left, _), Shape::Text(right, _)) => Value::join(alloc, left, right, false),
        _ => print_both(alloc, left, right),
    }
}

fn print_both(alloc: Global, left: &Value, right: &Value) -> TeraResult<Value>
    ensures { Gives (λ v. v) result (Ok (text (printed left.now ++ printed right.now) false)) }
{
    let mut both = String::new(alloc);
    left.print_to(&mut both)?;
    right.print_to(&mut both)?;
    Value::from_string(alloc, both, false)
}
