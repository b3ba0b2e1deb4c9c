// What a container has in it.
ghost use Rattle.std.specs.Prelude.{IsOk};
ghost use Rattle.tera_errors.specs.Prelude.{Gives};
ghost use Rattle.tera_operators.specs.Operators.{contained};

use crate::faults::fault_at;
use crate::operand::Operand;
use std::alloc::Global;
use tera_values::{Span, TeraResult, Value};

/// `left in right`: an equal item of an array, a part of a text, a key of a map. Other containers are the fault.
pub(crate) fn is_in(
    alloc: Global,
    file: &str,
    left: &Operand,
    right: &Operand,
    span: Span,
) -> TeraResult<Operand>
    ensures value { Gives (λ o. o) result (contained file.now left.now right.now span) }
    ensures ready { IsOk (contained file.now left.now right.now span) → IsOk result }
{
    match right.value().contains(alloc, left.value()) {
        Ok(found) => Ok(Operand::new(Value::from_bool(found), span)),
        Err(error) => Err(fault_at(alloc, file, &error, right.span())),
    }
}
