// What calls of filters, tests and functions make of operands: their arguments, and an operand of what they answer.
ghost use Rattle.std.specs.Prelude.{◌≡◌, Ok, Result, length};
ghost use Rattle.std.specs.List.{zip};
ghost use Rattle.tera_errors.specs.Prelude.{Gives, Fault};
ghost use Rattle.tera_values.specs.Prelude.{Val};
ghost use Rattle.tera_operators.specs.Operand.{at_span, then};
ghost use Rattle.tera_operators.specs.Calls.{by_name, placed_call};

use crate::faults::{fault_at, fault_of_value_at};
use crate::operand::Operand;
use std::alloc::Global;
use tera_values::{ErrorKind, Kwargs, Name, Span, TeraResult, Value};

/// The values of arguments, by name: there is an operand for each name.
pub fn arguments(alloc: Global, names: &[Name], operands: Vec<Operand>) -> TeraResult<Kwargs>
    requires { length names.now ≡ length operands.items }
    ensures { Gives (λ k. k) result (Ok (by_name (zip names.now operands.items))) }
{
    let mut all = Kwargs::with_capacity(alloc, names.len())?;
    for (name, operand) in names.iter().zip(operands) {
        all.put(name.share()?, operand.into_value())?;
    }
    Ok(all)
}

/// The answer as an operand at the call, or its error as a fault: at the value where something is of a wrong type, and else
/// at the call.
pub fn operand_or_call_fault(
    alloc: Global,
    file: &str,
    answer: TeraResult<Value>,
    value: Span,
    call: Span,
) -> TeraResult<Operand>
    ensures { (meant : Result Val Fault) → Gives (λ v. v) answer meant →
        Gives (λ o. o) result (then (placed_call file.now meant value call) (λ v. at_span v call)) }
{
    match answer {
        Ok(made) => Ok(Operand::new(made, call)),
        Err(error) => match error.kind() {
            ErrorKind::InvalidArgument => Err(fault_of_value_at(alloc, file, &error, value)),
            _ => Err(fault_at(alloc, file, &error, call)),
        },
    }
}
