// Instructions that call filters, tests and functions.
ghost use Rattle.std.specs.Prelude.{◌≡◌, Bool, Err, List, Ok, Result};
ghost use Rattle.tera_errors.specs.Prelude.{Gives, Fault};
ghost use Rattle.tera_errors.specs.Site.{Name};
ghost use Rattle.tera_values.specs.Prelude.{bool, plain};
ghost use Rattle.tera_operators.specs.Prelude.{then, filter_applied_by, test_applied_by};
ghost use Rattle.tera_operators.specs.Operand.{Evaluated};
ghost use Rattle.tera_operators.specs.Calls.{by_name};
ghost use Rattle.tera_state.specs.Calling.{filtered_by, tested_by};
ghost use Rattle.tera_state.specs.Called.{seen};
ghost use Rattle.tera_machine.specs.Effect.{IsReady, Does, called};
ghost use Rattle.tera_machine.specs.Subject.{here_of};

use crate::configuration::Configuration;
use crate::machine::{FlowResult, VirtualMachine};
use std::alloc::Global;
use tera_code::{CallKind, LentName, Names};
use tera_operators::{Operand, arguments, operand_or_call_fault, operand_or_fault};
use tera_state::{ObjectCall, Objects};
use tera_values::{Error, Span, TeraResult, Value};

impl<'c> Configuration<'c> {
    /// Calls what has this name, which sees the scopes. There is an operand for each name of an argument. A fault is at the call,
    /// but where something is of a wrong type at the target of a filter or a test.
    #[inline(never)]
    pub(crate) fn call<'f, O: Objects>(
        &mut self,
        machine: &VirtualMachine<'_, O>,
        file: &str,
        kind: CallKind,
        name: &LentName<'_>,
        names: &Names<'_>,
        span: Span,
    ) -> FlowResult<'f>
        requires { IsReady (called kind (here_of O.engine machine.now file.now self.old)
            name.now names.now span) self.old }
        ensures { Does (called kind (here_of O.engine machine.now file.now self.old)
            name.now names.now span) self.old result self.new }
    {
        let (alloc, objects) = (machine.alloc, machine.objects);
        let names = names.as_slice();
        let operands = self.pop_operands(names.len())?;
        let call = ObjectCall {
            alloc,
            scopes: &self.scopes,
            autoescape: machine.autoescape,
            name: name.as_name().as_str(),
            arguments: arguments(alloc, names, operands)?,
        };
        match kind {
            CallKind::Function => {
                let name = call.name;
                let answer = match objects.call_function(call) {
                    Ok(value) => return self.push_value(value, span),
                    Err(error) => Err(function_fault(alloc, name, error)),
                };
                self.push_operand(operand_or_fault(alloc, file, answer, span, span)?)
            }
            CallKind::Filter => {
                let target = self.operands.pop_top();
                let operand = filter(machine, file, call, &target, span)?;
                self.push_operand(operand)
            }
            CallKind::Test => {
                let target = self.operands.pop_top();
                let operand = test(machine, file, call, &target, span)?;
                self.push_operand(operand)
            }
        }
    }
}

// What the filter makes of the target, as an operand.
fn filter<O: Objects>(
    machine: &VirtualMachine<'_, O>,
    file: &str,
    call: ObjectCall<'_>,
    target: &Operand,
    span: Span,
) -> TeraResult<Operand>
    ensures { (given : List (Name × Evaluated)) → call.entry.arguments ≡ by_name given →
        Gives (λ o. o) result (filter_applied_by file.now
        (filtered_by plain (O.engine machine.now.objects.now)
        (seen (O.engine machine.now.objects.now) call.entry) call.entry.name.now)
        target.now given span) }
{
    let (alloc, name) = (machine.alloc, call.name);
    let answer = machine.objects.call_filter(call, target.value());
    match answer {
        Ok(value) => Ok(Operand::new(value, span)),
        Err(error) => {
            let answer = Err(error.of_callee(alloc, "filter", name));
            operand_or_call_fault(machine.alloc, file, answer, target.span(), span)
        }
    }
}

// The same of a test.
fn test<O: Objects>(
    machine: &VirtualMachine<'_, O>,
    file: &str,
    call: ObjectCall<'_>,
    target: &Operand,
    span: Span,
) -> TeraResult<Operand>
    ensures { (given : List (Name × Evaluated)) → call.entry.arguments ≡ by_name given →
        Gives (λ o. o) result (test_applied_by file.now
        (tested_by plain (O.engine machine.now.objects.now)
        (seen (O.engine machine.now.objects.now) call.entry) call.entry.name.now)
        target.now given span) }
{
    let (alloc, name) = (machine.alloc, call.name);
    match machine.objects.call_test(call, target.value()) {
        Ok(flag) => Ok(Operand::new(Value::from_bool(flag), span)),
        Err(error) => {
            let answer = test_fault(error.of_callee(alloc, "test", name));
            operand_or_call_fault(machine.alloc, file, answer, target.span(), span)
        }
    }
}

// The fault of a test, in the place of the value that it would have made.
pub(crate) fn test_fault(error: Error) -> TeraResult<Value>
    ensures { (meant : Result Bool Fault) → Gives (λ b. b) (Err error) meant →
        Gives (λ v. v) result (then meant (λ b. Ok (bool b))) }
{
    Err(error)
}

// The fault of a function that names it. What `throw` refuses it refuses in the author's own words.
#[inline(never)]
fn function_fault(alloc: Global, name: &str, error: Error) -> Error
    ensures { result ≡ error }
{
    if name == "throw" {
        return error;
    }
    error.of_callee(alloc, "function", name)
}
