// Filters and tests that are built in, applied where their operand lies.
ghost use Rattle.std.specs.Prelude.{◌≡◌, ◌∷◌, [], List, None, Some};
ghost use Rattle.tera_errors.specs.Prelude.{Gives};
ghost use Rattle.tera_errors.specs.Site.{Name};
ghost use Rattle.tera_values.specs.Prelude.{at_name, plain};
ghost use Rattle.tera_built_ins.specs.Prelude.{filter_named, test_named};
ghost use Rattle.tera_operators.specs.Prelude.{filter_applied_by, test_applied_by};
ghost use Rattle.tera_operators.specs.Operand.{Evaluated};
ghost use Rattle.tera_operators.specs.Calls.{by_name};
ghost use Rattle.tera_state.specs.Calling.{filtered_by, tested_by, seen_in};
ghost use Rattle.tera_state.specs.Scope.{Around, Variables};
ghost use Rattle.tera_machine.specs.Effect.{IsReady, Does, filter_called, test_called};
ghost use Rattle.tera_machine.specs.Subject.{here_of};

use crate::calls::test_fault;
use crate::configuration::Configuration;
use crate::machine::{Flow, FlowResult, VirtualMachine};
use tera_built_ins::{BuiltInFilter, BuiltInTest};
use tera_code::{CallKind, LentName, Names};
use tera_operators::{Operand, arguments, operand_or_call_fault};
use tera_state::Objects;
use tera_values::{Arguments, Name, Span, TeraResult, Value};

impl<'c> Configuration<'c> {
    /// Applies the filter of this name to the operand below its arguments. It is the one that is built in, unless the caller
    /// registered another one.
    #[inline(never)]
    pub(crate) fn apply_filter<'f, O: Objects>(
        &mut self,
        machine: &VirtualMachine<'_, O>,
        file: &str,
        filter: BuiltInFilter,
        name: &LentName<'_>,
        names: &Names<'_>,
        span: Span,
    ) -> FlowResult<'f>
        requires named { filter_named name.now ≡ Some filter }
        requires ready { IsReady (filter_called (here_of O.engine machine.now file.now self.old)
            name.now names.now span) self.old }
        ensures { Does (filter_called (here_of O.engine machine.now file.now self.old)
            name.now names.now span) self.old result self.new }
    {
        if machine.objects.has_own_filter(name.as_name().as_str()) {
            return self.call(machine, file, CallKind::Filter, name, names, span);
        }
        match names.as_slice() {
            [] => self.filter_top(machine, file, filter, name, span),
            [argument] => self.filter_with(machine, file, filter, name, argument, span),
            names => self.filter_with_many(machine, file, filter, name, names, span),
        }
    }

    // Without arguments: what it makes of the topmost operand takes its place.
    #[inline(always)]
    fn filter_top<'f, O: Objects>(
        &mut self,
        machine: &VirtualMachine<'_, O>,
        file: &str,
        filter: BuiltInFilter,
        name: &LentName<'_>,
        span: Span,
    ) -> FlowResult<'f>
        requires named { filter_named name.now ≡ Some filter }
        requires lone { at_name name.now (O.engine machine.now.objects.now).filters ≡ None }
        requires ready { IsReady (filter_called (here_of O.engine machine.now file.now self.old)
            name.now [] span) self.old }
        ensures { Does (filter_called (here_of O.engine machine.now file.now self.old)
            name.now [] span) self.old result self.new }
    {
        let target = self.operands.top_mut();
        *target = filter_result_without_arguments(machine, file, filter, name, target, span)?;
        Ok(Flow::On)
    }

    // With one argument, which is lent: the operand below it is changed where it lies.
    #[inline(always)]
    fn filter_with<'f, O: Objects>(
        &mut self,
        machine: &VirtualMachine<'_, O>,
        file: &str,
        filter: BuiltInFilter,
        name: &LentName<'_>,
        argument: &Name,
        span: Span,
    ) -> FlowResult<'f>
        requires named { filter_named name.now ≡ Some filter }
        requires lone { at_name name.now (O.engine machine.now.objects.now).filters ≡ None }
        requires ready { IsReady (filter_called (here_of O.engine machine.now file.now self.old)
            name.now (argument.now ∷ []) span) self.old }
        ensures { Does (filter_called (here_of O.engine machine.now file.now self.old)
            name.now (argument.now ∷ []) span) self.old result self.new }
    {
        let given = (argument.share()?, self.operands.pop_top().into_value());
        let given = Arguments::of_one(machine.alloc, &given);
        let target = self.operands.top_mut();
        *target = filter_result(machine, file, filter, name, &given, target, span)?;
        Ok(Flow::On)
    }

    #[inline(always)]
    fn filter_with_many<'f, O: Objects>(
        &mut self,
        machine: &VirtualMachine<'_, O>,
        file: &str,
        filter: BuiltInFilter,
        name: &LentName<'_>,
        names: &[Name],
        span: Span,
    ) -> FlowResult<'f>
        requires named { filter_named name.now ≡ Some filter }
        requires lone { at_name name.now (O.engine machine.now.objects.now).filters ≡ None }
        requires ready { IsReady (filter_called (here_of O.engine machine.now file.now self.old)
            name.now names.now span) self.old }
        ensures { Does (filter_called (here_of O.engine machine.now file.now self.old)
            name.now names.now span) self.old result self.new }
    {
        let operands = self.pop_operands(names.len())?;
        let given = arguments(machine.alloc, names, operands)?;
        let target = self.operands.pop_top();
        let operand = filter_result(
            machine,
            file,
            filter,
            name,
            &given.as_arguments(),
            &target,
            span,
        )?;
        self.push_operand(operand)
    }

    /// Applies the test of this name, as above.
    #[inline(never)]
    pub(crate) fn apply_test<'f, O: Objects>(
        &mut self,
        machine: &VirtualMachine<'_, O>,
        file: &str,
        test: BuiltInTest,
        name: &LentName<'_>,
        names: &Names<'_>,
        span: Span,
    ) -> FlowResult<'f>
        requires named { test_named name.now ≡ Some test }
        requires ready { IsReady (test_called (here_of O.engine machine.now file.now self.old)
            name.now names.now span) self.old }
        ensures { Does (test_called (here_of O.engine machine.now file.now self.old)
            name.now names.now span) self.old result self.new }
    {
        if machine.objects.has_own_test(name.as_name().as_str()) {
            return self.call(machine, file, CallKind::Test, name, names, span);
        }
        match names.as_slice() {
            [] => self.test_top(machine, file, test, name, span),
            [argument] => self.test_with(machine, file, test, name, argument, span),
            _ => self.call(machine, file, CallKind::Test, name, names, span),
        }
    }

    // Without arguments: whether the topmost operand passes takes its place.
    #[inline(always)]
    fn test_top<'f, O: Objects>(
        &mut self,
        machine: &VirtualMachine<'_, O>,
        file: &str,
        test: BuiltInTest,
        name: &LentName<'_>,
        span: Span,
    ) -> FlowResult<'f>
        requires named { test_named name.now ≡ Some test }
        requires lone { at_name name.now (O.engine machine.now.objects.now).tests ≡ None }
        requires ready { IsReady (test_called (here_of O.engine machine.now file.now self.old)
            name.now [] span) self.old }
        ensures { Does (test_called (here_of O.engine machine.now file.now self.old)
            name.now [] span) self.old result self.new }
    {
        let target = self.operands.top_mut();
        *target = test_result_without_arguments(machine, file, test, name, target, span)?;
        Ok(Flow::On)
    }

    // With one argument, which is lent.
    #[inline(always)]
    fn test_with<'f, O: Objects>(
        &mut self,
        machine: &VirtualMachine<'_, O>,
        file: &str,
        test: BuiltInTest,
        name: &LentName<'_>,
        argument: &Name,
        span: Span,
    ) -> FlowResult<'f>
        requires named { test_named name.now ≡ Some test }
        requires lone { at_name name.now (O.engine machine.now.objects.now).tests ≡ None }
        requires ready { IsReady (test_called (here_of O.engine machine.now file.now self.old)
            name.now (argument.now ∷ []) span) self.old }
        ensures { Does (test_called (here_of O.engine machine.now file.now self.old)
            name.now (argument.now ∷ []) span) self.old result self.new }
    {
        let given = (argument.share()?, self.operands.pop_top().into_value());
        let given = Arguments::of_one(machine.alloc, &given);
        let target = self.operands.top_mut();
        *target = test_result(machine, file, test, name, &given, target, span)?;
        Ok(Flow::On)
    }
}

// What a filter that is built in makes of the target, as an operand.
#[inline(always)]
fn filter_result<O: Objects>(
    machine: &VirtualMachine<'_, O>,
    file: &str,
    filter: BuiltInFilter,
    name: &LentName<'_>,
    given: &Arguments<'_>,
    target: &Operand,
    span: Span,
) -> TeraResult<Operand>
    requires named { filter_named name.now ≡ Some filter }
    requires lone { at_name name.now (O.engine machine.now.objects.now).filters ≡ None }
    ensures { (around : Around) (vars : Variables) (all : List (Name × Evaluated)) →
        given.now ≡ by_name all → Gives (λ o. o) result (filter_applied_by file.now
        (filtered_by plain (O.engine machine.now.objects.now) (seen_in plain
        (O.engine machine.now.objects.now) around vars machine.now.autoescape) name.now)
        target.now all span) }
{
    let (alloc, autoescape) = (machine.alloc, machine.autoescape);
    let answer = machine
        .objects
        .apply_built_in(alloc, autoescape, filter, target.value(), given);
    match answer {
        Ok(value) => Ok(Operand::new(value, span)),
        Err(error) => {
            let answer = Err(error.of_callee(alloc, "filter", name.as_name().as_str()));
            operand_or_call_fault(alloc, file, answer, target.span(), span)
        }
    }
}

// The same without arguments.
#[inline(always)]
fn filter_result_without_arguments<O: Objects>(
    machine: &VirtualMachine<'_, O>,
    file: &str,
    filter: BuiltInFilter,
    name: &LentName<'_>,
    target: &Operand,
    span: Span,
) -> TeraResult<Operand>
    requires named { filter_named name.now ≡ Some filter }
    requires lone { at_name name.now (O.engine machine.now.objects.now).filters ≡ None }
    ensures { (around : Around) (vars : Variables) → Gives (λ o. o) result
        (filter_applied_by file.now
        (filtered_by plain (O.engine machine.now.objects.now) (seen_in plain
        (O.engine machine.now.objects.now) around vars machine.now.autoescape) name.now)
        target.now [] span) }
{
    let none = Arguments::of_none(machine.alloc);
    filter_result(machine, file, filter, name, &none, target, span)
}

// Whether the target passes a test that is built in, as an operand.
#[inline(always)]
fn test_result<O: Objects>(
    machine: &VirtualMachine<'_, O>,
    file: &str,
    test: BuiltInTest,
    name: &LentName<'_>,
    given: &Arguments<'_>,
    target: &Operand,
    span: Span,
) -> TeraResult<Operand>
    requires named { test_named name.now ≡ Some test }
    requires lone { at_name name.now (O.engine machine.now.objects.now).tests ≡ None }
    ensures { (around : Around) (vars : Variables) (all : List (Name × Evaluated)) →
        given.now ≡ by_name all → Gives (λ o. o) result (test_applied_by file.now
        (tested_by plain (O.engine machine.now.objects.now) (seen_in plain
        (O.engine machine.now.objects.now) around vars machine.now.autoescape) name.now)
        target.now all span) }
{
    let alloc = machine.alloc;
    match test.call(alloc, target.value(), given) {
        Ok(flag) => Ok(Operand::new(Value::from_bool(flag), span)),
        Err(error) => {
            let answer = test_fault(error.of_callee(alloc, "test", name.as_name().as_str()));
            operand_or_call_fault(alloc, file, answer, target.span(), span)
        }
    }
}

// The same without arguments.
#[inline(always)]
fn test_result_without_arguments<O: Objects>(
    machine: &VirtualMachine<'_, O>,
    file: &str,
    test: BuiltInTest,
    name: &LentName<'_>,
    target: &Operand,
    span: Span,
) -> TeraResult<Operand>
    requires named { test_named name.now ≡ Some test }
    requires lone { at_name name.now (O.engine machine.now.objects.now).tests ≡ None }
    ensures { (around : Around) (vars : Variables) → Gives (λ o. o) result
        (test_applied_by file.now
        (tested_by plain (O.engine machine.now.objects.now) (seen_in plain
        (O.engine machine.now.objects.now) around vars machine.now.autoescape) name.now)
        target.now [] span) }
{
    let none = Arguments::of_none(machine.alloc);
    test_result(machine, file, test, name, &none, target, span)
}
