// Integers, and the instructions after them that are run together with them.
ghost use Rattle.std.specs.Prelude.{◌≡◌, ◌≢◌, [], Ok, IfSome, IsTrue};
ghost use Rattle.tera_errors.specs.Site as site;
ghost use Rattle.tera_values.specs.Prelude.{int};
ghost use Rattle.tera_values.specs.Val as val;
ghost use Rattle.tera_operators.specs.Prelude.{is_comparison};
ghost use Rattle.tera_operators.specs.Operators.{binary_of};
ghost use Rattle.tera_code.specs.Integers.{with_integer};
ghost use Rattle.tera_code.specs.declared.instruction.Instruction.TheVariants as instruction;
ghost use Rattle.tera_state.specs.Prelude.{around_of, variables_of};
ghost use Rattle.tera_state.specs.Scope.{look};
ghost use Rattle.tera_machine.specs.Effect.{Does, on_one};
ghost use Rattle.tera_machine.specs.Dispatch.{HasInstruction, HasRun};
ghost use Rattle.tera_machine.specs.Paths.{truth_of};

use crate::configuration::Configuration;
use crate::cursor::Cursor;
use crate::instructions::continue_after;
use crate::machine::{FlowResult, VirtualMachine};
use std::alloc::Global;
use tera_code::{IntegerComparison, Tally};
use tera_operators::Operand;
use tera_state::Objects;
use tera_syntax_tree::BinaryOperator;
use tera_values::{Name, Shape, Span, Value};

impl<'c> Configuration<'c> {
    /// Runs the instruction that loads a name, and those after it that use the value up. A look at the next instruction tells
    /// whether that loads an integer.
    #[inline(always)]
    pub(crate) fn run_name_ahead<'f, O: Objects, T: Tally>(
        &mut self,
        machine: &VirtualMachine<'_, O>,
        cursor: &mut Cursor<'_, '_, T>,
        name: &Name,
        span: Span,
    ) -> FlowResult<'f>
        requires { HasInstruction cursor.old (instruction.LoadName name.now span) }
        ensures { HasRun O.engine machine.now cursor.old self.old result cursor.new self.new }
    {
        if cursor.chunk.loads_integer_at(cursor.at + 1) {
            self.run_name_before_integer(machine, cursor, name, span)
        } else {
            self.run_path(machine, cursor, name, span)
        }
    }

    /// Runs the instruction that loads a name, after which an integer is loaded. Where the innermost turn binds an integer to the
    /// name, and the two are compared, they are compared where they lie.
    #[inline(never)]
    pub(crate) fn run_name_before_integer<'f, O: Objects, T: Tally>(
        &mut self,
        machine: &VirtualMachine<'_, O>,
        cursor: &mut Cursor<'_, '_, T>,
        name: &Name,
        span: Span,
    ) -> FlowResult<'f>
        requires { HasInstruction cursor.old (instruction.LoadName name.now span) }
        ensures { HasRun O.engine machine.now cursor.old self.old result cursor.new self.new }
    {
        match self.integer_of(name) {
            Some(number) => match cursor
                .chunk
                .integer_comparison_at(cursor.at + 1, cursor.steps)
            {
                Some(comparison) => {
                    cursor.at += 2;
                    let truth = compare_integer(number, span, &comparison);
                    self.test_or_push(cursor, truth)
                }
                None => self.run_path(machine, cursor, name, span),
            },
            None => self.run_path(machine, cursor, name, span),
        }
    }

    // The integer that the innermost turn binds to the name.
    #[inline(always)]
    fn integer_of(&self, name: &Name) -> Option<i128>
        ensures { IfSome result (λ number.
            int number ≡ look name.now (around_of self.now.scopes) (variables_of self.now.scopes)) }
    {
        match self.scopes.value_of(name)?.shape() {
            Shape::Int(number) => Some(number),
            _ => None,
        }
    }

    /// Runs the instruction that loads an integer, and the operator after it, if one stands there and has an operand on its left:
    /// then the integer is not pushed.
    #[inline(always)]
    pub(crate) fn load_integer_and_apply<'f, O: Objects, T: Tally>(
        &mut self,
        machine: &VirtualMachine<'_, O>,
        cursor: &mut Cursor<'_, '_, T>,
        number: i64,
        span: Span,
    ) -> FlowResult<'f>
        requires { HasInstruction cursor.old (instruction.LoadConst (val.int number) span) }
        ensures { HasRun O.engine machine.now cursor.old self.old result cursor.new self.new }
    {
        if self.operands.is_empty() {
            return continue_after(self.load_integer(number, span));
        }
        match cursor.chunk.operator_at(cursor.at + 1, cursor.steps) {
            Some((operator, whole)) => {
                cursor.at += 1;
                self.operate_with(
                    machine.alloc,
                    cursor.chunk.file(),
                    operator,
                    number,
                    span,
                    whole,
                )
            }
            None => continue_after(self.load_integer(number, span)),
        }
    }

    // What the operator makes of the topmost operand and an integer on its right takes the operand's place.
    #[inline(never)]
    fn operate_with<'f>(
        &mut self,
        alloc: Global,
        file: &str,
        operator: BinaryOperator,
        number: i64,
        span: Span,
        whole: Span,
    ) -> FlowResult<'f>
        requires { self.old.operands ≢ [] }
        ensures { Does (λ c. on_one (λ a. binary_of file.now operator a
            (record { value = int number; span = span }) whole) c.operands c)
            self.old result self.new }
    {
        let right = Operand::new(Value::from_int(i128::from(number)), span);
        self.apply(alloc, file, operator, &right, whole)
    }
}

// What a comparison makes of an integer on its left.
#[inline(always)]
fn compare_integer(number: i128, span: Span, comparison: &IntegerComparison) -> Operand
    requires { IsTrue (is_comparison comparison.now.operator) }
    ensures { (file : site.Name) → truth_of file (record { value = int number; span = span })
        (with_integer comparison.now) ≡ Ok result }
{
    let right = i128::from(comparison.integer);
    let truth = tera_operators::compare_integers(comparison.operator, number, right);
    let whole = Span {
        start: span.start,
        end: comparison.integer_span.end,
    };
    Operand::new(Value::from_bool(truth), whole)
}
