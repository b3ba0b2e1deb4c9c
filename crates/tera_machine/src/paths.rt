// Names and the attributes after them, read where they lie.
ghost use Rattle.std.specs.Prelude.{◌≡◌, IfOk, IfErr, IfSome, IfNone, IsTrue, unwrap_or};
ghost use Rattle.tera_errors.specs.Prelude.{Gives};
ghost use Rattle.tera_code.specs.declared.instruction.Instruction.TheVariants as instruction;
ghost use Rattle.tera_values.specs.Prelude.{undefined};
ghost use Rattle.tera_operators.specs.Prelude.{is_comparison};
ghost use Rattle.tera_state.specs.Prelude.{found_value};
ghost use Rattle.tera_meaning.specs.Prelude.{output};
ghost use Rattle.tera_machine.specs.declared.configuration.Configuration.{Configuration as Whole};
ghost use Rattle.tera_machine.specs.Config.{Config, config_of};
ghost use Rattle.tera_machine.specs.Flow.{flow_of};
ghost use Rattle.tera_machine.specs.Did.{Goes};
ghost use Rattle.tera_machine.specs.Effect.{Effected, Does, put_out};
ghost use Rattle.tera_machine.specs.Subject.{here_of};
ghost use Rattle.tera_machine.specs.Dispatch.{HasInstruction, HasRun, HasRunFrom, IsPosition};
ghost use Rattle.tera_machine.specs.Paths.{Start, Stands, Comes, Reaches, Breaks, done_since, topped, truth_of};

use crate::configuration::Configuration;
use crate::cursor::Cursor;
use crate::instructions::undefined_fault;
use crate::machine::{Flow, FlowResult, VirtualMachine};
use crate::rendered_text::RenderedText;
use std::alloc::Global;
use tera_code::{Comparison, Tally};
use tera_operators::{LentOperand, Operand};
use tera_state::{FoundValue, Objects};
use tera_values::{Name, Span, TeraResult};

/// What a name stands for, where it lies and is no key, counter or flag of a loop.
fn lent_operand<'a>(found: &FoundValue<'a>, span: Span) -> Option<LentOperand<'a>>
    ensures { IfSome result (λ o. o
        ≡ record { value = unwrap_or (found_value found.now) undefined; span = span }) }
{
    match found {
        FoundValue::Kept(value) => {
            let operand = LentOperand::new(Some(*value), span);
            Some(operand)
        }
        FoundValue::Unbound => Some(LentOperand::new(None, span)),
        _ => None,
    }
}

/// Takes the attributes of an operand that the instructions after the cursor take, each of what the one before gave. The cursor moves
/// to the last of these instructions. That holds wherever the reading of the path began.
fn attributes<'v, T: Tally>(
    alloc: Global,
    cursor: &mut Cursor<'_, '_, T>,
    reached: LentOperand<'v>,
) -> TeraResult<LentOperand<'v>>
    requires { IsPosition cursor.old }
    ensures stands { (s : Start T) → Reaches s cursor.old reached.entry → Stands s cursor.new }
    ensures ok { IfOk result (λ o. (s : Start T) →
        Reaches s cursor.old reached.entry → Reaches s cursor.new o) }
    ensures err { IfErr result (λ e. (s : Start T) →
        Reaches s cursor.old reached.entry → Breaks s cursor.new e) }
{
    let chunk = cursor.chunk;
    match chunk.attribute_at(cursor.at + 1, cursor.steps) {
        None => Ok(reached),
        Some((name, optional, span)) => {
            cursor.at += 1;
            match reached.attribute(alloc, chunk.file(), name.as_str(), optional, span) {
                Ok(next) => attributes(alloc, cursor, next),
                Err(error) => Err(error),
            }
        }
    }
}

/// Where it goes on if the instruction after the cursor tests the topmost operand, which is this one. The cursor moves to this
/// instruction.
#[inline(always)]
fn branch_on<'f, T: Tally>(
    cursor: &mut Cursor<'_, '_, T>,
    top: &LentOperand<'_>,
) -> Option<Flow<'f>>
    requires { IsPosition cursor.old }
    ensures stands { IfSome result (λ _. (s : Start T) (c : Config) →
        Comes s cursor.old c → Stands s cursor.new) }
    ensures goes { IfSome result (λ flow. (s : Start T) (c : Config) →
        Comes s cursor.old (topped top.now c) →
        done_since s cursor.new ≡ Goes c (flow_of flow)) }
    ensures stays { IfNone result (cursor.new ≡ cursor.old) }
{
    let skip = cursor
        .chunk
        .pop_jump_if_false_at(cursor.at + 1, cursor.steps)?;
    cursor.at += 1;
    if top.is_truthy() {
        Some(Flow::On)
    } else {
        Some(Flow::Skip(skip))
    }
}

/// Puts out an operand that lies elsewhere; what is undefined is a fault.
#[inline(always)]
fn write_lent<'f, O: Objects>(
    texts: &mut RenderedText,
    machine: &VirtualMachine<'_, O>,
    file: &str,
    operand: &LentOperand<'_>,
) -> FlowResult<'f>
    ensures { (c : Whole) → c.texts ≡ texts.old → Effected
        (put_out (output (here_of O.engine machine.now file.now c) operand.now) (config_of c))
        result (config_of (record c { texts = texts.new })) }
{
    match operand.value() {
        Some(value) if !value.is_undefined() => {
            texts.append_value(machine.alloc, machine.objects, machine.autoescape, value)?;
            Ok(Flow::On)
        }
        _ => Err(undefined_fault(machine.alloc, file, operand.span())),
    }
}

/// What a comparison with a constant makes of the operand on its left. The constant is read where it lies, too.
#[inline(always)]
fn compare_with_constant(
    alloc: Global,
    file: &str,
    left: &LentOperand<'_>,
    comparison: &Comparison<'_>,
) -> TeraResult<Operand>
    requires { IsTrue (is_comparison comparison.now.operator) }
    ensures { Gives (λ o. o) result (truth_of file.now left.now comparison.now) }
{
    let (constant, span) = (&comparison.constant, comparison.constant_span);
    if let Some(value) = constant.shared_value() {
        let right = LentOperand::new(Some(value), span);
        return left.compare(alloc, file, comparison.operator, &right);
    }
    let value = constant.load()?;
    let right = LentOperand::new(Some(&value), span);
    left.compare(alloc, file, comparison.operator, &right)
}

impl<'c> Configuration<'c> {
    /// Runs the instruction that loads a name, and those after it that use the value up: attributes that are taken of it, and then
    /// a write, a test, or a comparison with a constant and a test of that. Nothing is copied or pushed on the way. Only a value
    /// that no such instruction uses up is pushed on the operands.
    #[inline(never)]
    pub(crate) fn run_path<'f, O: Objects, T: Tally>(
        &mut self,
        machine: &VirtualMachine<'_, O>,
        cursor: &mut Cursor<'_, '_, T>,
        name: &Name,
        span: Span,
    ) -> FlowResult<'f>
        requires { HasInstruction cursor.old (instruction.LoadName name.now span) }
        ensures { HasRun O.engine machine.now cursor.old self.old result cursor.new self.new }
    {
        let (alloc, chunk) = (machine.alloc, cursor.chunk);
        let found = self.scopes.look(&name.as_name_ref());
        let Some(first) = lent_operand(&found, span) else {
            let operand = Operand::new(found.to_value(alloc)?, span);
            return self.finish_path(alloc, cursor, operand);
        };
        let reached = match attributes(alloc, cursor, first) {
            Ok(reached) => reached,
            Err(error) => return Err(error),
        };
        if let Some(flow) = branch_on(cursor, &reached) {
            return Ok(flow);
        }
        if chunk.writes_top_at(cursor.at + 1, cursor.steps) {
            cursor.at += 1;
            return write_lent(&mut self.texts, machine, chunk.file(), &reached);
        }
        let Some(comparison) = chunk.comparison_at(cursor.at + 1, cursor.steps) else {
            let operand = reached.to_operand()?;
            return self.push_operand(operand);
        };
        cursor.at += 2;
        match compare_with_constant(alloc, chunk.file(), &reached, &comparison) {
            Ok(truth) => self.test_or_push(cursor, truth),
            Err(error) => Err(error),
        }
    }

    /// Runs the instructions that use an operand up, which was made and is lent by nobody: a comparison with a constant, and a
    /// test.
    fn finish_path<'f, T: Tally>(
        &mut self,
        alloc: Global,
        cursor: &mut Cursor<'_, '_, T>,
        operand: Operand,
    ) -> FlowResult<'f>
        requires { IsPosition cursor.old }
        ensures { (s : Start T) → Comes s cursor.old (topped operand (config_of self.old)) →
            HasRunFrom s self.old result cursor.new self.new }
    {
        let chunk = cursor.chunk;
        let Some(comparison) = chunk.comparison_at(cursor.at + 1, cursor.steps) else {
            return self.test_or_push(cursor, operand);
        };
        cursor.at += 2;
        match compare_with_constant(alloc, chunk.file(), &operand.lend(), &comparison) {
            Ok(truth) => self.test_or_push(cursor, truth),
            Err(error) => Err(error),
        }
    }

    /// Tests an operand where the instruction after the cursor does so, and else pushes it. The cursor moves to the last instruction
    /// that was run.
    #[inline(always)]
    pub(crate) fn test_or_push<'f, T: Tally>(
        &mut self,
        cursor: &mut Cursor<'_, '_, T>,
        operand: Operand,
    ) -> FlowResult<'f>
        requires { IsPosition cursor.old }
        ensures stands { (s : Start T) (c : Config) → Comes s cursor.old c → Stands s cursor.new }
        ensures does { (s : Start T) → Comes s cursor.old (topped operand (config_of self.old)) →
            Does (λ _. done_since s cursor.new) self.old result self.new }
    {
        if let Some(flow) = branch_on(cursor, &operand.lend()) {
            return Ok(flow);
        }
        self.push_operand(operand)
    }
}
