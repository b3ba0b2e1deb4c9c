// The dispatch: runs the instruction at a cursor. Each function asks for some instructions and leaves any other to the
// next function; what is run most is asked for first. They are functions of their own because the locals of a function are zeroed
// where it begins, also where it is inlined: an instruction pays only for the questions that were asked before it.
ghost use Rattle.std.specs.Prelude.{◌≡◌, ◌∷◌, OnOk};
ghost use Rattle.tera_errors.specs.Prelude.{Site};
ghost use Rattle.tera_values.specs.Prelude.{int};
ghost use Rattle.tera_machine.specs.Did.{pushed};
ghost use Rattle.tera_machine.specs.Dispatch.{CanRun, HasRun, IsLeft};
ghost use Rattle.tera_machine.specs.Effect.{effect, CanDo, Does, continue_after, continue_if_written, name_written, name_loaded};
ghost use Rattle.tera_machine.specs.Subject.{here_of};
ghost use Rattle.tera_state.specs.Prelude.{around_of};

use crate::configuration::Configuration;
use crate::cursor::Cursor;
use crate::instructions::{WriteResult, continue_after, continue_if_written};
use crate::machine::{Flow, FlowResult, VirtualMachine};
use crate::requests::Request;
use std::alloc::{AllocError, Global};
use tera_code::{LentInstruction, Tally};
use tera_operators::Operand;
use tera_state::{Objects, Stack};
use tera_values::{Error, Name, Shape, Span, Value};

impl<'c> Configuration<'c> {
    /// Runs the instruction at the cursor, and those after it that are run together with it. The cursor moves to the last of
    /// them. A budget that is spent ends the run, as want of memory does.
    ///
    /// What is asked for here needs no more of the instruction than its parts. All else stays out of the loop that calls this, so
    /// that the frame of that loop is small.
    #[inline(always)]
    pub(crate) fn run_instruction<'f, O: Objects, T: Tally>(
        &mut self,
        machine: &VirtualMachine<'_, O>,
        cursor: &mut Cursor<'_, '_, T>,
        instruction: &LentInstruction<'f>,
    ) -> FlowResult<'f>
        requires { CanRun O.engine machine.now cursor.old instruction.now self.old }
        ensures { HasRun O.engine machine.now cursor.old self.old result cursor.new self.new }
    {
        if cursor.steps.are_spent() {
            return Err(Error::out_of_memory());
        }
        if let Some(text) = instruction.as_text() {
            return continue_after(self.write_text(text));
        }
        if let Some((name, span)) = instruction.as_written_name() {
            return self.write_name_turn_first(machine, cursor.chunk.file(), name, span);
        }
        if instruction.is_next_turn() {
            return self.next_turn();
        }
        if let Some(skip) = instruction.as_pop_jump_if_false() {
            return self.pop_jump_if_false(skip);
        }
        if let Some(skip) = instruction.as_jump() {
            return Ok(Flow::Skip(skip));
        }
        if let Some((number, span)) = instruction.as_integer() {
            return self.load_integer_and_apply(machine, cursor, number, span);
        }
        self.run_name_or_other(machine, cursor, instruction)
    }

    /// Runs an instruction that loads a name, and leaves any other to `run_operation`. From here on a flow is handed out in memory,
    /// and the place for it is not made ready before.
    #[inline(always)]
    fn run_name_or_other<'f, O: Objects, T: Tally>(
        &mut self,
        machine: &VirtualMachine<'_, O>,
        cursor: &mut Cursor<'_, '_, T>,
        instruction: &LentInstruction<'f>,
    ) -> FlowResult<'f>
        requires can { CanRun O.engine machine.now cursor.old instruction.now self.old }
        requires left { IsLeft 1 instruction.now }
        ensures { HasRun O.engine machine.now cursor.old self.old result cursor.new self.new }
    {
        match instruction.as_loaded_name() {
            Some((name, span)) if cursor.chunk.reads_on_at(cursor.at) => {
                self.run_name_ahead(machine, cursor, name, span)
            }
            Some((name, span)) => continue_after(self.load_name_turn_first(
                machine.alloc,
                name,
                span,
            )),
            None => self.run_operation(machine, cursor, instruction),
        }
    }

    /// Runs an operator, a write of the topmost operand, an attribute or a store, and leaves any other instruction to
    /// `run_constant_or_built_in`.
    #[inline(always)]
    fn run_operation<'f, O: Objects, T: Tally>(
        &mut self,
        machine: &VirtualMachine<'_, O>,
        cursor: &mut Cursor<'_, '_, T>,
        instruction: &LentInstruction<'f>,
    ) -> FlowResult<'f>
        requires can { CanRun O.engine machine.now cursor.old instruction.now self.old }
        requires left { IsLeft 2 instruction.now }
        ensures { HasRun O.engine machine.now cursor.old self.old result cursor.new self.new }
    {
        if let Some((operator, span)) = instruction.as_binary() {
            return self.operate(machine.alloc, cursor.chunk.file(), operator, span);
        }
        if instruction.is_write_top() {
            return self.write_top(machine, cursor.chunk.file());
        }
        if let Some((name, optional, span)) = instruction.as_attribute() {
            return self.load_attribute(
                machine.alloc,
                cursor.chunk.file(),
                name.as_str(),
                optional,
                span,
            );
        }
        if let Some((name, is_global)) = instruction.as_store() {
            return continue_after(self.store(machine.alloc, name, is_global));
        }
        self.run_constant_or_built_in(machine, cursor, instruction)
    }

    /// Runs a constant, a jump of a choice, a negation, or a filter or a test that is built in, and leaves any other instruction to
    /// `run_request`.
    #[inline(always)]
    fn run_constant_or_built_in<'f, O: Objects, T: Tally>(
        &mut self,
        machine: &VirtualMachine<'_, O>,
        cursor: &mut Cursor<'_, '_, T>,
        instruction: &LentInstruction<'f>,
    ) -> FlowResult<'f>
        requires can { CanRun O.engine machine.now cursor.old instruction.now self.old }
        requires left { IsLeft 3 instruction.now }
        ensures { HasRun O.engine machine.now cursor.old self.old result cursor.new self.new }
    {
        if let Some((constant, span)) = instruction.as_constant() {
            return self.load_constant(&constant, span);
        }
        if let Some(skip) = instruction.as_jump_if_false_or_pop() {
            return self.jump_or_pop(false, skip);
        }
        if let Some(skip) = instruction.as_jump_if_true_or_pop() {
            return self.jump_or_pop(true, skip);
        }
        if instruction.is_not() {
            return self.negate_truth();
        }
        if let Some((filter, name, names, span)) = instruction.as_built_in_filter() {
            return self.apply_filter(machine, cursor.chunk.file(), filter, &name, &names, span);
        }
        if let Some((test, name, names, span)) = instruction.as_built_in_test() {
            return self.apply_test(machine, cursor.chunk.file(), test, &name, &names, span);
        }
        self.run_request(machine, cursor, instruction)
    }

    /// Hands out the request of an instruction that takes another body, and leaves any other to `run_loop_or_rare`.
    #[inline(always)]
    fn run_request<'f, O: Objects, T: Tally>(
        &mut self,
        machine: &VirtualMachine<'_, O>,
        cursor: &mut Cursor<'_, '_, T>,
        instruction: &LentInstruction<'f>,
    ) -> FlowResult<'f>
        requires can { CanRun O.engine machine.now cursor.old instruction.now self.old }
        requires left { IsLeft 4 instruction.now }
        ensures { HasRun O.engine machine.now cursor.old self.old result cursor.new self.new }
    {
        if let Some((name, span)) = instruction.as_block() {
            return Ok(Flow::Call(Request::Block(name, span)));
        }
        if let Some((name, span)) = instruction.as_include() {
            return Ok(Flow::Call(Request::Include(name, span)));
        }
        if let Some((arguments, span)) = instruction.as_super() {
            return self.request_super(arguments, span);
        }
        if let Some((name, keys, has_body, span)) = instruction.as_component() {
            return self.request_component(
                machine,
                cursor.chunk.file(),
                name,
                &keys,
                has_body,
                span,
            );
        }
        self.run_loop_or_rare(machine, cursor, instruction)
    }

    /// Runs the start or the end of a loop, which a table has in each row, and unpacks any other instruction whole. This stays a
    /// call, so that what it needs room for is not made ready for the instructions that are run more.
    #[inline(never)]
    pub(crate) fn run_rare<'f, O: Objects>(
        &mut self,
        machine: &VirtualMachine<'_, O>,
        file: &str,
        next: usize,
        instruction: &LentInstruction<'f>,
    ) -> FlowResult<'f>
        requires can { CanDo (effect (here_of O.engine machine.now file.now self.old)
            next instruction.now) self.old }
        requires left { IsLeft 5 instruction.now }
        ensures { Does (effect (here_of O.engine machine.now file.now self.old)
            next instruction.now) self.old result self.new }
    {
        if let Some((key, name, counts, size)) = instruction.as_start_loop() {
            return self.start_loop(machine, file, next, &key, &name, counts, size);
        }
        if let Some(skip) = instruction.as_end_loop() {
            return self.end_loop(skip);
        }
        self.run_unpacked(machine, file, next, &instruction.unpack())
    }

    #[inline(never)]
    pub(crate) fn load_integer(&mut self, number: i64, span: Span) -> Result<(), AllocError>
        ensures { Does (pushed (int number) span) self.old (continue_after result) self.new }
    {
        let value = Value::from_int(i128::from(number));
        self.operands.push(Operand::new(value, span))
    }

    // Writes what a name stands for. After a write it always goes on at the next instruction, so that the call hands out no flow.
    #[inline(always)]
    fn write_name_turn_first<'f, O: Objects>(
        &mut self,
        machine: &VirtualMachine<'_, O>,
        file: &str,
        name: &Name,
        span: Span,
    ) -> FlowResult<'f>
        ensures { Does (name_written (here_of O.engine machine.now file.now self.old) name.now span)
            self.old result self.new }
    {
        let is_put = self.append_name_turn_first(machine, name)?;
        continue_if_written(machine.alloc, file, span, is_put)
    }

    // Appends what a name stands for, and tells whether it did: what is undefined is not written. The innermost turn is asked
    // first, which binds most names that the body of a loop writes.
    #[inline(never)]
    fn append_name_turn_first<O: Objects>(
        &mut self,
        machine: &VirtualMachine<'_, O>,
        name: &Name,
    ) -> WriteResult
        ensures { (site : Site) → Does
            (name_written (here_of O.engine machine.now site.file self.old) name.now site.span)
            self.old (continue_if_written site result) self.new }
    {
        match self.scopes.value_of(name) {
            Some(value) if value.is_undefined() => Ok(false),
            Some(value) => {
                self.texts
                    .append_value(machine.alloc, machine.objects, machine.autoescape, value)?;
                Ok(true)
            }
            None => self.append_name_from_all_scopes(machine, name),
        }
    }

    // The same by the whole look-up. It stays a call, so that the look-up takes no room where the turn binds the name.
    #[inline(never)]
    fn append_name_from_all_scopes<O: Objects>(
        &mut self,
        machine: &VirtualMachine<'_, O>,
        name: &Name,
    ) -> WriteResult
        ensures { (site : Site) → Does
            (name_written (here_of O.engine machine.now site.file self.old) name.now site.span)
            self.old (continue_if_written site result) self.new }
    {
        self.append_name(machine, &name.as_name_ref())
    }

    // Pushes what a name stands for, of which no attribute is taken. The innermost turn is asked first.
    #[inline(never)]
    fn load_name_turn_first(
        &mut self,
        alloc: Global,
        name: &Name,
        span: Span,
    ) -> Result<(), AllocError>
        ensures { Does (name_loaded (around_of self.old.scopes) name.now span)
            self.old (continue_after result) self.new }
    {
        match self.scopes.value_of(name) {
            Some(value) => push_again(&mut self.operands, value, span),
            None => self.load_name_from_all_scopes(alloc, name, span),
        }
    }

    // The same by the whole look-up.
    #[inline(never)]
    fn load_name_from_all_scopes(
        &mut self,
        alloc: Global,
        name: &Name,
        span: Span,
    ) -> Result<(), AllocError>
        ensures { Does (name_loaded (around_of self.old.scopes) name.now span)
            self.old (continue_after result) self.new }
    {
        self.load_name(alloc, &name.as_name_ref(), span)
    }
}

// Pushes the value once more. An integer is made anew in place, since loops walk over many.
#[inline(always)]
pub(crate) fn push_again(
    operands: &mut Stack<Operand>,
    value: &Value,
    span: Span,
) -> Result<(), AllocError>
    ensures { OnOk result (operands.new ≡ record { value = value.now; span = span }
        ∷ operands.old) }
{
    match value.shape() {
        Shape::Int(number) => operands.push(Operand::new(Value::from_int(number), span)),
        _ => push_copy(operands, value, span),
    }
}

#[inline(never)]
fn push_copy(operands: &mut Stack<Operand>, value: &Value, span: Span) -> Result<(), AllocError>
    ensures { OnOk result (operands.new ≡ record { value = value.now; span = span }
        ∷ operands.old) }
{
    match value.try_clone() {
        Ok(value) => operands.push(Operand::new(value, span)),
        Err(_) => Err(AllocError),
    }
}
