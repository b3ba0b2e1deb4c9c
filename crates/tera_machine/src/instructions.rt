// One instruction, by groups.
ghost use Rattle.std.specs.Prelude.{◌≡◌, ◌≢◌, [], Ok, Some, None, true, false, IfOk, IfErr};
ghost use Rattle.tera_errors.specs.Prelude.{Tells, Lacks, Site, rendering_error};
ghost use Rattle.tera_operators.specs.Operators.{binary_of};
ghost use Rattle.tera_machine.specs.Config.{config_of};
ghost use Rattle.tera_machine.specs.Did.{pushed, holding};
ghost use Rattle.tera_machine.specs.Dispatch.{IsLeft};
ghost use Rattle.tera_machine.specs.Effect.{effect, CanDo, IsReady, Does, continue_after, continue_if_written, text_written, outcome_put, top_written, name_written, name_loaded, context_loaded, stored, attribute_loaded, item_loaded, sliced, denied, negated, operated, handed, component_taken, popped_branch, kept_if, above_taken, topmost, on_one};
ghost use Rattle.tera_machine.specs.Subject.{here_of};
ghost use Rattle.tera_machine.specs.declared.machine.Flow.TheVariants as flow;
ghost use Rattle.tera_state.specs.Prelude.{around_of};

use crate::configuration::Configuration;
use crate::dispatch::push_again;
use crate::machine::{Flow, FlowResult, VirtualMachine};
use crate::requests::{ComponentRequest, Request};
use std::alloc::{AllocError, Global};
use tera_code::{CallKind, Constant, Instruction, Keys};
use tera_errors::alloc_result;
use tera_operators::Operand;
use tera_state::{FoundValue, Objects};
use tera_syntax_tree::BinaryOperator;
use tera_values::{Error, Name, NameRef, Span, TeraResult, Value};

/// Whether a value was put out, unless memory was refused.
pub(crate) type WriteResult = Result<bool, AllocError>;

impl<'c> Configuration<'c> {
    /// Runs an instruction for which the dispatch did not ask, which stands in this file's text before the next position, and tells
    /// where to go on.
    #[inline(always)]
    pub(crate) fn run_unpacked<'f, O: Objects>(
        &mut self,
        machine: &VirtualMachine<'_, O>,
        file: &str,
        next: usize,
        instruction: &Instruction<'f>,
    ) -> FlowResult<'f>
        requires can { CanDo (effect (here_of O.engine machine.now file.now self.old)
            next instruction.now) self.old }
        requires left { IsLeft 6 instruction.now }
        ensures { Does (effect (here_of O.engine machine.now file.now self.old)
            next instruction.now) self.old result self.new }
    {
        let alloc = machine.alloc;
        match instruction {
            Instruction::LoadContext(span) => self.load_context(alloc, *span),
            Instruction::LoadItem { optional, span } => {
                self.load_item(alloc, file, *optional, *span)
            }
            Instruction::Slice { optional, span } => self.slice(alloc, file, *optional, *span),
            Instruction::Negate => self.negate(alloc, file),
            Instruction::MakeArray(spreads, span) => {
                let spreads = spreads.as_slice();
                let operands = self.pop_operands(spreads.len())?;
                let operand = tera_operators::array(alloc, file, spreads, operands, *span)?;
                self.push_operand(operand)
            }
            Instruction::MakeMap(keys, span) => {
                let keys = keys.as_slice();
                let operands = self.pop_operands(keys.len())?;
                let operand = tera_operators::map(alloc, file, keys, operands, *span)?;
                self.push_operand(operand)
            }
            Instruction::Keep => self.collect(),
            Instruction::EndComprehension(span) => self.end_comprehension(alloc, *span),
            Instruction::StartCapture => self.start_capture(),
            Instruction::EndCapture(span) => self.end_capture(machine, *span),
            Instruction::LeaveLoop(drops) => self.leave_loop(*drops),
            Instruction::LeaveTurn(drops) => self.leave_turn(*drops),
            Instruction::ApplyFilter {
                name,
                arguments,
                span,
            } => self.call(machine, file, CallKind::Filter, name, arguments, *span),
            Instruction::ApplyTest {
                name,
                arguments,
                span,
            } => self.call(machine, file, CallKind::Test, name, arguments, *span),
            Instruction::CallFunction {
                name,
                arguments,
                span,
            } => self.call(machine, file, CallKind::Function, name, arguments, *span),
            _ => unreachable!(),
        }
    }

    #[inline(always)]
    pub(crate) fn write_text(&mut self, text: &str) -> Result<(), AllocError>
        ensures { Does (text_written text.now) self.old (continue_after result) self.new }
    {
        self.texts.append(text)
    }

    #[inline(never)]
    pub(crate) fn write_top<'f, O: Objects>(
        &mut self,
        machine: &VirtualMachine<'_, O>,
        file: &str,
    ) -> FlowResult<'f>
        requires { IsReady (top_written (here_of O.engine machine.now file.now self.old)) self.old }
        ensures { Does (top_written (here_of O.engine machine.now file.now self.old))
            self.old result self.new }
    {
        let operand = self.operands.pop_top();
        if operand.value().is_undefined() {
            return Err(undefined_fault(machine.alloc, file, operand.span()));
        }
        self.texts.append_value(
            machine.alloc,
            machine.objects,
            machine.autoescape,
            operand.value(),
        )?;
        Ok(Flow::On)
    }

    // Whether the value was put out, which is read where it lies: what is undefined is not. No flow and no fault are handed
    // out, so that the answer is small.
    #[inline(always)]
    pub(crate) fn append_name<O: Objects>(
        &mut self,
        machine: &VirtualMachine<'_, O>,
        name: &NameRef<'_>,
    ) -> WriteResult
        ensures { (site : Site) → Does
            (name_written (here_of O.engine machine.now site.file self.old) name.now site.span)
            self.old (continue_if_written site result) self.new }
    {
        let found = self.scopes.look(name);
        if found.is_undefined() {
            return Ok(false);
        }
        let (alloc, autoescape) = (machine.alloc, machine.autoescape);
        match found {
            FoundValue::Kept(value) => {
                self.texts
                    .append_value(alloc, machine.objects, autoescape, value)?
            }
            found => {
                let put = self
                    .texts
                    .append_found(alloc, machine.objects, autoescape, found);
                alloc_result(put)?
            }
        }
        Ok(true)
    }

    #[inline(always)]
    pub(crate) fn push_operand<'f>(&mut self, operand: Operand) -> FlowResult<'f>
        ensures { Does (outcome_put (Ok operand)) self.old result self.new }
    {
        match self.operands.push(operand) {
            Ok(()) => Ok(Flow::On),
            Err(_) => Err(Error::out_of_memory()),
        }
    }

    #[inline(always)]
    pub(crate) fn push_value<'f>(&mut self, value: Value, span: Span) -> FlowResult<'f>
        ensures { Does (pushed value span) self.old result self.new }
    {
        self.push_operand(Operand::new(value, span))
    }

    #[inline(always)]
    pub(crate) fn load_name(
        &mut self,
        alloc: Global,
        name: &NameRef<'_>,
        span: Span,
    ) -> Result<(), AllocError>
        ensures { Does (name_loaded (around_of self.old.scopes) name.now span)
            self.old (continue_after result) self.new }
    {
        let found = self.scopes.look(name);
        match &found {
            FoundValue::Kept(value) => push_again(&mut self.operands, value, span),
            _ => match found.to_value(alloc) {
                Ok(value) => self.operands.push(Operand::new(value, span)),
                Err(_) => Err(AllocError),
            },
        }
    }

    fn load_context<'f>(&mut self, alloc: Global, span: Span) -> FlowResult<'f>
        ensures { Does (context_loaded (around_of self.old.scopes) span) self.old result self.new }
    {
        let value = self.scopes.dump(alloc)?;
        self.push_value(value, span)
    }

    // What is bound is kept in shared form, so that a copy of it is a count.
    #[inline(never)]
    pub(crate) fn store(
        &mut self,
        alloc: Global,
        name: &Name,
        is_global: bool,
    ) -> Result<(), AllocError>
        requires { IsReady (stored is_global name.now) self.old }
        ensures { Does (stored is_global name.now) self.old (continue_after result) self.new }
    {
        let operand = self.operands.pop_top();
        match (operand.into_value().into_shared(alloc), name.share()) {
            (Ok(value), Ok(name)) if is_global => self.scopes.set_global(name, value),
            (Ok(value), Ok(name)) => self.scopes.set(name, value),
            _ => Err(AllocError),
        }
    }

    #[inline(never)]
    pub(crate) fn load_attribute<'f>(
        &mut self,
        alloc: Global,
        file: &str,
        name: &str,
        optional: bool,
        span: Span,
    ) -> FlowResult<'f>
        requires { IsReady (attribute_loaded file.now name.now optional span) self.old }
        ensures { Does (attribute_loaded file.now name.now optional span) self.old result self.new }
    {
        let target = self.operands.pop_top();
        let operand = tera_operators::attribute(alloc, file, &target, name, optional, span)?;
        self.push_operand(operand)
    }

    #[inline(never)]
    fn load_item<'f>(
        &mut self,
        alloc: Global,
        file: &str,
        optional: bool,
        span: Span,
    ) -> FlowResult<'f>
        requires { IsReady (item_loaded file.now optional span) self.old }
        ensures { Does (item_loaded file.now optional span) self.old result self.new }
    {
        let index = self.operands.pop_top();
        let target = self.operands.pop_top();
        let operand = tera_operators::item(alloc, file, &target, &index, optional, span)?;
        self.push_operand(operand)
    }

    fn slice<'f>(&mut self, alloc: Global, file: &str, optional: bool, span: Span) -> FlowResult<'f>
        requires { IsReady (sliced file.now optional span) self.old }
        ensures { Does (sliced file.now optional span) self.old result self.new }
    {
        let step = self.operands.pop_top();
        let end = self.operands.pop_top();
        let start = self.operands.pop_top();
        let target = self.operands.pop_top();
        let operand = tera_operators::slice(
            alloc, file, &target, &start, &end, &step, optional, span,
        )?;
        self.push_operand(operand)
    }

    #[inline(never)]
    pub(crate) fn load_constant<'f>(
        &mut self,
        constant: &Constant<'_>,
        span: Span,
    ) -> FlowResult<'f>
        ensures { Does (pushed constant.now span) self.old result self.new }
    {
        self.push_value(constant.load()?, span)
    }

    // The truth value that the topmost operand has not.
    #[inline(never)]
    pub(crate) fn negate_truth<'f>(&mut self) -> FlowResult<'f>
        requires { IsReady denied self.old }
        ensures { Does denied self.old result self.new }
    {
        let operand = self.operands.pop_top();
        self.push_operand(tera_operators::not(&operand))
    }

    fn negate<'f>(&mut self, alloc: Global, file: &str) -> FlowResult<'f>
        requires { IsReady (negated file.now) self.old }
        ensures { Does (negated file.now) self.old result self.new }
    {
        let operand = self.operands.pop_top();
        let operand = tera_operators::negate(alloc, file, &operand)?;
        self.push_operand(operand)
    }

    #[inline(never)]
    pub(crate) fn operate<'f>(
        &mut self,
        alloc: Global,
        file: &str,
        operator: BinaryOperator,
        span: Span,
    ) -> FlowResult<'f>
        requires { IsReady (operated file.now operator span) self.old }
        ensures { Does (operated file.now operator span) self.old result self.new }
    {
        let right = self.operands.pop_top();
        self.apply(alloc, file, operator, &right, span)
    }

    // What the operator makes of the topmost operand and one on its right takes the place of the topmost. Most calculations are
    // with small integers, of which a number alone changes.
    #[inline(always)]
    pub(crate) fn apply<'f>(
        &mut self,
        alloc: Global,
        file: &str,
        operator: BinaryOperator,
        right: &Operand,
        span: Span,
    ) -> FlowResult<'f>
        requires { self.old.operands ≢ [] }
        ensures { Does (λ c. on_one (λ a. binary_of file.now operator a right.now span)
            c.operands c) self.old result self.new }
    {
        let left = self.operands.top_mut();
        if !tera_operators::binary_in_place(operator, left, right) {
            *left = tera_operators::binary(alloc, file, operator, left, right, span)?;
        }
        Ok(Flow::On)
    }

    // So many operands from the top, the last one first.
    #[inline(always)]
    pub(crate) fn pop_operands(&mut self, count: usize) -> TeraResult<Vec<Operand>>
        requires { topmost count self.old.operands ≢ None }
        ensures taken { IfOk result (λ all. topmost count self.old.operands
            ≡ Some (all.items, self.new.operands)) }
        ensures rest { config_of self.new
            ≡ holding self.new.operands (config_of self.old) }
        ensures stays { self.new.scopes ≡ self.old.scopes }
        ensures places { self.new.places ≡ self.old.places }
        ensures lacks { IfErr result Lacks }
    {
        self.operands.pop_many(count)
    }

    // The arguments are read and dropped.
    #[inline(never)]
    pub(crate) fn request_super<'f>(&mut self, arguments: usize, span: Span) -> FlowResult<'f>
        requires { IsReady (above_taken arguments span) self.old }
        ensures { Does (above_taken arguments span) self.old result self.new }
    {
        drop(self.pop_operands(arguments)?);
        Ok(Flow::Call(Request::Super(span)))
    }

    // The text that a component is handed, if it has a body. It is kept in shared form, so that a copy of it is a count.
    fn component_body(&mut self, alloc: Global, has_body: bool) -> TeraResult<Option<Value>>
        requires { handed has_body self.old.operands ≢ None }
        ensures handed { IfOk result (λ body. handed has_body self.old.operands
            ≡ Some (body, self.new.operands)) }
        ensures rest { config_of self.new
            ≡ holding self.new.operands (config_of self.old) }
        ensures stays { self.new.scopes ≡ self.old.scopes }
        ensures places { self.new.places ≡ self.old.places }
        ensures lacks { IfErr result Lacks }
    {
        if !has_body {
            return Ok(None);
        }
        let operand = self.operands.pop_top();
        Ok(Some(operand.into_value().into_shared(alloc)?))
    }

    #[inline(never)]
    pub(crate) fn request_component<'f, O: Objects>(
        &mut self,
        machine: &VirtualMachine<'_, O>,
        file: &str,
        name: &'f Name,
        keys: &Keys<'f>,
        has_body: bool,
        span: Span,
    ) -> FlowResult<'f>
        requires { IsReady
            (component_taken (here_of O.engine machine.now file.now self.old)
            name.now keys.now has_body span) self.old }
        ensures { Does
            (component_taken (here_of O.engine machine.now file.now self.old)
            name.now keys.now has_body span) self.old result self.new }
    {
        let keys = keys.as_slice();
        let operands = self.pop_operands(keys.len())?;
        let body = self.component_body(machine.alloc, has_body)?;
        let given = tera_operators::entries(machine.alloc, file, keys, operands)?;
        let asked = ComponentRequest {
            name,
            given,
            body,
            safe: machine.autoescape,
            span,
        };
        Ok(Flow::Call(Request::Component(Box::new(machine.alloc, asked)?)))
    }

    #[inline(always)]
    pub(crate) fn pop_jump_if_false<'f>(&mut self, skip: usize) -> FlowResult<'f>
        requires { IsReady (popped_branch skip) self.old }
        ensures { Does (popped_branch skip) self.old result self.new }
    {
        let operand = self.operands.pop_top();
        if operand.value().is_truthy() {
            Ok(Flow::On)
        } else {
            Ok(Flow::Skip(skip))
        }
    }

    // An operand of this truth stays where it jumps; any other is dropped, and it goes on.
    #[inline(never)]
    pub(crate) fn jump_or_pop<'f>(&mut self, truth: bool, skip: usize) -> FlowResult<'f>
        requires { IsReady (kept_if truth skip) self.old }
        ensures { Does (kept_if truth skip) self.old result self.new }
    {
        if self.operands.top().value().is_truthy() == truth {
            return Ok(Flow::Skip(skip));
        }
        drop(self.operands.pop_top());
        Ok(Flow::On)
    }
}

// It goes on at the next instruction, unless memory was refused.
#[inline(always)]
pub(crate) fn continue_after<'f>(done: Result<(), AllocError>) -> FlowResult<'f>
    ensures { result ≡ continue_after done }
{
    done?;
    Ok(Flow::On)
}

// The same where a value was put out, and else a fault: it is undefined.
#[inline(always)]
pub(crate) fn continue_if_written<'f>(
    alloc: Global,
    file: &str,
    span: Span,
    is_put: bool,
) -> FlowResult<'f>
    ensures ok { IfOk result (λ on. is_put ≡ true × on ≡ flow.On) }
    ensures err { IfErr result (λ e. is_put ≡ false
        × Tells e (rendering_error (record { file = file.now; span = span }))) }
{
    if is_put {
        Ok(Flow::On)
    } else {
        Err(undefined_fault(alloc, file, span))
    }
}

pub(crate) fn undefined_fault(alloc: Global, file: &str, span: Span) -> Error
    ensures { Tells result (rendering_error (record { file = file.now; span = span })) }
{
    Error::rendering_of(alloc, "is undefined", file, span)
}
