// Loops whose body puts out texts and items alone. Such a loop leaves nothing but text behind, so that no turn is opened for it.
ghost use Rattle.std.specs.Prelude.{◌≡◌, ◌≢◌, ◌+◌, ◌-◌, ◌<◌, ◌≤◌, ◌^◌, ℕ, [], Bool, true, Some, length, slice_get, OnOk, IfErr, IfSome};
ghost use Rattle.tera_errors.specs.Site.{Name as NameText};
ghost use Rattle.tera_values.specs.Prelude.{array, vals};
ghost use Rattle.tera_code.specs.declared.instruction.Instruction.TheVariants as instruction;
ghost use Rattle.tera_code.specs.Printing.{puts, puts_up_to, printing_loop_at};
ghost use Rattle.tera_meaning.specs.Here.{Here};
ghost use Rattle.tera_operators.specs.Operand.{Evaluated};
ghost use Rattle.tera_state.specs.Items.{unkeyed};
ghost use Rattle.tera_state.specs.Scope.{look};
ghost use Rattle.tera_machine.specs.Config.{Config};
ghost use Rattle.tera_machine.specs.Flow.{On};
ghost use Rattle.tera_machine.specs.Did.{Goes};
ghost use Rattle.tera_machine.specs.Dispatch.{CanRun, HasRun, HasInstruction, IsLeft};
ghost use Rattle.tera_machine.specs.Effect.{effect, Effected};
ghost use Rattle.tera_machine.specs.Paths.{Start, Stands, Breaks, done_since, start_at, topped};
ghost use Rattle.tera_machine.specs.Printing.{IsAt, Before, Behind, PrintsItems, at_items, items_called, saying};

use crate::configuration::Configuration;
use crate::cursor::Cursor;
use crate::instructions::undefined_fault;
use crate::machine::{Flow, FlowResult, VirtualMachine};
use crate::rendered_text::RenderedText;
use tera_code::{LentInstruction, Tally};
use tera_state::Objects;
use tera_values::{Error, Shape, TeraResult, Value};

/// The items of an array, where it has some.
fn items_of(value: &Value) -> Option<&[Value]>
    ensures { IfSome result (λ items. (items.now ≢ []) × (value.now ≡ array (vals items.now))) }
{
    match value.shape() {
        Shape::Array(items) if !items.is_empty() => Some(items),
        _ => None,
    }
}

/// Puts out a part of the body: its own text, or the item.
#[inline(always)]
fn write_part<O: Objects>(
    texts: &mut RenderedText,
    machine: &VirtualMachine<'_, O>,
    file: &str,
    part: &LentInstruction<'_>,
    item: &Value,
) -> TeraResult<()>
    ensures ok { OnOk result ((here : Here) (name : NameText) (next : ℕ) (c : Config) →
        IsAt O.engine machine.now file.now here → puts name part.now ≡ true →
        look name here.around c.run.vars ≡ item.now →
        effect here next part.now (saying texts.old.now c) ≡ Goes (saying texts.new.now c) On) }
    ensures err { IfErr result (λ e. (here : Here) (name : NameText) (next : ℕ) (c : Config) →
        IsAt O.engine machine.now file.now here → puts name part.now ≡ true →
        look name here.around c.run.vars ≡ item.now →
        (c2 : Config) → Effected (effect here next part.now (saying texts.old.now c)) (Err e) c2) }
    ensures below { OnOk result (texts.new.below ≡ texts.old.below) }
{
    if let Some(text) = part.as_text() {
        texts.append(text)?;
        return Ok(());
    }
    // What is no text is a name.
    let Some((_, span)) = part.as_written_name() else {
        return Ok(());
    };
    if item.is_undefined() {
        return Err(undefined_fault(machine.alloc, file, span));
    }
    texts.append_value(machine.alloc, machine.objects, machine.autoescape, item)?;
    Ok(())
}

/// Puts out the parts from a position to the end of the body. At a fault the cursor moves to the part that is at fault.
#[inline(always)]
fn write_parts<O: Objects, T: Tally>(
    texts: &mut RenderedText,
    machine: &VirtualMachine<'_, O>,
    cursor: &mut Cursor<'_, '_, T>,
    start: usize,
    end: usize,
    item: &Value,
) -> TeraResult<()>
    requires { start ≤ end }
    ensures ok { OnOk result ((s : Start T) (name : NameText) (c : Config) →
        IsAt O.engine machine.now s.cursor.chunk.now.file s.here →
        puts_up_to name s.cursor.chunk.now.code (end - start) start ≡ Some end →
        look name s.here.around c.run.vars ≡ item.now →
        Before s cursor.old start (saying texts.old.now c) →
        Before s cursor.new end (saying texts.new.now c)) }
    ensures err { IfErr result (λ e. (s : Start T) (name : NameText) (c : Config) →
        IsAt O.engine machine.now s.cursor.chunk.now.file s.here →
        puts_up_to name s.cursor.chunk.now.code (end - start) start ≡ Some end →
        look name s.here.around c.run.vars ≡ item.now →
        Before s cursor.old start (saying texts.old.now c) →
        Stands s cursor.new × Breaks s cursor.new e) }
    ensures below { OnOk result (texts.new.below ≡ texts.old.below) }
{
    let chunk = cursor.chunk;
    let mut position = start;
    while position < end {
        let Some(part) = chunk.get(position, cursor.steps) else {
            return Ok(());
        };
        match write_part(texts, machine, chunk.file(), &part, item) {
            Ok(()) => {}
            Err(error) => {
                cursor.at = position;
                return Err(error);
            }
        }
        position += 1;
    }
    Ok(())
}

/// Does the turns of these items, each from the start of the body to its end, unless a budget is spent.
#[inline(always)]
fn write_turns<O: Objects, T: Tally>(
    texts: &mut RenderedText,
    machine: &VirtualMachine<'_, O>,
    cursor: &mut Cursor<'_, '_, T>,
    start: usize,
    size: usize,
    items: &[Value],
) -> TeraResult<()>
    requires few { length cursor.old.chunk.now.code < 2 ^ 64 }
    requires within { start + size < length cursor.old.chunk.now.code }
    ensures ok { OnOk result ((s : Start T) (name : NameText) (counts : Bool) (c : Config) →
        IsAt O.engine machine.now s.cursor.chunk.now.file s.here →
        PrintsItems s.cursor.chunk.now.code start size name → items.now ≢ [] →
        Before s cursor.old start
        (at_items (items_called name counts) (length (unkeyed items.now)) 0 start size items.now
        (saying texts.old.now c)) →
        Behind s cursor.new start size (saying texts.new.now c)) }
    ensures err { IfErr result (λ e. (s : Start T) (name : NameText) (counts : Bool) (c : Config) →
        IsAt O.engine machine.now s.cursor.chunk.now.file s.here →
        PrintsItems s.cursor.chunk.now.code start size name → items.now ≢ [] →
        Before s cursor.old start
        (at_items (items_called name counts) (length (unkeyed items.now)) 0 start size items.now
        (saying texts.old.now c)) →
        Stands s cursor.new × Breaks s cursor.new e) }
    ensures below { OnOk result (texts.new.below ≡ texts.old.below) }
{
    let chunk = cursor.chunk;
    let end = start + size;
    for item in items {
        match write_parts(texts, machine, cursor, start, end, item) {
            Ok(()) => {}
            Err(error) => return Err(error),
        }
        // The end of the turn, which is counted.
        let Some(_) = chunk.get(end, cursor.steps) else {
            return Ok(());
        };
        if cursor.steps.are_spent() {
            cursor.at = end;
            return Err(Error::out_of_memory());
        }
    }
    Ok(())
}

/// Does the loop over these items that the instruction at the cursor opens, up to its end. The cursor moves to the last of its
/// instructions.
#[inline(never)]
fn write_loop<'f, O: Objects, T: Tally>(
    texts: &mut RenderedText,
    machine: &VirtualMachine<'_, O>,
    cursor: &mut Cursor<'_, '_, T>,
    opening: &LentInstruction<'_>,
    size: usize,
    items: &[Value],
) -> FlowResult<'f>
    requires opens { HasInstruction cursor.old opening.now }
    requires printing { printing_loop_at cursor.old.chunk.now.code cursor.old.at ≡ Some size }
    requires ends { slice_get cursor.old.chunk.now.code (cursor.old.at + 1 + size)
        ≡ Some instruction.NextTurn }
    requires some { items.now ≢ [] }
    ensures stands { (here : Here) (a : Evaluated) (c : Config) →
        IsAt O.engine machine.now cursor.old.chunk.now.file here →
        a.value ≡ array (vals items.now) →
        Stands (start_at here cursor.old (topped a (saying texts.old.now c))) cursor.new }
    ensures does { (here : Here) (a : Evaluated) (c : Config) →
        IsAt O.engine machine.now cursor.old.chunk.now.file here →
        a.value ≡ array (vals items.now) →
        Effected (done_since (start_at here cursor.old (topped a (saying texts.old.now c)))
        cursor.new) result (saying texts.new.now c) }
    ensures below { OnOk result (texts.new.below ≡ texts.old.below) }
{
    // Nothing else opens such a loop, and its end is where that is looked for below: the answers beside these never come.
    let Some((_, _, _, _)) = opening.as_start_loop() else {
        return Ok(Flow::Out);
    };
    let chunk = cursor.chunk;
    let start = cursor.at + 1;
    match write_turns(texts, machine, cursor, start, size, items) {
        Ok(()) => {}
        Err(error) => return Err(error),
    }
    cursor.at = start + size + 1;
    let Some(end) = chunk.get(cursor.at, cursor.steps) else {
        return Ok(Flow::Out);
    };
    match end.as_end_loop() {
        Some(skip) => Ok(Flow::Skip(skip)),
        None => Ok(Flow::Out),
    }
}

impl<'c> Configuration<'c> {
    /// Runs a whole loop where the instruction opens one whose body writes texts and items alone, and leaves any other instruction
    /// to `run_rare`.
    #[inline(never)]
    pub(crate) fn run_loop_or_rare<'f, O: Objects, T: Tally>(
        &mut self,
        machine: &VirtualMachine<'_, O>,
        cursor: &mut Cursor<'_, '_, T>,
        opening: &LentInstruction<'f>,
    ) -> FlowResult<'f>
        requires can { CanRun O.engine machine.now cursor.old opening.now self.old }
        requires left { IsLeft 5 opening.now }
        ensures { HasRun O.engine machine.now cursor.old self.old result cursor.new self.new }
    {
        let chunk = cursor.chunk;
        let Some(size) = chunk.printing_loop_at(cursor.at) else {
            return self.run_rare(machine, chunk.file(), cursor.at + 1, opening);
        };
        // Nothing else opens such a loop.
        let Some((_, _, _, _)) = opening.as_start_loop() else {
            return Ok(Flow::Out);
        };
        let Some(items) = items_of(self.operands.top().value()) else {
            return self.run_rare(machine, chunk.file(), cursor.at + 1, opening);
        };
        let printed = write_loop(&mut self.texts, machine, cursor, opening, size, items);
        drop(self.operands.pop_top());
        printed
    }
}
