// What the machine can be told.
ghost use Rattle.std.specs.Prelude.{◌≡◌};
ghost use Rattle.tera_code.specs.Calls.{call_of};

use crate::call_kind::CallKind;
use crate::constant::Constant;
use crate::instruction_parts::{Keys, LentName, LentText, Names, Spreads};
use tera_syntax_tree::BinaryOperator;
use tera_values::{NameRef, Span};

/// One instruction, as a chunk hands it out: it borrows texts, names, constants and lists from the chunk, and no part of a
/// tree. A jump says how many instructions it passes; a span is where a fault of the instruction, or of the value that it
/// makes, is reported.
#[derive(Drop)]
pub enum Instruction<'a> {
    /// Puts the text out as it stands.
    WriteText(LentText<'a>),
    /// Takes the topmost operand and puts it out.
    WriteTop,
    /// Puts the value out that the name stands for, where it lies.
    WriteName(NameRef<'a>, Span),
    /// Puts the constant on top of the operands.
    LoadConst(Constant<'a>, Span),
    /// Puts the value that the name stands for on top of the operands.
    LoadName(NameRef<'a>, Span),
    /// The attribute of the topmost operand in its place.
    LoadAttribute {
        name: LentText<'a>,
        optional: bool,
        span: Span,
    },
    /// The item of the second operand at the topmost one in their place.
    LoadItem {
        optional: bool,
        span: Span,
    },
    /// The slice of the fourth operand by the three above it, start, end and step, in their place.
    Slice {
        optional: bool,
        span: Span,
    },
    /// The truth value that the topmost operand has not, in its place.
    Not,
    /// The negative of the topmost operand in its place.
    Negate,
    /// What the operator makes of the two topmost operands, in their place.
    Binary(BinaryOperator, Span),
    /// An array of so many operands, in their place.
    MakeArray(Spreads<'a>, Span),
    /// A map of so many operands, in their place.
    MakeMap(Keys<'a>, Span),
    /// Puts the map of all that is bound on top of the operands.
    LoadContext(Span),
    /// Takes the topmost operand and binds the name to it.
    Store {
        name: LentName<'a>,
        is_global: bool,
    },
    /// Takes the topmost operand and opens a loop over its items, at the first, with a body of so many instructions. Where
    /// there is no item, it passes the body and the two instructions behind that.
    StartLoop {
        key: Option<LentName<'a>>,
        name: LentName<'a>,
        counts: bool,
        size: usize,
    },
    /// Goes back to where the body of the innermost loop starts, with the next item, or on where there is none.
    NextTurn,
    /// Closes the innermost loop and passes instructions.
    EndLoop(usize),
    /// Takes the topmost operand into what the innermost loop keeps.
    Keep,
    /// Closes the innermost loop, puts the array of what it kept on top of the operands, and passes one instruction.
    EndComprehension(Span),
    /// Begins a capture: what is put out from here on is kept apart.
    StartCapture,
    /// Ends the innermost capture and puts its text on top of the operands, safe where autoescape is on.
    EndCapture(Span),
    /// Drops so many captures and goes to the end of the innermost loop, where it is closed.
    LeaveLoop(usize),
    /// Drops so many captures and goes to the end of the turn, where the next one begins.
    LeaveTurn(usize),
    /// Passes instructions.
    Jump(usize),
    /// Takes the topmost operand, and passes instructions where it is falsy.
    PopJumpIfFalse(usize),
    /// Passes instructions where the topmost operand is falsy, and else takes it.
    JumpIfFalseOrPop(usize),
    /// Passes instructions where the topmost operand is truthy, and else takes it.
    JumpIfTrueOrPop(usize),
    /// Puts the block of this name out, as the template that is rendered has it.
    TakeBlock {
        name: LentName<'a>,
        span: Span,
    },
    /// Puts out the template to which this name resolves.
    TakeInclude {
        name: LentName<'a>,
        span: Span,
    },
    /// Takes as many operands as there are keys, the values of a component's attributes, and the text below them where it has a
    /// body, and puts the text that the component makes of these on top of the operands.
    TakeComponent {
        name: LentName<'a>,
        keys: Keys<'a>,
        has_body: bool,
        span: Span,
    },
    /// Drops so many operands, and puts the text that the next template above makes of the block that runs on top of the
    /// operands.
    TakeSuper {
        arguments: usize,
        span: Span,
    },
    /// Takes the arguments, of which the last one is topmost, and the operand below them, and puts what the filter makes of
    /// that on top of the operands.
    ApplyFilter {
        name: LentName<'a>,
        arguments: Names<'a>,
        span: Span,
    },
    /// Takes the arguments and the operand below them, and puts whether that passes the test on top of the operands.
    ApplyTest {
        name: LentName<'a>,
        arguments: Names<'a>,
        span: Span,
    },
    /// Takes the arguments, and puts what the function makes of them on top of the operands.
    CallFunction {
        name: LentName<'a>,
        arguments: Names<'a>,
        span: Span,
    },
}

impl<'a> Instruction<'a> {
    // What calls by name, with arguments of these names.
    #[inline(always)]
    pub(crate) fn call(
        kind: CallKind,
        name: LentName<'a>,
        arguments: Names<'a>,
        span: Span,
    ) -> Instruction<'a>
        ensures { result ≡ call_of kind name.entry arguments.entry span }
    {
        match kind {
            CallKind::Filter => Instruction::ApplyFilter {
                name,
                arguments,
                span,
            },
            CallKind::Test => Instruction::ApplyTest {
                name,
                arguments,
                span,
            },
            CallKind::Function => Instruction::CallFunction {
                name,
                arguments,
                span,
            },
        }
    }
}
