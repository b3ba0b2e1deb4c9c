// Where in a template's text instructions stand, for what people are told.
use crate::chunk::Chunk;
use crate::instruction::Instruction;
use tera_values::{Name, Span};

impl Chunk {
    // The instruction at this position. It is not handed out, so that it isn't counted.
    #[inline(never)]
    fn instruction_at(&self, position: usize) -> Option<Instruction<'_>> {
        Some(self.lend(position)?.unpack())
    }

    /// Where what the instruction at this position takes or calls is named in the template's text; none where it takes and calls
    /// nothing, or where there is none.
    #[inline(never)]
    pub fn span_at(&self, position: usize) -> Option<Span> {
        match self.instruction_at(position)? {
            Instruction::TakeBlock { name: _, span } => Some(span),
            Instruction::TakeInclude { name: _, span } => Some(span),
            Instruction::TakeComponent {
                name: _,
                keys: _,
                has_body: _,
                span,
            } => Some(span),
            Instruction::TakeSuper { arguments: _, span } => Some(span),
            Instruction::ApplyFilter {
                name: _,
                arguments: _,
                span,
            } => Some(span),
            Instruction::ApplyTest {
                name: _,
                arguments: _,
                span,
            } => Some(span),
            Instruction::CallFunction {
                name: _,
                arguments: _,
                span,
            } => Some(span),
            _ => None,
        }
    }

    /// The block that the instruction at this position puts out, and where it is named; none where it puts out no block.
    pub fn block_at(&self, position: usize) -> Option<(&Name, Span)> {
        match self.instruction_at(position)? {
            Instruction::TakeBlock { name, span } => Some((name.as_name(), span)),
            _ => None,
        }
    }
}
