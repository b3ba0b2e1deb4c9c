// Names that are bound, and texts that are captured for them.
ghost use Rattle.std.specs.Prelude.{◌≡◌, [], ◌∷◌, suc, OnOk, IfOk};
ghost use Rattle.tera_code.specs.declared.instruction.Instruction.TheVariants as instruction;
ghost use Rattle.tera_code.specs.Code.{node_code, nodes_code, section_code, captured_code, lengthened};
ghost use Rattle.tera_syntax_tree.specs.Prelude.{Set, first_span, expr_of, filters_of, nodes_of};

use crate::compiler::Compiler;
use crate::instruction::Instruction;
use crate::instruction_parts::LentName;
use std::alloc::AllocError;
use tera_syntax_tree::{Expression, Node, SectionFilter};
use tera_values::Span;

impl Compiler {
    // The value becomes that of the name.
    pub(crate) fn set(
        &mut self,
        name: &str,
        value: &Expression,
        is_global: bool,
    ) -> Result<(), AllocError>
        ensures ok { OnOk result (self.new ≡ lengthened self.old
            (node_code (Set name.now (expr_of value.now) is_global) 0)) }
    {
        self.expression(value)?;
        self.store(name, is_global)
    }

    // The text that the body puts out, through the filters, on top of the operands.
    #[cycle(nodes)]
    #[inline(never)]
    pub(crate) fn section(
        &mut self,
        filters: &Vec<SectionFilter>,
        body: &Vec<Node>,
        drops: usize,
    ) -> Result<(), AllocError>
        ensures ok { OnOk result (self.new ≡ lengthened self.old
            (section_code (filters_of filters.now.items)
            (nodes_code (nodes_of body.now.items) (suc drops)))) }
    {
        let filters = filters.as_slice();
        self.capture(body, first_span(filters), drops)?;
        self.filters(filters)
    }

    // The text that the body puts out, on top of the operands.
    #[cycle(nodes)]
    #[inline(never)]
    pub(crate) fn capture(
        &mut self,
        body: &Vec<Node>,
        span: Span,
        drops: usize,
    ) -> Result<(), AllocError>
        ensures ok { OnOk result (self.new
            ≡ lengthened self.old (captured_code
            (nodes_code (nodes_of body.now.items) (suc drops)) span)) }
    {
        self.emit(Instruction::StartCapture)?;
        self.body(body, plus_one(drops)?)?;
        self.emit(Instruction::EndCapture(span))
    }

    // The operand on top becomes the value of the name.
    pub(crate) fn store(&mut self, name: &str, is_global: bool) -> Result<(), AllocError>
        ensures ok { OnOk result (self.new ≡ lengthened self.old
            (instruction.Store name.now is_global ∷ [])) }
    {
        let name = self.name(name)?;
        self.emit(Instruction::Store {
            name: LentName::new(&name),
            is_global,
        })
    }
}

fn plus_one(drops: usize) -> Result<usize, AllocError>
    ensures ok { IfOk result (λ n. n ≡ suc drops) }
{
    match drops.checked_add(1) {
        Some(drops) => Ok(drops),
        None => Err(AllocError),
    }
}

// Where a fault in the text itself is reported.
fn first_span(filters: &[SectionFilter]) -> Span
    ensures { result ≡ first_span (filters_of filters.now) }
{
    match filters.first() {
        Some(filter) => filter.span,
        None => Span { start: 0, end: 0 },
    }
}
