// Nodes.
ghost use Rattle.std.specs.Prelude.{◌≡◌, [], ◌∷◌, cond, OnOk, IfOk};
ghost use Rattle.tera_code.specs.declared.instruction.Instruction.TheVariants as instruction;
ghost use Rattle.tera_code.specs.Calls.{handed_to};
ghost use Rattle.tera_code.specs.Code.{choice_tail, node_code, nodes_code, listing_of, lengthened};
ghost use Rattle.tera_syntax_tree.specs.Tree as tree;
ghost use Rattle.tera_syntax_tree.specs.Prelude.{expr_of, for_of, node_of, nodes_of};

use crate::chunk::Chunk;
use crate::compiler::Compiler;
use crate::instruction::Instruction;
use crate::instruction_parts::LentName;
use crate::single_instructions::is_context;
use crate::size_guess::SizeGuess;
use std::alloc::{AllocError, Global};
use tera_errors::alloc_result;
use tera_syntax_tree::{ComponentTag, Expression, Heading, Node};
use tera_values::{Name, Span};

impl Compiler {
    /// The instructions of the nodes, one after another, behind those that are there. Where memory is refused some may be missing.
    pub fn compile(&mut self, nodes: &[Node]) -> Result<(), AllocError>
        ensures ok { OnOk result (self.new ≡ lengthened self.old
            (nodes_code (nodes_of nodes.now) 0)) }
    {
        self.make_room(SizeGuess::of_nodes(nodes))?;
        self.nodes(nodes, 0)
    }

    /// The instructions of the node, behind those that are there. Where memory is refused some may be missing.
    pub fn compile_node(&mut self, node: &Node) -> Result<(), AllocError>
        ensures ok { OnOk result (self.new ≡ lengthened self.old (node_code (node_of node.now) 0)) }
    {
        self.node(node, 0)
    }

    // Nodes inside so many captures of the innermost loop.
    #[cycle(nodes)]
    pub(crate) fn nodes(&mut self, nodes: &[Node], drops: usize) -> Result<(), AllocError>
        ensures ok { OnOk result (self.new ≡ lengthened self.old
            (nodes_code (nodes_of nodes.now) drops)) }
    {
        for node in nodes {
            self.node(node, drops)?;
        }
        Ok(())
    }

    // The nodes of a body inside so many captures of the innermost loop. It is lent whole, since a slice of it is checked in no time
    // only where no other part of its node is at hand.
    #[cycle(nodes)]
    pub(crate) fn body(&mut self, body: &Vec<Node>, drops: usize) -> Result<(), AllocError>
        ensures ok { OnOk result (self.new ≡ lengthened self.old
            (nodes_code (nodes_of body.now.items) drops)) }
    {
        self.nodes(body.as_slice(), drops)
    }

    // Bodies are lent on whole; what stands before and behind them is written here.
    #[cycle(nodes)]
    fn node(&mut self, node: &Node, drops: usize) -> Result<(), AllocError>
        ensures ok { OnOk result (self.new ≡ lengthened self.old
            (node_code (node_of node.now) drops)) }
    {
        match node {
            Node::Content { text, .. } => self.emit_text(text),
            Node::Print { value } => self.print(value),
            Node::PrintName { name, span } => self.print_name(name, *span),
            Node::If {
                condition,
                body,
                other,
            } => {
                self.expression(condition)?;
                self.fork(body, other, drops)
            }
            Node::For {
                heading,
                body,
                other,
            } => self.for_loop(body, other, heading, drops),
            Node::Set {
                name,
                value,
                is_global,
            } => self.set(name, value, *is_global),
            Node::Capture {
                is_global,
                captured,
                body,
            } => {
                self.section(&captured.filters, body, drops)?;
                self.store(captured.name, *is_global)
            }
            Node::FilterSection { filters, body } => {
                self.section(filters, body, drops)?;
                self.emit(Instruction::WriteTop)
            }
            Node::ComponentCall { tag, body, span } => {
                self.capture(body, *span, drops)?;
                self.component_call(tag, *span)
            }
            Node::Block(block) => self.body_call(block.name, true, block.span),
            Node::Include { name, span } => self.body_call(name.as_str(), false, *span),
            Node::Break => self.emit(Instruction::LeaveLoop(drops)),
            Node::Continue => self.emit(Instruction::LeaveTurn(drops)),
        }
    }

    // One of the two bodies runs, by the operand on top; the other one is passed by a jump.
    #[cycle(nodes)]
    #[inline(never)]
    fn fork(&mut self, body: &Vec<Node>, other: &Vec<Node>, drops: usize) -> Result<(), AllocError>
        ensures ok { OnOk result (self.new ≡ lengthened self.old (choice_tail
            (nodes_code (nodes_of body.now.items) drops)
            (nodes_code (nodes_of other.now.items) drops))) }
    {
        let position = self.keep_position()?;
        self.body(body, drops)?;
        let position = self.divide(position)?;
        self.body(other, drops)?;
        self.fill(position, Instruction::Jump(self.count_after(position)))
    }

    // The other body runs where there is no turn, and is passed where the loop ends.
    #[cycle(nodes)]
    #[inline(never)]
    fn for_loop(
        &mut self,
        body: &Vec<Node>,
        other: &Vec<Node>,
        heading: &Heading,
        drops: usize,
    ) -> Result<(), AllocError>
        ensures ok { OnOk result (self.new ≡ lengthened self.old
            (node_code (for_of heading.now body.now.items other.now.items) drops)) }
    {
        self.expression(&heading.target)?;
        let position = self.keep_position()?;
        self.body(body, 0)?;
        self.end_turns(position, heading, true)?;
        let position = self.keep_position()?;
        self.body(other, drops)?;
        self.fill(position, Instruction::EndLoop(self.count_after(position)))
    }

    // A block, whose body is compiled by itself, is put out as the template that is rendered has it; an include, as the template to
    // which its name resolves there.
    fn body_call(&mut self, name: &str, is_block: bool, span: Span) -> Result<(), AllocError>
        ensures ok { OnOk result (self.new ≡ lengthened self.old (cond is_block
            (instruction.TakeBlock name.now span) (instruction.TakeInclude name.now span) ∷ [])) }
    {
        let name = self.name(name)?;
        let name = LentName::new(&name);
        if is_block {
            self.emit(Instruction::TakeBlock { name, span })
        } else {
            self.emit(Instruction::TakeInclude { name, span })
        }
    }

    // The component is handed the text on top of the operands; what it makes of that and of its attributes is put out.
    #[inline(never)]
    fn component_call(&mut self, tag: &ComponentTag, span: Span) -> Result<(), AllocError>
        ensures ok { OnOk result (self.new ≡ lengthened self.old (handed_to tag.now span)) }
    {
        let attributes = tag.attributes.as_slice();
        self.entries(attributes)?;
        self.take_component(tag.name, attributes, true, span)?;
        self.emit(Instruction::WriteTop)
    }

    // The map of all that is bound is made first; what any other name stands for is put out where it lies.
    #[inline(always)]
    fn print_name(&mut self, name: &str, span: Span) -> Result<(), AllocError>
        ensures ok { OnOk result (self.new ≡ lengthened self.old
            (node_code (tree.Print (tree.Name name.now span)) 0)) }
    {
        if is_context(name) {
            self.load(name, span)?;
            self.emit(Instruction::WriteTop)
        } else {
            self.emit_name(name, span)
        }
    }

    fn print(&mut self, value: &Expression) -> Result<(), AllocError>
        ensures ok { OnOk result (self.new ≡ lengthened self.old
            (node_code (tree.Print (expr_of value.now)) 0)) }
    {
        match value {
            Expression::Name { name, span } => self.print_name(name, *span),
            _ => {
                self.expression(value)?;
                self.emit(Instruction::WriteTop)
            }
        }
    }
}

/// The code of these nodes, which stand in the text of the template of this name.
pub fn compile_body(alloc: Global, file: &str, nodes: &[Node]) -> Result<Chunk, AllocError>
    ensures ok { IfOk result (λ c. c ≡ listing_of file.now (nodes_of nodes.now)) }
{
    let mut compiler = Compiler::with_file(alloc, alloc_result(Name::new(alloc, file))?);
    compiler.compile(nodes)?;
    Ok(compiler.into_chunk())
}
