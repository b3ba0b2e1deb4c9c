// How much code is to come.
use tera_syntax_tree::{Expression, Node};

/// How many instructions, spans and bytes of text nodes are compiled to, by a guess from their kinds and lengths. Room for so
/// many is made ahead, so that little is moved as the code grows; a wrong guess costs a move or some memory.
#[derive(Clone, Copy)]
pub(crate) struct SizeGuess {
    pub(crate) instructions: usize,
    pub(crate) spans: usize,
    pub(crate) bytes: usize,
}

impl SizeGuess {
    /// Room for these nodes.
    pub(crate) fn of_nodes(nodes: &[Node]) -> SizeGuess {
        let mut room = SizeGuess {
            instructions: 0,
            spans: 0,
            bytes: 0,
        };
        room.add_nodes(nodes);
        room
    }

    // Most nodes are text or a name, which take no further call.
    #[cycle(nodes)]
    fn add_nodes(&mut self, nodes: &[Node]) {
        for node in nodes {
            match node {
                Node::Content { text, .. } => self.add_text(text),
                Node::PrintName { .. } => self.add(1),
                _ => self.add_tag(node),
            }
        }
    }

    // A node that is neither. What a body is compiled to counts with it; a block is compiled by itself.
    #[cycle(nodes)]
    fn add_tag(&mut self, node: &Node) {
        self.add(size_of_tag(node));
        if !is_block(node) {
            self.add_nodes(node.body());
            self.add_nodes(node.other());
        }
    }

    fn add_text(&mut self, text: &str) {
        self.bytes = self.bytes.saturating_add(text.len());
        self.instructions = self.instructions.saturating_add(1);
    }

    // So many instructions, each with a span.
    fn add(&mut self, count: usize) {
        self.instructions = self.instructions.saturating_add(count);
        self.spans = self.spans.saturating_add(count);
    }
}

fn is_block(node: &Node) -> bool {
    matches!(node, Node::Block(_))
}

// How many instructions a tag is compiled to, beside its bodies.
fn size_of_tag(node: &Node) -> usize {
    match node {
        Node::Print { value } => size_of(value),
        Node::If { condition, .. } => size_of(condition),
        Node::For { heading, .. } => size_of(&heading.target),
        _ => 1,
    }
}

// How many instructions the expression is compiled to, and one that uses its value: where it has operators, one for every two
// bytes of its text.
fn size_of(expression: &Expression) -> usize {
    let span = match expression {
        Expression::Slice { span, .. } => span,
        Expression::Binary { span, .. } => span,
        Expression::And { span, .. } => span,
        Expression::Or { span, .. } => span,
        Expression::Ternary { span, .. } => span,
        Expression::Array { span, .. } => span,
        _ => return 4,
    };
    span.end.saturating_sub(span.start) / 2 + 2
}
