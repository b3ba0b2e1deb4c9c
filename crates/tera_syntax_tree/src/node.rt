// Nodes of a template. They borrow names and texts from its source.
ghost use Rattle.std.specs.Prelude.{◌≡◌};
ghost use Rattle.tera_syntax_tree.specs.Tree as tree;
ghost use Rattle.tera_syntax_tree.specs.Tree.{attributes_in, body_of, filters_in, other_of};
ghost use Rattle.tera_syntax_tree.specs.View.{capture_of, component_call_of, entries_of, expr_of, filters_of, for_of, node_of, nodes_of};

use crate::component::Signature;
use crate::expression::{Argument, ComponentTag, EntryExpression, Expression, Heading};
use crate::quoted::Quoted;
use tera_errors::Span;

/// A node of a template: a piece of its text, or a tag with what belongs to it. It takes 64 bytes: what stands beside a body has
/// a box of its own where it is larger than a name.
#[cycle(node)]
pub enum Node<'s> {
    /// Text that is written as it stands. The span is what it covers.
    Content {
        text: &'s str,
        span: Span,
    },
    /// `{{ value }}`
    Print {
        value: Expression<'s>,
    },
    /// `{{ name }}`, which is read and kept without a box. The span is that of the name.
    PrintName {
        name: &'s str,
        span: Span,
    },
    /// `{% if condition %}body{% else %}other{% endif %}`; an `elif` is an `if` in the other body.
    If {
        condition: Box<Expression<'s>>,
        body: Vec<Node<'s>>,
        other: Vec<Node<'s>>,
    },
    /// `{% set name = value %}`, or `{% set_global name = value %}` where it is global.
    Set {
        name: &'s str,
        value: Box<Expression<'s>>,
        is_global: bool,
    },
    /// `{% set name | filter %}body{% endset %}`, or the same with `set_global` where it is global. There may be no filter.
    Capture {
        is_global: bool,
        captured: Box<Captured<'s>>,
        body: Vec<Node<'s>>,
    },
    /// `{% filter filters %}body{% endfilter %}`
    FilterSection {
        filters: Vec<SectionFilter<'s>>,
        body: Vec<Node<'s>>,
    },
    /// `{% for name in target %}body{% else %}other{% endfor %}`
    For {
        heading: Box<Heading<'s>>,
        body: Vec<Node<'s>>,
        other: Vec<Node<'s>>,
    },
    /// `{% block name %}body{% endblock %}`
    Block(Block<'s>),
    /// `{% include "name" %}`. The span is that of the name with its quotes.
    Include {
        name: Quoted<'s>,
        span: Span,
    },
    /// `{% <name attributes> %}body{% </name> %}`: a component that is handed a body. The span is that of the first tag's `<` to `>`.
    ComponentCall {
        tag: Box<ComponentTag<'s>>,
        body: Vec<Node<'s>>,
        span: Span,
    },
    /// `{% break %}`
    Break,
    /// `{% continue %}`
    Continue,
}

const _: () = prove!(size_of::<Node<'static>>() == 64);

// By hand, so that nodes that go out of scope are one call.
impl<'s> Drop for Node<'s> {
    fn drop(self) {
        match self {
            Node::Content { text: _, span: _ } => {}
            Node::Print { value: _ } => {}
            Node::PrintName { name: _, span: _ } => {}
            Node::If {
                condition: _,
                body: _,
                other: _,
            } => {}
            Node::Set {
                name: _,
                value: _,
                is_global: _,
            } => {}
            Node::Capture {
                is_global: _,
                captured: _,
                body: _,
            } => {}
            Node::FilterSection {
                filters: _,
                body: _,
            } => {}
            Node::For {
                heading: _,
                body: _,
                other: _,
            } => {}
            Node::Block(_) => {}
            Node::Include { name: _, span: _ } => {}
            Node::ComponentCall {
                tag: _,
                body: _,
                span: _,
            } => {}
            Node::Break => {}
            Node::Continue => {}
        }
    }
}

impl<'s> Node<'s> {
    /// `{% if condition %}body{% else %}other{% endif %}`
    #[tactic(auto, using(crate::proofs::Views::view_if))]
    pub fn choice(condition: Box<Expression<'s>>, body: Vec<Node<'s>>, other: Vec<Node<'s>>) -> Self
        ensures { node_of result ≡ tree.If (expr_of condition.entry.value) (nodes_of body.entry.items)
            (nodes_of other.entry.items) }
    {
        Node::If {
            condition,
            body,
            other,
        }
    }

    /// `{% set name = value %}`, or `{% set_global name = value %}` where it is global.
    pub fn set(name: &'s str, value: Box<Expression<'s>>, is_global: bool) -> Self
        ensures { node_of result ≡ tree.Set name.now (expr_of value.entry.value) is_global }
    {
        Node::Set {
            name,
            value,
            is_global,
        }
    }

    /// `{% set name | filter %}body{% endset %}`, or the same with `set_global` where it is global.
    #[tactic(auto, using(crate::proofs::Views::view_capture))]
    pub fn capture(captured: Box<Captured<'s>>, body: Vec<Node<'s>>, is_global: bool) -> Self
        ensures { node_of result
            ≡ capture_of captured.entry.value (nodes_of body.entry.items) is_global }
    {
        Node::Capture {
            is_global,
            captured,
            body,
        }
    }

    /// `{% filter filters %}body{% endfilter %}`
    #[tactic(auto, using(crate::proofs::Views::view_section))]
    pub fn filter_section(filters: Vec<SectionFilter<'s>>, body: Vec<Node<'s>>) -> Self
        ensures { node_of result ≡ tree.FilterSection (filters_of filters.entry.items)
            (nodes_of body.entry.items) }
    {
        Node::FilterSection { filters, body }
    }

    /// `{% block name %}body{% endblock %}`
    #[tactic(auto, using(crate::proofs::Views::view_block))]
    pub fn block(name: &'s str, body: Vec<Node<'s>>, span: Span) -> Self
        ensures { node_of result ≡ tree.Block name.now (nodes_of body.entry.items) span }
    {
        Node::Block(Block { name, body, span })
    }

    /// `{% <name attributes> %}body{% </name> %}`
    #[tactic(auto, using(crate::proofs::Views::view_component_call))]
    pub fn component_call(tag: Box<ComponentTag<'s>>, body: Vec<Node<'s>>, span: Span) -> Self
        ensures { node_of result
            ≡ component_call_of tag.entry.value (nodes_of body.entry.items) span }
    {
        Node::ComponentCall { tag, body, span }
    }

    /// `{% for heading %}body{% else %}other{% endfor %}`
    #[tactic(auto, using(crate::proofs::Views::view_for))]
    pub fn for_loop(heading: Box<Heading<'s>>, body: Vec<Node<'s>>, other: Vec<Node<'s>>) -> Self
        ensures { node_of result ≡ for_of heading.entry.value body.entry.items other.entry.items }
    {
        Node::For {
            heading,
            body,
            other,
        }
    }

    /// What stands between the tags of a statement. It is empty where the node has no such body. So a walk names only the nodes of
    /// which it says more than of their bodies.
    #[tactic(auto, using(crate::proofs::Views::body_of_if, crate::proofs::Views::body_of_capture, crate::proofs::Views::body_of_section, crate::proofs::Views::body_of_for, crate::proofs::Views::body_of_block, crate::proofs::Views::body_of_call,))]
    pub fn body(&self) -> &[Node<'s>]
        ensures { nodes_of result.now ≡ body_of (node_of self.now) }
    {
        match self {
            Node::If { body, .. } => body.as_slice(),
            Node::Capture { body, .. } => body.as_slice(),
            Node::FilterSection { body, .. } => body.as_slice(),
            Node::For { body, .. } => body.as_slice(),
            Node::Block(block) => block.body.as_slice(),
            Node::ComponentCall { body, .. } => body.as_slice(),
            _ => &[],
        }
    }

    /// What stands behind the `else` of a statement, or its `elif`. It is empty where the node has no such body.
    #[tactic(auto, using(crate::proofs::Views::other_of_if, crate::proofs::Views::other_of_for))]
    pub fn other(&self) -> &[Node<'s>]
        ensures { nodes_of result.now ≡ other_of (node_of self.now) }
    {
        match self {
            Node::If { other, .. } => other.as_slice(),
            Node::For { other, .. } => other.as_slice(),
            _ => &[],
        }
    }

    /// The filters in the first tag of a statement.
    #[tactic(auto, using(crate::proofs::Views::filters_in_capture, crate::proofs::Views::filters_in_section))]
    pub fn filters(&self) -> &[SectionFilter<'s>]
        ensures { filters_of result.now ≡ filters_in (node_of self.now) }
    {
        match self {
            Node::Capture { captured, .. } => captured.filters.as_slice(),
            Node::FilterSection { filters, .. } => filters.as_slice(),
            _ => &[],
        }
    }

    /// The attributes in the first tag of a statement.
    #[tactic(auto, using(crate::proofs::Views::attributes_in_call))]
    pub fn attributes(&self) -> &[EntryExpression<'s>]
        ensures { entries_of result.now ≡ attributes_in (node_of self.now) }
    {
        match self {
            Node::ComponentCall { tag, .. } => tag.attributes.as_slice(),
            _ => &[],
        }
    }
}

/// A block: a part of a template that another which extends it may put its own in place of. The span is that of its name.
#[derive(Drop)]
#[cycle(node)]
pub struct Block<'s> {
    pub name: &'s str,
    pub body: Vec<Node<'s>>,
    pub span: Span,
}

/// What a body is captured for: the name, and the filters that its text goes through.
#[derive(Drop)]
pub struct Captured<'s> {
    pub name: &'s str,
    pub filters: Vec<SectionFilter<'s>>,
}

/// A filter of what a body puts out. Its span begins with its name.
#[derive(Drop)]
pub struct SectionFilter<'s> {
    pub name: &'s str,
    pub arguments: Vec<Argument<'s>>,
    pub span: Span,
}

/// What the reader makes of a text, from which it borrows.
pub struct ParserOutput<'s> {
    /// The name of the template that the text extends, if it does.
    pub parent: Option<Quoted<'s>>,
    pub nodes: Vec<Node<'s>>,
    /// The components that it defines. They are none of the nodes.
    pub component_definitions: Vec<DefinedComponent<'s>>,
}

// By hand, so that an output that goes out of scope is one call.
impl<'s> Drop for ParserOutput<'s> {
    fn drop(self) {
        let ParserOutput {
            parent,
            nodes,
            component_definitions,
        } = self;
        drop(parent);
        drop(nodes);
        drop(component_definitions);
    }
}

/// `{% component signature %}body{% endcomponent %}`
#[derive(Drop)]
pub struct DefinedComponent<'s> {
    pub signature: Signature<'s>,
    pub body: Vec<Node<'s>>,
}
