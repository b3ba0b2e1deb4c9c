// Expressions. They borrow names and texts from the template's source.
ghost use Rattle.std.specs.Prelude.{◌≡◌, IfOk};
ghost use Rattle.tera_syntax_tree.specs.Tree as tree;
ghost use Rattle.tera_syntax_tree.specs.View.{applied_of, arguments_of, called_of, comprehension_of, entries_of, expr_of, items_of, slice_of, tag_of};

use crate::quoted::Quoted;
use std::alloc::{AllocError, Global};
use tera_errors::Span;

/// A sign between two operands that are both evaluated.
#[derive(Clone, Copy, PartialEq, Eq, Debug)]
pub enum BinaryOperator {
    Add,
    Subtract,
    Multiply,
    Divide,
    FloorDivide,
    Remainder,
    Power,
    /// `~`
    Concat,
    Equal,
    NotEqual,
    Less,
    Greater,
    LessOrEqual,
    GreaterOrEqual,
    In,
}

/// A key that is written out in a map.
#[derive(Drop)]
pub enum LiteralKey<'s> {
    Bool(bool),
    Int(i128),
    Text(Quoted<'s>),
}

/// The same with a text of its own, for what outlives the source.
#[derive(Drop)]
pub enum OwnedKey {
    Bool(bool),
    Int(i128),
    Text(String),
}

/// An expression. Its span runs from the first token's start to the last one's end; parentheses around it are no part of it.
/// It takes 48 bytes: larger parts have a box of their own, and a flag stands first, beside what tells the forms apart.
#[cycle(expression)]
pub enum Expression<'s> {
    None {
        span: Span,
    },
    Bool {
        value: bool,
        span: Span,
    },
    Int {
        value: i128,
        span: Span,
    },
    Text {
        text: Quoted<'s>,
        span: Span,
    },
    /// A name, looked up where the template is rendered.
    Name {
        name: &'s str,
        span: Span,
    },
    /// `target.name`, or `target?.name` where it is optional.
    Attribute {
        optional: bool,
        target: Box<Expression<'s>>,
        name: &'s str,
        span: Span,
    },
    /// `target[index]`, or `target?[index]` where it is optional.
    Index {
        optional: bool,
        parts: Box<Indexed<'s>>,
        span: Span,
    },
    /// `target[start:end:step]`, or the same with `?[` where it is optional.
    Slice {
        optional: bool,
        sliced: Box<Sliced<'s>>,
        span: Span,
    },
    Not {
        operand: Box<Expression<'s>>,
        span: Span,
    },
    Negate {
        operand: Box<Expression<'s>>,
        span: Span,
    },
    Binary {
        operator: BinaryOperator,
        operands: Box<Operands<'s>>,
        span: Span,
    },
    And {
        operands: Box<Operands<'s>>,
        span: Span,
    },
    Or {
        operands: Box<Operands<'s>>,
        span: Span,
    },
    /// `value if condition else other`
    Ternary {
        choice: Box<Choice<'s>>,
        span: Span,
    },
    Array {
        items: Vec<Item<'s>>,
        span: Span,
    },
    Map {
        entries: Vec<EntryExpression<'s>>,
        span: Span,
    },
    /// `[value for name in target if condition]`
    Comprehension {
        collected: Box<Collected<'s>>,
        span: Span,
    },
    /// `super(name = value, ..)`: what the next template above makes of the block.
    Super {
        arguments: Vec<Argument<'s>>,
        span: Span,
    },
    /// `value | name(name = value, ..)`
    Filter {
        applied: Box<Applied<'s>>,
        span: Span,
    },
    /// `value is name(name = value, ..)`
    Test {
        applied: Box<Applied<'s>>,
        span: Span,
    },
    /// `name(name = value, ..)`: a function, by any other name than `super`.
    Call {
        called: Box<FunctionCall<'s>>,
        span: Span,
    },
    /// `<name key={value} {...map}/>`: a component. Its attributes are entries at text keys, in the order of the text.
    Component {
        tag: Box<ComponentTag<'s>>,
        span: Span,
    },
}

// By hand, so that a tree that goes out of scope is one call and not a match on every form.
impl<'s> Drop for Expression<'s> {
    #[cycle(dropping)]
    fn drop(self) {
        match self {
            Expression::None { span: _ } => {}
            Expression::Bool { value: _, span: _ } => {}
            Expression::Int { value: _, span: _ } => {}
            Expression::Text { text: _, span: _ } => {}
            Expression::Name { name: _, span: _ } => {}
            Expression::Attribute {
                optional: _,
                target,
                name: _,
                span: _,
            } => drop_operand(target),
            Expression::Index {
                optional: _,
                parts,
                span: _,
            } => drop_indexed(parts),
            Expression::Slice {
                optional: _,
                sliced,
                span: _,
            } => drop_sliced(sliced),
            Expression::Not { operand, span: _ } => drop_operand(operand),
            Expression::Negate { operand, span: _ } => drop_operand(operand),
            Expression::Binary {
                operator: _,
                operands,
                span: _,
            } => drop_operands(operands),
            Expression::And { operands, span: _ } => drop_operands(operands),
            Expression::Or { operands, span: _ } => drop_operands(operands),
            Expression::Ternary { choice, span: _ } => drop_choice(choice),
            Expression::Array { items, span: _ } => drop_items(items),
            Expression::Map { entries, span: _ } => drop_entries(entries),
            Expression::Comprehension { collected, span: _ } => drop_collected(collected),
            Expression::Super { arguments, span: _ } => drop_arguments(arguments),
            Expression::Filter { applied, span: _ } => drop_applied(applied),
            Expression::Test { applied, span: _ } => drop_applied(applied),
            Expression::Call { called, span: _ } => drop_call(called),
            Expression::Component { tag, span: _ } => drop_tag(tag),
        }
    }
}

// Each form's parts are dropped in a function of its own: what that takes of the stack is not in the frame of every level.

#[inline(never)]
#[cycle(dropping)]
fn drop_operand(operand: Box<Expression<'_>>) {
    drop(operand);
}

#[inline(never)]
#[cycle(dropping)]
fn drop_operands(operands: Box<Operands<'_>>) {
    drop(operands);
}

#[inline(never)]
#[cycle(dropping)]
fn drop_indexed(parts: Box<Indexed<'_>>) {
    drop(parts);
}

#[inline(never)]
#[cycle(dropping)]
fn drop_sliced(sliced: Box<Sliced<'_>>) {
    drop(sliced);
}

#[inline(never)]
#[cycle(dropping)]
fn drop_choice(choice: Box<Choice<'_>>) {
    drop(choice);
}

#[inline(never)]
#[cycle(dropping)]
fn drop_items(items: Vec<Item<'_>>) {
    drop(items);
}

#[inline(never)]
#[cycle(dropping)]
fn drop_entries(entries: Vec<EntryExpression<'_>>) {
    drop(entries);
}

#[inline(never)]
#[cycle(dropping)]
fn drop_collected(collected: Box<Collected<'_>>) {
    drop(collected);
}

#[inline(never)]
#[cycle(dropping)]
fn drop_arguments(arguments: Vec<Argument<'_>>) {
    drop(arguments);
}

#[inline(never)]
#[cycle(dropping)]
fn drop_applied(applied: Box<Applied<'_>>) {
    drop(applied);
}

#[inline(never)]
#[cycle(dropping)]
fn drop_call(called: Box<FunctionCall<'_>>) {
    drop(called);
}

#[inline(never)]
#[cycle(dropping)]
fn drop_tag(tag: Box<ComponentTag<'_>>) {
    drop(tag);
}

/// What stands on both sides of an operator. They lie together, so that an operator takes one box.
#[cycle(expression)]
pub struct Operands<'s> {
    pub left: Expression<'s>,
    pub right: Expression<'s>,
}

// By hand, so that operands that go out of scope are one call.
impl<'s> Drop for Operands<'s> {
    #[cycle(dropping)]
    fn drop(self) {
        let Operands { left, right } = self;
        drop(left);
        drop(right);
    }
}

/// What an index is taken of, and the index.
#[derive(Drop)]
#[cycle(expression)]
pub struct Indexed<'s> {
    pub target: Expression<'s>,
    pub index: Expression<'s>,
}

/// Two values, and the condition that chooses the first.
#[derive(Drop)]
#[cycle(expression)]
pub struct Choice<'s> {
    pub value: Expression<'s>,
    pub condition: Expression<'s>,
    pub other: Expression<'s>,
}

/// An item of an array, or an array whose items are spread into it.
#[derive(Drop)]
#[cycle(expression)]
pub struct Item<'s> {
    pub is_spread: bool,
    pub value: Expression<'s>,
}

/// An entry of a map; without a key, a map whose entries are spread into it.
#[derive(Drop)]
#[cycle(expression)]
pub struct EntryExpression<'s> {
    pub key: Option<LiteralKey<'s>>,
    pub value: Expression<'s>,
}

/// An argument of a call. A call has its arguments in byte order of their names, in which they are evaluated.
#[derive(Drop)]
#[cycle(expression)]
pub struct Argument<'s> {
    pub name: &'s str,
    pub value: Expression<'s>,
}

/// A value, and what is applied to it by name: a filter or a test.
#[derive(Drop)]
#[cycle(expression)]
pub struct Applied<'s> {
    pub value: Expression<'s>,
    pub name: &'s str,
    pub arguments: Vec<Argument<'s>>,
}

/// A function that is called, by its name.
#[derive(Drop)]
#[cycle(expression)]
pub struct FunctionCall<'s> {
    pub name: &'s str,
    pub arguments: Vec<Argument<'s>>,
}

/// The tag that calls a component.
#[derive(Drop)]
#[cycle(expression)]
pub struct ComponentTag<'s> {
    pub name: &'s str,
    pub attributes: Vec<EntryExpression<'s>>,
}

/// What a comprehension keeps of what it goes over, where there is a condition only as that says.
#[derive(Drop)]
#[cycle(expression)]
pub struct Collected<'s> {
    pub value: Expression<'s>,
    pub heading: Heading<'s>,
    pub condition: Option<Box<Expression<'s>>>,
}

/// What a slice is taken of, and its bounds.
#[derive(Drop)]
#[cycle(expression)]
pub struct Sliced<'s> {
    pub target: Expression<'s>,
    pub bounds: Bounds<'s>,
}

/// The bounds of a slice, as far as they are written.
#[derive(Drop)]
#[cycle(expression)]
pub struct Bounds<'s> {
    pub start: Option<Box<Expression<'s>>>,
    pub end: Option<Box<Expression<'s>>>,
    pub step: Option<Box<Expression<'s>>>,
}

/// What a loop calls its items and what it goes over: `name in target`, or `key, name in target`.
#[cycle(expression)]
pub struct Heading<'s> {
    pub key: Option<&'s str>,
    pub name: &'s str,
    pub target: Expression<'s>,
}

// By hand, so that headings that go out of scope are one call.
impl<'s> Drop for Heading<'s> {
    #[cycle(dropping)]
    fn drop(self) {
        let Heading { key, name, target } = self;
        drop(key);
        drop(name);
        drop(target);
    }
}

impl<'s> Expression<'s> {
    /// `target.name`, or `target?.name` where it is optional.
    pub fn attribute(target: Box<Expression<'s>>, name: &'s str, optional: bool, span: Span) -> Self
        ensures { expr_of result ≡ tree.Attribute (expr_of target.entry.value) name.now
            optional span }
    {
        Expression::Attribute {
            optional,
            target,
            name,
            span,
        }
    }

    /// `target[index]`, or `target?[index]` where it is optional.
    pub fn index(parts: Box<Indexed<'s>>, optional: bool, span: Span) -> Self
        ensures { expr_of result ≡ tree.Index (expr_of parts.entry.value.target)
            (expr_of parts.entry.value.index)
            optional span }
    {
        Expression::Index {
            optional,
            parts,
            span,
        }
    }

    /// The bounds are those that are written, each in its place.
    pub fn slice(sliced: Box<Sliced<'s>>, optional: bool, span: Span) -> Self
        ensures { expr_of result ≡ slice_of sliced.entry.value optional span }
    {
        Expression::Slice {
            optional,
            sliced,
            span,
        }
    }

    /// `not operand`, with the operand in a box.
    pub fn not(alloc: Global, operand: Self, span: Span) -> Result<Self, AllocError>
        ensures { IfOk result (λ e. expr_of e ≡ tree.Not (expr_of operand.entry) span) }
    {
        let operand = Box::new(alloc, operand)?;
        Ok(Expression::Not { operand, span })
    }

    /// `-operand`, with the operand in a box.
    pub fn negate(alloc: Global, operand: Self, span: Span) -> Result<Self, AllocError>
        ensures { IfOk result (λ e. expr_of e ≡ tree.Negate (expr_of operand.entry) span) }
    {
        let operand = Box::new(alloc, operand)?;
        Ok(Expression::Negate { operand, span })
    }

    /// The operator between two operands.
    pub fn binary(operator: BinaryOperator, operands: Box<Operands<'s>>, span: Span) -> Self
        ensures { expr_of result ≡ tree.Binary operator (expr_of operands.entry.value.left)
            (expr_of operands.entry.value.right)
            span }
    {
        Expression::Binary {
            operator,
            operands,
            span,
        }
    }

    /// `left and right`
    pub fn and(operands: Box<Operands<'s>>, span: Span) -> Self
        ensures { expr_of result ≡ tree.And (expr_of operands.entry.value.left)
            (expr_of operands.entry.value.right)
            span }
    {
        Expression::And { operands, span }
    }

    /// `left or right`
    pub fn or(operands: Box<Operands<'s>>, span: Span) -> Self
        ensures { expr_of result ≡ tree.Or (expr_of operands.entry.value.left)
            (expr_of operands.entry.value.right)
            span }
    {
        Expression::Or { operands, span }
    }

    /// `value if condition else other`
    pub fn ternary(choice: Box<Choice<'s>>, span: Span) -> Self
        ensures { expr_of result ≡ tree.Ternary (expr_of choice.entry.value.value)
            (expr_of choice.entry.value.condition)
            (expr_of choice.entry.value.other) span }
    {
        Expression::Ternary { choice, span }
    }

    /// `[item, ..]`
    pub fn array(items: Vec<Item<'s>>, span: Span) -> Self
        ensures { expr_of result ≡ tree.Array (items_of items.entry.items) span }
    {
        Expression::Array { items, span }
    }

    /// `{key: value, ..}`
    pub fn map(entries: Vec<EntryExpression<'s>>, span: Span) -> Self
        ensures { expr_of result ≡ tree.Map (entries_of entries.entry.items) span }
    {
        Expression::Map { entries, span }
    }

    /// `[value for heading if condition]`
    pub fn comprehension(collected: Box<Collected<'s>>, span: Span) -> Self
        ensures { expr_of result ≡ comprehension_of collected.entry.value span }
    {
        Expression::Comprehension { collected, span }
    }

    /// `super(name = value, ..)`
    pub fn super_call(arguments: Vec<Argument<'s>>, span: Span) -> Self
        ensures { expr_of result ≡ tree.Super (arguments_of arguments.entry.items) span }
    {
        Expression::Super { arguments, span }
    }

    /// `value | name(name = value, ..)`
    pub fn filter(applied: Box<Applied<'s>>, span: Span) -> Self
        ensures { expr_of result ≡ applied_of tree.Filter applied.entry.value span }
    {
        Expression::Filter { applied, span }
    }

    /// `value is name(name = value, ..)`
    pub fn test(applied: Box<Applied<'s>>, span: Span) -> Self
        ensures { expr_of result ≡ applied_of tree.Test applied.entry.value span }
    {
        Expression::Test { applied, span }
    }

    /// `name(name = value, ..)`
    pub fn call(called: Box<FunctionCall<'s>>, span: Span) -> Self
        ensures { expr_of result ≡ called_of called.entry.value span }
    {
        Expression::Call { called, span }
    }

    /// `<name attributes/>`
    pub fn component(tag: Box<ComponentTag<'s>>, span: Span) -> Self
        ensures { expr_of result ≡ tag_of tag.entry.value span }
    {
        Expression::Component { tag, span }
    }
}
