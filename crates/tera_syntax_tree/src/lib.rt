//! Trees of templates, and the delimiters that tell tags from text.
#![tactic(auto)]

pub mod component;
pub mod delimiters;
pub mod expression;
pub mod node;
pub mod quoted;
pub mod variables;

pub use component::{ArgumentType, Literal, LiteralEntry, Parameter, Signature};
pub use delimiters::Delimiters;
pub use expression::{
    Applied, Argument, BinaryOperator, Bounds, Choice, Collected, ComponentTag, EntryExpression,
    Expression, FunctionCall, Heading, Indexed, Item, LiteralKey, Operands, OwnedKey, Sliced,
};
pub use node::{Block, Captured, DefinedComponent, Node, ParserOutput, SectionFilter};
pub use quoted::Quoted;
