//! The reader: from a template's text to its tree.
#![tactic(auto)]

mod blocks;
mod components;
mod file;
mod heads;
pub mod laws;
mod open_statements;
mod parts;
mod positions;
pub mod reader;
mod refusal_words;
mod statements;
mod word_statements;

pub use reader::parse;
pub use tera_components::{ComponentArg, ComponentDefinition, ComponentInfo};
pub use tera_syntax_tree::{
    Argument, ArgumentType, BinaryOperator, Block, DefinedComponent, Delimiters, EntryExpression,
    Expression, Heading, Item, Literal, LiteralEntry, LiteralKey, Node, Parameter, ParserOutput,
    SectionFilter, Signature,
};
