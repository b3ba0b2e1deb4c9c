//! The reader of expressions: from the tokens of a tag to a tree.
#![tactic(auto)]

mod access;
mod applications;
mod arguments;
mod climb;
mod collections;
mod comma_lists;
/// Components that are called, and their attributes.
pub mod components;
mod comprehensions;
/// Expressions, to a greatest depth.
pub mod expressions;
/// Filters of what a body puts out.
pub mod filters;
/// What loops call their items.
pub mod headings;
mod levels;
mod literals;
mod many_arguments;
mod operands;
mod operators;
mod shared_forms;
/// Signatures of components.
pub mod parameters;
/// Levels of precedence.
mod operator_forms;
pub mod precedence;
mod reader;
