//! The filters, tests and functions that every engine has.
#![tactic(auto)]

pub mod arguments;
mod attributes;
pub mod built_in_filter;
pub mod built_in_function;
pub mod built_in_test;
pub mod defaults;
pub mod escape_fn;
pub mod functions;
pub mod groups;
pub mod indent;
pub mod items;
pub mod join;
pub mod laws;
pub mod maps;
pub mod markup_filters;
pub mod numbers;
pub mod parse;
mod refusals;
pub mod replace;
mod safe_answers;
pub mod safe_filters;
mod searching;
pub mod sizes;
mod sort_key;
pub mod sorting;
pub mod split;
pub mod tests;
pub mod trims;
pub mod truncate;
pub mod words;

pub use built_in_filter::{BuiltInFilter, FILTERS};
pub use built_in_function::{BuiltInFunction, FUNCTIONS};
pub use built_in_test::{BuiltInTest, TESTS};
pub use escape_fn::{EscapeFn, Escaping};
