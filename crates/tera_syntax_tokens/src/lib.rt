//! The cut: from a template's text to pieces of text, comments and tags, and from a tag to its tokens.
#![tactic(auto)]

pub(crate) mod bytes;
pub mod cut;
pub mod literal;
pub(crate) mod raw;
pub mod refusal;
pub(crate) mod tag_tokens;
pub mod token;
pub mod tokens;
