//! What templates mean, and where the markup of a rendering comes from: definitions, and laws on them. Nothing here runs.
#![tactic(auto)]

pub mod laws;
pub mod traces;
