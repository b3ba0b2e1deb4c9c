// The laws on pages, and those of the crates beneath, for the proofs of callers. Nothing here runs.
pub mod pages;

pub use tera_built_ins::laws as built_ins;
pub use tera_code::laws as code;
pub use tera_meaning::{laws as meaning, traces as marks};
pub use tera_state::laws as objects;
pub use tera_syntax::laws as syntax;
pub use tera_value_types::laws as values;
pub use tera_values::laws as contexts;
