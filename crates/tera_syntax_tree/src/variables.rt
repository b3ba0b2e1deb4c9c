//! Which names a template looks up and does not bind.
mod expressions;
mod nodes;
mod sets;

pub use nodes::free_names;
pub use sets::add;
