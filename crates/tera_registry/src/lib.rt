//! Templates by name: what names resolve to, which templates stand above one, and batches that are added whole or not at
//! all.
#![tactic(auto)]

mod applications;
mod batch;
pub mod body;
mod body_table;
mod circle_search;
pub mod code;
mod component_table;
pub mod components;
mod definers;
mod has_body;
mod include_circles;
mod include_edges;
mod inventory;
mod link;
mod merge;
mod missing_callees;
mod numbers;
mod outside_calls;
mod places;
mod priority;
mod resolve;
mod roots;
pub mod sources;
mod template;
mod template_tree;
pub mod templates;
mod text_components;
pub mod text_table;
mod told_circles;
mod told_missing;
pub mod top_blocks;
mod variables;

pub use body::Body;
pub use body_table::{BodyTable, LinkedBody};
pub use code::Code;
pub use components::Component;
pub use template::Template;
pub use templates::{Defined, Definer, Definers, FoundTemplate, Templates};
pub use text_table::TextTable;
