//! The stack machine that runs a compiled body.
#![tactic(auto)]

pub mod block_bodies;
mod built_in;
mod call_notes;
mod calls;
mod captures;
pub mod components;
pub mod configuration;
mod cursor;
mod dispatch;
pub mod ended_blocks;
pub mod includes;
pub mod instructions;
mod integers;
pub mod loop_place;
mod loops;
pub mod machine;
pub mod open_bodies;
pub mod open_things;
mod paths;
mod printing_loops;
mod refusals;
pub mod rendered_text;
pub mod requests;
pub mod wanted_block;

pub use configuration::Configuration;
pub use ended_blocks::EndedBlocks;
pub use loop_place::LoopPlace;
pub use machine::VirtualMachine;
pub use open_bodies::{OpenBlock, OpenBodies};
pub use open_things::{Numbered, OpenThings};
pub use rendered_text::RenderedText;
pub use requests::{BlockRequest, ComponentRequest, IncludeRequest};
pub use wanted_block::WantedBlock;
