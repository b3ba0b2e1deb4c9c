//! The compiler: from a template's tree to a flat list of instructions.
#![tactic(auto)]

pub mod blocks;
pub mod call_kind;
mod call_names;
pub mod callee;
mod calls;
mod captures;
pub mod chunk;
pub mod comparison;
pub mod compiler;
pub mod constant;
mod draft;
mod expressions;
pub mod instruction;
pub mod instruction_parts;
pub mod laws;
mod lent_code;
pub mod lent_instruction;
mod loops;
mod name_cache;
mod nodes;
mod packed;
mod printing_loops;
mod settling;
mod single_instructions;
mod size_guess;
mod spans;
pub mod steps;
pub mod tally;
mod unpack;

pub use blocks::BlockCode;
pub use call_kind::CallKind;
pub use callee::Callee;
pub use chunk::Chunk;
pub use comparison::{Comparison, IntegerComparison};
pub use compiler::Compiler;
pub use constant::Constant;
pub use instruction::Instruction;
pub use instruction_parts::{Keys, LentName, LentText, Names, Spreads};
pub use lent_instruction::LentInstruction;
pub use nodes::compile_body;
pub use steps::Steps;
pub use tally::{Allowance, Budget, Tally, Untold};
