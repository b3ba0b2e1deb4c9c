//! What operators, accesses and literals make of operands that were evaluated.
#![tactic(auto)]

pub mod access;
pub mod arithmetic;
pub mod array_literals;
pub mod calls;
pub mod compare;
pub mod faults;
pub mod in_place;
pub mod map_entries;
pub mod map_literals;
pub mod membership;
pub mod operand;
pub mod operator;
pub mod text;

pub use access::{attribute, item, slice};
pub use arithmetic::negate;
pub use array_literals::array;
pub use calls::{arguments, operand_or_call_fault};
pub use compare::{is_comparison, not};
pub use faults::{fault_at, fault_of_value_at, operand_or_fault};
pub use in_place::{binary_in_place, compare_integers};
pub use map_entries::Entries;
pub use map_literals::{entries, map};
pub use operand::{LentOperand, Operand};
pub use operator::binary;
