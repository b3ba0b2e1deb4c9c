//! The variables of a rendering, and what objects of the caller are lent of them.
#![tactic(auto)]

mod binding_map;
mod binding_maps;
pub mod bindings;
pub mod context_ref;
pub mod contexts;
pub mod found_value;
pub mod frame;
pub mod implicits;
pub mod items;
pub mod laws;
mod layer_name;
pub mod loops;
pub mod object;
pub mod objects;
pub mod open_loops;
mod part;
pub mod scopes;
pub mod stack;
pub mod state;
pub mod writing;

pub use bindings::Bindings;
pub use context_ref::ContextRef;
pub use contexts::Contexts;
pub use found_value::FoundValue;
pub use frame::{Frame, FrameKind};
pub use implicits::Implicits;
pub use items::ForLoopIterator;
pub use loops::ForLoop;
pub use object::{Filter, Function, Test};
pub use objects::{
    BuiltInKind, CallerObjects, HtmlEscape, ObjectCall, ObjectTable, Objects, ObjectsOver,
    OwnFilters, Stored, StoredFilter, StoredFunction, StoredTest, UnboxedObjects,
};
pub use open_loops::OpenLoops;
pub use scopes::Scopes;
pub use stack::Stack;
pub use state::{State, StateOver};
pub use writing::write_value;
