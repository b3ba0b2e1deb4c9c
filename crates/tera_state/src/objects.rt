//! What an engine has of its caller: filters, tests, functions and the escape.
mod boxed_escape;
mod built_in_kinds;
mod caller_calls;
pub mod caller_objects;
pub mod filters;
pub mod interface;
pub mod laws;
pub mod object_call;
mod safe_answers;
pub mod stored;
pub mod table;
pub mod unboxed;

pub use caller_objects::{CallerObjects, ObjectsOver};
pub use filters::OwnFilters;
pub use interface::Objects;
pub use object_call::ObjectCall;
pub use stored::{Stored, StoredFilter, StoredFunction, StoredTest};
pub use table::{BuiltInKind, ObjectTable};
pub use unboxed::{HtmlEscape, UnboxedObjects};
