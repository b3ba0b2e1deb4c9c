//! Values, keys, maps, errors, arguments and numbers: what the layers above speak of.
#![tactic(auto)]

pub mod argument;
pub mod arguments;
pub mod context;
pub mod context_entries;
pub mod counter;
pub mod kwargs;
pub mod laws;
pub mod name;
pub mod number;
pub mod refusals;
pub mod string_input;

pub use argument::ArgFromValue;
pub use arguments::Arguments;
pub use context::Context;
pub use context_entries::ContextEntries;
pub use counter::Counter;
pub use kwargs::Kwargs;
pub use name::{Name, NameRef};
pub use string_input::{StringInput, WritesValues};
pub use tera_errors::{Error, ErrorKind, ReportError, Span, TeraResult};
pub use tera_value_types::{
    Key, Map, MapEntries, Shape, Value, ValueKind, escape_html, escape_xml,
};
