//! Values as they are kept: kinds, keys, maps, order, access and print.
#![tactic(auto)]

pub mod access;
mod ascii;
pub mod contains;
pub mod copy;
pub mod escape;
mod from;
pub mod item;
pub mod key;
mod key_order;
pub mod laws;
pub mod map;
pub mod map_entries;
pub mod order;
pub mod path;
pub mod print;
mod refusals;
pub mod shape;
pub mod slice;
pub mod table;
pub mod value;

pub use copy::copy_items;
pub use escape::{escape_html, escape_xml};
pub use key::Key;
pub use map_entries::MapEntries;
pub use shape::Shape;
pub use tera_errors::{Error, ErrorKind, ReportError, Span, TeraResult};
pub use value::{Map, Value, ValueKind};
