//! Data as values of templates: what a text of JSON, of TOML or of CSV spells, as a value or as a context.
#![tactic(auto)]

mod conversion;
pub mod csv_reading;
mod csv_records;
mod fault;
pub mod laws;
pub mod number;
pub mod reading;
pub mod toml_reading;
mod toml_tables;
mod words;

pub use csv_reading::{csv_value, put_csv};
pub use number::Floats;
pub use reading::{json_context, json_value, put_json, text_of};
pub use toml_reading::{put_toml, toml_context, toml_value};
