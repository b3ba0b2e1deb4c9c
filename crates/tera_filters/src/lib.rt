//! Filters and tests that templates of Tera and Jinja2 expect, beside those that every engine has.
#![tactic(auto)]

pub mod base64_texts;
pub mod case;
pub mod clocks;
pub mod dates;
pub mod digests;
pub mod extra_filter;
pub mod extra_function;
pub mod extra_test;
pub mod file_sizes;
mod json_sheet;
pub mod json_texts;
pub mod laws;
pub mod lines;
mod moments;
pub mod no_object;
pub mod objects;
pub mod pack;
pub mod patterns;
pub mod ranges;
pub mod slugs;
pub mod tags;
pub mod urls;
pub mod words;

pub use clocks::Clock;
pub use extra_filter::ExtraFilter;
pub use extra_function::ExtraFunction;
pub use extra_test::ExtraTest;
pub use no_object::NoObject;
pub use objects::extra_objects;
pub use pack::{Pack, PackObjects};
