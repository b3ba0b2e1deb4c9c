//! Folders of texts: all files of a folder, and files that are written whole or not at all.
#![tactic(auto)]

pub mod error;
pub mod place;
pub mod reading;
pub mod writing;

pub use error::FileError;
pub use place::{lies_in, name_in, rest_below};
pub use reading::{TextFile, read_bytes, read_folder};
pub use writing::{write_file, write_files};
