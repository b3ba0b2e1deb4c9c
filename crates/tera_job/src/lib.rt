//! From the texts of files, data and settings to pages, or to the first fault. It reads and writes no file.
#![tactic(auto)]

pub mod datum;
pub mod engine;
pub mod job;
pub mod laws;
pub mod page;
pub mod path;
pub mod preview;
pub mod syntax;

pub use datum::{DataForm, Datum, Unreadable, context_of};
pub use engine::{Settings, Tags, furnish};
pub use job::{Job, JobError, Made, Task, make, make_with};
pub use page::{Page, Unwatched, Watch, pages};
pub use path::{is_page, output_path};
pub use preview::{Preview, previews};
pub use syntax::syntax_errors;
