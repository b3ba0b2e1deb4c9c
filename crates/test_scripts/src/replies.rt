// Runs with all the memory that there is.
use std::alloc::Global;
use tera::Tera;
use tera_run_script::{Outcome, ReaderInput, WriterOutput, run};

/// What the program `tera_run` writes for the script; none where it is not run to its end.
pub fn replies(alloc: Global, script: &str) -> Option<Vec<u8>> {
    let mut engine = Tera::new(alloc).ok()?;
    let mut reader = ReaderInput::new(script.as_bytes());
    let mut writer = WriterOutput::new(Vec::new(alloc));
    match run(alloc, &mut reader, &mut writer, &mut engine) {
        Outcome::Done => Some(writer.into_inner()),
        _ => None,
    }
}
