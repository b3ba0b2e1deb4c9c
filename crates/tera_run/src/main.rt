//! Runs a script from standard input on a template engine, and writes the replies to standard output.
#![tactic(auto)]

use std::io::BufWriter;
use std::process::ExitCode;
use tera::Tera;
pub use tera_run_script::{
    Command, Failure, Input, Outcome, Output, ReaderInput, Reply, WriterOutput, complaint, run,
    run_commands,
};

fn main(rt: HostRuntime) -> ExitCode {
    let outcome = match (
        Tera::new(rt.alloc()),
        BufWriter::new(rt.alloc(), rt.stdout()),
    ) {
        (Ok(mut engine), Ok(stdout)) => {
            let mut reader = ReaderInput::new(rt.stdin());
            let mut writer = WriterOutput::new(stdout);
            let outcome = run(rt.alloc(), &mut reader, &mut writer, &mut engine);
            // What a failed write left in the buffer is not tried again.
            let _ = writer.into_inner().into_parts();
            outcome
        }
        _ => Outcome::NoMemory,
    };
    complaint(&outcome, &mut WriterOutput::new(rt.stderr()));
    ExitCode::from(outcome.status())
}
