//! Renders a folder of templates with data.
#![tactic(auto)]

mod command;
mod errors;
mod inputs;
mod objects;
mod options;
mod outputs;
mod progress;
mod settings;

use crate::errors::RunError;
use crate::inputs::Inputs;
use crate::options::Options;
use crate::progress::Progress;
use clap::ArgMatches;
use std::process::ExitCode;
use tera_job::Made;

/// The exit status where the help that is asked for can't be written.
const UNWRITTEN: u8 = 3;

fn main(rt: HostRuntime) -> ExitCode {
    match run(&rt) {
        Ok(()) => ExitCode::SUCCESS,
        Err(error) => match (error.report(&rt), error.status()) {
            (Err(_), 0) => ExitCode::from(UNWRITTEN),
            (_, status) => ExitCode::from(status),
        },
    }
}

fn run(rt: &HostRuntime) -> Result<(), RunError> {
    let words = command::words(rt)?;
    run_words(rt, words.as_slice())
}

fn run_words(rt: &HostRuntime, words: &[String]) -> Result<(), RunError> {
    let matches = command::matches(rt.alloc(), words)?;
    run_options(rt, &matches)
}

// From what the command line says to what it asks for. Nothing is written before all of it is made.
fn run_options(rt: &HostRuntime, matches: &ArgMatches<'_>) -> Result<(), RunError> {
    let options = Options::new(rt.alloc(), matches)?;
    let inputs = Inputs::read(rt, &options)?;
    outputs::check(rt, &options, &inputs)?;
    let made = make(rt, &options, &inputs)?;
    outputs::write(rt, &options, &made)
}

fn make(rt: &HostRuntime, options: &Options<'_>, inputs: &Inputs<'_>) -> Result<Made, RunError> {
    let objects = objects::new(rt, options)?;
    let mut progress = Progress::new(rt, options.quiet);
    let made = inputs.make(rt.alloc(), objects, options, &mut progress);
    progress.end();
    made
}
