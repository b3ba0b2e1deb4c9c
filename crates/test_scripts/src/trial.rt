// Runs of a script with little memory.
use crate::commands::commands;
use crate::judge::is_right;
use std::alloc::{AllocError, Global};
use tera::Tera;
use tera_run_script::{Outcome, ReaderInput, WriterOutput, run};
use test_memory::{Tried, with_budget};

/// How many bytes the faults of a script may take, beside its replies.
const FAULTS: usize = 16_384;

/// A script that is tried with more and more memory.
#[derive(Drop)]
pub struct Trial<'a> {
    alloc: Global,
    script: &'a str,
    wanted: &'a [u8],
    commands: Vec<String>,
    /// What was written last and found right, since most runs write what the one before them wrote. At first what is wanted.
    right: Vec<u8>,
}

impl<'a> Trial<'a> {
    /// A script, and what it is answered where there is memory.
    pub fn new(alloc: Global, script: &'a str, wanted: &'a [u8]) -> Result<Trial<'a>, AllocError> {
        Ok(Trial {
            alloc,
            script,
            wanted,
            commands: commands(alloc, script)?,
            right: Vec::from_slice(alloc, wanted)?,
        })
    }

    /// How the script is answered where so many bytes are left of little memory.
    pub fn try_with(&mut self, budget: usize) -> Tried {
        match self.run(budget) {
            Some((outcome, written)) => self.judge(outcome, written),
            None => Tried::Wrong,
        }
    }

    /// What the run comes to, and what it writes. The engine, the script and room for the replies are there before.
    fn run(&self, budget: usize) -> Option<(Outcome, Vec<u8>)> {
        let alloc = self.alloc;
        let room = self.wanted.len().saturating_add(FAULTS);
        let mut engine = Tera::new(alloc).ok()?;
        let mut reader = ReaderInput::new(self.script.as_bytes());
        let mut writer = WriterOutput::new(Vec::with_capacity(alloc, room).ok()?);
        let outcome = with_budget(
            alloc,
            budget,
            || run(alloc, &mut reader, &mut writer, &mut engine),
        )?;
        Some((outcome, writer.into_inner()))
    }

    fn judge(&mut self, outcome: Outcome, written: Vec<u8>) -> Tried {
        match outcome {
            Outcome::Done if written.as_slice() == self.wanted => Tried::Answered,
            Outcome::Done => self.judge_refused(written),
            Outcome::NoMemory if written.is_empty() => Tried::Refused,
            _ => Tried::Wrong,
        }
    }

    fn judge_refused(&mut self, written: Vec<u8>) -> Tried {
        if written == self.right {
            return Tried::Refused;
        }
        if is_right(self.alloc, self.commands.as_slice(), written.as_slice()) {
            self.right = written;
            return Tried::Refused;
        }
        Tried::Wrong
    }
}
