//! A reader and a writer in memory, which fail where they are told to.
use std::alloc::Global;
use std::io;
use std::io::{ErrorKind, Read, Write};
use tera::Tera;
use tera_run_script::{Outcome, ReaderInput, WriterOutput, run};

/// Gives a text, a few bytes a read. The first read is interrupted; the one with this number fails.
#[derive(Clone, Copy)]
pub struct ScriptSource<'a> {
    rest: &'a [u8],
    reads: usize,
    fails_at: usize,
}

impl<'a> ScriptSource<'a> {
    /// A reader that fails at this read.
    pub fn with_failing_read(text: &'a [u8], fails_at: usize) -> ScriptSource<'a> {
        ScriptSource {
            rest: text,
            reads: 0,
            fails_at,
        }
    }

    /// A reader that never fails.
    pub fn new(text: &'a [u8]) -> ScriptSource<'a> {
        ScriptSource::with_failing_read(text, usize::MAX)
    }
}

impl Read for ScriptSource<'_> {
    fn read(&mut self, buffer: &mut [u8]) -> io::Result<usize> {
        self.reads = self.reads.saturating_add(1);
        if self.reads == 1 {
            return Err(io::Error::new(ErrorKind::Interrupted, "not yet"));
        }
        if self.reads == self.fails_at {
            return Err(io::Error::other("the reader fails"));
        }
        let taken = self.rest.len().min(buffer.len()).min(7);
        buffer[..taken].copy_from_slice(&self.rest[..taken]);
        self.rest = &self.rest[taken..];
        Ok(taken)
    }
}

/// How a writer fails once its room is taken.
#[derive(Clone, Copy, PartialEq, Eq)]
pub enum Failing {
    /// Its writes fail.
    Writes,
    /// Its writes take nothing.
    Quietly,
    /// Its flushes fail, at any time.
    Flushes,
}

/// Takes so many bytes, a few a write, and then fails.
#[derive(Clone, Copy)]
pub struct Sink {
    bytes: [u8; 128],
    used: usize,
    room: usize,
    failing: Failing,
}

impl Sink {
    /// A writer that takes so many bytes, up to 128, and fails in this way.
    pub fn with_failing_write(room: usize, failing: Failing) -> Sink {
        Sink {
            bytes: [0; 128],
            used: 0,
            room,
            failing,
        }
    }

    /// A writer that takes all that the tests write.
    pub fn new() -> Sink {
        Sink::with_failing_write(128, Failing::Writes)
    }

    /// What it took.
    pub fn written_bytes(&self) -> &[u8] {
        &self.bytes[..self.used.min(128)]
    }
}

impl Write for Sink {
    fn write(&mut self, piece: &[u8]) -> io::Result<usize> {
        let start = self.used.min(self.bytes.len());
        let left = self.room.saturating_sub(start).min(5);
        let taken = piece.len().min(self.bytes.len() - start).min(left);
        if taken == 0 && !piece.is_empty() && self.failing != Failing::Quietly {
            return Err(io::Error::other("the writer fails"));
        }
        self.bytes[start..start + taken].copy_from_slice(&piece[..taken]);
        self.used = start + taken;
        Ok(taken)
    }

    fn flush(&mut self) -> io::Result<()> {
        if self.failing == Failing::Flushes {
            return Err(io::Error::other("the flush fails"));
        }
        Ok(())
    }
}

/// What a run between them comes to.
pub fn run_on(
    alloc: Global,
    engine: &mut Tera,
    source: ScriptSource<'_>,
    sink: &mut Sink,
) -> Outcome {
    run(
        alloc,
        &mut ReaderInput::new(source),
        &mut WriterOutput::new(sink),
        engine,
    )
}

/// What a run between them comes to, on an engine of its own; none where there is no engine.
pub fn run_between(alloc: Global, source: ScriptSource<'_>, sink: &mut Sink) -> Option<Outcome> {
    match Tera::new(alloc) {
        Ok(mut engine) => Some(run_on(alloc, &mut engine, source, sink)),
        Err(_) => None,
    }
}
