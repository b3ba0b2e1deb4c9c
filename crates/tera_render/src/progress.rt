// What is told while pages are made.
use std::io;
use std::io::IsTerminal;
use std::time::{Duration, Instant};
use tera_job::Watch;

/// So many seconds nothing is told, and so long what was told stands.
const PATIENCE_SECONDS: u64 = 1;

/// Tells on standard error how many pages are made, once that takes over a second and if standard error is a terminal.
#[derive(Drop)]
pub struct Progress<'a> {
    rt: &'a HostRuntime,
    /// When something was told, or the start; nothing where nothing is to be told.
    last: Option<Instant>,
    has_told: bool,
}

impl<'a> Progress<'a> {
    /// Begins to watch the clock.
    pub fn new(rt: &'a HostRuntime, quiet: bool) -> Progress<'a> {
        let last = if quiet || !rt.stderr().is_terminal() {
            None
        } else {
            Instant::now(rt).ok()
        };
        Progress {
            rt,
            last,
            has_told: false,
        }
    }

    /// Takes back what was told.
    pub fn end(&mut self) {
        if self.has_told {
            let _ = eprint!(self.rt; "\r\u{1b}[K");
        }
        self.has_told = false;
    }

    fn tell(&mut self, count: usize, all: usize) -> io::Result<()> {
        let Some(last) = self.last else {
            return Ok(());
        };
        let now = Instant::now(self.rt)?;
        if now.saturating_duration_since(last) >= Duration::from_secs(PATIENCE_SECONDS) {
            self.last = Some(now);
            self.has_told = true;
            eprint!(self.rt; "\r{count} of {all} pages")?;
        }
        Ok(())
    }
}

impl Watch for Progress<'_> {
    fn note(&mut self, count: usize, all: usize) {
        if self.tell(count, all).is_err() {
            self.last = None;
        }
    }
}
