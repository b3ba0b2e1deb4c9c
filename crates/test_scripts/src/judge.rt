// What may be written for a script where memory is refused.
use crate::replies::replies;
use std::alloc::Global;

const REFUSED: &[u8] = b"fault OutOfMemory\n";

/// A batch that is always refused. It takes the templates that wait with it, as any adding does.
const REFUSED_BATCH: &str = "@@ template child\n{% extends \"no such parent\" %}\n@@ end\n@@ add\n";

/// A walk along the commands of a script and what was written for them.
#[derive(Drop)]
struct ReplyWalk<'a> {
    alloc: Global,
    /// The commands so far that were not refused.
    kept: String,
    /// How long their replies are.
    behind: usize,
    /// What was written for the commands to come.
    rest: &'a [u8],
}

impl<'a> ReplyWalk<'a> {
    fn new(alloc: Global, written: &'a [u8]) -> ReplyWalk<'a> {
        ReplyWalk {
            alloc,
            kept: String::new(alloc),
            behind: 0,
            rest: written,
        }
    }

    /// Walks past a command; none where its reply is not what it has to be.
    fn pass(&mut self, command: &str) -> Option<()> {
        match self.rest.strip_prefix(REFUSED) {
            Some(rest) => {
                self.rest = rest;
                self.leave_out(command)
            }
            None => self.keep(command),
        }
    }

    /// A refused command changes nothing, but an adding leaves no template waiting.
    fn leave_out(&mut self, command: &str) -> Option<()> {
        if command.starts_with("@@ add") {
            self.kept.push_str(REFUSED_BATCH).ok()?;
            self.behind = replies(self.alloc, self.kept.as_str())?.len();
        }
        Some(())
    }

    /// Any other one is answered as in a script that has no refused ones.
    fn keep(&mut self, command: &str) -> Option<()> {
        self.kept.push_str(command).ok()?;
        let given = replies(self.alloc, self.kept.as_str())?;
        let meant = given.as_slice().get(self.behind..)?;
        self.rest = self.rest.strip_prefix(meant)?;
        self.behind = given.len();
        Some(())
    }
}

/// Whether this may be written for a script of these commands, of which some were refused memory.
pub fn is_right(alloc: Global, commands: &[String], written: &[u8]) -> bool {
    let mut walk = ReplyWalk::new(alloc, written);
    for command in commands {
        if walk.pass(command.as_str()).is_none() {
            return false;
        }
    }
    walk.rest.is_empty()
}
