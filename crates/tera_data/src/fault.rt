// Where a text stops being JSON, and what is wanted there. It is for people, and no clause says it.
ghost use Rattle.std.specs.Prelude.{◌≤◌, length};

use json::{MAX_DEPTH, Reader, Scratch, Token};
use std::alloc::{AllocError, Global};
use std::fmt;

/// What a text goes on with, where it is JSON.
#[derive(Clone, Copy, Debug, PartialEq, Eq)]
pub(crate) enum Expected {
    Value,
    Name,
    Colon,
    /// A comma or a bracket behind a value.
    More,
    End,
    /// Fewer brackets in brackets.
    Flatter,
}

impl fmt::Display for Expected {
    fn fmt<W: fmt::Write>(&self, f: &mut fmt::Formatter<W>) -> fmt::Result {
        f.write_str(match self {
            Expected::Value => "a value is wanted here",
            Expected::Name => "a name in quotes is wanted here",
            Expected::Colon => "`:` is wanted here",
            Expected::More => "`,` or a closing bracket is wanted here",
            Expected::End => "the data is to end before this",
            Expected::Flatter => "this nests deeper than 128",
        })
    }
}

/// The place of a fault.
#[derive(Clone, Copy, Debug)]
pub(crate) struct Fault {
    pub(crate) at: usize,
    pub(crate) wanted: Expected,
}

/// What has been read: for each bracket that is open whether it is an object's, and what comes next.
#[derive(Drop)]
struct JsonState {
    objects: Vec<bool>,
    next: Expected,
}

impl JsonState {
    fn new(alloc: Global) -> JsonState {
        JsonState {
            objects: Vec::new(alloc),
            next: Expected::Value,
        }
    }

    // What was wanted in place of the token, or nothing where it may stand there.
    fn take(&mut self, token: Token<'_>) -> Result<Option<Expected>, AllocError> {
        match self.next {
            Expected::Value => self.take_value(token),
            Expected::Name => Ok(self.take_name(token)),
            wanted => Ok(Some(wanted)),
        }
    }

    fn take_value(&mut self, token: Token<'_>) -> Result<Option<Expected>, AllocError> {
        match token {
            Token::BeginArray => self.open(false),
            Token::BeginObject => self.open(true),
            Token::EndArray if self.objects.last().copied() == Some(false) => Ok(self.close()),
            Token::String(_) | Token::Number(_) | Token::Bool(_) | Token::Null => {
                Ok(self.pass_value())
            }
            _ => Ok(Some(Expected::Value)),
        }
    }

    fn take_name(&mut self, token: Token<'_>) -> Option<Expected> {
        match token {
            Token::Key(_) => {
                self.next = Expected::Value;
                None
            }
            Token::EndObject => self.close(),
            Token::String(_) => Some(Expected::Colon),
            _ => Some(Expected::Name),
        }
    }

    fn open(&mut self, is_object: bool) -> Result<Option<Expected>, AllocError> {
        if self.objects.len() >= MAX_DEPTH {
            return Ok(Some(Expected::Flatter));
        }
        self.objects.push(is_object)?;
        self.next = if is_object {
            Expected::Name
        } else {
            Expected::Value
        };
        Ok(None)
    }

    fn close(&mut self) -> Option<Expected> {
        let _closed = self.objects.pop();
        self.pass_value()
    }

    fn pass_value(&mut self) -> Option<Expected> {
        self.next = match self.objects.last() {
            None => Expected::End,
            Some(true) => Expected::Name,
            Some(false) => Expected::Value,
        };
        None
    }
}

/// Where the text stops being JSON.
pub(crate) fn fault_of(alloc: Global, text: &str) -> Fault
    ensures { result.at ≤ length text.now }
{
    let mut scratch = Scratch::new(alloc);
    let Fault { at, wanted } = match Reader::new(text, &mut scratch) {
        Ok(mut reader) => first_fault(alloc, &mut reader),
        Err(_) => Fault {
            at: 0,
            wanted: Expected::Value,
        },
    };
    let at = at.min(text.len());
    let is_behind = is_after_value(&text.as_bytes()[..at]);
    let wanted = match wanted {
        Expected::Value | Expected::Name if is_behind => Expected::More,
        wanted => wanted,
    };
    Fault { at, wanted }
}

fn first_fault(alloc: Global, reader: &mut Reader<'_>) -> Fault {
    let mut walk = JsonState::new(alloc);
    for _ in 0..u64::MAX {
        let at = reader.offset();
        let token = match reader.next() {
            Some(token) => token,
            None => break,
        };
        match step(&mut walk, token) {
            None => {}
            Some(Expected::Colon) => {
                return Fault {
                    at: reader.offset(),
                    wanted: Expected::Colon,
                };
            }
            Some(wanted) => return Fault { at, wanted },
        }
    }
    Fault {
        at: reader.offset(),
        wanted: walk.next,
    }
}

fn step(walk: &mut JsonState, token: Token<'_>) -> Option<Expected> {
    if let Token::Bad = token {
        return Some(walk.next);
    }
    let next = walk.next;
    match walk.take(token) {
        Ok(wanted) => wanted,
        Err(_) => Some(next),
    }
}

// Whether the last byte that is no space ends a value.
fn is_after_value(before: &[u8]) -> bool {
    for byte in before.iter().rev() {
        if !byte.is_ascii_whitespace() {
            return !matches!(*byte, b'[' | b'{' | b',' | b':');
        }
    }
    false
}
