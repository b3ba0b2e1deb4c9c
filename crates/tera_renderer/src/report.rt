// Why a call made nothing.
ghost use Rattle.std.specs.Prelude.{◌≡◌, option_map};
ghost use Rattle.tera.specs.Prelude.{fault_of};
ghost use Rattle.tera_renderer.specs.Held.{held_by};
ghost use Rattle.tera_renderer.specs.Outcomes.{TellsOf, TellsPlace, copied, file_in, kind_number, site_of};
ghost use Rattle.tera_renderer.specs.Outcomes as spec;

use crate::answer::{Answer, copy_text};
use crate::renderer::Renderer;
use std::fmt::Write;
use tera::{Error, ErrorKind, Objects, Place, ReportError};

/// Why a call made nothing, in numbers. All are 0 where it made what it was asked for.
#[repr(C)]
#[derive(Clone, Copy)]
pub struct Report {
    /// The kind of error, from 1 on in the order of `ErrorKind`.
    pub kind: u32,
    /// Not 0 where the error has a file and a span.
    pub has_span: u32,
    /// The first byte of the span, and the one behind it.
    pub start: usize,
    pub end: usize,
    /// The place of the first byte, from 1 on, or 0 where it is not known.
    pub line: usize,
    pub column: usize,
}

impl<O: Objects> Renderer<O> {
    /// What is told of why the last call made nothing.
    pub fn report(&self) -> Report
        ensures { TellsOf (held_by O.engine self.now).outcome result }
    {
        match &self.outcome {
            Ok(_) => placeless(0),
            Err(error) => report_of_error(error),
        }
    }

    /// Copies the words of the error: all that `Display` writes of it.
    pub fn copy_words(&self, room: &mut [u8]) -> Answer {
        match &self.outcome {
            Ok(_) => copy_text(None, room),
            Err(error) => match format!(in self.alloc; "{error}") {
                Ok(words) => copy_text(Some(words.as_str()), room),
                Err(_) => Answer { status: 2, size: 0 },
            },
        }
    }

    /// Copies what is told of the error without its file and place.
    pub fn copy_message(&self, room: &mut [u8]) -> Answer {
        match &self.outcome {
            Ok(_) => copy_text(None, room),
            Err(error) => match error.words() {
                Some(words) => copy_text(Some(words), room),
                None => self.copy_words(room),
            },
        }
    }

    /// Copies the name of the template of which the error tells.
    pub fn copy_file(&self, room: &mut [u8]) -> Answer
        ensures { (result, room.new)
            ≡ copied (spec.file_of (held_by O.engine self.now).outcome) room.old }
    {
        let file = match &self.outcome {
            Ok(_) => None,
            Err(error) => file_of(error),
        };
        copy_text(file, room)
    }
}

fn report_of(error: &Error) -> Option<&ReportError>
    ensures { option_map (λ r. r.now.site) result ≡ site_of error.now }
{
    match error.kind() {
        ErrorKind::SyntaxError(report) | ErrorKind::RenderingError(report) => Some(report),
        _ => None,
    }
}

/// The name of the template of which the error tells, if it tells of one.
pub fn file_of(error: &Error) -> Option<&str>
    ensures { option_map (λ t. t.now) result ≡ file_in (site_of error.now) }
{
    match report_of(error) {
        Some(report) => Some(report.file()),
        None => None,
    }
}

/// What is told of the error, in numbers.
pub fn report_of_error(error: &Error) -> Report
    ensures kind { result.kind ≡ kind_number error.now }
    ensures place { TellsPlace (site_of error.now) result }
{
    let kind = number_of(error.kind());
    match report_of(error) {
        Some(report) => report_at(kind, report),
        None => placeless(kind),
    }
}

fn report_at(kind: u32, report: &ReportError) -> Report
    ensures kind { result.kind ≡ kind }
    ensures span { result.has_span ≡ 1 }
    ensures start { result.start ≡ report.now.site.span.start }
    ensures end { result.end ≡ report.now.site.span.end }
{
    let span = report.span();
    let place = report.place().unwrap_or(Place { line: 0, column: 0 });
    Report {
        kind,
        has_span: 1,
        start: span.start,
        end: span.end,
        line: place.line,
        column: place.column,
    }
}

/// A report that tells of no file and no place.
pub fn placeless(kind: u32) -> Report
    ensures { result ≡ record {
      kind = kind;
      has_span = 0;
      start = 0;
      end = 0;
      line = 0;
      column = 0;
    } }
{
    Report {
        kind,
        has_span: 0,
        start: 0,
        end: 0,
        line: 0,
        column: 0,
    }
}

fn number_of(kind: &ErrorKind) -> u32
    ensures { result ≡ kind_number (fault_of kind.now) }
{
    match kind {
        ErrorKind::SyntaxError(_) => 1,
        ErrorKind::Message(_) => 2,
        ErrorKind::RenderingError(_) => 3,
        ErrorKind::CircularExtend => 4,
        ErrorKind::CircularInclude => 5,
        ErrorKind::MissingParent => 6,
        ErrorKind::TemplateNotFound => 7,
        ErrorKind::ComponentNotFound => 8,
        ErrorKind::InvalidArgument => 9,
        ErrorKind::MissingArgument => 10,
        ErrorKind::OutOfMemory => 11,
    }
}
