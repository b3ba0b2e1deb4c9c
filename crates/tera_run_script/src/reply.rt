// What commands are answered, and how it is written.
ghost use Rattle.std.specs.Prelude.{◌≡◌, ◌++◌, codes, Some, OnOk, IfErr, string_bytes, is_some, true};
ghost use Rattle.tera.specs.Prelude.{Lacks, fault_of};
ghost use Rattle.tera_run_script.specs.Device.{Writes};
ghost use Rattle.tera_run_script.specs.Reply.{line_of, reply_seen, fault_line, word_of, site_of, site_text};
ghost use Rattle.tera_run_script.specs.Seen.{site_seen};

use crate::output::write_pieces;
use crate::stream::{Failure, Output};
use itoa::Buffer;
use tera::{Error, ErrorKind, ReportError, TeraResult};

/// What a command is answered.
#[derive(Drop)]
pub enum Reply {
    /// The command was done, and has nothing to tell.
    Done,
    /// The text that was rendered.
    Text(String),
    /// The engine refused.
    Fault(Error),
}

/// Writes the reply: `ok`, its text, or the kind of its fault with the position where it has one; then a line feed.
pub fn write_reply<W: Output>(writer: &mut W, reply: &Reply) -> Result<(), Failure>
    ensures { Writes W.passed W.contents writer.old writer.new
        (line_of (reply_seen reply.now)) result }
{
    match reply {
        Reply::Done => write_pieces(writer, &[b"ok\n"]),
        Reply::Text(text) => write_pieces(writer, &[text.as_bytes(), b"\n"]),
        Reply::Fault(error) => write_fault(writer, error.kind()),
    }
}

// The word for a kind of fault.
fn word_of(kind: &ErrorKind) -> &'static str
    ensures { result.now ≡ word_of (fault_of kind.now) }
{
    match kind {
        ErrorKind::SyntaxError(_) => "SyntaxError",
        ErrorKind::Message(_) => "Message",
        ErrorKind::RenderingError(_) => "RenderingError",
        ErrorKind::CircularExtend => "CircularExtend",
        ErrorKind::CircularInclude => "CircularInclude",
        ErrorKind::MissingParent => "MissingParent",
        ErrorKind::TemplateNotFound => "TemplateNotFound",
        ErrorKind::ComponentNotFound => "ComponentNotFound",
        ErrorKind::InvalidArgument => "InvalidArgument",
        ErrorKind::MissingArgument => "MissingArgument",
        ErrorKind::OutOfMemory => "OutOfMemory",
    }
}

// The report of a fault that has a position.
fn report_of(kind: &ErrorKind) -> Option<&ReportError>
    ensures { site_seen result ≡ site_of (fault_of kind.now) }
{
    match kind {
        ErrorKind::SyntaxError(report) | ErrorKind::RenderingError(report) => Some(report),
        _ => None,
    }
}

fn write_fault<W: Output>(writer: &mut W, kind: &ErrorKind) -> Result<(), Failure>
    ensures { Writes W.passed W.contents writer.old writer.new
        (fault_line (fault_of kind.now) ++ codes "\n") result }
{
    let word = word_of(kind);
    match report_of(kind) {
        Some(report) => write_placed(writer, word, report),
        None => write_pieces(writer, &[b"fault ", word.as_bytes(), b"\n"]),
    }
}

fn write_placed<W: Output>(writer: &mut W, word: &str, report: &ReportError) -> Result<(), Failure>
    ensures { Writes W.passed W.contents writer.old writer.new
        (codes "fault " ++ word.now ++ site_text (Some report.now.site) ++ codes "\n") result }
{
    let span = report.span();
    let mut start = Buffer::new();
    let mut end = Buffer::new();
    write_pieces(
        writer,
        &[
            b"fault ",
            word.as_bytes(),
            b" ",
            report.file().as_bytes(),
            b" ",
            start.format(span.start).as_bytes(),
            b" ",
            end.format(span.end).as_bytes(),
            b"\n",
        ],
    )
}

// Appends where a fault is: its file, start and end.
fn push_site(text: &mut String, report: &ReportError) -> TeraResult<()>
    ensures ok { OnOk result
        (string_bytes text.new ≡ string_bytes text.old ++ site_text (Some report.now.site)) }
    ensures lacks { IfErr result Lacks }
{
    let span = report.span();
    let mut start = Buffer::new();
    let mut end = Buffer::new();
    text.push_str(" ")?;
    text.push_str(report.file())?;
    text.push_str(" ")?;
    text.push_str(start.format(span.start))?;
    text.push_str(" ")?;
    text.push_str(end.format(span.end))?;
    Ok(())
}

/// Appends the kind of a fault, with its position where it has one. Want of memory is none that can be told of, and is answered.
pub fn push_fault(text: &mut String, error: Error) -> TeraResult<()>
    ensures ok { OnOk result
        (string_bytes text.new ≡ string_bytes text.old ++ fault_line error) }
    ensures told { OnOk result (is_some error ≡ true) }
    ensures lacks { IfErr result Lacks }
{
    let kind = error.kind();
    if let ErrorKind::OutOfMemory = kind {
        return Err(error);
    }
    text.push_str("fault ")?;
    text.push_str(word_of(kind))?;
    if let Some(report) = report_of(kind) {
        push_site(text, report)?;
    }
    Ok(())
}
