// How an answer reaches the page.
ghost use Rattle.std.specs.Prelude.{◌≡◌, None, Some};
ghost use Rattle.tera_renderer.specs.Outcomes.{TellsPlace, copied, kind_number, site_of};

use std::alloc::Global;
use std::fmt::Write;
use tera::Error;
use tera_renderer::answer::copy_text;
use tera_renderer::report::report_of_error;
use tera_renderer::{Answer, Report, placeless};

/// How the call ended: what lies in the room, and why it made no text.
#[repr(C)]
#[derive(Clone, Copy)]
pub struct PageAnswer {
    /// Status 0: the text, or the words of the error, lie in the room. 2: memory was refused. 4: the room is too small for the size.
    pub copied: Answer,
    /// Why there is no text. All is 0 where there is one.
    pub report: Report,
    /// The place of the template of which the report speaks, from 0 on, or the number of the templates where it speaks of none.
    pub template: usize,
}

/// The answer where a text was made, which goes into the room.
pub fn answer_with(text: &str, template: usize, room: &mut [u8]) -> PageAnswer
    ensures copied { (result.copied, room.new) ≡ copied (Some text.now) room.old }
    ensures kind { result.report.kind ≡ 0 }
    ensures place { TellsPlace None result.report }
    ensures template { result.template ≡ template }
{
    PageAnswer {
        copied: copy_text(Some(text), room),
        report: placeless(0),
        template,
    }
}

/// The answer where an error was made, whose words go into the room.
pub fn answer_of_error(alloc: Global, error: &Error, template: usize, room: &mut [u8]) -> PageAnswer
    ensures kind { result.report.kind ≡ kind_number error.now }
    ensures place { TellsPlace (site_of error.now) result.report }
    ensures template { result.template ≡ template }
{
    let copied = match format!(in alloc; "{error}") {
        Ok(words) => copy_text(Some(words.as_str()), room),
        Err(_) => Answer { status: 2, size: 0 },
    };
    PageAnswer {
        copied,
        report: report_of_error(error),
        template,
    }
}
