// The one call of a page.
ghost use Rattle.std.specs.Prelude.{◌≡◌};
ghost use Rattle.tera.specs.Prelude.{pairs_of};
ghost use Rattle.tera_renderer.specs.Outcomes.{site_of};
ghost use Rattle.tera_page.specs.Answers.{AnswersPage, place_in};

use crate::answer::{PageAnswer, answer_of_error, answer_with};
use crate::question::Question;
use crate::templates::{TemplateSize, place_of, templates_of};
use crate::texts::text_for;
use std::alloc::Global;
use tera::Error;
use tera_renderer::report::file_of;

/// Answers a question about templates, of which the names and the texts lie in the bytes one behind the other: the text of the
/// template or component of this name, with data in JSON, or names, each in a line. Where the room is too small, the size that is
/// wanted is told.
#[unsafe(no_mangle)]
pub extern "C" fn tera_page(
    alloc: Global,
    question: &Question,
    bytes: &[u8],
    sizes: &[TemplateSize],
    name: &[u8],
    json: &[u8],
    room: &mut [u8],
) -> PageAnswer
    ensures { AnswersPage question.now sizes.now bytes.now name.now json.now
        room.old room.new result }
{
    match templates_of(alloc, bytes, sizes) {
        Ok(templates) => {
            let templates = templates.as_slice();
            match text_for(alloc, question, templates, name, json) {
                Ok(text) => answer_with(text.as_str(), templates.len(), room),
                Err(error) => {
                    let template = place_of_error(templates, &error);
                    answer_of_error(alloc, &error, template, room)
                }
            }
        }
        Err(error) => answer_of_error(alloc, &error, sizes.len(), room),
    }
}

// The place of the template of which the error tells.
fn place_of_error(templates: &[(&str, &str)], error: &Error) -> usize
    ensures { result ≡ place_in (pairs_of templates.now) (site_of error.now) }
{
    match file_of(error) {
        Some(file) => place_of(templates, file),
        None => templates.len(),
    }
}
