// What a renderer copies out.
use std::alloc::Global;
use tera_data::Floats;
use tera_filters::{NoObject, PackObjects, extra_objects};
use tera_renderer::{Answer, Renderer};

pub type SiteRenderer = Renderer<PackObjects<NoObject, NoObject, NoObject>>;

/// An engine with the filters of the pack.
pub fn renderer(alloc: Global) -> Option<SiteRenderer> {
    let objects = extra_objects(alloc, None).ok()?;
    Renderer::new(alloc, objects, Floats::Refuse).ok()
}

/// Whether the call was done, and made or would have copied so much.
pub fn is_done(answer: Answer, size: usize) -> bool {
    answer.status == 0 && answer.size == size
}

/// Whether the last call made this text, or has this name in this place.
pub fn has_text(renderer: &SiteRenderer, index: usize, want: &str) -> bool {
    let mut room = [b'.'; 64];
    let answer = renderer.copy(index, &mut room);
    is_done(answer, want.len()) && room.get(..want.len()) == Some(want.as_bytes())
}

/// Whether the file of the error has this name.
pub fn has_file(renderer: &SiteRenderer, want: &str) -> bool {
    let mut room = [b'.'; 64];
    let answer = renderer.copy_file(&mut room);
    is_done(answer, want.len()) && room.get(..want.len()) == Some(want.as_bytes())
}

/// Whether the error is told in these words, and the words without a place are these.
pub fn has_words(renderer: &SiteRenderer, want: &str, message: &str) -> bool {
    let mut room = [b'.'; 256];
    let words = renderer.copy_words(&mut room);
    let mut short = [b'.'; 256];
    let told = renderer.copy_message(&mut short);
    is_done(words, want.len())
        && room.get(..want.len()) == Some(want.as_bytes())
        && is_done(told, message.len())
        && short.get(..message.len()) == Some(message.as_bytes())
}
