// Why a body is not entered, in words.
ghost use Rattle.tera_errors.specs.Prelude.{Tells, message, rendering_error};

use crate::components::MAX_DEPTH;
use std::alloc::{AllocError, Global};
use tera_errors::Error;
use tera_values::{Name, Span};

// A fault at this span, in words that were made for it.
fn fault_in_words(alloc: Global, words: Result<String, AllocError>, file: &str, span: Span) -> Error
    ensures { Tells result (rendering_error (record { file = file.now; span = span })) }
{
    match words {
        Ok(words) => Error::rendering(alloc, words.as_str(), file, span),
        Err(_) => Error::out_of_memory(),
    }
}

/// Nobody defines the block.
#[inline(never)]
pub(crate) fn no_block(alloc: Global, name: &Name, file: &str, span: Span) -> Error
    ensures { Tells result (rendering_error (record { file = file.now; span = span })) }
{
    let name = name.as_str();
    let words = format!(in alloc; "there is no block `{name}`");
    fault_in_words(alloc, words, file, span)
}

/// The block is open already.
#[inline(never)]
pub(crate) fn open_block(alloc: Global, name: &Name, file: &str, span: Span) -> Error
    ensures { Tells result (rendering_error (record { file = file.now; span = span })) }
{
    let name = name.as_str();
    let words = format!(in alloc; "block `{name}` is put out inside itself");
    fault_in_words(alloc, words, file, span)
}

/// Nobody above defines the block that is open.
#[inline(never)]
pub(crate) fn no_definer_above(alloc: Global, file: &str, span: Span) -> Error
    ensures { Tells result (rendering_error (record { file = file.now; span = span })) }
{
    let words = "no template above defines this block, so `super()` has nothing to put out";
    Error::rendering(alloc, words, file, span)
}

/// No template has the name that is included.
#[inline(never)]
pub(crate) fn no_template(alloc: Global, name: &Name, file: &str, span: Span) -> Error
    ensures { Tells result (rendering_error (record { file = file.now; span = span })) }
{
    let name = name.as_str();
    let words = format!(in alloc; "there is no template `{name}` to include");
    fault_in_words(alloc, words, file, span)
}

/// The template is included and open already.
#[inline(never)]
pub(crate) fn open_template(alloc: Global, name: &Name, file: &str, span: Span) -> Error
    ensures { Tells result (rendering_error (record { file = file.now; span = span })) }
{
    let name = name.as_str();
    let words = format!(in alloc; "template `{name}` is included inside itself");
    fault_in_words(alloc, words, file, span)
}

/// No template defines the component.
#[inline(never)]
pub(crate) fn no_component(alloc: Global, name: &Name, file: &str, span: Span) -> Error
    ensures { Tells result (rendering_error (record { file = file.now; span = span })) }
{
    let name = name.as_str();
    let words = format!(in alloc; "there is no component `{name}`");
    fault_in_words(alloc, words, file, span)
}

/// As many components are open as may be.
#[inline(never)]
pub(crate) fn too_deep_component(alloc: Global, name: &Name) -> Error
    ensures { Tells result message }
{
    let name = name.as_str();
    Error::message_from(format!(in alloc;
        "component `{name}` is called inside {MAX_DEPTH} others, and no more may be open"
    ))
}
