// Why a call of the engine is refused, in words.
ghost use Rattle.std.specs.Prelude.{◌≡◌, Some};
ghost use Rattle.tera_errors.specs.Prelude.{Tells, component_not_found, message, template_not_found};

use std::alloc::Global;
use tera_values::Error;

/// No template has this name.
#[inline(never)]
pub(crate) fn no_template(alloc: Global, name: &str) -> Error
    ensures { result ≡ Some template_not_found }
{
    match format!(in alloc; "there is no template `{name}`") {
        Ok(words) => Error::template_not_found().with_message(alloc, words.as_str()),
        Err(_) => Error::template_not_found(),
    }
}

/// No component has this name.
#[inline(never)]
pub(crate) fn no_component(alloc: Global, name: &str) -> Error
    ensures { result ≡ Some component_not_found }
{
    match format!(in alloc; "there is no component `{name}`") {
        Ok(words) => Error::component_not_found().with_message(alloc, words.as_str()),
        Err(_) => Error::component_not_found(),
    }
}

/// Neither the template of this name nor a parent of it has the block.
#[inline(never)]
pub(crate) fn no_block(alloc: Global, template: &str, block: &str) -> Error
    ensures { Tells result message }
{
    Error::message_from(format!(in alloc;
        "neither `{template}` nor a template above it has a block `{block}`"
    ))
}
