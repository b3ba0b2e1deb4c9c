// What an attribute is of an item.
ghost use Rattle.tera_errors.specs.Prelude.{Gives};
ghost use Rattle.tera_built_ins.specs.Attributes.{attribute_of};

use crate::refusals::no_attribute;
use std::alloc::Global;
use tera_values::{TeraResult, Value};

/// What stands at the end of a path; a `Message` where nothing does.
pub(crate) fn attribute_of<'a>(alloc: Global, item: &'a Value, path: &str) -> TeraResult<&'a Value>
    ensures { Gives (λ v. v.now) result (attribute_of path.now item.now) }
{
    match item.get_from_path(path) {
        Some(attribute) => Ok(attribute),
        None => Err(no_attribute(alloc, item, path)),
    }
}
