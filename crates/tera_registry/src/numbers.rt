// The numbers that bodies have in the table.
ghost use Rattle.std.specs.Prelude.{◌≡◌, ◌+◌, ◌<◌, suc, length, slice_index, IfOk};
ghost use Rattle.tera_registry.specs.Bodies.{codes_of, AreStarts};
ghost use Rattle.tera_registry.specs.Kept.{entry_of, entries_of};

use crate::definers::BlockAt;
use crate::template::Template;
use std::alloc::{AllocError, Global};
use std::rc::Rc;

/// The number of the body behind those of a template, of which the first one has this number. More than can be numbered is want of
/// memory.
fn number_after(number: usize, template: &Template) -> Result<usize, AllocError>
    ensures { IfOk result (λ n. n ≡ number + length (codes_of (entry_of template.now))) }
{
    let bodies = 1 + template.blocks.len() + template.components.len();
    match number.checked_add(bodies) {
        Some(next) => Ok(next),
        None => Err(AllocError),
    }
}

/// The number of the first body of each template.
pub fn starts(alloc: Global, templates: &[Rc<Template>]) -> Result<Vec<usize>, AllocError>
    ensures { IfOk result
        (λ v. AreStarts (entries_of templates.now) v.items (length templates.now)) }
{
    let mut starts = Vec::new(alloc);
    let mut number = 0;
    for template in templates {
        starts.push(number)?;
        number = number_after(number, template)?;
    }
    Ok(starts)
}

/// The number of the body of the block that stands there.
pub fn block_number(starts: &[usize], at: BlockAt) -> Result<usize, AllocError>
    requires { at.template < length starts.now }
    ensures { IfOk result (λ n. n ≡ slice_index starts.now at.template + suc at.block) }
{
    match starts[at.template].checked_add(at.block) {
        None => Err(AllocError),
        Some(before) => match before.checked_add(1) {
            None => Err(AllocError),
            Some(number) => Ok(number),
        },
    }
}
