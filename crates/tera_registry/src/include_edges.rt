// What templates include, by position.
ghost use Rattle.std.specs.Prelude.{◌≡◌, length, IfOk};
ghost use Rattle.tera_meaning.specs.Prelude.{includes_of};
ghost use Rattle.tera_registry.specs.Edges.{all_at, AreThere, AreEdges};
ghost use Rattle.tera_registry.specs.Kept.{Rises, entry_of, entries_of, seen};
ghost use Rattle.tera_registry.specs.OutsideCalls.{included_by};
ghost use Rattle.tera_registry.specs.Positions.{IsPosition};
ghost use Rattle.tera_registry.specs.Walks.{rows};

use crate::outside_calls::OutsideCall;
use crate::resolve::resolve;
use crate::template::Template;
use std::alloc::{AllocError, Global};
use std::rc::Rc;

/// Where the template stands that is needed, where one is and is there. Takes no memory.
pub fn included_position(
    templates: &[Rc<Template>],
    prefixes: &[String],
    need: &OutsideCall,
) -> Option<usize>
    requires { Rises (entries_of templates.now) }
    ensures { IsPosition (entries_of templates.now) result
        (included_by (seen templates.now prefixes.now) need.now) }
{
    match need {
        OutsideCall::Template(name) => resolve(templates, prefixes, name.as_str()),
        _ => None,
    }
}

/// Where those stand that a template includes, as far as they are there.
fn included_positions(
    alloc: Global,
    templates: &[Rc<Template>],
    prefixes: &[String],
    of: &Template,
) -> Result<Vec<usize>, AllocError>
    requires { Rises (entries_of templates.now) }
    ensures those { IfOk result (λ v. all_at (entries_of templates.now) v.items
        ≡ includes_of (seen templates.now prefixes.now) (entry_of of.now)) }
    ensures there { IfOk result (λ v. AreThere v.items (length templates.now)) }
{
    let mut positions = Vec::new(alloc);
    for need in &of.needs {
        if let Some(position) = included_position(templates, prefixes, need) {
            positions.push(position)?;
        }
    }
    Ok(positions)
}

/// Where those stand that each template includes. Each name is looked up once.
pub fn edges(
    alloc: Global,
    templates: &[Rc<Template>],
    prefixes: &[String],
) -> Result<Vec<Vec<usize>>, AllocError>
    requires { Rises (entries_of templates.now) }
    ensures { let r = seen templates.now prefixes.now in
        IfOk result (λ v. AreEdges r (rows v.items) (length templates.now)) }
{
    let mut all = Vec::new(alloc);
    for template in templates {
        all.push(included_positions(alloc, templates, prefixes, template)?)?;
    }
    Ok(all)
}
