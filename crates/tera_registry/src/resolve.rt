// Names in byte order: where one stands among templates.
ghost use Rattle.std.specs.Prelude.{◌≡◌, ◌++◌, IfErr, OnOk, OnErr};
ghost use Rattle.tera_errors.specs.Prelude.{Lacks};
ghost use Rattle.tera_values.specs.Prelude.{name_cmp, put};
ghost use Rattle.tera_meaning.specs.Prelude.{resolve};
ghost use Rattle.tera_registry.specs.Positions.{IsFound, IsPosition};
ghost use Rattle.tera_registry.specs.Kept.{Rises, entry_of, entries_of, seen};

use crate::template::Template;
use std::cmp::Ordering;
use std::rc::Rc;
use tera_errors::TeraResult;

/// How a name stands to one that is given in two pieces.
fn compare(name: &[u8], front: &[u8], back: &[u8]) -> Ordering
    ensures { result ≡ name_cmp name.now (front.now ++ back.now) }
{
    if name.len() < front.len() {
        return name.cmp(&front);
    }
    match name[..front.len()].cmp(&front) {
        Ordering::Equal => name[front.len()..].cmp(&back),
        other => other,
    }
}

/// Where the template stands whose name is the two pieces joined, or where it would be put. Takes no memory.
pub fn find(templates: &[Rc<Template>], front: &str, back: &str) -> Result<usize, usize>
    requires { Rises (entries_of templates.now) }
    ensures { IsFound (entries_of templates.now) (front.now ++ back.now) result }
{
    let mut low = 0;
    let mut high = templates.len();
    'halves: while low < high {
        let middle = low + (high - low) / 2;
        match compare(
            templates[middle].name.as_bytes(),
            front.as_bytes(),
            back.as_bytes(),
        ) {
            Ordering::Less => low = middle + 1,
            Ordering::Equal => return Ok(middle),
            Ordering::Greater => high = middle,
        }
    }
    Err(low)
}

/// Puts a template at its name, in place of one that stood there.
pub fn put(templates: &mut Vec<Rc<Template>>, template: Rc<Template>) -> TeraResult<()>
    requires { Rises (entries_of templates.old.items) }
    ensures ok { OnOk result (entries_of templates.new.items
        ≡ put (entry_of template.value).0 (entry_of template.value).1
        (entries_of templates.old.items)) }
    ensures err { OnErr result (templates.new.items ≡ templates.old.items) }
    ensures rises { Rises (entries_of templates.new.items) }
    ensures lacks { IfErr result Lacks }
{
    match find(templates, "", template.name.as_str()) {
        Ok(position) => {
            templates[position] = template;
            Ok(())
        }
        Err(position) => {
            templates.insert(position, template)?;
            Ok(())
        }
    }
}

/// Where the template stands to which the name resolves: itself, else the first of the prefixes joined with it. Takes
/// no memory.
pub fn resolve(templates: &[Rc<Template>], prefixes: &[String], name: &str) -> Option<usize>
    requires { Rises (entries_of templates.now) }
    ensures { IsPosition (entries_of templates.now) result
        (resolve (seen templates.now prefixes.now) name.now) }
{
    if let Ok(position) = find(templates, "", name) {
        return Some(position);
    }
    for prefix in prefixes {
        if let Ok(position) = find(templates, prefix.as_str(), name) {
            return Some(position);
        }
    }
    None
}
