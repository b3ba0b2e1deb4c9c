// Which template stands at the top above each, by position.
ghost use Rattle.std.specs.Prelude.{◌≡◌, ◌≢◌, ◌<◌, ◌≤◌, length, slice_get, IfOk, Some, true, false};
ghost use Rattle.tera_errors.specs.Prelude.{Gives};
ghost use Rattle.tera_meaning.specs.Prelude.{Registry, Entry};
ghost use Rattle.tera_registry.specs.Choices.{IsFirstTie};
ghost use Rattle.tera_registry.specs.Edges.{IsFirstCircle};
ghost use Rattle.tera_registry.specs.Links.{IsUp, AreUps, Inside, Stands, IsTop, AreTops, IsFurther, AreRoots, climbed};
ghost use Rattle.tera_registry.specs.Kept.{Rises, entry_of, entries_of, seen};

use crate::resolve::resolve;
use crate::template::Template;
use std::alloc::{AllocError, Global};
use std::rc::Rc;
use tera_errors::{Error, TeraResult};

/// What a template extends.
#[derive(Clone, Copy)]
pub enum Parent {
    None,
    Missing,
    At(usize),
}

/// What a template extends.
pub fn parent_of(templates: &[Rc<Template>], prefixes: &[String], of: &Template) -> Parent
    requires { Rises (entries_of templates.now) }
    ensures { IsUp (seen templates.now prefixes.now) result (entry_of of.now).1.tree.parent }
{
    match &of.parent {
        None => Parent::None,
        Some(name) => match resolve(templates, prefixes, name.as_str()) {
            None => Parent::Missing,
            Some(position) => Parent::At(position),
        },
    }
}

/// What each template extends. Each name is looked up once.
pub fn parents_of_all(
    alloc: Global,
    templates: &[Rc<Template>],
    prefixes: &[String],
) -> Result<Vec<Parent>, AllocError>
    requires { Rises (entries_of templates.now) }
    ensures { IfOk result
        (λ v. AreUps (seen templates.now prefixes.now) v.items (length templates.now)) }
{
    let mut all = Vec::new(alloc);
    for template in templates {
        all.push(parent_of(templates, prefixes, template))?;
    }
    Ok(all)
}

/// The position of a template's last parent, or its own where it has none, and how many parents it has.
#[derive(Clone, Copy)]
pub struct Root {
    pub root: usize,
    pub parents: usize,
}

/// Goes up from a position, to a template that extends nothing or whose top is known.
fn climb(ups: &[Parent], tops: &[Option<Root>], of: usize) -> TeraResult<Root>
    requires there { of < length ups.now }
    requires inside { Inside ups.now }
    requires as_many { length tops.now ≡ length ups.now }
    ensures { (r : Registry) (t : Entry) → AreUps r ups.now (length r.templates)
        → AreTops r tops.now → slice_get r.templates of ≡ Some t → IsTop r t result }
{
    let mut last = of;
    for step in 0..ups.len() {
        if let Some(top) = tops[last] {
            return root_from_below(top, step, ups.len());
        }
        match ups[last] {
            Parent::None => {
                return Ok(Root {
                    root: last,
                    parents: step,
                });
            }
            Parent::Missing => return Err(Error::missing_parent()),
            Parent::At(next) => last = next,
        }
    }
    match ups[last] {
        Parent::None => Ok(Root {
            root: last,
            parents: ups.len(),
        }),
        Parent::Missing => Err(Error::circular_extend()),
        Parent::At(_) => Err(Error::circular_extend()),
    }
}

/// A top seen from so many steps below it, where there are no more than so many parents.
fn root_from_below(top: Root, steps: usize, most: usize) -> TeraResult<Root>
    requires { steps ≤ most }
    ensures { IsFurther top steps most result }
{
    if top.parents > most - steps {
        return Err(Error::circular_extend());
    }
    Ok(Root {
        root: top.root,
        parents: steps + top.parents,
    })
}

/// Notes what stands at the top above a position, and above each of those in between of which it is not known yet.
fn note(ups: &[Parent], tops: &mut [Option<Root>], of: usize, top: Root)
    requires there { of < length ups.now }
    requires inside { Inside ups.now }
    requires as_many { length tops.old ≡ length ups.now }
    ensures as_many { length tops.new ≡ length ups.now }
    ensures known { (r : Registry) (t : Entry) → AreUps r ups.now (length r.templates)
        → AreTops r tops.old → slice_get r.templates of ≡ Some t → Stands r t top
        → AreTops r tops.new }
{
    let mut last = of;
    for passed in 0..top.parents {
        tops[last] = Some(Root {
            root: top.root,
            parents: top.parents - passed,
        });
        match ups[last] {
            Parent::At(next) => last = next,
            Parent::None => return,
            Parent::Missing => return,
        }
        if tops[last].is_some() {
            return;
        }
    }
    tops[last] = Some(Root {
        root: top.root,
        parents: 0,
    });
}

/// Whether what was looked for stands at a position.
fn is_at(found: Option<usize>, position: usize) -> bool
    ensures there { result ≡ true → found ≡ Some position }
    ensures not_there { result ≡ false → found ≢ Some position }
{
    match found {
        None => false,
        Some(other) => other == position,
    }
}

/// The position of the last parent of each template, or the first fault by name, where this is what each extends, and it is
/// known at which position the first template stands that leads into a circle, and at which the first that ties with another.
pub fn roots(
    alloc: Global,
    ups: &[Parent],
    circle: Option<usize>,
    tie: Option<usize>,
) -> TeraResult<Vec<usize>>
    ghost registry: { Registry }
    requires ups { AreUps registry ups.now (length registry.templates) }
    requires circle { IsFirstCircle registry circle }
    requires tie { IsFirstTie registry tie }
    ensures answer { Gives (λ _. registry) result (climbed registry) }
    ensures roots { IfOk result (λ v. AreRoots registry v.items (length registry.templates)) }
{
    let mut known = vec![in alloc; None; ups.len()]?;
    let tops = known.as_mut_slice();
    let mut roots = Vec::new(alloc);
    for position in 0..ups.len() {
        match climb(ups, tops, position) {
            Ok(top) => {
                if is_at(circle, position) {
                    return Err(Error::circular_include());
                }
                if is_at(tie, position) {
                    return Err(Error::message(
                        alloc,
                        "two templates define a component, and neither is preferred",
                    ));
                }
                note(ups, tops, position, top);
                roots.push(top.root)?;
            }
            Err(fault) => return Err(fault),
        }
    }
    Ok(roots)
}
