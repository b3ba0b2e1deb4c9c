// Which definition of each component is taken, and which template ties with another.
ghost use Rattle.std.specs.Prelude.{◌≡◌, OnOk, IfOk, bytes_eq, Option, if◌then◌else◌};
ghost use Rattle.std.specs.List.{list_any};
ghost use Rattle.std.specs.Option.{option_or};
ghost use Rattle.tera_errors.specs.Prelude.{Name};
ghost use Rattle.tera_registry.specs.Choices.{chosen, improves, better_choice, is_tied, chosen_among, AreChosen, IsFirstTie};
ghost use Rattle.tera_registry.specs.Kept.{seen};

use crate::priority::priority;
use crate::template::Template;
use std::alloc::{AllocError, Global};
use std::collections::BTreeMap;
use std::rc::Rc;

/// The definition that is taken of a component: the position of its template, which of that one's components it is, and how
/// good it is.
#[derive(Clone, Copy)]
pub struct ComponentAt {
    pub template: usize,
    pub component: usize,
    pub priority: usize,
}

/// What is taken of each component, and the position of the first template that ties with one before it.
#[derive(Drop)]
pub struct ComponentTable {
    pub choices: BTreeMap<String, ComponentAt>,
    pub tie: Option<usize>,
}

/// Whether definitions of this priority are better than the one that was taken of a name.
fn is_better(taken: &BTreeMap<String, ComponentAt>, name: &str, priority: usize) -> bool
    ensures { result ≡ improves (chosen taken.now name.now) priority }
{
    match taken.get(name) {
        None => true,
        Some(old) => priority < old.priority,
    }
}

/// Takes a definition of this name, where none was taken that is as good.
fn choose(
    alloc: Global,
    taken: &mut BTreeMap<String, ComponentAt>,
    name: &str,
    new: ComponentAt,
) -> Result<(), AllocError>
    ensures { OnOk result ((q : Name) → chosen taken.new q
        ≡ if bytes_eq q name.now
        then better_choice (chosen taken.old q) new
        else chosen taken.old q) }
{
    if is_better(taken, name, new.priority) {
        taken.insert(String::from_str(alloc, name)?, new)?;
    }
    Ok(())
}

/// Whether one was taken of this name that is as good as definitions of this priority.
fn is_tied(taken: &BTreeMap<String, ComponentAt>, name: &str, priority: usize) -> bool
    ensures { result ≡ is_tied (chosen taken.now name.now) priority }
{
    match taken.get(name) {
        None => false,
        Some(old) => old.priority == priority,
    }
}

/// Whether a template has a definition that is as good as the one that was taken.
fn has_tie(taken: &BTreeMap<String, ComponentAt>, of: &Template, priority: usize) -> bool
    ensures { result ≡ list_any (λ c. is_tied (chosen taken.now c.definition.name) priority)
        of.now.components.items }
{
    of.components.iter().any(|component| is_tied(taken, component.definition.name(), priority))
}

/// Takes the definitions of the template at a position that are better than those that were taken.
fn choose_all(
    alloc: Global,
    taken: &mut BTreeMap<String, ComponentAt>,
    of: &Template,
    position: usize,
    priority: usize,
) -> Result<(), AllocError>
    ensures { OnOk result ((q : Name) → chosen taken.new q
        ≡ chosen_among q position priority of.now.components.items (chosen taken.old q)) }
{
    for number in 0..of.components.len() {
        let choice = ComponentAt {
            template: position,
            component: number,
            priority,
        };
        choose(
            alloc,
            taken,
            of.components[number].definition.name(),
            choice,
        )?;
    }
    Ok(())
}

/// The first of a position that was found and a further one.
fn first_tie(found: Option<usize>, is_one: bool, position: usize) -> Option<usize>
    ensures { result ≡ option_or found (if is_one then Option.Some position else Option.None) }
{
    match found {
        Some(found) => Some(found),
        None if is_one => Some(position),
        None => None,
    }
}

/// Goes through the templates in order.
pub fn components_by_name(
    alloc: Global,
    templates: &[Rc<Template>],
    prefixes: &[String],
) -> Result<ComponentTable, AllocError>
    ensures taken { IfOk result (λ c. AreChosen (seen templates.now prefixes.now) c.choices) }
    ensures tie { IfOk result (λ c. IsFirstTie (seen templates.now prefixes.now) c.tie) }
{
    let mut taken = BTreeMap::new(alloc);
    let mut tie = None;
    for position in 0..templates.len() {
        let template: &Template = &templates[position];
        let priority = priority(prefixes, template.name.as_str());
        tie = first_tie(tie, has_tie(&taken, template, priority), position);
        choose_all(alloc, &mut taken, template, position, priority)?;
    }
    Ok(ComponentTable {
        choices: taken,
        tie,
    })
}
