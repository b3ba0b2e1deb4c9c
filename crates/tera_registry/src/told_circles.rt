// Why templates do not go together, in words.
ghost use Rattle.std.specs.Prelude.{◌≡◌};

use crate::circle_search::circle_of;
use crate::priority::priority;
use crate::roots::Parent;
use crate::template::Template;
use crate::told_missing::add_templates;
use std::alloc::{AllocError, Global};
use std::collections::BTreeMap;
use std::rc::Rc;
use tera_errors::{Error, ErrorKind, Guess, place_of};

/// As many templates of a circle are named at most.
const MOST: usize = 12;

/// What templates are told of.
#[derive(Clone, Copy)]
struct LinkedTemplates<'a> {
    alloc: Global,
    templates: &'a [Rc<Template>],
    prefixes: &'a [String],
    ups: &'a [Parent],
    edges: &'a [Vec<usize>],
    /// The position of the first template that ties with one before it.
    tie: Option<usize>,
}

/// The same fault, in words that name the templates.
#[inline(never)]
pub(crate) fn fault_in_words<'a>(
    alloc: Global,
    templates: &'a [Rc<Template>],
    prefixes: &'a [String],
    ups: &'a [Parent],
    edges: &'a [Vec<usize>],
    tie: Option<usize>,
    fault: Error,
) -> Error
    ensures { result ≡ fault }
{
    let linked = LinkedTemplates {
        alloc,
        templates,
        prefixes,
        ups,
        edges,
        tie,
    };
    let words = match fault.kind() {
        ErrorKind::MissingParent => linked.orphan(),
        ErrorKind::CircularExtend => linked.circle_of_parents(),
        ErrorKind::CircularInclude => linked.circle_of_includes(),
        ErrorKind::Message(_) => linked.tie(),
        _ => Ok(None),
    };
    match words {
        Ok(Some(words)) => fault.with_message(alloc, words.as_str()),
        _ => fault,
    }
}

impl<'a> LinkedTemplates<'a> {
    fn name(&self, position: usize) -> &'a str {
        match self.templates.get(position) {
            Some(template) => template.name.as_str(),
            None => "",
        }
    }

    // The first template that extends what is not there.
    fn orphan(&self) -> Result<Option<String>, AllocError> {
        for (position, up) in self.ups.iter().enumerate() {
            if let Parent::Missing = up {
                if let Some(template) = self.templates.get(position) {
                    return self.extends_nothing(template);
                }
            }
        }
        Ok(None)
    }

    fn extends_nothing(&self, template: &Template) -> Result<Option<String>, AllocError> {
        let Some(parent) = &template.parent else {
            return Ok(None);
        };
        let (name, parent) = (template.name.as_str(), parent.as_str());
        let mut words = match template.text.as_str().find(parent) {
            Some(start) => {
                let place = place_of(template.text.as_str(), start);
                let (line, column) = (place.line, place.column);
                format!(in self.alloc;
                    "{name}:{line}:{column}: extends `{parent}`, which is not there"
                )?
            }
            None => format!(in self.alloc; "{name}: extends `{parent}`, which is not there")?,
        };
        let mut guess = Guess::new(self.alloc, parent);
        add_templates(self.templates, &mut guess)?;
        guess.put(&mut words)?;
        Ok(Some(words))
    }

    // Templates that extend one another.
    fn circle_of_parents(&self) -> Result<Option<String>, AllocError> {
        let mut parents = Vec::new(self.alloc);
        for up in self.ups.iter() {
            let mut above = Vec::new(self.alloc);
            if let Parent::At(position) = up {
                above.push(*position)?;
            }
            parents.push(above)?;
        }
        match circle_of(self.alloc, parents.as_slice())? {
            Some(circle) => Ok(Some(self.way_round(circle.as_slice(), "extends")?)),
            None => Ok(None),
        }
    }

    // Templates that include one another.
    fn circle_of_includes(&self) -> Result<Option<String>, AllocError> {
        match circle_of(self.alloc, self.edges)? {
            Some(circle) => Ok(Some(self.way_round(circle.as_slice(), "includes")?)),
            None => Ok(None),
        }
    }

    // How the first template of a circle comes to extend or to include itself, as the word says.
    fn way_round(&self, circle: &[usize], does: &str) -> Result<String, AllocError> {
        let first = match circle.first() {
            Some(position) => self.name(*position),
            None => "",
        };
        let mut words = format!(in self.alloc; "`{first}` {does} itself")?;
        if circle.len() <= 1 {
            return Ok(words);
        }
        for (passed, position) in circle.iter().skip(1).take(MOST).enumerate() {
            let name = self.name(*position);
            let joint = if passed == 0 { ": it" } else { ", which" };
            let step = format!(in self.alloc; "{joint} {does} `{name}`")?;
            words.push_str(step.as_str())?;
        }
        if circle.len() <= MOST {
            let step = format!(in self.alloc; ", which {does} `{first}`")?;
            words.push_str(step.as_str())?;
        }
        Ok(words)
    }

    // The component that two templates define, and both of them.
    fn tie(&self) -> Result<Option<String>, AllocError> {
        let Some(template) = self.template_with_tie() else {
            return Ok(None);
        };
        let above = self.definers_beside(template)?;
        for component in template.components.iter() {
            let name = component.definition.name();
            if let Some(first) = above.get(&name) {
                let (first, second) = (*first, template.name.as_str());
                return Ok(Some(format!(in self.alloc;
                    "component `{name}` is defined in both `{first}` and `{second}`, and neither is preferred"
                )?));
            }
        }
        Ok(None)
    }

    // The first template that ties with one before it.
    fn template_with_tie(&self) -> Option<&'a Template> {
        match self.templates.get(self.tie?) {
            Some(template) => Some(template),
            None => None,
        }
    }

    // By the name of each component the first template that defines it, of those before this one that have its priority.
    fn definers_beside(
        &self,
        template: &Template,
    ) -> Result<BTreeMap<&'a str, &'a str>, AllocError> {
        let rank = priority(self.prefixes, template.name.as_str());
        let mut definers = BTreeMap::new(self.alloc);
        for other in self.templates.iter().take(self.tie.unwrap_or(0)) {
            let other: &'a Template = other;
            if priority(self.prefixes, other.name.as_str()) == rank {
                add_definer(&mut definers, other)?;
            }
        }
        Ok(definers)
    }
}

fn add_definer<'a>(
    definers: &mut BTreeMap<&'a str, &'a str>,
    template: &'a Template,
) -> Result<(), AllocError> {
    for component in template.components.iter() {
        let name = component.definition.name();
        if !definers.contains_key(&name) {
            definers.insert(name, template.name.as_str())?;
        }
    }
    Ok(())
}
