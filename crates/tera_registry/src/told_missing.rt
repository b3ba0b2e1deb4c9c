// What templates name that is not there, in words.
ghost use Rattle.std.specs.Prelude.{◌≡◌, ◌<◌, length};
ghost use Rattle.tera_errors.specs.Prelude.{Tells, message};
ghost use Rattle.tera_meaning.specs.Prelude.{Registry};
ghost use Rattle.tera_registry.specs.Definers.{Climbable};
ghost use Rattle.tera_registry.specs.Kept.{Rises, entries_of};

use crate::applications::position_of_name;
use crate::code::Code;
use crate::component_table::ComponentAt;
use crate::components::Component;
use crate::definers::first_definer_above;
use crate::inventory::Inventory;
use crate::roots::Parent;
use crate::template::Template;
use std::alloc::{AllocError, Global};
use std::collections::BTreeMap;
use std::ops::Range;
use std::rc::Rc;
use tera_built_ins::{FILTERS, FUNCTIONS, TESTS};
use tera_code::{Callee, Chunk};
use tera_errors::{Error, Guess, Place, Span, place_of};
use tera_state::Objects;

/// For so many of the names that are not there, one is sought that may be meant: it takes a look at all names.
const MOST_GUESSES: usize = 20;

/// A text whose names are looked up.
#[derive(Clone, Copy)]
pub(crate) struct NamedText<'a> {
    pub(crate) file: &'a str,
    pub(crate) source: &'a str,
}

/// What is said of a name that is not there, and where that stands in the text.
#[derive(Drop)]
struct Lack {
    at: usize,
    words: String,
}

/// What a refusal says of the names that are not there.
#[derive(Drop)]
struct Missing {
    words: String,
    /// Of the text that is gone through, not yet in the order of the text.
    lacks: Vec<Lack>,
    guesses: usize,
}

/// One refusal that names all that is not there, by template.
#[inline(never)]
pub(crate) fn missing_error<'a, O: Objects>(
    alloc: Global,
    templates: &'a [Rc<Template>],
    prefixes: &'a [String],
    ups: &[Parent],
    choices: &'a BTreeMap<String, ComponentAt>,
    objects: &'a O,
) -> Error
    ghost registry: { Registry }
    requires rises { Rises (entries_of templates.now) }
    requires climbable { Climbable registry templates.now ups.now }
    ensures { Tells result message }
{
    let there = Inventory {
        alloc,
        templates,
        prefixes,
        choices,
        own: None,
        objects,
    };
    let mut missing = Missing::new(alloc);
    for position in 0..templates.len() {
        if there.put_template(ups, position, &mut missing).is_err() {
            return Error::out_of_memory();
        }
    }
    Error::message_from(Ok(missing.words))
}

/// The same of a text beside the templates.
pub(crate) fn missing_error_of_text<O: Objects>(
    there: Inventory<'_, O>,
    text: NamedText<'_>,
    body: &Chunk,
) -> Error
    ensures { Tells result message }
{
    let mut missing = Missing::new(there.alloc);
    if there.put_text(text, body, &mut missing).is_err() {
        return Error::out_of_memory();
    }
    Error::message_from(Ok(missing.words))
}

impl<'a, O: Objects> Inventory<'a, O> {
    // Puts what the template at a position lacks.
    fn put_template(
        &self,
        ups: &[Parent],
        of: usize,
        missing: &mut Missing,
    ) -> Result<(), AllocError>
        ghost registry: { Registry }
        requires climbable { Climbable registry self.now.templates.now ups.now }
        requires there { of < length self.now.templates.now }
    {
        let template: &Template = &self.templates[of];
        let text = template.text.as_str();
        let code: &Code = &template.body;
        self.add_code(text, &code.chunk, missing)?;
        for block in template.blocks.iter() {
            let code: &Code = &block.code;
            self.add_code(text, &code.chunk, missing)?;
        }
        self.add_codes(text, template.components.as_slice(), missing)?;
        if template.parent.is_some() {
            self.add_blocks(ups, of, missing)?;
        }
        missing.put_all(template.name.as_str(), text)
    }

    // Puts what a text beside the templates lacks.
    fn put_text(
        &self,
        text: NamedText<'_>,
        body: &Chunk,
        missing: &mut Missing,
    ) -> Result<(), AllocError> {
        self.add_code(text.source, body, missing)?;
        if let Some(own) = self.own {
            self.add_codes(text.source, own.components, missing)?;
        }
        missing.put_all(text.file, text.source)
    }

    // Adds what the code of a text calls that is not there.
    fn add_code(
        &self,
        source: &str,
        chunk: &Chunk,
        missing: &mut Missing,
    ) -> Result<(), AllocError> {
        for position in 0..chunk.len() {
            if let Some(callee) = chunk.callee_at(position) {
                if !self.is_known(callee) {
                    let at = position_of_callee(source, callee, chunk.span_at(position));
                    self.add_callee(callee, at, missing)?;
                }
            }
        }
        Ok(())
    }

    // The same of the code of components.
    fn add_codes(
        &self,
        source: &str,
        components: &[Component],
        missing: &mut Missing,
    ) -> Result<(), AllocError> {
        for component in components {
            let code: &Code = &component.code;
            self.add_code(source, &code.chunk, missing)?;
        }
        Ok(())
    }

    // Adds the blocks of a template, inside no other one, that no parent has.
    fn add_blocks(&self, ups: &[Parent], of: usize, missing: &mut Missing) -> Result<(), AllocError>
        ghost registry: { Registry }
        requires climbable { Climbable registry self.now.templates.now ups.now }
        requires there { of < length self.now.templates.now }
    {
        let template: &Template = &self.templates[of];
        let code: &Code = &template.body;
        for position in 0..code.chunk.len() {
            if let Some((block, span)) = code.chunk.block_at(position) {
                if first_definer_above(self.templates, ups, of, &block.as_name_ref()).is_none() {
                    self.add_block(block.as_str(), span, missing)?;
                }
            }
        }
        Ok(())
    }

    // A block that no parent has.
    fn add_block(&self, name: &str, span: Span, missing: &mut Missing) -> Result<(), AllocError> {
        let mut words = format!(in self.alloc; "no template above has a block `{name}`")?;
        if missing.may_guess() {
            let mut guess = Guess::new(self.alloc, name);
            for other in self.templates.iter() {
                add_blocks_of(other, &mut guess)?;
            }
            guess.put(&mut words)?;
        }
        missing.add(span.start, words)
    }

    // A name that is called and stands for nothing.
    fn add_callee(
        &self,
        callee: Callee<'_>,
        at: usize,
        missing: &mut Missing,
    ) -> Result<(), AllocError> {
        let (kind, name, purpose) = match callee {
            Callee::Filter(name) => ("filter", name, ""),
            Callee::Test(name) => ("test", name, ""),
            Callee::Function(name) => ("function", name, ""),
            Callee::Component(name) => ("component", name.as_str(), ""),
            Callee::Template(name) => ("template", name.as_str(), " to include"),
        };
        let mut words = format!(in self.alloc; "there is no {kind} `{name}`{purpose}")?;
        if missing.may_guess() {
            let mut guess = Guess::new(self.alloc, name);
            self.guess_callee(callee, &mut guess)?;
            guess.put(&mut words)?;
        }
        missing.add(at, words)
    }

    fn guess_callee(&self, callee: Callee<'_>, guess: &mut Guess<'_>) -> Result<(), AllocError> {
        match callee {
            Callee::Filter(_) => {
                add_all(&FILTERS, guess)?;
                self.objects.guess_filter(guess)
            }
            Callee::Test(_) => {
                add_all(&TESTS, guess)?;
                self.objects.guess_test(guess)
            }
            Callee::Function(_) => {
                add_all(&FUNCTIONS, guess)?;
                self.objects.guess_function(guess)
            }
            Callee::Component(_) => self.guess_component(guess),
            Callee::Template(_) => add_templates(self.templates, guess),
        }
    }

    fn guess_component(&self, guess: &mut Guess<'_>) -> Result<(), AllocError> {
        for name in self.choices.keys() {
            guess.add(name.as_str())?;
        }
        match self.own {
            Some(own) => add_names_of(own.components, guess),
            None => Ok(()),
        }
    }
}

impl Missing {
    fn new(alloc: Global) -> Missing {
        Missing {
            words: String::new(alloc),
            lacks: Vec::new(alloc),
            guesses: 0,
        }
    }

    // Whether one more name is guessed at.
    fn may_guess(&mut self) -> bool {
        self.guesses = self.guesses.saturating_add(1);
        self.guesses <= MOST_GUESSES
    }

    // Adds what is said of a name at this place of the text.
    fn add(&mut self, at: usize, words: String) -> Result<(), AllocError> {
        self.lacks.push(Lack { at, words })?;
        Ok(())
    }

    // Puts them behind the words in the order of the text, a line each, with the place in front.
    fn put_all(&mut self, file: &str, source: &str) -> Result<(), AllocError> {
        self.lacks.sort_by_key(|lack| lack.at)?;
        let mut place = Place { line: 1, column: 1 };
        let mut from = 0;
        for lack in self.lacks.iter() {
            place = place_after(place, source, from..lack.at);
            from = lack.at;
            if !self.words.is_empty() {
                self.words.push_str("\n")?;
            }
            let (line, column, words) = (place.line, place.column, lack.words.as_str());
            let alloc = *lack.words.allocator();
            let told = format!(in alloc; "{file}:{line}:{column}: {words}")?;
            self.words.push_str(told.as_str())?;
        }
        self.lacks.clear();
        Ok(())
    }
}

// Where a span starts; where there is none, at the start of the text.
fn start(span: Option<Span>) -> usize {
    match span {
        Some(span) => span.start,
        None => 0,
    }
}

// Where a name is called: that of a filter or a test stands behind the operand, with which the span starts.
fn position_of_callee(source: &str, callee: Callee<'_>, span: Option<Span>) -> usize {
    let start = start(span);
    let (Some(span), Callee::Filter(name) | Callee::Test(name)) = (span, callee) else {
        return start;
    };
    let Some(application) = source.get(span.start..span.end) else {
        return start;
    };
    start.saturating_add(position_of_name(application, name).unwrap_or(0))
}

// The place of the end of a part of a text whose start is at this place.
fn place_after(place: Place, source: &str, part: Range<usize>) -> Place {
    let Some(part) = source.get(part) else {
        return place;
    };
    let further = place_of(part, part.len());
    if further.line > 1 {
        Place {
            line: place.line.saturating_add(further.line - 1),
            column: further.column,
        }
    } else {
        Place {
            line: place.line,
            column: place
                .column
                .saturating_add(further.column.saturating_sub(1)),
        }
    }
}

/// Tries the names of templates.
pub(crate) fn add_templates(
    templates: &[Rc<Template>],
    guess: &mut Guess<'_>,
) -> Result<(), AllocError> {
    for template in templates {
        guess.add(template.name.as_str())?;
    }
    Ok(())
}

fn add_blocks_of(template: &Template, guess: &mut Guess<'_>) -> Result<(), AllocError> {
    if template.parent.is_some() {
        return Ok(());
    }
    for block in template.blocks.iter() {
        guess.add(block.name.as_str())?;
    }
    Ok(())
}

fn add_names_of(components: &[Component], guess: &mut Guess<'_>) -> Result<(), AllocError> {
    for component in components {
        guess.add(component.definition.name())?;
    }
    Ok(())
}

fn add_all(names: &[&str], guess: &mut Guess<'_>) -> Result<(), AllocError> {
    for name in names {
        guess.add(*name)?;
    }
    Ok(())
}
