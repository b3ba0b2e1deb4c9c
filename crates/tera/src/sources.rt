// The texts that reports of an engine speak of.
ghost use Rattle.std.specs.Prelude.{◌≡◌, option_map};
ghost use Rattle.tera_meaning.specs.Resolve.{entry_at};

use crate::engine::TeraOver;
use crate::rendering::ONE_OFF;
use std::alloc::Global;
use tera_errors::Sources;
use tera_registry::Templates;
use tera_state::Objects;
use tera_values::{Error, TeraResult};

// The texts of templates, and one that stands beside them.
#[derive(Clone, Copy)]
struct TextSources<'a> {
    templates: &'a Templates,
    beside: Option<&'a str>,
}

impl Sources for TextSources<'_> {
    fn source(&self, file: &str) -> Option<&str> {
        match self.beside {
            Some(text) if file == ONE_OFF => Some(text),
            _ => self.templates.text(file),
        }
    }
}

// The texts of a batch.
#[derive(Clone, Copy)]
struct Batch<'a> {
    texts: &'a [(&'a str, &'a str)],
}

impl Sources for Batch<'_> {
    fn source(&self, file: &str) -> Option<&str> {
        for (name, text) in self.texts.iter() {
            if *name == file {
                return Some(*text);
            }
        }
        None
    }
}

/// The answer of adding these texts. An error quotes the one that it speaks of.
pub(crate) fn tell_of_batch(
    alloc: Global,
    answer: TeraResult<()>,
    texts: &[(&str, &str)],
) -> TeraResult<()>
    ensures { result ≡ answer }
{
    match answer {
        Ok(()) => Ok(()),
        Err(error) => Err(error.with_texts(alloc, &Batch { texts })),
    }
}

impl<O: Objects> TeraOver<O> {
    ghost use Rattle.tera.specs.Registry.{registry_of};

    /// The text of the template of just this name, if there is one: what a report's line and column speak of. Takes no memory.
    pub fn template_source(&self, name: &str) -> Option<&str>
        ensures { option_map (λ t. t.now) result
            ≡ option_map (λ t. t.1.text) (entry_at name.now
            (registry_of O.engine self.now).templates) }
    {
        self.templates.text(name)
    }

    // The answer of a rendering, of this text where one stands beside the templates. An error quotes what it speaks of.
    pub(crate) fn tell(
        &self,
        answer: TeraResult<String>,
        beside: Option<&str>,
    ) -> TeraResult<String>
        ensures { result ≡ answer }
    {
        match answer {
            Ok(text) => Ok(text),
            Err(error) => {
                let texts = TextSources {
                    templates: &self.templates,
                    beside,
                };
                Err(error.with_texts(self.alloc, &texts))
            }
        }
    }
}
