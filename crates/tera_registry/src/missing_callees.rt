// What is called, and whether it is there.
ghost use Rattle.std.specs.Prelude.{◌≡◌, bytes_eq, option_and_then, slice_get};
ghost use Rattle.std.specs.List.{list_any};
ghost use Rattle.tera_code.specs.Prelude.{callee_of, called_by};
ghost use Rattle.tera_meaning.specs.Prelude.{is_template};
ghost use Rattle.tera_registry.specs.Kept.{seen};
ghost use Rattle.tera_registry.specs.Known.{beside, is_there, is_missing, known_in, code_lacks};

use crate::code::Code;
use crate::components::Component;
use crate::inventory::Inventory;
use crate::resolve::resolve;
use crate::text_components::TextComponents;
use tera_code::{Callee, Chunk};
use tera_state::Objects;

/// Whether one of the components of a text has this name, where there is a text.
fn is_own(own: Option<TextComponents<'_>>, name: &str) -> bool
    ensures { result ≡ list_any (λ c. bytes_eq name.now c.definition.name) (beside own.entry) }
{
    match own {
        Some(own) => own.has(name),
        None => false,
    }
}

impl<'a, O: Objects> Inventory<'a, O> {
    // Whether a template or the text beside them defines a component of this name.
    fn has_component(&self, name: &str) -> bool
        ensures { result ≡ is_there self.now.choices.now (beside self.now.own) name.now }
    {
        self.choices.contains_key(name) || is_own(self.own, name)
    }

    // Whether the name resolves to a template.
    fn has_template(&self, name: &str) -> bool
        ensures { result
            ≡ is_template (seen self.now.templates.now self.now.prefixes.now) name.now }
    {
        resolve(self.templates, self.prefixes, name).is_some()
    }

    /// Whether what is called is there. Takes no memory.
    pub fn is_known(&self, callee: Callee<'_>) -> bool
        ensures { result ≡ known_in O.engine self.now (callee_of callee.entry) }
    {
        match callee {
            Callee::Filter(name) => self.objects.has_filter(name),
            Callee::Test(name) => self.objects.has_test(name),
            Callee::Function(name) => self.objects.has_function(name),
            Callee::Component(name) => self.has_component(name.as_str()),
            Callee::Template(name) => self.has_template(name.as_str()),
        }
    }

    // Whether the instruction at this position calls what is not there.
    fn is_missing_at(&self, chunk: &Chunk, position: usize) -> bool
        ensures { result ≡ is_missing (known_in O.engine self.now)
            (option_and_then called_by (slice_get chunk.now.code position)) }
    {
        match chunk.callee_at(position) {
            Some(callee) => !self.is_known(callee),
            None => false,
        }
    }

    /// Whether the code calls what is not there. Takes no memory.
    pub fn code_has_missing_callee(&self, chunk: &Chunk) -> bool
        ensures { result ≡ code_lacks (known_in O.engine self.now) chunk.now.code }
    {
        for position in 0..chunk.len() {
            if self.is_missing_at(chunk, position) {
                return true;
            }
        }
        false
    }

    /// Whether the code of one of the components calls what is not there. Takes no memory.
    pub fn any_has_missing_callee(&self, components: &[Component]) -> bool
        ensures { result ≡ list_any
            (λ c. code_lacks (known_in O.engine self.now) c.code.value.chunk.code)
            components.now }
    {
        components.iter().any(|component| {
            let code: &Code = &component.code;
            self.code_has_missing_callee(&code.chunk)
        })
    }
}
