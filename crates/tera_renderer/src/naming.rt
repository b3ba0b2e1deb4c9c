// What a renderer's engine has, by name.
ghost use Rattle.std.specs.Prelude.{◌≡◌, ◌∷◌, [], IfOk, map, string_bytes};
ghost use Rattle.tera.specs.Resolve.{resolve};
ghost use Rattle.tera.specs.Variables.{AnswersVariables};
ghost use Rattle.tera_renderer.specs.Calls.{Reads};
ghost use Rattle.tera_renderer.specs.Held.{held_by};
ghost use Rattle.tera_renderer.specs.Meanings.{ListsComponents, ListsTemplates, ListsVariables};

use crate::answer::Answer;
use crate::renderer::Renderer;
use std::alloc::{AllocError, Global};
use std::collections::BTreeSet;
use tera::{Objects, TeraResult};
use tera_data::text_of;

impl<O: Objects> Renderer<O> {
    /// The names of the templates, each once, in byte order.
    pub fn template_names(&mut self) -> Answer
        ensures { ListsTemplates (held_by O.engine self.old) (held_by O.engine self.new) result }
    {
        let answer = self.engine.get_template_names();
        self.leave_names(answer)
    }

    /// The names of the components, each once, in byte order.
    pub fn component_names(&mut self) -> Answer
        ensures { ListsComponents (held_by O.engine self.old) (held_by O.engine self.new) result }
    {
        let answer = self.engine.get_component_names();
        self.leave_names(answer)
    }

    /// The names that a template wants to be given, each once, in byte order.
    pub fn template_variables(&mut self, name: &[u8]) -> Answer
        ensures { ListsVariables name.now (held_by O.engine self.old) (held_by O.engine self.new) result }
    {
        let answer = self.variables(name);
        self.leave_names(answer)
    }

    fn variables(&self, name: &[u8]) -> TeraResult<Vec<String>>
        ensures { let r = (held_by O.engine self.now).registry in
            Reads (name.now ∷ []) (λ ns. map string_bytes ns.items) result
            (AnswersVariables r (resolve r name.now)) }
    {
        let name = text_of(self.alloc, name)?;
        let names = self.engine.get_template_variables(name)?;
        Ok(names_of(self.alloc, names)?)
    }
}

fn names_of(alloc: Global, set: BTreeSet<String>) -> Result<Vec<String>, AllocError>
    ensures { IfOk result (λ names. names.items ≡ set.keys) }
{
    let mut names = Vec::with_capacity(alloc, set.len())?;
    for name in set {
        names.push(name)?;
    }
    Ok(names)
}
