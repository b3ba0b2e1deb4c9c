// The texts of templates.
ghost use Rattle.std.specs.Prelude.{◌≡◌, option_map};
ghost use Rattle.tera_meaning.specs.Resolve.{entry_at};

use crate::resolve::find;
use crate::template::Template;
use crate::templates::Templates;
use tera_errors::Sources;

impl Templates {
    ghost use Rattle.tera_registry.specs.Templates.{templates_of};

    /// The text of the template of just this name, if there is one. Takes no memory.
    pub fn text(&self, name: &str) -> Option<&str>
        ensures { option_map (λ t. t.now) result
            ≡ option_map (λ t. t.1.text) (entry_at name.now (templates_of self.now)) }
    {
        match find(self.all.as_slice(), "", name) {
            Ok(position) => {
                let template: &Template = &self.all[position];
                Some(template.text.as_str())
            }
            Err(_) => None,
        }
    }
}

impl Sources for Templates {
    fn source(&self, file: &str) -> Option<&str> {
        self.text(file)
    }
}
