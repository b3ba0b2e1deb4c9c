// The components of a text beside the templates, by name.
ghost use Rattle.std.specs.Prelude.{◌≡◌, bytes_eq};
ghost use Rattle.std.specs.Coded.{codes};
ghost use Rattle.std.specs.List.{list_any};
ghost use Rattle.tera_registry.specs.Components.{kept_names};
ghost use Rattle.tera_registry.specs.Places.{ArePlaces};

use crate::components::Component;
use std::collections::BTreeMap;

/// The components that a text beside the templates defines, and where the first of each name stands among them.
#[derive(Clone, Copy)]
pub struct TextComponents<'o> {
    pub components: &'o [Component],
    pub places: &'o BTreeMap<String, usize>,
    ghost placed: { ArePlaces (kept_names components.now) places.now } by { Prim.hlevel codes },
}

impl<'o> TextComponents<'o> {
    /// Whether one of them has this name.
    pub fn has(&self, name: &str) -> bool
        ensures { result
            ≡ list_any (λ c. bytes_eq name.now c.definition.name) self.now.components.now }
    {
        self.places.contains_key(name)
    }
}
