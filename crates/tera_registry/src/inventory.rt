// What the names of code are looked up among.
ghost use Rattle.tera_registry.specs.Kept.{entries_of};
ghost use Rattle.tera_registry.specs.Order.{Rises, Rises-prop};

use crate::component_table::ComponentAt;
use crate::template::Template;
use crate::text_components::TextComponents;
use std::alloc::Global;
use std::collections::BTreeMap;
use std::rc::Rc;

/// Templates with their components, those of a text beside them, where there is one, and objects.
#[derive(Drop)]
pub struct Inventory<'a, O> {
    pub alloc: Global,
    pub templates: &'a [Rc<Template>],
    pub prefixes: &'a [String],
    pub choices: &'a BTreeMap<String, ComponentAt>,
    pub own: Option<TextComponents<'a>>,
    pub objects: &'a O,
    ghost rises: { Rises (entries_of templates.now) } by { Rises-prop _ },
}
