// Whether a value holds another one.
ghost use Rattle.std.specs.Prelude.{◌≡◌, IsOk};
ghost use Rattle.tera_errors.specs.Prelude.{Gives};
ghost use Rattle.tera_value_types.specs.Val.{vals};
ghost use Rattle.tera_value_types.specs.Access.{key_of};
ghost use Rattle.tera_value_types.specs.Slices.{is_part, has_item, has_key, contains};

use crate::key::KeyRef;
use crate::refusals::{no_container, no_part};
use crate::shape::Shape;
use crate::value::{Map, Value};
use memchr::memmem;
use std::alloc::Global;
use tera_errors::TeraResult;

fn has_item(items: &[Value], wanted: &Value) -> bool
    ensures { result ≡ has_item wanted.now (vals items.now) }
{
    for item in items {
        if *item == *wanted {
            return true;
        }
    }
    false
}

fn has_part(content: &str, part: &str) -> bool
    ensures { result ≡ is_part part.now content.now }
{
    memmem::find(content.as_bytes(), part.as_bytes()).is_some()
}

fn has_key(all: &Map, wanted: &Value) -> bool
    ensures { result ≡ has_key (key_of wanted.now) all.now }
{
    match wanted.shape() {
        Shape::Bool(flag) => all.value_at(&KeyRef::Bool(flag)).is_some(),
        Shape::Int(number) => all.value_at(&KeyRef::Int(number)).is_some(),
        Shape::Text(name, _) => all.value_at(&KeyRef::Text(name)).is_some(),
        _ => false,
    }
}

impl Value {
    /// Whether an item of the array is equal to the value, the text has it as a part, or the map has
    /// it as a key. A `Message` for other kinds, and where no text is looked for in a text.
    pub fn contains(&self, alloc: Global, wanted: &Value) -> TeraResult<bool>
        ensures found { Gives (λ found. found) result (contains self.now wanted.now) }
        ensures ready { IsOk (contains self.now wanted.now) → IsOk result }
    {
        match self.shape() {
            Shape::Array(items) => Ok(has_item(items, wanted)),
            Shape::Text(content, _) => match wanted.shape() {
                Shape::Text(part, _) => Ok(has_part(content, part)),
                _ => Err(no_part(alloc, wanted)),
            },
            Shape::Map(all) => Ok(has_key(all, wanted)),
            _ => Err(no_container(alloc, self)),
        }
    }
}
