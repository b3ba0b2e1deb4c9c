// What a value is, whatever form it is kept in.
ghost use Rattle.std.specs.Prelude.{◌≡◌};
ghost use Rattle.tera_value_types.specs.Shape.{shape_view};

use crate::value::{Map, Representation, Value};

/// What a value is, with its content lent. Takes no memory.
#[derive(Drop)]
pub enum Shape<'a> {
    Undefined,
    None,
    Bool(bool),
    Int(i128),
    /// A text, and whether it is marked safe.
    Text(&'a str, bool),
    Bytes(&'a [u8]),
    Array(&'a [Value]),
    Map(&'a Map),
}

impl Value {
    /// The kind and the content.
    #[inline(always)]
    pub fn shape(&self) -> Shape<'_>
        ensures { shape_view result ≡ self.now }
    {
        match &self.node {
            Representation::Undefined => Shape::Undefined,
            Representation::None => Shape::None,
            Representation::Bool(flag) => Shape::Bool(*flag),
            Representation::Int(number) => Shape::Int(*number),
            Representation::Short(safe, content) => Shape::Text(content.as_str(), *safe),
            Representation::Text(safe, content) => Shape::Text(content.as_ref().as_str(), *safe),
            Representation::Bytes(content) => Shape::Bytes(content.as_ref().as_slice()),
            Representation::Array(items) => Shape::Array(items.as_slice()),
            Representation::Shared(items) => Shape::Array(items.as_ref().as_slice()),
            Representation::Map(all) => Shape::Map(all),
            Representation::SharedMap(all) => Shape::Map(all.as_ref()),
        }
    }
}
