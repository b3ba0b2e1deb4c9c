// Components as they are defined. They borrow names and texts from the template's source.
ghost use Rattle.std.specs.Prelude.{◌≡◌};
ghost use Rattle.tera_syntax_tree.specs.Tree as tree;
ghost use Rattle.tera_syntax_tree.specs.View.{literals_of, literal_entries_of, written_of};

use crate::expression::LiteralKey;
use crate::quoted::Quoted;

/// What an argument must be, where its parameter says so.
#[derive(Clone, Copy, PartialEq, Eq, Debug)]
pub enum ArgumentType {
    String,
    Bool,
    Integer,
    /// The same as an integer: there are no other numbers.
    Number,
    Array,
    Map,
}

/// A value that is written out, as the default of a parameter.
#[derive(Drop)]
#[cycle(literal)]
pub enum Literal<'s> {
    None,
    Bool(bool),
    Int(i128),
    Text(Quoted<'s>),
    Array(Vec<Literal<'s>>),
    Map(Vec<LiteralEntry<'s>>),
}

/// An entry of a map that is written out.
#[derive(Drop)]
#[cycle(literal)]
pub struct LiteralEntry<'s> {
    pub key: LiteralKey<'s>,
    pub value: Literal<'s>,
}

/// `name: Type = default`, or `@name: Type = default` where it is implicit: it is looked up in the callers where it is not given.
#[derive(Drop)]
pub struct Parameter<'s> {
    pub name: &'s str,
    pub is_implicit: bool,
    pub of_type: Option<ArgumentType>,
    pub default: Option<Literal<'s>>,
}

/// `name(parameters, ...rest)`: a component's name, what it is given, and what takes all other arguments.
pub struct Signature<'s> {
    pub name: &'s str,
    pub parameters: Vec<Parameter<'s>>,
    pub rest: Option<&'s str>,
}

// By hand, so that signatures that go out of scope are one call.
impl<'s> Drop for Signature<'s> {
    fn drop(self) {
        let Signature {
            name,
            parameters,
            rest,
        } = self;
        drop(name);
        drop(parameters);
        drop(rest);
    }
}

impl<'s> Literal<'s> {
    /// `[value, ..]`
    pub fn array(items: Vec<Literal<'s>>) -> Self
        ensures { written_of result ≡ tree.ArrayLiteral (literals_of items.entry.items) }
    {
        Literal::Array(items)
    }

    /// `{key: value, ..}`
    pub fn map(entries: Vec<LiteralEntry<'s>>) -> Self
        ensures { written_of result ≡ tree.MapLiteral (literal_entries_of entries.entry.items) }
    {
        Literal::Map(entries)
    }
}
