// What an instruction requests of bodies that stand elsewhere.
use tera_operators::Entries;
use tera_values::{Name, Span, Value};

/// A body to run before the code goes on.
#[derive(Drop)]
pub enum Request<'f> {
    /// A block by its name, at the span of the name.
    Block(&'f Name, Span),
    /// What the next template above makes of the block that runs, at the span of the call.
    Super(Span),
    /// A template to include by its name, at the span of the name.
    Include(&'f Name, Span),
    /// A component to call.
    Component(Box<ComponentRequest<'f>>),
}

/// A block by its name, at the span of the name, or what the next template above makes of the block that runs, at the span of
/// the call.
#[derive(Clone, Copy)]
pub enum BlockRequest<'f> {
    Block(&'f Name, Span),
    Super(Span),
}

/// A template to include by its name, at the span of the name.
#[derive(Clone, Copy)]
pub struct IncludeRequest<'f> {
    pub name: &'f Name,
    pub span: Span,
}

/// A component to call by its name, at the span of the call: the entries that its attributes make, the text that it is handed, if
/// it is handed one, and whether the text that it makes is safe.
#[derive(Drop)]
pub struct ComponentRequest<'f> {
    pub name: &'f Name,
    pub given: Entries<'f>,
    pub body: Option<Value>,
    pub safe: bool,
    pub span: Span,
}
