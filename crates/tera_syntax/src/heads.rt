// Statements with a body, as their first tag tells them.
ghost use Rattle.std.specs.Prelude.{◌≡◌};
ghost use Rattle.tera_syntax.specs.Heads as spec;
ghost use Rattle.tera_syntax.specs.View.{head_of};
ghost use Rattle.tera_syntax_tokens.specs.Prelude.{tokens_of};
ghost use Rattle.tera_syntax_tree.specs.Prelude.{node_of, nodes_of};

use tera_errors::Span;
use tera_syntax_tokens::cut::is_alone;
use tera_syntax_tokens::token::{Kind, Token};
use tera_syntax_tokens::tokens::{Tokens, is_word};
use tera_syntax_tree::{Captured, ComponentTag, Expression, Heading, Node, SectionFilter};

/// What a tag stands in.
#[derive(Clone, Copy)]
pub(crate) struct Surroundings {
    /// Whether it is inside a loop's body, where `loop.index` and its like are the loop's.
    pub in_loop: bool,
    /// Whether `break` and `continue` may stand here: inside a loop's body, with no block between.
    pub may_leave: bool,
    /// Whether a block may stand here, which is in no component.
    pub may_have_blocks: bool,
}

impl Surroundings {
    /// Nothing.
    pub fn at_top() -> Surroundings
        ensures { result ≡ spec.outside }
    {
        Surroundings {
            in_loop: false,
            may_leave: false,
            may_have_blocks: true,
        }
    }

    /// What the body of a component that is defined stands in.
    pub fn in_component() -> Surroundings
        ensures { result ≡ spec.in_component }
    {
        Surroundings {
            in_loop: false,
            may_leave: false,
            may_have_blocks: false,
        }
    }
}

/// What begins a statement with a body.
#[derive(Drop)]
pub(crate) enum Head<'s> {
    /// `if condition`, or `elif condition`
    If(Box<Expression<'s>>),
    /// `for name in target`
    For(Box<Heading<'s>>),
    /// `set name | filter`, or `set_global name | filter` where it is global. There may be no filter.
    Set(Box<Captured<'s>>, bool),
    /// `filter filters`
    Section(Vec<SectionFilter<'s>>),
    /// `block name`, and where the name stands.
    Block(&'s str, Span),
    /// `<name attributes>`, and from where to where it stands.
    Call(Box<ComponentTag<'s>>, Span),
}

impl<'s> Head<'s> {
    /// The statement with this body, and what stands behind its `else`.
    pub fn make(self, body: Vec<Node<'s>>, other: Vec<Node<'s>>) -> Node<'s>
        ensures { let all = nodes_of body.entry.items in
            node_of result ≡ spec.make (head_of self.entry) all (nodes_of other.entry.items) }
    {
        match self {
            Head::If(condition) => Node::choice(condition, body, other),
            Head::For(heading) => Node::for_loop(heading, body, other),
            Head::Set(captured, is_global) => Node::capture(captured, body, is_global),
            Head::Section(filters) => Node::filter_section(filters, body),
            Head::Block(name, span) => Node::block(name, body, span),
            Head::Call(tag, span) => Node::component_call(tag, body, span),
        }
    }

    /// Whether it may have an `else`.
    pub fn splits(&self) -> bool
        ensures { result ≡ spec.splits (head_of self.now) }
    {
        match self {
            Head::If(_) | Head::For(_) => true,
            Head::Set(_, _) | Head::Section(_) | Head::Block(_, _) => false,
            Head::Call(_, _) => false,
        }
    }

    /// Whether it may have an `elif`.
    pub fn chains(&self) -> bool
        ensures { result ≡ spec.chains (head_of self.now) }
    {
        match self {
            Head::If(_) => true,
            Head::For(_) | Head::Set(_, _) | Head::Section(_) | Head::Block(_, _) => false,
            Head::Call(_, _) => false,
        }
    }

    /// What its body stands in. A block's body keeps the names of a loop around it, and can't leave
    /// a turn of that loop; the body that a component is handed can.
    pub fn body_surroundings(&self, around: Surroundings) -> Surroundings
        ensures { result ≡ spec.inside (head_of self.now) around }
    {
        match self {
            Head::If(_) | Head::Set(_, _) | Head::Section(_) | Head::Call(_, _) => around,
            Head::For(_) => Surroundings {
                in_loop: true,
                may_leave: true,
                may_have_blocks: around.may_have_blocks,
            },
            Head::Block(_, _) => Surroundings {
                in_loop: around.in_loop,
                may_leave: false,
                may_have_blocks: around.may_have_blocks,
            },
        }
    }

    /// The kind of the first token of its end.
    fn end_kind(&self) -> Kind
        ensures { result ≡ spec.end_kind (head_of self.now) }
    {
        match self {
            Head::If(_) | Head::For(_) | Head::Set(_, _) | Head::Section(_) => Kind::Name,
            Head::Block(_, _) => Kind::Name,
            Head::Call(_, _) => Kind::Less,
        }
    }

    /// Whether the tokens are its end, by the first one's kind. Behind the word that ends a block its
    /// name may stand.
    fn is_end(&self, tokens: &[Token<'_>]) -> bool
        ensures { result ≡ spec.is_end (head_of self.now) (tokens_of tokens.now) }
    {
        match self {
            Head::If(_) => is_alone("endif", tokens),
            Head::For(_) => is_alone("endfor", tokens),
            Head::Set(_, is_global) => {
                is_alone("endset", tokens) || *is_global && is_alone("endset_global", tokens)
            }
            Head::Section(_) => is_alone("endfilter", tokens),
            Head::Block(name, _) => {
                is_alone("endblock", tokens) || is_named("endblock", name, tokens)
            }
            Head::Call(tag, _) => is_call_end(tag.name, tokens),
        }
    }

    /// Whether the tag ends it.
    pub fn is_ended_by(&self, tokens: &[Token<'_>]) -> bool
        ensures { result ≡ spec.ends (head_of self.now) (tokens_of tokens.now) }
    {
        first_kind(tokens) == self.end_kind() && self.is_end(tokens)
    }
}

/// The kind of the first token.
pub(crate) fn first_kind(tokens: &[Token<'_>]) -> Kind
    ensures { result ≡ spec.first (tokens_of tokens.now) }
{
    Tokens::begin(tokens, false).kind()
}

/// Whether a tag begins with the word `extends`.
pub(crate) fn is_extends(tag: &[Token<'_>]) -> bool
    ensures { result ≡ spec.is_extends (tokens_of tag.now) }
{
    first_kind(tag) == Kind::Name && Tokens::begin(tag, false).text() == "extends"
}

/// Whether a tag defines a component.
pub(crate) fn is_component(tag: &[Token<'_>]) -> bool
    ensures { result ≡ spec.is_component (tokens_of tag.now) }
{
    first_kind(tag) == Kind::Name && Tokens::begin(tag, false).text() == "component"
}

/// Whether the tag ends the definition of a component of this name, which may stand behind the word.
pub(crate) fn ends_component(name: &str, tag: &[Token<'_>]) -> bool
    ensures { result ≡ spec.ends_component name.now (tokens_of tag.now) }
{
    first_kind(tag) == Kind::Name
        && (is_alone("endcomponent", tag) || is_named("endcomponent", name, tag))
}

/// Whether the tokens are this word, and behind it this name.
fn is_named(word: &str, name: &str, tokens: &[Token<'_>]) -> bool
    ensures { result ≡ spec.is_named word.now name.now (tokens_of tokens.now) }
{
    match tokens {
        [first, second] => { first.text == word && is_word(second.kind) && second.text == name }
        _ => false,
    }
}

/// Whether a slash, this name and `>` stand behind the first token.
fn is_call_end(name: &str, tokens: &[Token<'_>]) -> bool
    ensures { result ≡ spec.is_call_end name.now (tokens_of tokens.now) }
{
    match tokens {
        [_, slash, named, close] => {
            slash.kind == Kind::Slash
                && (is_word(named.kind) && named.text == name && close.kind == Kind::Greater)
        }
        _ => false,
    }
}
