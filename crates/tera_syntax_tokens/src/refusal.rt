// Why a part of a text is not read.
use crate::token::Kind;
use std::alloc::{AllocError, AllocFailed};
use tera_errors::Span;

/// What is wrong with a text.
#[derive(Clone, Copy, PartialEq, Eq, Debug)]
pub enum Reason {
    OpenTag,
    OpenComment,
    OpenRaw,
    NoToken,
    NoExpression,
    /// What follows an operand neither goes on with it nor ends it.
    NoOperation,
    NoStatement,
    /// A tag `extends` with more in front of it than white space and comments.
    LateExtends,
    /// The end of a statement, or of a part of it, where none is open.
    NotOpen,
    /// The same, where another statement is open, whose first tag begins at this byte.
    OtherOpen(usize),
    /// A second `else` of the statement whose first tag begins at this byte.
    ElseTwice(usize),
    /// A statement is open at the end of the text. It is told of at its first tag.
    NoEnd,
    /// Another block has the same name.
    BlockTwice,
    /// Another component has the same name.
    ComponentTwice,
    /// A component inside anything else, or a block in a component.
    OutOfPlace,
    /// Two parameters have one name, or one is called `body`.
    ParameterTwice,
    /// A default that is no text, integer or constant, and no array or map of such.
    NoLiteral,
    /// No type has this name.
    NoType,
    /// An argument without a name in front of it.
    Unnamed,
    /// Another argument has the same name.
    ArgumentTwice,
    /// A token follows what the tag is.
    TagGoesOn,
    TooDeep,
    LargeInteger,
    /// Another token stands where one of this kind must.
    Expected(Kind),
}

impl Reason {
    /// The same in words, as an error's message has them.
    pub fn words(self) -> &'static str {
        match self {
            Reason::OpenTag => "the tag has no end",
            Reason::OpenComment => "the comment has no end",
            Reason::OpenRaw => "the raw text has no end",
            Reason::NoToken => "no token begins here",
            Reason::NoExpression => "no expression begins here",
            Reason::NoOperation => "no operation goes on here",
            Reason::NoStatement => "no statement begins here",
            Reason::LateExtends => "only white space and comments may stand before `extends`",
            Reason::NotOpen | Reason::OtherOpen(_) => {
                "what this tag ends or goes on with is not open here"
            }
            Reason::ElseTwice(_) => "what is open here has its `else` already",
            Reason::Unnamed => "an argument stands behind its name here, as in `name=value`",
            Reason::ArgumentTwice => "another argument has this name",
            Reason::NoEnd => "the statement that begins here has no end",
            Reason::BlockTwice => "another block has this name",
            Reason::ComponentTwice => "another component has the same name",
            Reason::OutOfPlace => "this may not stand inside of what is open here",
            Reason::ParameterTwice => "two parameters have one name, or one is called `body`",
            Reason::NoLiteral => "a text, an integer, a constant, an array or a map is due here",
            Reason::NoType => "no type has this name",
            Reason::TagGoesOn => "the tag goes on where its end is due",
            Reason::TooDeep => "what stands here is nested too deeply",
            Reason::LargeInteger => "the integer is too large",
            Reason::Expected(Kind::LeftParenthesis) => "`(` is due here",
            Reason::Expected(Kind::RightParenthesis) => "`)` is due here",
            Reason::Expected(Kind::RightBracket) => "`]` is due here",
            Reason::Expected(Kind::RightBrace) => "`}` is due here",
            Reason::Expected(Kind::Colon) => "`:` is due here",
            Reason::Expected(Kind::Assign) => "`=` and a value are due here, as in `name=value`",
            Reason::Expected(Kind::Else) => "`else` is due here",
            Reason::Expected(Kind::In) => "`in` is due here",
            Reason::Expected(Kind::Name) => "a name is due here",
            Reason::Expected(Kind::Text) => "a text in quotes is due here",
            Reason::Expected(_) => "another token is due here",
        }
    }
}

/// Why nothing was read.
#[derive(Drop)]
pub enum Refusal {
    /// What is wrong, and where in the source.
    Syntax(Reason, Span),
    /// The text may be sound: memory was refused.
    OutOfMemory,
}

impl From<AllocError> for Refusal {
    ghost use Rattle.std.specs.Prelude.{◌≡◌};
    ghost use Rattle.tera_syntax_tokens.specs.declared.refusal.Refusal.TheVariants.{OutOfMemory};

    ghost from_gives = { λ _ e. e ≡ OutOfMemory };

    fn from(_refused: AllocError) -> Refusal {
        Refusal::OutOfMemory
    }
}

impl<T: Drop> From<AllocFailed<T>> for Refusal {
    ghost use Rattle.std.specs.Prelude.{◌≡◌};
    ghost use Rattle.tera_syntax_tokens.specs.declared.refusal.Refusal.TheVariants.{OutOfMemory};

    ghost from_gives = { λ _ e. e ≡ OutOfMemory };

    fn from(_refused: AllocFailed<T>) -> Refusal {
        Refusal::OutOfMemory
    }
}
