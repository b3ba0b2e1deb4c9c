// Filters and tests of a value.
ghost use Rattle.std.specs.Prelude.{◌≡◌};
ghost use Rattle.tera_syntax_tree.specs.Prelude.{arguments_of};
ghost use Rattle.tera_syntax_expressions.specs.Arguments as call;
ghost use Rattle.tera_syntax_expressions.specs.Expressions as spec;
ghost use Rattle.tera_syntax_expressions.specs.Parts.{Follows, GoesOn, Nests};

use crate::expressions::{Read, ReadExpression, ReadRow, Replaced};
use crate::operator_forms::Application;
use crate::reader::Reader;
use std::alloc::Global;
use tera_syntax_tokens::refusal::{Reason, Refusal};
use tera_syntax_tokens::token::Kind;
use tera_syntax_tokens::tokens::{Tokens, is_word};
use tera_syntax_tree::Argument;

impl<'s, F: Fn(Global, &mut Tokens<'_, 's>, usize, u8) -> Read<'s>> Reader<F> {
    /// `x | name`, from the bar on.
    #[inline(never)]
    #[tactic(auto, unfolding(crate::specs::Expressions::filter))]
    pub(crate) fn filter(
        &self,
        tokens: &mut Tokens<'_, 's>,
        start: usize,
        x: &mut ReadExpression<'s>,
    ) -> Replaced
        requires { Nests self.now.below (F.pre self.now.expr) (F.post self.now.expr) }
        ensures { GoesOn spec.filter self.now start x.old x.new tokens.old result tokens.new }
    {
        tokens.take();
        if !is_word(tokens.kind()) {
            return Err(tokens.refuse(Reason::Expected(Kind::Name)));
        }
        self.application(tokens, Application::Filter, start, x)
    }

    /// `x is name`, or `x is not name`, from `is` on.
    #[inline(never)]
    #[tactic(auto, unfolding(crate::specs::Expressions::tested))]
    pub(crate) fn test(
        &self,
        tokens: &mut Tokens<'_, 's>,
        start: usize,
        x: &mut ReadExpression<'s>,
    ) -> Replaced
        requires { Nests self.now.below (F.pre self.now.expr) (F.post self.now.expr) }
        ensures { GoesOn spec.tested self.now start x.old x.new tokens.old result tokens.new }
    {
        tokens.take();
        if tokens.kind() != Kind::Not {
            return self.test_by_name(tokens, start, x);
        }
        tokens.take();
        self.test_by_name(tokens, start, x)?;
        self.inverse(tokens, start, x)
    }

    /// A test, from its name on.
    #[inline(always)]
    #[tactic(auto, unfolding(crate::specs::Expressions::test_by_name))]
    fn test_by_name(
        &self,
        tokens: &mut Tokens<'_, 's>,
        start: usize,
        x: &mut ReadExpression<'s>,
    ) -> Replaced
        requires { Nests self.now.below (F.pre self.now.expr) (F.post self.now.expr) }
        ensures { GoesOn spec.test_by_name self.now start x.old x.new tokens.old result tokens.new }
    {
        if !is_test_name(tokens.kind()) {
            return Err(tokens.refuse(Reason::Expected(Kind::Name)));
        }
        self.application(tokens, Application::Test, start, x)
    }

    /// The arguments behind a name, if they are written, and the greatest depth.
    #[inline(always)]
    #[tactic(auto, unfolding(crate::specs::Expressions::optional_arguments))]
    pub(crate) fn optional_arguments(&self, tokens: &mut Tokens<'_, 's>) -> ReadRow<Argument<'s>>
        requires { Nests self.now.below (F.pre self.now.expr) (F.post self.now.expr) }
        ensures { Follows (λ p. (arguments_of p.0.items, p.1)) spec.optional_arguments self.now
            tokens.old result tokens.new }
    {
        if tokens.kind() != Kind::LeftParenthesis {
            return Ok((Vec::new(self.alloc), 0));
        }
        tokens.take();
        self.arguments(tokens)
    }
}

/// Whether a test may be called by this token.
#[tactic(auto, unfolding(crate::specs::Arguments::is_test_name))]
fn is_test_name(kind: Kind) -> bool
    ensures { result ≡ call.is_test_name kind }
{
    is_word(kind) && kind != Kind::Not
}
