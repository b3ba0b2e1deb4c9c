// What stands before the first operator.
ghost use Rattle.tera_syntax_tree.specs.Prelude.{Boolean};
ghost use Rattle.tera_syntax_tokens.specs.Prelude.{next, span, start, Takes, input};
ghost use Rattle.tera_syntax_expressions.specs.Expressions as spec;
ghost use Rattle.tera_syntax_expressions.specs.Loops as loops;
ghost use Rattle.std.specs.Prelude.{◌≡◌, option_map};
ghost use Rattle.tera_syntax_expressions.specs.Parts.{Follows, Nests, deep_of};

use crate::arguments::is_call;
use crate::expressions::{Read, ReadExpression};
use crate::operator_forms::Prefix;
use crate::precedence;
use crate::reader::Reader;
use std::alloc::Global;
use tera_syntax_tokens::literal::{integer, literal};
use tera_syntax_tokens::refusal::{Reason, Refusal};
use tera_syntax_tokens::token::Kind;
use tera_syntax_tokens::tokens::Tokens;
use tera_syntax_tree::Expression;

impl<'s, F: Fn(Global, &mut Tokens<'_, 's>, usize, u8) -> Read<'s>> Reader<F> {
    /// What stands before the first operator.
    #[inline(always)]
    #[tactic(auto, unfolding(crate::specs::Expressions::head))]
    pub(crate) fn head(&self, tokens: &mut Tokens<'_, 's>) -> Read<'s>
        requires { Nests self.now.below (F.pre self.now.expr) (F.post self.now.expr) }
        ensures { Follows deep_of spec.head self.now tokens.old result tokens.new }
    {
        match tokens.kind() {
            Kind::Minus => self.prefix_form(tokens, precedence::MINUS, Prefix::Negate),
            Kind::Not => self.prefix_form(tokens, precedence::NOT, Prefix::Not),
            Kind::Int => self.int(tokens),
            Kind::Text => self.text(tokens),
            Kind::True => self.constant(tokens, true),
            Kind::False => self.constant(tokens, false),
            Kind::Nothing => {
                let start = tokens.start();
                tokens.take();
                let span = tokens.span(start);
                self.node(tokens, 0, Expression::None { span })
            }
            Kind::Name => self.name(tokens),
            Kind::LeftBracket => {
                let start = tokens.start();
                tokens.take();
                self.brackets(tokens, start)
            }
            Kind::LeftBrace => self.map(tokens),
            Kind::Less => self.component(tokens),
            _ => Err(tokens.refuse(Reason::NoExpression)),
        }
    }

    /// The same where it is most likely a name, an integer or a text. The answer has room only where it is read.
    #[inline(always)]
    pub(crate) fn leaf(&self, tokens: &mut Tokens<'_, 's>) -> Read<'s>
        requires { Nests self.now.below (F.pre self.now.expr) (F.post self.now.expr) }
        ensures { Follows deep_of spec.head self.now tokens.old result tokens.new }
    {
        self.leaf_apart(tokens)
    }

    /// A name, an integer or a text, and what else may begin an expression.
    #[inline(never)]
    #[tactic(auto, unfolding(crate::specs::Expressions::head))]
    fn leaf_apart(&self, tokens: &mut Tokens<'_, 's>) -> Read<'s>
        requires { Nests self.now.below (F.pre self.now.expr) (F.post self.now.expr) }
        ensures { Follows deep_of spec.head self.now tokens.old result tokens.new }
    {
        match tokens.kind() {
            Kind::Name => self.name(tokens),
            Kind::Int => self.int(tokens),
            Kind::Text => self.text(tokens),
            _ => self.head(tokens),
        }
    }

    /// An integer.
    #[inline(always)]
    pub(crate) fn int(&self, tokens: &mut Tokens<'_, 's>) -> Read<'s>
        ensures { Takes deep_of (spec.head_by self.now.limit (spec.expr self.now.below) Kind.Int
            (input tokens.old)) result tokens.new }
    {
        let start = tokens.start();
        match integer(tokens.text()) {
            Some(value) => {
                tokens.take();
                let span = tokens.span(start);
                self.node(tokens, 0, Expression::Int { value, span })
            }
            None => Err(tokens.refuse(Reason::LargeInteger)),
        }
    }

    /// A text in quotes.
    pub(crate) fn text(&self, tokens: &mut Tokens<'_, 's>) -> Read<'s>
        ensures { Takes deep_of (spec.head_by self.now.limit (spec.expr self.now.below) Kind.Text
            (input tokens.old)) result tokens.new }
    {
        let start = tokens.start();
        match literal(self.alloc, tokens.text())? {
            Some(text) => {
                tokens.take();
                let span = tokens.span(start);
                self.node(tokens, 0, Expression::Text { text, span })
            }
            None => Err(tokens.refuse(Reason::NoExpression)),
        }
    }

    /// A name, or a call.
    #[inline(always)]
    pub(crate) fn name(&self, tokens: &mut Tokens<'_, 's>) -> Read<'s>
        requires { Nests self.now.below (F.pre self.now.expr) (F.post self.now.expr) }
        ensures { Takes deep_of (spec.head_by self.now.limit (spec.expr self.now.below) Kind.Name
            (input tokens.old)) result tokens.new }
    {
        let start = tokens.start();
        if let Some(name) = loop_name(tokens) {
            tokens.take();
            tokens.take();
            tokens.take();
            let span = tokens.span(start);
            return self.node(tokens, 0, Expression::Name { name, span });
        }
        if is_call(tokens) {
            return self.call(tokens);
        }
        let name = tokens.text();
        tokens.take();
        let span = tokens.span(start);
        self.node(tokens, 0, Expression::Name { name, span })
    }

    /// `true` or `false`.
    pub(crate) fn constant(&self, tokens: &mut Tokens<'_, 's>, value: bool) -> Read<'s>
        ensures { Takes deep_of (spec.node self.now.limit 0
            (Boolean value (span (start (input tokens.old)) (next (input tokens.old))))
            (next (input tokens.old))) result tokens.new }
    {
        let start = tokens.start();
        tokens.take();
        let span = tokens.span(start);
        self.node(tokens, 0, Expression::Bool { value, span })
    }
}

/// The name that a loop gives to the next three tokens, if these are one.
#[tactic(auto, unfolding(crate::specs::Loops::loop_name))]
fn loop_name(tokens: &Tokens<'_, '_>) -> Option<&'static str>
    ensures { option_map (λ s. s.now) result ≡ loops.loop_name (input tokens.now) }
{
    if !tokens.in_loop || tokens.text() != "loop" {
        return None;
    }
    let mut ahead = Tokens {
        ahead: tokens.ahead,
        last: tokens.last,
        in_loop: tokens.in_loop,
    };
    ahead.take();
    if ahead.kind() != Kind::Dot {
        return None;
    }
    ahead.take();
    loop_word(ahead.text())
}

fn loop_word(word: &str) -> Option<&'static str>
    ensures { option_map (λ s. s.now) result ≡ loops.loop_word word.now }
{
    match word {
        "index" => Some("__tera_loop_index"),
        "index0" => Some("__tera_loop_index0"),
        "first" => Some("__tera_loop_first"),
        "last" => Some("__tera_loop_last"),
        "length" => Some("__tera_loop_length"),
        _ => None,
    }
}
