// Calls and their arguments.
ghost use Rattle.std.specs.Prelude.{◌≡◌, IfOk};
ghost use Rattle.tera_syntax_tree.specs.Prelude.{NoArguments, arguments_of, expr_of};
ghost use Rattle.tera_syntax_tokens.specs.Prelude.{text, Takes, input};
ghost use Rattle.tera_syntax_expressions.specs.Arguments as call;
ghost use Rattle.tera_syntax_expressions.specs.Expressions as spec;
ghost use Rattle.tera_syntax_expressions.specs.Parts.{FollowsRow, Nests, TakesPart, deep_of, position_of};

use crate::comma_lists::{between_commas, take_comma};
use crate::expressions::{Depth, Read, ReadExpression, ReadRow};
use crate::levels::kinds;
use crate::precedence;
use crate::reader::Reader;
use std::alloc::{AllocError, Global};
use std::cmp::Ordering;
use tera_errors::Span;
use tera_syntax_tokens::refusal::{Reason, Refusal};
use tera_syntax_tokens::token::Kind;
use tera_syntax_tokens::tokens::{Tokens, is_word};
use tera_syntax_tree::{Argument, Expression, FunctionCall};

/// With no more tokens ahead a call has 32 arguments at most. To search so short a row takes less than to build a tree.
const FEW_TOKENS: usize = 128;

impl<'s, F: Fn(Global, &mut Tokens<'_, 's>, usize, u8) -> Read<'s>> Reader<F> {
    /// `name(name = x, ..)`
    #[inline(always)]
    #[tactic(auto, unfolding(crate::specs::Expressions::call))]
    pub(crate) fn call(&self, tokens: &mut Tokens<'_, 's>) -> Read<'s>
        requires { Nests self.now.below (F.pre self.now.expr) (F.post self.now.expr) }
        ensures { let meant = spec.call self.now.limit (spec.expr self.now.below) in
            Takes deep_of (meant (input tokens.old)) result tokens.new }
    {
        let start = tokens.start();
        let name = tokens.text();
        tokens.take();
        tokens.take();
        let (arguments, depth) = self.arguments(tokens)?;
        let expression = make_call(self.alloc, name, arguments, tokens.span(start))?;
        self.node(tokens, depth, expression)
    }

    /// Arguments with commas between, up to a parenthesis, and the greatest depth.
    #[inline(never)]
    pub(crate) fn arguments(&self, tokens: &mut Tokens<'_, 's>) -> ReadRow<Argument<'s>>
        requires { Nests self.now.below (F.pre self.now.expr) (F.post self.now.expr) }
        ensures { FollowsRow arguments_of spec.arguments_from NoArguments self.now
            tokens.old result tokens.new }
    {
        if tokens.count_left() > FEW_TOKENS {
            return self.many_arguments(tokens);
        }
        self.few_arguments(tokens)
    }

    /// The same where they are few: each is put at its place in a row.
    #[inline(always)]
    #[tactic(auto, using(crate::proofs::Placed::arguments_once), unfolding(crate::specs::Expressions::arguments_from))]
    fn few_arguments(&self, tokens: &mut Tokens<'_, 's>) -> ReadRow<Argument<'s>>
        requires { Nests self.now.below (F.pre self.now.expr) (F.post self.now.expr) }
        ensures { FollowsRow arguments_of spec.arguments_from NoArguments self.now
            tokens.old result tokens.new }
    {
        let mut found = Vec::new(self.alloc);
        let mut depth = 0;
        between_commas!(tokens, Kind::RightParenthesis, self.argument(tokens, &mut found);
            x => depth = depth.max(x); (found, depth))
    }

    /// An argument, at its position among those that were read, and its depth.
    #[inline(always)]
    #[tactic(auto, unfolding(crate::specs::Expressions::argument))]
    fn argument(&self, tokens: &mut Tokens<'_, 's>, found: &mut Vec<Argument<'s>>) -> Depth
        requires { Nests self.now.below (F.pre self.now.expr) (F.post self.now.expr) }
        ensures { TakesPart arguments_of (spec.argument self.now.limit (spec.expr self.now.below))
            found.old found.new (input tokens.old) result tokens.new }
    {
        let name = tokens.text();
        let at = match position(found.as_slice(), name) {
            Some(at) => at,
            None => return Err(tokens.refuse(Reason::ArgumentTwice)),
        };
        match argument_name(tokens) {
            Ok(()) => {}
            Err(refusal) => return Err(refusal),
        }
        let x = match self.sub(tokens, precedence::CHOICE) {
            Ok(x) => x,
            Err(refusal) => return Err(refusal),
        };
        found.insert(
            at,
            Argument {
                name,
                value: x.expression,
            },
        )?;
        Ok(x.depth)
    }
}

/// Goes past the name of an argument and the sign behind it.
#[tactic(auto, unfolding(crate::specs::Arguments::argument_name))]
pub(crate) fn argument_name(tokens: &mut Tokens<'_, '_>) -> Result<(), Refusal>
    ensures { let meant = call.argument_name (input tokens.old) in
        Takes (λ done. text (input tokens.old)) meant result tokens.new }
{
    if !is_word(tokens.kind()) {
        return Err(tokens.refuse(Reason::Unnamed));
    }
    tokens.take();
    tokens.expect(Kind::Assign)
}

/// Where an argument of this name is put among others. None where one of them has it.
fn position(found: &[Argument<'_>], name: &str) -> Option<usize>
    ensures { result ≡ position_of name.now (arguments_of found.now) }
{
    let mut at = 0usize;
    for argument in found {
        match name.as_bytes().cmp(&argument.name.as_bytes()) {
            Ordering::Less => return Some(at),
            Ordering::Equal => return None,
            Ordering::Greater => at += 1,
        }
    }
    Some(at)
}

/// Whether a call begins here.
#[inline]
#[tactic(auto, unfolding(crate::specs::Arguments::is_call))]
pub(crate) fn is_call(tokens: &Tokens<'_, '_>) -> bool
    ensures { result ≡ call.is_call (input tokens.now) }
{
    kinds(tokens).1 == Kind::LeftParenthesis
}

/// The form of a call by this name.
#[tactic(auto, unfolding(crate::specs::Arguments::call_form))]
fn make_call<'s>(
    alloc: Global,
    name: &'s str,
    arguments: Vec<Argument<'s>>,
    span: Span,
) -> Result<Expression<'s>, AllocError>
    ensures { let all = arguments_of arguments.entry.items in
        IfOk result (λ e. expr_of e ≡ call.call_form name.now all span) }
{
    if name == "super" {
        return Ok(Expression::super_call(arguments, span));
    }
    let called = Box::new(alloc, FunctionCall { name, arguments })?;
    Ok(Expression::call(called, span))
}
