// Components that are handed a body.
ghost use Rattle.std.specs.Prelude.{option_and_then};
ghost use Rattle.tera_syntax.specs.Reader as spec;
ghost use Rattle.tera_syntax.specs.View.{Becomes, head_of, progress_of};
ghost use Rattle.tera_syntax_tokens.specs.Prelude.{Answers, begin, input, tokens_of};
ghost use Rattle.tera_syntax_tree.specs.Depth.{max_tree_depth};

use crate::heads::Head;
use crate::open_statements::OpenStatements;
use std::alloc::Global;
use tera_syntax_expressions::components::attributes;
use tera_syntax_tokens::refusal::{Reason, Refusal};
use tera_syntax_tokens::token::{Kind, Token};
use tera_syntax_tokens::tokens::{Tokens, is_word};
use tera_syntax_tree::ComponentTag;

/// A tag that begins with `<`.
pub(crate) fn call<'s>(
    progress: &mut OpenStatements<'s>,
    alloc: Global,
    tag: &[Token<'s>],
) -> Result<(), Refusal>
    ensures { let s = progress_of progress.old in
        let tokens = tokens_of tag.now in
        let here = begin s.surroundings.in_loop tokens in
        let meant = spec.calling (spec.room max_tree_depth s) here in
        Becomes (option_and_then (spec.taken max_tree_depth s tokens) meant) result progress.new }
{
    let mut ahead = Tokens::begin(tag, progress.surroundings.in_loop);
    let start = ahead.start();
    ahead.take();
    if ahead.kind() == Kind::Slash {
        return progress.read_end(alloc, tag);
    }
    let head = call_head(alloc, &mut ahead, progress.room(), start)?;
    progress.open(alloc, false, head, tag)
}

/// The name of a component and its attributes, up to what closes the tag, which starts at a position.
#[tactic(auto, unfolding(crate::specs::Reader::called))]
fn call_head<'s>(
    alloc: Global,
    ahead: &mut Tokens<'_, 's>,
    limit: usize,
    start: usize,
) -> Result<Head<'s>, Refusal>
    ensures { Answers head_of (spec.called limit start (input ahead.old)) result }
{
    if !is_word(ahead.kind()) {
        return Err(ahead.refuse(Reason::Expected(Kind::Name)));
    }
    let name = ahead.text();
    ahead.take();
    let (attributes, _depth) = attributes(alloc, ahead, limit)?;
    if ahead.kind() != Kind::Greater {
        return Err(ahead.refuse(Reason::Expected(Kind::Greater)));
    }
    ahead.take();
    if ahead.kind() != Kind::End {
        return Err(ahead.refuse(Reason::TagGoesOn));
    }
    let tag = Box::new(alloc, ComponentTag { name, attributes })?;
    Ok(Head::Call(tag, ahead.span(start)))
}
