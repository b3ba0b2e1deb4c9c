// Statements that begin with a word which is not reserved, and ends.
ghost use Rattle.std.specs.Prelude.{◌≡◌, IfOk, false, get_or, option_and_then};
ghost use Rattle.tera_syntax.specs.Reader as spec;
ghost use Rattle.tera_syntax.specs.View.{Becomes, progress_of};
ghost use Rattle.tera_syntax_tokens.specs.Prelude.{Answers, begin, next, input, Token, tokens_of};
ghost use Rattle.tera_syntax_tree.specs.Depth.{max_tree_depth};
ghost use Rattle.tera_syntax_tree.specs.Prelude.{node_of, quoted_of};

use crate::heads::Head;
use crate::open_statements::{OpenStatements, refusal_of_tag};
use crate::statements::{pipe, put, tokens_after_first, whole_expression};
use std::alloc::Global;
use tera_syntax_tokens::cut::is_alone;
use tera_syntax_tokens::literal::literal;
use tera_syntax_tokens::refusal::{Reason, Refusal};
use tera_syntax_tokens::token::{Kind, Token};
use tera_syntax_tokens::tokens::{Tokens, is_word};
use tera_syntax_tree::{Captured, Node, Quoted};

/// A tag that begins with `set` or `set_global`.
fn set<'s>(
    progress: &mut OpenStatements<'s>,
    alloc: Global,
    tag: &[Token<'s>],
    is_global: bool,
) -> Result<(), Refusal>
    ensures { let s = progress_of progress.old in
        let tokens = tokens_of tag.now in
        let behind = next (begin s.surroundings.in_loop tokens) in
        let meant = spec.setting (spec.room max_tree_depth s) is_global behind in
        Becomes (option_and_then (spec.taken max_tree_depth s tokens) meant) result progress.new }
{
    let mut ahead = tokens_after_first(tag, progress.surroundings.in_loop);
    if ahead.kind() != Kind::Name {
        return Err(ahead.refuse(Reason::Expected(Kind::Name)));
    }
    let name = ahead.text();
    ahead.take();
    let filters = match ahead.kind() {
        Kind::Assign => {
            ahead.take();
            let value = whole_expression(alloc, &mut ahead, progress.room())?;
            let value = Box::new(alloc, value)?;
            return put(progress, Node::set(name, value, is_global), tag);
        }
        Kind::End => Vec::new(alloc),
        Kind::Bar => {
            ahead.take();
            pipe(alloc, &mut ahead, progress.room())?
        }
        _ => return Err(ahead.refuse(Reason::Expected(Kind::Assign))),
    };
    let captured = Box::new(alloc, Captured { name, filters })?;
    progress.open(alloc, false, Head::Set(captured, is_global), tag)
}

/// A tag that begins with `filter`.
fn section<'s>(
    progress: &mut OpenStatements<'s>,
    alloc: Global,
    tag: &[Token<'s>],
) -> Result<(), Refusal>
    ensures { let s = progress_of progress.old in
        let tokens = tokens_of tag.now in
        let behind = next (begin s.surroundings.in_loop tokens) in
        let meant = spec.sectioning (spec.room max_tree_depth s) behind in
        Becomes (option_and_then (spec.taken max_tree_depth s tokens) meant) result progress.new }
{
    let mut ahead = tokens_after_first(tag, progress.surroundings.in_loop);
    let filters = pipe(alloc, &mut ahead, progress.room())?;
    progress.open(alloc, false, Head::Section(filters), tag)
}

/// A tag that begins with `block`. The block's name may be a reserved word.
fn block<'s>(
    progress: &mut OpenStatements<'s>,
    alloc: Global,
    tag: &[Token<'s>],
) -> Result<(), Refusal>
    ensures { let s = progress_of progress.old in
        let tokens = tokens_of tag.now in
        let behind = next (begin s.surroundings.in_loop tokens) in
        let meant = spec.blocking s.surroundings.may_have_blocks behind in
        Becomes (option_and_then (spec.taken max_tree_depth s tokens) meant) result progress.new }
{
    if !progress.surroundings.may_have_blocks {
        return Err(refusal_of_tag(tag, Reason::OutOfPlace));
    }
    let mut ahead = tokens_after_first(tag, progress.surroundings.in_loop);
    if !is_word(ahead.kind()) {
        return Err(ahead.refuse(Reason::Expected(Kind::Name)));
    }
    let name = ahead.text();
    let start = ahead.start();
    ahead.take();
    if ahead.kind() != Kind::End {
        return Err(ahead.refuse(Reason::TagGoesOn));
    }
    progress.open(alloc, false, Head::Block(name, ahead.span(start)), tag)
}

/// The name in quotes that ends a tag.
pub(crate) fn quoted_name<'s>(
    alloc: Global,
    ahead: &mut Tokens<'_, 's>,
) -> Result<Quoted<'s>, Refusal>
    ensures value { Answers quoted_of (spec.quoted_name_at (input ahead.old)) result }
    ensures position { IfOk result (λ name. input ahead.new ≡ next (input ahead.old)) }
{
    if ahead.kind() != Kind::Text {
        return Err(ahead.refuse(Reason::Expected(Kind::Text)));
    }
    let quoted = ahead.text();
    ahead.take();
    if ahead.kind() != Kind::End {
        return Err(ahead.refuse(Reason::TagGoesOn));
    }
    match literal(alloc, quoted)? {
        Some(name) => Ok(name),
        None => Err(ahead.refuse(Reason::Expected(Kind::Text))),
    }
}

/// A tag that begins with `include`.
fn include<'s>(
    progress: &mut OpenStatements<'s>,
    alloc: Global,
    tag: &[Token<'s>],
) -> Result<(), Refusal>
    ensures { let s = progress_of progress.old in
        let tokens = tokens_of tag.now in
        let meant = spec.including (next (begin false tokens)) in
        Becomes (option_and_then (spec.taken max_tree_depth s tokens) meant) result progress.new }
{
    let mut ahead = tokens_after_first(tag, false);
    let start = ahead.start();
    let name = quoted_name(alloc, &mut ahead)?;
    let span = ahead.span(start);
    put(progress, Node::Include { name, span }, tag)
}

/// A tag that is one word and leaves a turn of the loop that it stands in.
fn leave<'s>(
    progress: &mut OpenStatements<'s>,
    tag: &[Token<'_>],
    word: &str,
    node: Node<'s>,
) -> Result<(), Refusal>
    ensures { let s = progress_of progress.old in
        let tokens = tokens_of tag.now in
        let meant = spec.leaving s.surroundings.may_leave word.now tokens (node_of node.entry) in
        Becomes (option_and_then (spec.taken max_tree_depth s tokens) meant) result progress.new }
{
    if !progress.surroundings.may_leave {
        return Err(refusal_of_tag(tag, Reason::NotOpen));
    }
    if !is_alone(word, tag) {
        return Err(refusal_of_tag(tag, Reason::TagGoesOn));
    }
    put(progress, node, tag)
}

/// Whether a word that begins a statement begins so and is this long. Ends are told from these by that.
#[inline]
fn may_begin(first: u8, size: usize) -> bool
    ensures { result ≡ spec.may_begin first size }
{
    match size {
        3 => first == b's',
        5 => first == b'b',
        6 => first == b'f',
        7 => first == b'i',
        8 | 9 => first == b'c',
        10 => first == b's',
        _ => false,
    }
}

/// The first byte of a text: 0 where it is empty.
fn first_byte(text: &str) -> u8
    ensures { result ≡ get_or text.now 0 0 }
{
    match text.as_bytes().first() {
        Some(b) => *b,
        None => 0,
    }
}

/// A tag that begins with this word. Components are defined outside of all statements.
#[tactic(auto, unfolding(crate::specs::Reader::named))]
pub(crate) fn statement_by_word<'s>(
    progress: &mut OpenStatements<'s>,
    alloc: Global,
    tag: &[Token<'s>],
    word: &str,
) -> Result<(), Refusal>
    ensures { let s = progress_of progress.old in
        let tokens = tokens_of tag.now in
        let meant = spec.named (spec.room max_tree_depth s) s.surroundings tokens word.now in
        Becomes (option_and_then (spec.taken max_tree_depth s tokens) meant) result progress.new }
{
    if !may_begin(first_byte(word), word.len()) {
        return progress.read_end(alloc, tag);
    }
    match word {
        "set" | "set_global" => set(progress, alloc, tag, word != "set"),
        "filter" => section(progress, alloc, tag),
        "block" => block(progress, alloc, tag),
        "component" => Err(refusal_of_tag(tag, Reason::OutOfPlace)),
        "include" => include(progress, alloc, tag),
        "break" => leave(progress, tag, "break", Node::Break),
        "continue" => leave(progress, tag, "continue", Node::Continue),
        _ => progress.read_end(alloc, tag),
    }
}
