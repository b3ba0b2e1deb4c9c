// What a piece of the text adds to what was read.
ghost use Rattle.std.specs.Prelude.{◌≡◌, ◌∷◌, [], IfSome};
ghost use Rattle.tera_syntax.specs.Reader as spec;
ghost use Rattle.tera_syntax.specs.View.{Becomes, heading_of, progress_of};
ghost use Rattle.tera_syntax_tokens.specs.Prelude.{Answers, piece_of, begin, next, input, token_of, tokens_of};
ghost use Rattle.tera_syntax_tree.specs.Depth.{max_tree_depth};
ghost use Rattle.tera_syntax_tree.specs.Prelude.{expr_of, filters_of, node_of};

use crate::components::call;
use crate::heads::{Head, first_kind};
use crate::open_statements::{OpenStatements, refusal_of_tag};
use crate::word_statements::statement_by_word;
use std::alloc::Global;
use tera_errors::Span;
use tera_syntax_expressions::expressions::expr;
use tera_syntax_expressions::filters::filters;
use tera_syntax_expressions::headings::{HeadingNames, names};
use tera_syntax_expressions::precedence;
use tera_syntax_tokens::cut::{Piece, is_alone};
use tera_syntax_tokens::refusal::{Reason, Refusal};
use tera_syntax_tokens::token::{Kind, Token};
use tera_syntax_tokens::tokens::Tokens;
use tera_syntax_tree::{Expression, Heading, Node, SectionFilter};

/// An expression that is all from here to the end of the tag.
#[tactic(auto, unfolding(crate::specs::Reader::whole))]
pub(crate) fn whole_expression<'s>(
    alloc: Global,
    tokens: &mut Tokens<'_, 's>,
    limit: usize,
) -> Result<Expression<'s>, Refusal>
    ensures { Answers expr_of (spec.whole limit (input tokens.old)) result }
{
    let value = expr(alloc, tokens, limit, precedence::CHOICE)?;
    if tokens.kind() == Kind::End {
        Ok(value.expression)
    } else {
        Err(tokens.refuse(Reason::TagGoesOn))
    }
}

/// Filters that are all from here to the end of the tag.
#[tactic(auto, unfolding(crate::specs::Reader::pipe))]
pub(crate) fn pipe<'s>(
    alloc: Global,
    tokens: &mut Tokens<'_, 's>,
    limit: usize,
) -> Result<Vec<SectionFilter<'s>>, Refusal>
    ensures { Answers (λ fs. filters_of fs.items) (spec.pipe limit (input tokens.old)) result }
{
    let (filters, _depth) = filters(alloc, tokens, limit)?;
    if tokens.kind() == Kind::End {
        Ok(filters)
    } else {
        Err(tokens.refuse(Reason::TagGoesOn))
    }
}

/// What stands behind `for`.
fn heading<'s>(
    alloc: Global,
    tokens: &mut Tokens<'_, 's>,
    limit: usize,
) -> Result<Box<Heading<'s>>, Refusal>
    ensures { Answers (λ b. heading_of b.value) (spec.looping limit (input tokens.old)) result }
{
    let HeadingNames { key, name } = names(tokens)?;
    let target = whole_expression(alloc, tokens, limit)?;
    Ok(Box::new(alloc, Heading { key, name, target })?)
}

/// What stands behind the first token of a tag.
pub(crate) fn tokens_after_first<'t, 's>(tag: &'t [Token<'s>], in_loop: bool) -> Tokens<'t, 's>
    ensures { input result ≡ next (begin in_loop (tokens_of tag.now)) }
{
    let mut ahead = Tokens::begin(tag, in_loop);
    ahead.take();
    ahead
}

/// Puts a node behind those that were read.
pub(crate) fn put<'s>(
    progress: &mut OpenStatements<'s>,
    node: Node<'s>,
    tag: &[Token<'_>],
) -> Result<(), Refusal>
    ensures { Becomes (spec.put max_tree_depth (progress_of progress.old) (node_of node.entry))
        result progress.new }
{
    if !progress.has_room() {
        return Err(refusal_of_tag(tag, Reason::TooDeep));
    }
    progress.add(node)
}

/// A statement, or a tag that belongs to one.
#[tactic(auto, unfolding(crate::specs::Reader::statement, crate::specs::Reader::tag))]
fn statement<'s>(
    progress: &mut OpenStatements<'s>,
    alloc: Global,
    tag: &[Token<'s>],
) -> Result<(), Refusal>
    ensures { let so_far = progress_of progress.old in
        let meant = spec.statement max_tree_depth so_far (tokens_of tag.now) in
        Becomes meant result progress.new }
{
    match first_kind(tag) {
        Kind::If => {
            let mut ahead = tokens_after_first(tag, progress.surroundings.in_loop);
            let condition = whole_expression(alloc, &mut ahead, progress.room())?;
            let condition = Box::new(alloc, condition)?;
            progress.open(alloc, false, Head::If(condition), tag)
        }
        Kind::For => {
            let mut ahead = tokens_after_first(tag, progress.surroundings.in_loop);
            let heading = heading(alloc, &mut ahead, progress.room())?;
            progress.open(alloc, false, Head::For(heading), tag)
        }
        Kind::Elif => {
            let mut ahead = tokens_after_first(tag, progress.outer_surroundings().in_loop);
            let condition = whole_expression(alloc, &mut ahead, progress.room())?;
            let condition = Box::new(alloc, condition)?;
            progress.read_elif(alloc, tag)?;
            progress.open(alloc, true, Head::If(condition), tag)
        }
        Kind::Else if is_alone("else", tag) => progress.read_else(alloc, tag),
        Kind::Less => call(progress, alloc, tag),
        Kind::Name => {
            let word = Tokens::begin(tag, false).text();
            statement_by_word(progress, alloc, tag, word)
        }
        _ => Err(refusal_of_tag(tag, Reason::NoStatement)),
    }
}

fn put_words<'s>(
    progress: &mut OpenStatements<'s>,
    text: &'s str,
    span: Span,
) -> Result<(), Refusal>
    ensures { let meant = spec.put_words max_tree_depth (progress_of progress.old) text.now span in
        Becomes meant result progress.new }
{
    if text.is_empty() {
        return Ok(());
    }
    if !progress.has_room() {
        return Err(Refusal::Syntax(Reason::TooDeep, span));
    }
    progress.add(Node::Content { text, span })
}

/// The token of a tag that is one name and nothing else.
#[inline(always)]
fn lone_name<'s>(tag: &[Token<'s>]) -> Option<Token<'s>>
    ensures only { IfSome result (λ t. tokens_of tag.now ≡ token_of t ∷ []) }
    ensures name { IfSome result (λ t. t.kind ≡ Kind.Name) }
{
    match tag {
        [token] => match token.kind {
            Kind::Name => Some(*token),
            _ => None,
        },
        _ => None,
    }
}

/// `{{ value }}`. No box is made for a name alone.
fn print<'s>(
    progress: &mut OpenStatements<'s>,
    alloc: Global,
    tag: &[Token<'s>],
) -> Result<(), Refusal>
    ensures { let s = progress_of progress.old in
        let tokens = tokens_of tag.now in
        let value = spec.whole (spec.room max_tree_depth s) (begin s.surroundings.in_loop tokens) in
        Becomes (spec.printed max_tree_depth s value) result progress.new }
{
    match lone_name(tag) {
        Some(token) if progress.room() > 0 => progress.add(Node::PrintName {
            name: token.text,
            span: token.span,
        }),
        _ => {
            let mut ahead = Tokens::begin(tag, progress.surroundings.in_loop);
            let value = whole_expression(alloc, &mut ahead, progress.room())?;
            progress.add(Node::Print { value })
        }
    }
}

/// Takes a piece more to what was read. The tokens are those of a tag.
pub(crate) fn step<'s>(
    progress: &mut OpenStatements<'s>,
    alloc: Global,
    piece: Piece<'s>,
    tokens: &[Token<'s>],
) -> Result<(), Refusal>
    ensures { let meant = piece_of tokens.now piece.entry in
        Becomes (spec.step max_tree_depth (progress_of progress.old) meant) result progress.new }
{
    match piece {
        Piece::Words(text, span) => put_words(progress, text, span),
        Piece::Comment => Ok(()),
        Piece::Variable => print(progress, alloc, tokens),
        Piece::Block => statement(progress, alloc, tokens),
    }
}
