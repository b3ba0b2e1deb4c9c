// Values that are written out.
ghost use Rattle.std.specs.Prelude.{◌≡◌, IfOk};
ghost use Rattle.tera_syntax_tree.specs.Prelude.{literal_entries_of, literal_of, literals_of, written_of, written_option};
ghost use Rattle.tera_syntax_tokens.specs.Prelude.{kind, Takes, input};
ghost use Rattle.tera_syntax_expressions.specs.Literals as spec;

use crate::collections::key_at;
use crate::comma_lists::{between_commas, take_comma};
use std::alloc::{AllocError, Global};
use tera_syntax_tokens::literal::{integer, literal};
use tera_syntax_tokens::refusal::{Reason, Refusal};
use tera_syntax_tokens::token::Kind;
use tera_syntax_tokens::tokens::Tokens;
use tera_syntax_tree::{Literal, LiteralEntry, LiteralKey};

/// A value that is written out, no deeper than `limit`.
#[cycle(written_value)]
pub(crate) fn written_value<'s>(
    alloc: Global,
    tokens: &mut Tokens<'_, 's>,
    limit: usize,
) -> Result<Literal<'s>, Refusal>
    ensures { Takes written_of (spec.written limit (input tokens.old)) result tokens.new }
{
    if limit == 0 {
        return Err(tokens.refuse(Reason::TooDeep));
    }
    with_parts(alloc, tokens, limit - 1)
}

/// A value whose parts are no deeper than `limit`.
#[cycle(written_value)]
fn with_parts<'s>(
    alloc: Global,
    tokens: &mut Tokens<'_, 's>,
    limit: usize,
) -> Result<Literal<'s>, Refusal>
    ensures { let i = input tokens.old in
        Takes written_of (spec.written_by (spec.written limit) (kind i) i) result tokens.new }
{
    match tokens.kind() {
        Kind::LeftBracket => {
            tokens.take();
            let items = items(alloc, tokens, limit)?;
            Ok(Literal::array(items))
        }
        Kind::LeftBrace => {
            tokens.take();
            let entries = entries(alloc, tokens, limit)?;
            Ok(Literal::map(entries))
        }
        Kind::Minus => {
            tokens.take();
            negative_integer(tokens)
        }
        _ => plain_literal(alloc, tokens),
    }
}

/// Values with commas between, up to a bracket.
#[cycle(written_value)]
fn items<'s>(
    alloc: Global,
    tokens: &mut Tokens<'_, 's>,
    limit: usize,
) -> Result<Vec<Literal<'s>>, Refusal>
    ensures { let meant = spec.written_items (spec.written limit) (input tokens.old) in
        Takes (λ all. literals_of all.items) meant result tokens.new }
{
    let mut found = Vec::new(alloc);
    between_commas!(tokens, Kind::RightBracket, item(alloc, tokens, limit, &mut found);
        _done => (); found)
}

/// A value, behind those that were read.
#[cycle(written_value)]
fn item<'s>(
    alloc: Global,
    tokens: &mut Tokens<'_, 's>,
    limit: usize,
    found: &mut Vec<Literal<'s>>,
) -> Result<(), Refusal>
    ensures { let meant = spec.written_item (spec.written limit) (literals_of found.old.items) in
        Takes (λ done. literals_of found.new.items) (meant (input tokens.old)) result tokens.new }
{
    let value = match written_value(alloc, tokens, limit) {
        Ok(value) => value,
        Err(refusal) => return Err(refusal),
    };
    found.push(value)?;
    Ok(())
}

/// Entries with commas between, up to a brace.
#[cycle(written_value)]
fn entries<'s>(
    alloc: Global,
    tokens: &mut Tokens<'_, 's>,
    limit: usize,
) -> Result<Vec<LiteralEntry<'s>>, Refusal>
    ensures { let meant = spec.written_entries (spec.written limit) (input tokens.old) in
        Takes (λ all. literal_entries_of all.items) meant result tokens.new }
{
    let mut found = Vec::new(alloc);
    between_commas!(tokens, Kind::RightBrace, entry(alloc, tokens, limit, &mut found);
        _done => (); found)
}

/// An entry, behind those that were read.
#[cycle(written_value)]
fn entry<'s>(
    alloc: Global,
    tokens: &mut Tokens<'_, 's>,
    limit: usize,
    found: &mut Vec<LiteralEntry<'s>>,
) -> Result<(), Refusal>
    ensures { let before = literal_entries_of found.old.items in
        let meant = spec.written_entry (spec.written limit) before (input tokens.old) in
        Takes (λ done. literal_entries_of found.new.items) meant result tokens.new }
{
    let key = match key(alloc, tokens) {
        Ok(key) => key,
        Err(refusal) => return Err(refusal),
    };
    let value = match written_value(alloc, tokens, limit) {
        Ok(value) => value,
        Err(refusal) => return Err(refusal),
    };
    found.push(LiteralEntry { key, value })?;
    Ok(())
}

/// Takes the key of an entry and its colon.
#[tactic(auto, unfolding(crate::specs::Literals::written_key))]
fn key<'s>(alloc: Global, tokens: &mut Tokens<'_, 's>) -> Result<LiteralKey<'s>, Refusal>
    ensures { Takes literal_of (spec.written_key (input tokens.old)) result tokens.new }
{
    match key_at(alloc, tokens)? {
        Some(key) => {
            tokens.take();
            tokens.expect(Kind::Colon)?;
            Ok(key)
        }
        None => Err(tokens.refuse(Reason::NoLiteral)),
    }
}

/// An integer behind a minus.
#[tactic(auto, unfolding(crate::specs::Literals::negative))]
fn negative_integer<'s>(tokens: &mut Tokens<'_, 's>) -> Result<Literal<'s>, Refusal>
    ensures { Takes written_of (spec.negative (input tokens.old)) result tokens.new }
{
    if tokens.kind() != Kind::Int {
        return Err(tokens.refuse(Reason::NoLiteral));
    }
    match integer(tokens.text()) {
        Some(value) => {
            tokens.take();
            Ok(Literal::Int(-value))
        }
        None => Err(tokens.refuse(Reason::LargeInteger)),
    }
}

/// A constant, an integer or a text.
fn plain_literal<'s>(alloc: Global, tokens: &mut Tokens<'_, 's>) -> Result<Literal<'s>, Refusal>
    ensures { let i = input tokens.old in
        Takes written_of (spec.literal_at (spec.plain_at i) i) result tokens.new }
{
    match plain_literal_at(alloc, tokens)? {
        Some(value) => {
            tokens.take();
            Ok(value)
        }
        None => Err(tokens.refuse(Reason::NoLiteral)),
    }
}

/// The constant, integer or text that the next token is.
#[tactic(auto, unfolding(crate::specs::Literals::plain_at))]
fn plain_literal_at<'s>(
    alloc: Global,
    tokens: &Tokens<'_, 's>,
) -> Result<Option<Literal<'s>>, AllocError>
    ensures { IfOk result (λ o. written_option o ≡ spec.plain_at (input tokens.now)) }
{
    match tokens.kind() {
        Kind::Nothing => Ok(Some(Literal::None)),
        Kind::True => Ok(Some(Literal::Bool(true))),
        Kind::False => Ok(Some(Literal::Bool(false))),
        Kind::Int => match integer(tokens.text()) {
            Some(value) => Ok(Some(Literal::Int(value))),
            None => Ok(None),
        },
        Kind::Text => match literal(alloc, tokens.text())? {
            Some(text) => Ok(Some(Literal::Text(text))),
            None => Ok(None),
        },
        _ => Ok(None),
    }
}
