// Arrays and maps.
ghost use Rattle.std.specs.Prelude.{◌≡◌, IfOk};
ghost use Rattle.tera_syntax_tree.specs.Prelude.{NoEntries, items_of, entries_of, literal_option};
ghost use Rattle.tera_syntax_tokens.specs.Prelude.{kind, left, same, Takes, input};
ghost use Rattle.tera_syntax_expressions.specs.Expressions as spec;
ghost use Rattle.tera_syntax_expressions.specs.Keys.{key_at};
ghost use Rattle.tera_syntax_expressions.specs.Parts.{FollowsRow, TakesItem, TakesEntry, Nests, deep_of};
ghost use Rattle.tera_syntax_expressions.specs.Precedence as precedence;

use crate::comma_lists::{between_commas, take_comma};
use crate::expressions::{Depth, Read, ReadExpression, ReadRow};
use crate::precedence;
use crate::reader::{Reader, read};
use std::alloc::{AllocError, Global};
use tera_syntax_tokens::literal::{integer, literal};
use tera_syntax_tokens::refusal::{Reason, Refusal};
use tera_syntax_tokens::token::Kind;
use tera_syntax_tokens::tokens::Tokens;
use tera_syntax_tree::{EntryExpression, Expression, Item, LiteralKey};

impl<'s, F: Fn(Global, &mut Tokens<'_, 's>, usize, u8) -> Read<'s>> Reader<F> {
    /// What stands behind a bracket: an array, or a comprehension where `for` follows the first expression.
    #[inline(never)]
    #[tactic(auto, unfolding(crate::specs::Expressions::brackets))]
    pub(crate) fn brackets(&self, tokens: &mut Tokens<'_, 's>, start: usize) -> Read<'s>
        requires { Nests self.now.below (F.pre self.now.expr) (F.post self.now.expr) }
        ensures { let meant = spec.brackets self.now.limit (spec.expr self.now.below) start in
            Takes deep_of (meant (input tokens.old)) result tokens.new }
    {
        if tokens.kind() == Kind::RightBracket {
            tokens.take();
            let expression = Expression::array(Vec::new(self.alloc), tokens.span(start));
            return self.node(tokens, 0, expression);
        }
        let is_spread = take_dots(tokens);
        let mut x = read!(self.sub(tokens, precedence::CHOICE));
        if !is_spread && tokens.kind() == Kind::For {
            self.comprehension(tokens, start, &mut x)?;
            return Ok(x);
        }
        self.array(tokens, start, is_spread, x)
    }

    /// An array, from behind its first item.
    #[inline(always)]
    #[tactic(auto, unfolding(crate::specs::Expressions::array))]
    fn array(
        &self,
        tokens: &mut Tokens<'_, 's>,
        start: usize,
        is_spread: bool,
        x: ReadExpression<'s>,
    ) -> Read<'s>
        requires { Nests self.now.below (F.pre self.now.expr) (F.post self.now.expr) }
        ensures { let rule = spec.array self.now.limit (spec.expr self.now.below) in
            let meant = rule start is_spread (deep_of x.entry) in
            Takes deep_of (meant (input tokens.old)) result tokens.new }
    {
        let mut found = Vec::new(self.alloc);
        let depth = x.depth;
        found.push(Item {
            is_spread,
            value: x.expression,
        })?;
        let (items, depth) = self.items_after_first(tokens, found, depth)?;
        let expression = Expression::array(items, tokens.span(start));
        self.node(tokens, depth, expression)
    }

    /// All items, from behind the first, and the greatest depth.
    #[inline(always)]
    #[tactic(auto, unfolding(crate::specs::Expressions::items_after_first))]
    pub(crate) fn items_after_first(
        &self,
        tokens: &mut Tokens<'_, 's>,
        found: Vec<Item<'s>>,
        depth: usize,
    ) -> ReadRow<Item<'s>>
        requires { Nests self.now.below (F.pre self.now.expr) (F.post self.now.expr) }
        ensures { let meant = spec.items_after_first self.now.limit (spec.expr self.now.below)
            (items_of found.entry.items) depth in
            Takes (λ p. (items_of p.0.items, p.1)) (meant (input tokens.old)) result tokens.new }
    {
        if tokens.kind() == Kind::Comma {
            tokens.take();
            return self.items(tokens, found, depth);
        }
        tokens.expect(Kind::RightBracket)?;
        Ok((found, depth))
    }

    /// Items with commas between, up to a bracket, behind those that were read.
    #[inline(always)]
    #[tactic(auto, unfolding(crate::specs::Expressions::items_from))]
    fn items(
        &self,
        tokens: &mut Tokens<'_, 's>,
        all: Vec<Item<'s>>,
        depth: usize,
    ) -> ReadRow<Item<'s>>
        requires { Nests self.now.below (F.pre self.now.expr) (F.post self.now.expr) }
        ensures { let meant = spec.items_from self.now.limit (spec.expr self.now.below)
            (left (input tokens.old)) (items_of all.entry.items) depth in
            Takes (λ p. (items_of p.0.items, p.1)) (meant (input tokens.old)) result tokens.new }
    {
        let mut found = all;
        let mut depth = depth;
        between_commas!(tokens, Kind::RightBracket, self.item(tokens, &mut found);
            x => depth = depth.max(x); (found, depth))
    }

    /// An item, behind those that were read, and its depth.
    #[inline(always)]
    fn item(&self, tokens: &mut Tokens<'_, 's>, found: &mut Vec<Item<'s>>) -> Depth
        requires { Nests self.now.below (F.pre self.now.expr) (F.post self.now.expr) }
        ensures { let here = input tokens.old in
            TakesItem (spec.expr self.now.below precedence.choice (spec.behind_dots here))
            (same Kind.Spread (kind here))
            found.old.items found.new.items result tokens.new }
    {
        let is_spread = take_dots(tokens);
        let x = self.sub(tokens, precedence::CHOICE)?;
        found.push(Item {
            is_spread,
            value: x.expression,
        })?;
        Ok(x.depth)
    }

    /// `{"key": x, ..}`
    #[inline(never)]
    #[tactic(auto, unfolding(crate::specs::Expressions::map))]
    pub(crate) fn map(&self, tokens: &mut Tokens<'_, 's>) -> Read<'s>
        requires { Nests self.now.below (F.pre self.now.expr) (F.post self.now.expr) }
        ensures { Takes deep_of (spec.map self.now.limit (spec.expr self.now.below)
            (input tokens.old)) result tokens.new }
    {
        let start = tokens.start();
        tokens.take();
        let (entries, depth) = self.entries(tokens)?;
        let expression = Expression::map(entries, tokens.span(start));
        self.node(tokens, depth, expression)
    }

    /// Entries with commas between, up to a brace, and the greatest depth.
    #[inline(always)]
    #[tactic(auto, unfolding(crate::specs::Expressions::entries_from))]
    fn entries(&self, tokens: &mut Tokens<'_, 's>) -> ReadRow<EntryExpression<'s>>
        requires { Nests self.now.below (F.pre self.now.expr) (F.post self.now.expr) }
        ensures { FollowsRow entries_of spec.entries_from NoEntries self.now
            tokens.old result tokens.new }
    {
        let mut found = Vec::new(self.alloc);
        let mut depth = 0;
        between_commas!(tokens, Kind::RightBrace, self.entry(tokens, &mut found);
            x => depth = depth.max(x); (found, depth))
    }

    /// An entry, behind those that were read, and its depth.
    #[inline(always)]
    fn entry(&self, tokens: &mut Tokens<'_, 's>, found: &mut Vec<EntryExpression<'s>>) -> Depth
        requires { Nests self.now.below (F.pre self.now.expr) (F.post self.now.expr) }
        ensures { let expr = spec.expr self.now.below precedence.choice in
            TakesEntry (spec.entry_key (input tokens.old)) expr
            found.old.items found.new.items result tokens.new }
    {
        let key = match entry_key(self.alloc, tokens) {
            Ok(key) => key,
            Err(refusal) => return Err(refusal),
        };
        let x = match self.sub(tokens, precedence::CHOICE) {
            Ok(x) => x,
            Err(refusal) => return Err(refusal),
        };
        found.push(EntryExpression {
            key,
            value: x.expression,
        })?;
        Ok(x.depth)
    }
}

/// Takes the key of an entry and its colon, or the dots of a map that is spread.
#[tactic(auto, unfolding(crate::specs::Expressions::entry_key))]
pub(crate) fn entry_key<'s>(
    alloc: Global,
    tokens: &mut Tokens<'_, 's>,
) -> Result<Option<LiteralKey<'s>>, Refusal>
    ensures { Takes literal_option (spec.entry_key (input tokens.old)) result tokens.new }
{
    if tokens.kind() == Kind::Spread {
        tokens.take();
        return Ok(None);
    }
    match key_at(alloc, tokens)? {
        Some(key) => {
            tokens.take();
            tokens.expect(Kind::Colon)?;
            Ok(Some(key))
        }
        None => Err(tokens.refuse(Reason::NoExpression)),
    }
}

/// The key that the next token is: a text, an integer, true or false.
#[tactic(auto, unfolding(crate::specs::Keys::key_at))]
pub(crate) fn key_at<'s>(
    alloc: Global,
    tokens: &Tokens<'_, 's>,
) -> Result<Option<LiteralKey<'s>>, AllocError>
    ensures { IfOk result (λ o. literal_option o ≡ key_at (input tokens.now)) }
{
    match tokens.kind() {
        Kind::Text => match literal(alloc, tokens.text())? {
            Some(text) => Ok(Some(LiteralKey::Text(text))),
            None => Ok(None),
        },
        Kind::Int => match integer(tokens.text()) {
            Some(value) => Ok(Some(LiteralKey::Int(value))),
            None => Ok(None),
        },
        Kind::True => Ok(Some(LiteralKey::Bool(true))),
        Kind::False => Ok(Some(LiteralKey::Bool(false))),
        _ => Ok(None),
    }
}

/// Takes the dots of an item that is spread.
pub(crate) fn take_dots(tokens: &mut Tokens<'_, '_>) -> bool
    ensures value { result ≡ same Kind.Spread (kind (input tokens.old)) }
    ensures rest { input tokens.new ≡ spec.behind_dots (input tokens.old) }
{
    if tokens.kind() == Kind::Spread {
        tokens.take();
        true
    } else {
        false
    }
}
