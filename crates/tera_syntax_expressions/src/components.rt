// Components that are called, and their attributes.
ghost use Rattle.std.specs.Prelude.{◌≡◌};
ghost use Rattle.tera_syntax_tree.specs.Prelude.{NoEntries, entries_of};
ghost use Rattle.tera_syntax_tokens.specs.Prelude.{Takes, input};
ghost use Rattle.tera_syntax_expressions.specs.Arguments as call;
ghost use Rattle.tera_syntax_expressions.specs.Expressions as spec;
ghost use Rattle.tera_syntax_expressions.specs.Parts.{Follows, FollowsRow, Nests, TakesPart, deep_of};

use crate::arguments::argument_name;
use crate::expressions::{Depth, Read, ReadExpression, ReadRow, expr};
use crate::precedence;
use crate::reader::{Reader, read};
use std::alloc::Global;
use tera_syntax_tokens::literal::literal;
use tera_syntax_tokens::refusal::{Reason, Refusal};
use tera_syntax_tokens::token::Kind;
use tera_syntax_tokens::tokens::{Tokens, is_word};
use tera_syntax_tree::{ComponentTag, EntryExpression, Expression, LiteralKey, Quoted};

/// Attributes up to where none begins, no deeper than `limit`, and the greatest depth.
#[tactic(auto, unfolding(crate::specs::Expressions::attributes))]
pub fn attributes<'s>(
    alloc: Global,
    tokens: &mut Tokens<'_, 's>,
    limit: usize,
) -> ReadRow<EntryExpression<'s>>
    ensures { let meant = spec.attributes limit (input tokens.old) in
        Takes (λ p. (entries_of p.0.items, p.1)) meant result tokens.new }
{
    let reader = Reader {
        alloc,
        limit,
        below: limit,
        expr,
    };
    let (found, depth) = reader.attributes(tokens)?;
    if depth > limit {
        return Err(tokens.refuse(Reason::TooDeep));
    }
    Ok((found, depth))
}

impl<'s, F: Fn(Global, &mut Tokens<'_, 's>, usize, u8) -> Read<'s>> Reader<F> {
    /// `<name attributes/>`
    #[inline(never)]
    #[tactic(auto, unfolding(crate::specs::Expressions::component))]
    pub(crate) fn component(&self, tokens: &mut Tokens<'_, 's>) -> Read<'s>
        requires { Nests self.now.below (F.pre self.now.expr) (F.post self.now.expr) }
        ensures { Follows deep_of spec.component self.now tokens.old result tokens.new }
    {
        let start = tokens.start();
        tokens.take();
        if !is_word(tokens.kind()) {
            return Err(tokens.refuse(Reason::Expected(Kind::Name)));
        }
        let name = tokens.text();
        tokens.take();
        let (attributes, depth) = self.attributes(tokens)?;
        self.component_of(tokens, start, name, attributes, depth)
    }

    /// A component whose attributes were read, up to its end.
    #[inline(always)]
    #[tactic(auto, unfolding(crate::specs::Expressions::component_of))]
    pub(crate) fn component_of(
        &self,
        tokens: &mut Tokens<'_, 's>,
        start: usize,
        name: &'s str,
        attributes: Vec<EntryExpression<'s>>,
        depth: usize,
    ) -> Read<'s>
        ensures { let all = entries_of attributes.entry.items in
            let reader = spec.component_of self.now.limit (spec.expr self.now.below) in
            let meant = reader start name.now all depth in
            Takes deep_of (meant (input tokens.old)) result tokens.new }
    {
        tokens.expect(Kind::TagEnd)?;
        let tag = Box::new(self.alloc, ComponentTag { name, attributes })?;
        self.node(
            tokens,
            depth,
            Expression::component(tag, tokens.span(start)),
        )
    }

    /// Attributes up to where none begins, and the greatest depth.
    #[inline(never)]
    #[tactic(auto, unfolding(crate::specs::Expressions::attributes_from))]
    pub(crate) fn attributes(&self, tokens: &mut Tokens<'_, 's>) -> ReadRow<EntryExpression<'s>>
        requires { Nests self.now.below (F.pre self.now.expr) (F.post self.now.expr) }
        ensures { FollowsRow entries_of spec.attributes_from NoEntries self.now
            tokens.old result tokens.new }
    {
        let (mut found, mut depth) = (Vec::new(self.alloc), 0usize);
        for _round in 0..tokens.count_left() {
            if !begins_attribute(tokens.kind()) {
                return Ok((found, depth));
            }
            let x = match self.any_attribute(tokens, &mut found) {
                Ok(x) => x,
                Err(refusal) => return Err(refusal),
            };
            depth = depth.max(x);
        }
        Ok((found, depth))
    }

    /// An attribute, behind those that were read, and its depth.
    #[inline(always)]
    #[tactic(auto, unfolding(crate::specs::Expressions::any_attribute))]
    fn any_attribute(
        &self,
        tokens: &mut Tokens<'_, 's>,
        found: &mut Vec<EntryExpression<'s>>,
    ) -> Depth
        requires { Nests self.now.below (F.pre self.now.expr) (F.post self.now.expr) }
        ensures { let meant = spec.any_attribute self.now.limit (spec.expr self.now.below) in
            TakesPart entries_of meant found.old found.new (input tokens.old) result tokens.new }
    {
        if tokens.kind() == Kind::LeftBrace {
            tokens.take();
            self.spread_attribute(tokens, found)
        } else {
            self.named_attribute(tokens, found)
        }
    }

    /// `name="text"` or `name={x}`
    #[inline(always)]
    #[tactic(auto, unfolding(crate::specs::Expressions::named_attribute))]
    fn named_attribute(
        &self,
        tokens: &mut Tokens<'_, 's>,
        found: &mut Vec<EntryExpression<'s>>,
    ) -> Depth
        requires { Nests self.now.below (F.pre self.now.expr) (F.post self.now.expr) }
        ensures { let meant = spec.named_attribute self.now.limit (spec.expr self.now.below) in
            TakesPart entries_of meant found.old found.new (input tokens.old) result tokens.new }
    {
        let name = tokens.text();
        match argument_name(tokens) {
            Ok(()) => {}
            Err(refusal) => return Err(refusal),
        }
        let x = match self.attribute_value(tokens) {
            Ok(x) => x,
            Err(refusal) => return Err(refusal),
        };
        let key = Some(LiteralKey::Text(Quoted::Lent(name)));
        let value = x.expression;
        found.push(EntryExpression { key, value })?;
        Ok(x.depth)
    }

    /// `{...x}`, from behind its brace.
    #[inline(always)]
    #[tactic(auto, unfolding(crate::specs::Expressions::spread_attribute))]
    fn spread_attribute(
        &self,
        tokens: &mut Tokens<'_, 's>,
        found: &mut Vec<EntryExpression<'s>>,
    ) -> Depth
        requires { Nests self.now.below (F.pre self.now.expr) (F.post self.now.expr) }
        ensures { let meant = spec.spread_attribute self.now.limit (spec.expr self.now.below) in
            TakesPart entries_of meant found.old found.new (input tokens.old) result tokens.new }
    {
        match tokens.expect(Kind::Spread) {
            Ok(()) => {}
            Err(refusal) => return Err(refusal),
        }
        let x = match self.braces(tokens) {
            Ok(x) => x,
            Err(refusal) => return Err(refusal),
        };
        let value = x.expression;
        found.push(EntryExpression { key: None, value })?;
        Ok(x.depth)
    }

    /// The value of an attribute: a text, or an expression in braces.
    #[inline(always)]
    #[tactic(auto, unfolding(crate::specs::Expressions::attribute_value))]
    pub(crate) fn attribute_value(&self, tokens: &mut Tokens<'_, 's>) -> Read<'s>
        requires { Nests self.now.below (F.pre self.now.expr) (F.post self.now.expr) }
        ensures { let meant = spec.attribute_value self.now.limit (spec.expr self.now.below) in
            Takes deep_of (meant (input tokens.old)) result tokens.new }
    {
        if tokens.kind() == Kind::LeftBrace {
            tokens.take();
            return self.braces(tokens);
        }
        if tokens.kind() != Kind::Text {
            return Err(tokens.refuse(Reason::Expected(Kind::Text)));
        }
        let start = tokens.start();
        match literal(self.alloc, tokens.text())? {
            Some(text) => {
                tokens.take();
                let span = tokens.span(start);
                Ok(ReadExpression {
                    expression: Expression::Text { text, span },
                    depth: 1,
                })
            }
            None => Err(tokens.refuse(Reason::NoExpression)),
        }
    }

    /// An expression that a brace closes.
    #[inline(always)]
    #[tactic(auto, unfolding(crate::specs::Expressions::braced))]
    pub(crate) fn braces(&self, tokens: &mut Tokens<'_, 's>) -> Read<'s>
        requires { Nests self.now.below (F.pre self.now.expr) (F.post self.now.expr) }
        ensures { let meant = spec.braced self.now.limit (spec.expr self.now.below) in
            Takes deep_of (meant (input tokens.old)) result tokens.new }
    {
        let x = read!(self.sub(tokens, precedence::CHOICE));
        tokens.expect(Kind::RightBrace)?;
        Ok(x)
    }
}

/// Whether an attribute begins with a token of this kind.
#[tactic(auto, unfolding(crate::specs::Arguments::begins_attribute))]
fn begins_attribute(kind: Kind) -> bool
    ensures { result ≡ call.begins_attribute kind }
{
    is_word(kind) || kind == Kind::LeftBrace
}
