// Filters of what a body puts out, as the head of a section has them.
ghost use Rattle.tera_syntax_tree.specs.Prelude.{NoFilters, filters_of};
ghost use Rattle.tera_syntax_tokens.specs.Prelude.{Takes, input};
ghost use Rattle.tera_syntax_expressions.specs.Expressions as spec;
ghost use Rattle.tera_syntax_expressions.specs.Parts.{FollowsRow, Nests, TakesPart};

use crate::expressions::{Depth, Read, ReadExpression, ReadRow, expr};
use crate::reader::{Reader, reader_within};
use std::alloc::Global;
use tera_syntax_tokens::refusal::{Reason, Refusal};
use tera_syntax_tokens::token::Kind;
use tera_syntax_tokens::tokens::{Tokens, is_word};
use tera_syntax_tree::SectionFilter;

/// Filters with bars between, no deeper than `limit`, and the greatest depth.
#[tactic(auto, unfolding(crate::specs::Expressions::filters))]
pub fn filters<'s>(
    alloc: Global,
    tokens: &mut Tokens<'_, 's>,
    limit: usize,
) -> ReadRow<SectionFilter<'s>>
    ensures { let meant = spec.filters limit (input tokens.old) in
        Takes (λ p. (filters_of p.0.items, p.1)) meant result tokens.new }
{
    let reader = reader_within!(limit, alloc, tokens, expr);
    reader.filters(tokens)
}

impl<'s, F: Fn(Global, &mut Tokens<'_, 's>, usize, u8) -> Read<'s>> Reader<F> {
    /// Filters with bars between, and the greatest depth.
    #[tactic(auto, unfolding(crate::specs::Expressions::filters_from))]
    fn filters(&self, tokens: &mut Tokens<'_, 's>) -> ReadRow<SectionFilter<'s>>
        requires { Nests self.now.below (F.pre self.now.expr) (F.post self.now.expr) }
        ensures { FollowsRow filters_of spec.filters_from NoFilters self.now
            tokens.old result tokens.new }
    {
        let (mut found, mut depth) = (Vec::new(self.alloc), 0usize);
        for _round in 0..tokens.count_left() {
            let x = match self.section_filter(tokens, &mut found) {
                Ok(x) => x,
                Err(refusal) => return Err(refusal),
            };
            depth = depth.max(x);
            if tokens.kind() != Kind::Bar {
                return Ok((found, depth));
            }
            tokens.take();
        }
        Err(tokens.refuse(Reason::Expected(Kind::Name)))
    }

    /// A filter, behind those that were read, and its depth.
    #[tactic(auto, unfolding(crate::specs::Expressions::section_filter))]
    fn section_filter(
        &self,
        tokens: &mut Tokens<'_, 's>,
        found: &mut Vec<SectionFilter<'s>>,
    ) -> Depth
        requires { Nests self.now.below (F.pre self.now.expr) (F.post self.now.expr) }
        ensures { let meant = spec.section_filter self.now.limit (spec.expr self.now.below) in
            TakesPart filters_of meant found.old found.new (input tokens.old) result tokens.new }
    {
        if !is_word(tokens.kind()) {
            return Err(tokens.refuse(Reason::Expected(Kind::Name)));
        }
        let start = tokens.start();
        let name = tokens.text();
        tokens.take();
        let (arguments, depth) = match self.optional_arguments(tokens) {
            Ok(given) => given,
            Err(refusal) => return Err(refusal),
        };
        if depth >= self.limit {
            return Err(tokens.refuse(Reason::TooDeep));
        }
        found.push(SectionFilter {
            name,
            arguments,
            span: tokens.span(start),
        })?;
        Ok(depth + 1)
    }
}
