// Arguments of a call that may have many.
ghost use Rattle.std.specs.Prelude.{◌≡◌, IfOk};
ghost use Rattle.std.specs.BTreeMap.{IsOrdered};
ghost use Rattle.tera_syntax_tree.specs.Prelude.{NoArguments, arguments_of};
ghost use Rattle.tera_syntax_tokens.specs.Prelude.{Takes, input};
ghost use Rattle.tera_syntax_expressions.specs.Expressions as spec;
ghost use Rattle.tera_syntax_expressions.specs.Parts.{FollowsRow, Nests, by_name, named_arguments};

use crate::arguments::argument_name;
use crate::comma_lists::{between_commas, take_comma};
use crate::expressions::{Depth, Read, ReadExpression, ReadRow};
use crate::precedence;
use crate::reader::Reader;
use std::alloc::{AllocError, Global};
use std::collections::BTreeMap;
use tera_syntax_tokens::refusal::{Reason, Refusal};
use tera_syntax_tokens::token::Kind;
use tera_syntax_tokens::tokens::Tokens;
use tera_syntax_tree::{Argument, Expression};

/// The values of arguments by their names, in byte order of these.
type ByName<'s> = BTreeMap<&'s str, Expression<'s>>;

impl<'s, F: Fn(Global, &mut Tokens<'_, 's>, usize, u8) -> Read<'s>> Reader<F> {
    /// Arguments with commas between, up to a parenthesis, and the greatest depth. To find the place of one takes few steps,
    /// however many there are and in whatever order they stand.
    #[inline(never)]
    #[tactic(auto, using(crate::proofs::Placed::arguments_once), unfolding(crate::specs::Expressions::arguments_from))]
    pub(crate) fn many_arguments(&self, tokens: &mut Tokens<'_, 's>) -> ReadRow<Argument<'s>>
        requires { Nests self.now.below (F.pre self.now.expr) (F.post self.now.expr) }
        ensures { FollowsRow arguments_of spec.arguments_from NoArguments self.now
            tokens.old result tokens.new }
    {
        let mut found = BTreeMap::new(self.alloc);
        let mut depth = 0;
        between_commas!(tokens, Kind::RightParenthesis, self.argument_by_name(tokens, &mut found);
            x => depth = depth.max(x); (arguments_by_name(self.alloc, found)?, depth))
    }

    /// An argument, put among those that were read, and its depth.
    #[inline(always)]
    #[tactic(auto, unfolding(crate::specs::Expressions::argument))]
    fn argument_by_name(&self, tokens: &mut Tokens<'_, 's>, found: &mut ByName<'s>) -> Depth
        requires nests { Nests self.now.below (F.pre self.now.expr) (F.post self.now.expr) }
        requires ordered { IsOrdered by_name found.old }
        ensures value { let meant = spec.argument self.now.limit (spec.expr self.now.below)
            (named_arguments found.old.entries) in
            Takes (λ d. (named_arguments found.new.entries, d)) (meant (input tokens.old)) result
            tokens.new }
        ensures ordered { IsOrdered by_name found.new }
    {
        let name = tokens.text();
        if found.contains_key(&name) {
            return Err(tokens.refuse(Reason::ArgumentTwice));
        }
        match argument_name(tokens) {
            Ok(()) => {}
            Err(refusal) => return Err(refusal),
        }
        let x = match self.sub(tokens, precedence::CHOICE) {
            Ok(x) => x,
            Err(refusal) => return Err(refusal),
        };
        found.insert(name, x.expression)?;
        Ok(x.depth)
    }
}

/// The arguments, in the order of their names.
fn arguments_by_name<'s>(alloc: Global, found: ByName<'s>) -> Result<Vec<Argument<'s>>, AllocError>
    ensures { IfOk result (λ all. arguments_of all.items ≡ named_arguments found.entry.entries) }
{
    let mut all = Vec::with_capacity(alloc, found.len())?;
    for (name, value) in found {
        all.push(Argument { name, value })?;
    }
    Ok(all)
}
