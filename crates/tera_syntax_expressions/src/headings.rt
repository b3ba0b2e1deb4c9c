// What a loop calls its items.
ghost use Rattle.std.specs.Prelude.{option_copied};
ghost use Rattle.tera_syntax_tokens.specs.Prelude.{Takes, input};
ghost use Rattle.tera_syntax_expressions.specs.Headings as spec;
ghost use Rattle.tera_syntax_expressions.specs.Parts.{names_of};

use tera_syntax_tokens::refusal::{Reason, Refusal};
use tera_syntax_tokens::token::Kind;
use tera_syntax_tokens::tokens::Tokens;

/// What a loop calls its items, and their keys where it names them.
#[derive(Drop)]
pub struct HeadingNames<'s> {
    /// The key's name stands first in the text.
    pub key: Option<&'s str>,
    /// The value's.
    pub name: &'s str,
}

/// Takes the names of a loop and the `in` behind them.
#[tactic(auto, unfolding(crate::specs::Headings::calls, crate::specs::Headings::calls_behind))]
pub fn names<'s>(tokens: &mut Tokens<'_, 's>) -> Result<HeadingNames<'s>, Refusal>
    ensures { Takes names_of (spec.calls (input tokens.old)) result tokens.new }
{
    let first = name(tokens)?;
    if tokens.kind() != Kind::Comma {
        return finish_names(tokens, None, first);
    }
    tokens.take();
    let value = name(tokens)?;
    finish_names(tokens, Some(first), value)
}

/// What stands behind the last name.
#[tactic(auto, unfolding(crate::specs::Headings::called))]
fn finish_names<'s>(
    tokens: &mut Tokens<'_, 's>,
    key: Option<&'s str>,
    name: &'s str,
) -> Result<HeadingNames<'s>, Refusal>
    ensures { let meant = spec.called (option_copied key.entry) name.now in
        Takes names_of (meant (input tokens.old)) result tokens.new }
{
    tokens.expect(Kind::In)?;
    Ok(HeadingNames { key, name })
}

/// Takes a name.
#[tactic(auto, unfolding(crate::specs::Headings::name))]
pub(crate) fn name<'s>(tokens: &mut Tokens<'_, 's>) -> Result<&'s str, Refusal>
    ensures { Takes (λ t. t.now) (spec.name (input tokens.old)) result tokens.new }
{
    if tokens.kind() != Kind::Name {
        return Err(tokens.refuse(Reason::Expected(Kind::Name)));
    }
    let name = tokens.text();
    tokens.take();
    Ok(name)
}
