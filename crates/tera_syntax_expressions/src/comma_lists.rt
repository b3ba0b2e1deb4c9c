// Rows of parts with commas between.
ghost use Rattle.tera_syntax_tokens.specs.Prelude.{Takes, input};
ghost use Rattle.tera_syntax_expressions.specs.CommaLists.{comma_or};

use tera_syntax_tokens::refusal::Refusal;
use tera_syntax_tokens::token::Kind;
use tera_syntax_tokens::tokens::Tokens;

/// Parts with commas between, and one behind the last at will, up to the token that closes: what is made of all that were found.
/// Each round reads a part, puts it among the others and keeps what else it told.
macro_rules! between_commas {
    ($tokens:ident, $closing:expr, $read:expr; $told:ident => $keep:expr; $made:expr) => {{
        for _round in 0..$tokens.count_left() {
            if $tokens.kind() == $closing {
                $tokens.take();
                return Ok($made);
            }
            let $told = match $read {
                Ok($told) => $told,
                Err(refusal) => return Err(refusal),
            };
            $keep;
            match take_comma($tokens, $closing) {
                Ok(true) => {}
                Ok(false) => return Ok($made),
                Err(refusal) => return Err(refusal),
            }
        }
        Err($tokens.refuse(Reason::Expected($closing)))
    }};
}

pub(crate) use between_commas;

/// Takes the comma behind a part, and otherwise what closes: whether it was a comma.
#[inline(always)]
#[tactic(auto, unfolding(crate::specs::CommaLists::comma_or))]
pub(crate) fn take_comma(tokens: &mut Tokens<'_, '_>, closing: Kind) -> Result<bool, Refusal>
    ensures { Takes (λ more. more) (comma_or closing (input tokens.old)) result tokens.new }
{
    if tokens.kind() == Kind::Comma {
        tokens.take();
        return Ok(true);
    }
    tokens.expect(closing)?;
    Ok(false)
}
