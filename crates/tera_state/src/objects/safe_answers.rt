// Answers that are marked safe.
ghost use Rattle.std.specs.Prelude.{Result};
ghost use Rattle.tera_errors.specs.Prelude.{Gives, Fault};
ghost use Rattle.tera_values.specs.Prelude.{Val};
ghost use Rattle.tera_state.specs.Calling.{answer_of};

use tera_values::{TeraResult, Value};

/// The answer, whose text is marked safe where that is said. A text is not copied.
pub(crate) fn mark_if(is_safe: bool, answer: TeraResult<Value>) -> TeraResult<Value>
    ensures { (meant : Result Val Fault) → Gives (λ v. v) answer meant →
        Gives (λ v. v) result (answer_of is_safe meant) }
{
    match answer {
        Ok(value) if is_safe => Ok(value.mark_safe()),
        answer => answer,
    }
}
