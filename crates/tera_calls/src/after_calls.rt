// The laws: what a rendering answers after a list of calls.
ghost use Rattle.std.specs.Prelude.{◌≡◌, IfOk, IfErr, OnErr, string_bytes};
ghost use Rattle.tera.specs.Prelude.{registry_of};
ghost use Rattle.tera.specs.Rendering.{AppendsOneOf};
ghost use Rattle.tera_calls.specs.Calls.{Leads};
ghost use Rattle.tera_calls.specs.Renders.{Rendered, Renders};
ghost use Rattle.tera_errors.specs.Prelude.{GivesOneOf, Lacks};
ghost use Rattle.tera_meaning.specs.Prelude.{IsAccepted};

use crate::call::{Call, make_calls};
use crate::object_types::ObjectTypes;
use crate::rendering::{EngineRendering, Rendering, render_call, render_call_to};
use std::alloc::Global;
use tera::{CallerObjects, Objects, Tera, TeraResult};

/// What a list of calls and the rendering behind it answered.
#[derive(Drop)]
pub struct CallsOutcome {
    /// What each call answered, in their order.
    pub answers: Vec<TeraResult<()>>,
    /// What the rendering answered.
    pub text: TeraResult<String>,
}

/// The same, where the text was appended to a vector.
#[derive(Drop)]
pub struct AppendedOutcome {
    /// What each call answered, in their order.
    pub answers: Vec<TeraResult<()>>,
    /// Whether the text was appended, or why not.
    pub appended: TeraResult<()>,
}

/// Makes the calls one after another, whether or not one is refused, and then the rendering. `Tera::new` makes the engine that has no template
/// and no objects yet.
///
/// This is the law of the engine: the rendering's answer is exactly the text, or the fault with its kind and, for a
/// `RenderingError`, its file and span, that the recursive meaning of the accepted templates' syntax trees (and a one-off input's)
/// gives, for every context; and where texts are escaped, by `escape_html`, each of `<>"'` in it comes from template text or a value marked safe.
/// The engine is afterwards where the calls led, also where the text found no room. An error of this function itself says that
/// there was no room for the answers: then no call was made, and the engine is as before.
pub fn render_after(
    alloc: Global,
    engine: &mut Tera,
    calls: Vec<Call<'_>>,
    rendering: &Rendering<'_>,
) -> TeraResult<CallsOutcome>
    ensures led { let seen = registry_of ⟦<CallerObjects as Objects>⟧.engine in
        IfOk result (λ outcome. Leads ⟦<CallerObjects as ObjectTypes>⟧.meanings
        (seen engine.old) calls.entry.items outcome.answers.items (seen engine.new)) }
    ensures law { let after = registry_of ⟦<CallerObjects as Objects>⟧.engine engine.new in
        IfOk result (λ outcome. GivesOneOf string_bytes outcome.text
        (Rendered after rendering.now)) }
    ensures accepted { let seen = registry_of ⟦<CallerObjects as Objects>⟧.engine in
        IsAccepted (seen engine.old) → IsAccepted (seen engine.new) }
    ensures memory { IfErr result Lacks }
    ensures unchanged { let seen = registry_of ⟦<CallerObjects as Objects>⟧.engine in
        OnErr result (seen engine.new ≡ seen engine.old) }
{
    let answers = make_calls(alloc, engine, calls)?;
    let text = render_call(alloc, engine, rendering);
    Ok(CallsOutcome { answers, text })
}

/// The same law of a rendering that appends its text to a vector: the vector is followed by the text, or is as before. It is as
/// before, too, where this function itself answers an error.
pub fn render_to_after(
    alloc: Global,
    engine: &mut Tera,
    calls: Vec<Call<'_>>,
    rendering: &EngineRendering<'_>,
    out: &mut Vec<u8>,
) -> TeraResult<AppendedOutcome>
    ensures led { let seen = registry_of ⟦<CallerObjects as Objects>⟧.engine in
        IfOk result (λ outcome. Leads ⟦<CallerObjects as ObjectTypes>⟧.meanings
        (seen engine.old) calls.entry.items outcome.answers.items (seen engine.new)) }
    ensures law { let after = registry_of ⟦<CallerObjects as Objects>⟧.engine engine.new in
        IfOk result (λ outcome. AppendsOneOf outcome.appended out.old.items out.new.items
        (Renders after rendering.now)) }
    ensures accepted { let seen = registry_of ⟦<CallerObjects as Objects>⟧.engine in
        IsAccepted (seen engine.old) → IsAccepted (seen engine.new) }
    ensures memory { IfErr result Lacks }
    ensures unchanged { let seen = registry_of ⟦<CallerObjects as Objects>⟧.engine in
        OnErr result ((seen engine.new ≡ seen engine.old) × (out.new ≡ out.old)) }
{
    let made = make_calls(alloc, engine, calls)?;
    let appended = render_call_to(engine, rendering, out);
    Ok(AppendedOutcome {
        answers: made,
        appended,
    })
}
