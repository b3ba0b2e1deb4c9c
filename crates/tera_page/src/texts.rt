// What a page is answered.
ghost use Rattle.std.specs.Prelude.{◌≡◌, ◌∷◌, [], IfOk, map, string_bytes};
ghost use Rattle.tera.specs.Answer.{GivesOneOf};
ghost use Rattle.tera.specs.Prelude.{pairs_of, registry_of};
ghost use Rattle.tera_renderer.specs.Calls.{Reads};
ghost use Rattle.tera_page.specs.Questions.{IsAsked, MayAnswer, lines};

use crate::question::{PageObjects, Question};
use std::alloc::{AllocError, Global};
use std::collections::BTreeSet;
use tera::{Context, Objects, TeraOver, TeraResult};
use tera_data::{json_context, text_of};
use tera_renderer::floats_if;

/// What the question asks for of these templates, with a name and data in JSON.
pub fn text_for(
    alloc: Global,
    question: &Question,
    templates: &[(&str, &str)],
    name: &[u8],
    json: &[u8],
) -> TeraResult<String>
    ensures { Reads (name.now ∷ json.now ∷ []) string_bytes result
        (MayAnswer question.now (pairs_of templates.now) name.now json.now) }
{
    let name = text_of(alloc, name)?;
    let json = text_of(alloc, json)?;
    let mut engine = question.engine(alloc)?;
    engine.add_raw_templates(templates)?;
    text_by(alloc, &engine, question, name, json)
}

fn text_by(
    alloc: Global,
    engine: &TeraOver<PageObjects>,
    question: &Question,
    name: &str,
    json: &str,
) -> TeraResult<String>
    ensures { GivesOneOf string_bytes result (IsAsked question.now name.now json.now
        (registry_of ⟦<PageObjects as Objects>⟧.engine engine.now)) }
{
    match question.subject {
        0 => {
            let context = json_context(alloc, json, floats_if(question.takes_floats))?;
            engine.render(name, &context)
        }
        1 => {
            let arguments = json_context(alloc, json, floats_if(question.takes_floats))?;
            let implicits = Context::new(alloc);
            let autoescape = question.autoescape != 0;
            engine.render_component(name, &arguments, &implicits, None, autoescape)
        }
        2 => {
            let names = engine.get_template_variables(name)?;
            Ok(lines_of_set(alloc, names)?)
        }
        _ => {
            let names = engine.get_component_names()?;
            Ok(lines_of(alloc, names.as_slice())?)
        }
    }
}

// The names, each with the end of a line behind it.
fn lines_of(alloc: Global, names: &[String]) -> Result<String, AllocError>
    ensures { IfOk result (λ text. string_bytes text ≡ lines (map string_bytes names.now)) }
{
    let mut text = String::new(alloc);
    for name in names {
        text.push_str(name.as_str())?;
        text.push_str("\n")?;
    }
    Ok(text)
}

fn lines_of_set(alloc: Global, names: BTreeSet<String>) -> Result<String, AllocError>
    ensures { IfOk result (λ text. string_bytes text ≡ lines (map string_bytes names.keys)) }
{
    let mut text = String::new(alloc);
    for name in names {
        text.push_str(name.as_str())?;
        text.push_str("\n")?;
    }
    Ok(text)
}
