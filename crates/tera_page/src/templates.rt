// The templates of a page, which come as bytes in one piece.
ghost use Rattle.std.specs.Prelude.{◌≡◌, IfErr, IfOk, IsSome, drop, take};
ghost use Rattle.tera.specs.Answer.{Tells};
ghost use Rattle.tera.specs.Fault.{message};
ghost use Rattle.tera.specs.Prelude.{pairs_of};
ghost use Rattle.tera_renderer.specs.Calls.{AreTexts};
ghost use Rattle.tera_page.specs.Templates.{pieces_of, place_among, templates_in};

use std::alloc::Global;
use tera::TeraResult;
use tera_data::text_of;

/// How many bytes the name and the text of a template have.
#[repr(C)]
#[derive(Clone, Copy)]
pub struct TemplateSize {
    pub name: usize,
    pub text: usize,
}

/// The names and the texts of the templates of these sizes, which lie in the bytes one behind the other.
pub fn templates_of<'a>(
    alloc: Global,
    bytes: &'a [u8],
    sizes: &[TemplateSize],
) -> TeraResult<Vec<(&'a str, &'a str)>>
    ensures ok { IfOk result (λ v. (pairs_of v.items ≡ templates_in sizes.now bytes.now)
        × AreTexts (pieces_of (templates_in sizes.now bytes.now))) }
    ensures told { IfErr result (λ e. Tells e message
        × (IsSome e → ¬ AreTexts (pieces_of (templates_in sizes.now bytes.now)))) }
{
    let mut templates = Vec::new(alloc);
    let mut rest = bytes;
    for size in sizes {
        let (name, behind) = split_off(rest, size.name);
        let (text, behind) = split_off(behind, size.text);
        let name = text_of(alloc, name)?;
        let text = text_of(alloc, text)?;
        templates.push((name, text))?;
        rest = behind;
    }
    Ok(templates)
}

/// The place of the template of this name, or the number of the templates where none has it.
pub fn place_of(templates: &[(&str, &str)], name: &str) -> usize
    ensures { result ≡ place_among (pairs_of templates.now) name.now }
{
    for (place, template) in templates.iter().enumerate() {
        if template.0 == name {
            return place;
        }
    }
    templates.len()
}

// So many bytes, or all where there are fewer, and those behind them.
fn split_off(bytes: &[u8], size: usize) -> (&[u8], &[u8])
    ensures front { result.0.now ≡ take size bytes.now }
    ensures behind { result.1.now ≡ drop size bytes.now }
{
    if size < bytes.len() {
        bytes.split_at(size)
    } else {
        (bytes, &[])
    }
}
