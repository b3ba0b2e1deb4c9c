// Pages: what templates render to, each with its path.
ghost use Rattle.std.specs.Prelude.{◌≡◌, Ok, IfErr, IfSome, OnOk, true, false, filter, map, string_bytes};
ghost use Rattle.tera.specs.Answer.{Gives, GivesOneOf};
ghost use Rattle.tera.specs.Fault.{message};
ghost use Rattle.tera.specs.Prelude.{registry_of};
ghost use Rattle.tera_job.specs.Paths.{is_page, output_path};
ghost use Rattle.tera_job.specs.Pages.{have_places, page_names, page_seen, pages_seen, ArePages, IsPage, PagesOf};

use crate::path::{is_page, output_path, stays_inside};
use std::alloc::Global;
use std::collections::BTreeMap;
use tera::{Context, Error, Objects, TeraOver, TeraResult};

/// What a template renders to, and where that goes.
#[derive(Debug, Drop)]
pub struct Page {
    /// The path below the folder of pages, with `/` between its parts.
    pub path: String,
    pub text: String,
}

/// Is told how far the making of pages is.
pub trait Watch {
    /// So many of all pages are there.
    fn note(&mut self, count: usize, all: usize);
}

/// Looks at nothing.
#[derive(Clone, Copy)]
pub struct Unwatched;

impl Watch for Unwatched {
    fn note(&mut self, _count: usize, _all: usize) {}
}

/// The pages of all templates of which no part of the name begins with `_`, in byte order of the templates' names, rendered with one
/// context; or the first fault. A page whose path would lead out of its folder, or that another template makes, too, is
/// refused before any is rendered.
pub fn pages<O: Objects, W: Watch>(
    alloc: Global,
    engine: &TeraOver<O>,
    context: &Context,
    watch: &mut W,
) -> TeraResult<Vec<Page>>
    ensures { GivesOneOf (λ ps. pages_seen ps.items) result
        (ArePages (registry_of O.engine engine.now) context.now) }
{
    let names = page_names(engine)?;
    let names = names.as_slice();
    check_paths(alloc, names)?;
    make_pages(alloc, engine, context, names, watch)
}

fn make_pages<O: Objects, W: Watch>(
    alloc: Global,
    engine: &TeraOver<O>,
    context: &Context,
    names: &[String],
    watch: &mut W,
) -> TeraResult<Vec<Page>>
    ensures { GivesOneOf (λ ps. pages_seen ps.items) result
        (PagesOf (registry_of O.engine engine.now) context.now (map string_bytes names.now)) }
{
    let mut pages = Vec::with_capacity(alloc, names.len())?;
    for name in names {
        pages.push(make_page(alloc, engine, context, name.as_str())?)?;
        watch.note(pages.len(), names.len());
    }
    Ok(pages)
}

fn make_page<O: Objects>(
    alloc: Global,
    engine: &TeraOver<O>,
    context: &Context,
    name: &str,
) -> TeraResult<Page>
    ensures { GivesOneOf page_seen result
        (IsPage (registry_of O.engine engine.now) context.now name.now) }
{
    let mut text = engine.render(name, context)?;
    text.shrink_to_fit();
    let path = String::from_str(alloc, output_path(name))?;
    Ok(Page { path, text })
}

fn page_names<O: Objects>(engine: &TeraOver<O>) -> TeraResult<Vec<String>>
    ensures { Gives (λ ns. map string_bytes ns.items) result
        (Ok (page_names (registry_of O.engine engine.now))) }
{
    let mut names = engine.get_template_names()?;
    keep_pages(&mut names);
    Ok(names)
}

fn keep_pages(names: &mut Vec<String>)
    ensures { map string_bytes names.new.items
        ≡ filter is_page (map string_bytes names.old.items) }
{
    names.retain(|name| is_page(name.as_str()));
}

// Each of the templates makes a page at a place of its own.
fn check_paths(alloc: Global, names: &[String]) -> TeraResult<()>
    ensures ok { OnOk result
        (have_places (map output_path (map string_bytes names.now)) ≡ true) }
    ensures err { IfErr result (λ e. IfSome e (λ fault. (fault ≡ message)
        × (have_places (map output_path (map string_bytes names.now)) ≡ false))) }
{
    let mut makers = BTreeMap::new(alloc);
    for name in names {
        let name = name.as_str();
        let path = output_path(name);
        if !stays_inside(path) {
            return Err(Error::message_from(format!(in alloc;
                "the page of `{name}` would lie outside of the folder of pages"
            )));
        }
        if let Some(other) = makers.insert(path, name)? {
            return Err(Error::message_from(format!(in alloc;
                "`{other}` and `{name}` both make the page `{path}`"
            )));
        }
    }
    Ok(())
}
