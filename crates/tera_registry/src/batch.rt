// A batch of texts that is read, and put among templates.
ghost use Rattle.std.specs.Prelude.{◌≡◌, ◌++◌, ◌∷◌, [], OnOk, IfOk, IfErr, IsTrue, map, option_map, string_bytes};
ghost use Rattle.tera_errors.specs.Prelude.{GivesOneOf, Lacks};
ghost use Rattle.tera_syntax_tree.specs.Blocks as in_tree;
ghost use Rattle.tera_syntax_tree.specs.Prelude.{delimiters_of, accepted, definitions_of, nodes_of, quoted_option, tree_of};
ghost use Rattle.tera_code.specs.Prelude.{block_of, block_listings, listing_of};
ghost use Rattle.tera_values.specs.Prelude.{Named, put_all};
ghost use Rattle.tera_meaning.specs.Registry.{Template as Meaning};
ghost use Rattle.tera_registry.specs.Batch.{pairs_of};
ghost use Rattle.tera_registry.specs.Put.{Makes, Puts};
ghost use Rattle.tera_registry.specs.Components.{kept_block, kept_of, kept_all};
ghost use Rattle.tera_registry.specs.Kept.{Rises, entry_of, entries_of};
ghost use Rattle.tera_registry.specs.OutsideCalls.{needs_of};

use crate::code::{Code, TemplateBlock};
use crate::components::{Component, components};
use crate::merge::{merge, sort};
use crate::outside_calls::{OutsideCall, outside_calls};
use crate::places::block_places;
use crate::resolve::put;
use crate::template::Template;
use crate::template_tree::TemplateTree;
use crate::top_blocks::top_blocks;
use std::alloc::{AllocError, Global};
use std::rc::Rc;
use tera_code::blocks::blocks;
use tera_code::{BlockCode, compile_body};
use tera_errors::TeraResult;
use tera_syntax::parse;
use tera_syntax_tree::variables::free_names;
use tera_syntax_tree::{Delimiters, ParserOutput, Quoted};

/// Reads each text and puts it at its name, up to the first that spells no tree.
pub fn put_all(
    alloc: Global,
    delimiters: &Delimiters,
    templates: &mut Vec<Rc<Template>>,
    batch: &[(&str, &str)],
) -> TeraResult<()>
    requires delimiters { IsTrue (accepted (delimiters_of delimiters.now)) }
    requires rises { Rises (entries_of templates.old.items) }
    ensures answer { GivesOneOf (λ _. entries_of templates.new.items) result
        (Puts (delimiters_of delimiters.now) (entries_of templates.old.items)
        (pairs_of batch.now)) }
    ensures rises { Rises (entries_of templates.new.items) }
{
    let read = match read_all(alloc, delimiters, batch) {
        Ok(read) => read,
        Err(error) => return Err(error),
    };
    match read.as_slice() {
        [template] => put(templates, template.clone()?),
        several => {
            let sorted = sort(alloc, several)?;
            *templates = merge(alloc, sorted.as_slice(), templates.as_slice())?;
            Ok(())
        }
    }
}

/// What each text is read to, in the order of the batch, up to the first that spells no tree.
fn read_all(
    alloc: Global,
    delimiters: &Delimiters,
    batch: &[(&str, &str)],
) -> TeraResult<Vec<Rc<Template>>>
    requires { IsTrue (accepted (delimiters_of delimiters.now)) }
    ensures { (old : Named Meaning) → GivesOneOf (λ v. put_all (entries_of v.items) old) result
        (Puts (delimiters_of delimiters.now) old (pairs_of batch.now)) }
{
    let mut all = Vec::new(alloc);
    for (name, text) in batch {
        let template = match read(alloc, delimiters, name, text) {
            Ok(template) => template,
            Err(error) => return Err(error),
        };
        all.push(Rc::new(alloc, template)?)?;
    }
    Ok(all)
}

/// The template of a name and a text.
fn read(alloc: Global, delimiters: &Delimiters, name: &str, text: &str) -> TeraResult<Template>
    requires { IsTrue (accepted (delimiters_of delimiters.now)) }
    ensures { GivesOneOf entry_of result (Makes (delimiters_of delimiters.now) name.now text.now) }
{
    match parse(alloc, name, text, delimiters) {
        Ok(output) => template_of(alloc, &output, name, text),
        Err(error) => Err(error),
    }
}

/// The template of a name and a text that was read to this.
fn template_of(alloc: Global, output: &ParserOutput, name: &str, text: &str) -> TeraResult<Template>
    ensures ok { IfOk result
        (λ t. entry_of t ≡ (name.now, record { text = text.now; tree = tree_of output.now })) }
    ensures lacks { IfErr result Lacks }
{
    let code = code_of(alloc, name, output)?;
    assemble(alloc, output, name, text, code)
}

/// The code of a template, and what that needs.
#[derive(Drop)]
struct TemplateCode {
    body: Rc<Code>,
    blocks: Vec<TemplateBlock>,
    components: Vec<Component>,
    needs: Vec<OutsideCall>,
}

/// What the text of the template of this name is compiled to that was read to this.
fn code_of(alloc: Global, name: &str, output: &ParserOutput) -> TeraResult<TemplateCode>
    ensures body { IfOk result
        (λ c. c.body.value.chunk ≡ listing_of name.now (nodes_of output.now.nodes.items)) }
    ensures blocks { IfOk result (λ c. map kept_block c.blocks.items
        ≡ block_listings name.now (in_tree.blocks (nodes_of output.now.nodes.items))) }
    ensures components { IfOk result (λ c. map kept_of c.components.items
        ≡ kept_all name.now (definitions_of output.now.component_definitions.items)) }
    ensures needs { IfOk result (λ c. c.needs.items ≡ needs_of (tree_of output.now)) }
    ensures lacks { IfErr result Lacks }
{
    let nodes = output.nodes.as_slice();
    let body = Code::new(alloc, compile_body(alloc, name, nodes)?)?;
    let blocks = kept_blocks(alloc, blocks(alloc, name, nodes)?)?;
    let components = components(alloc, name, output.component_definitions.as_slice())?;
    let needs = outside_calls(
        alloc,
        output,
        name,
        &body.chunk,
        blocks.as_slice(),
        components.as_slice(),
    )?;
    Ok(TemplateCode {
        body,
        blocks,
        components,
        needs,
    })
}

/// The blocks as they are kept.
fn kept_blocks(alloc: Global, blocks: Vec<BlockCode>) -> TeraResult<Vec<TemplateBlock>>
    ensures ok { IfOk result (λ v. map kept_block v.items ≡ map block_of blocks.items) }
    ensures lacks { IfErr result Lacks }
{
    let mut kept = Vec::new(alloc);
    for block in blocks {
        keep(alloc, block, &mut kept)?;
    }
    Ok(kept)
}

/// Puts the block behind those that are kept.
fn keep(alloc: Global, block: BlockCode, kept: &mut Vec<TemplateBlock>) -> TeraResult<()>
    ensures ok { OnOk result
        (map kept_block kept.new.items ≡ map kept_block kept.old.items ++ block_of block ∷ []) }
    ensures lacks { IfErr result Lacks }
{
    let BlockCode { name, code } = block;
    let code = Code::new(alloc, code)?;
    kept.push(TemplateBlock { name, code })?;
    Ok(())
}

/// The template of a name and a text that was read to this, with its code.
fn assemble(
    alloc: Global,
    output: &ParserOutput,
    name: &str,
    text: &str,
    code: TemplateCode,
) -> TeraResult<Template>
    requires body { code.body.value.chunk ≡ listing_of name.now (nodes_of output.now.nodes.items) }
    requires blocks { map kept_block code.blocks.items
        ≡ block_listings name.now (in_tree.blocks (nodes_of output.now.nodes.items)) }
    requires components { map kept_of code.components.items
        ≡ kept_all name.now (definitions_of output.now.component_definitions.items) }
    requires needs { code.needs.items ≡ needs_of (tree_of output.now) }
    ensures ok { IfOk result
        (λ t. entry_of t ≡ (name.now, record { text = text.now; tree = tree_of output.now })) }
    ensures lacks { IfErr result Lacks }
{
    let nodes = output.nodes.as_slice();
    let TemplateCode {
        body,
        blocks,
        components,
        needs,
    } = code;
    let places = block_places(alloc, blocks.as_slice())?;
    let tops = top_blocks(alloc, nodes)?;
    let free = free_names(alloc, nodes)?;
    Ok(Template {
        name: String::from_str(alloc, name)?,
        text: String::from_str(alloc, text)?,
        parent: owned_text(alloc, &output.parent)?,
        body,
        blocks,
        places,
        tops,
        free,
        components,
        needs,
        meant: TemplateTree::of_nodes(nodes, output.component_definitions.as_slice()),
    })
}

fn owned_text(alloc: Global, text: &Option<Quoted>) -> Result<Option<String>, AllocError>
    ensures { IfOk result (λ t. option_map string_bytes t ≡ quoted_option text.now) }
{
    match text {
        None => Ok(None),
        Some(text) => Ok(Some(String::from_str(alloc, text.as_str())?)),
    }
}
