// Templates as they are kept.
ghost use Rattle.std.specs.Prelude.{◌≡◌, map, option_map, string_bytes};
ghost use Rattle.std.specs.Coded.{codes};
ghost use Rattle.tera_syntax_tree.specs.Blocks as in_tree;
ghost use Rattle.tera_syntax_tree.specs.Prelude.{definitions_of, nodes_of, names_in};
ghost use Rattle.tera_components.specs.Prelude.{definition_coding};
ghost use Rattle.tera_registry.specs.Components as kept;
ghost use Rattle.tera_registry.specs.TemplateTree.{tree_meant};
ghost use Rattle.tera_registry.specs.OutsideCalls.{needs_of};
ghost use Rattle.tera_registry.specs.Places.{ArePlaces};
ghost use Rattle.tera_registry.specs.contracts.outside_calls.OutsideCall as need;
ghost use Rattle.tera_code.specs.Prelude.{block_listings, listing_of};
ghost use Rattle.tera_code.specs.contracts.chunk.Chunk as chunk;
ghost use Rattle.tera_syntax_tree.specs.Free as in_text;

use crate::code::{Code, TemplateBlock};
use crate::components::Component;
use crate::outside_calls::OutsideCall;
use crate::template_tree::TemplateTree;
use std::collections::{BTreeMap, BTreeSet};
use std::rc::Rc;
use tera_values::Name;

/// A template that was read and compiled. It is shared, so that a set of templates is copied without their texts.
#[derive(Drop)]
pub struct Template {
    pub name: String,
    pub(crate) text: String,
    /// The name of the template that it extends, if it does.
    pub(crate) parent: Option<String>,
    /// The code of its nodes.
    pub(crate) body: Rc<Code>,
    /// Its blocks, each with code of its own.
    pub(crate) blocks: Vec<TemplateBlock>,
    /// Where the first block of each name stands among them.
    pub(crate) places: BTreeMap<String, usize>,
    /// The names of those that are inside no other block.
    pub(crate) tops: Vec<Name>,
    /// The names that are free in its text, each once.
    pub(crate) free: BTreeSet<String>,
    /// The components that it defines, in the order of its text.
    pub(crate) components: Vec<Component>,
    /// What it calls that is not built in, the templates that it includes among it. Whether that is there is looked up when templates
    /// are linked.
    pub(crate) needs: Vec<OutsideCall>,
    pub(crate) meant: TemplateTree,
    ghost compiled: { body.value.chunk
        ≡ listing_of (string_bytes name) (nodes_of meant.nodes) } by { Prim.hlevel
            (codes, chunk.the_row.coded) },
    ghost divided: { map kept.kept_block blocks.items
        ≡ block_listings (string_bytes name)
        (in_tree.blocks (nodes_of meant.nodes)) } by { Prim.hlevel (codes, chunk.the_row.coded) },
    ghost placed: { ArePlaces (map (λ b. b.name) blocks.items) places } by { Prim.hlevel codes },
    ghost defined: { map kept.kept_of components.items
        ≡ kept.kept_all (string_bytes name) (definitions_of meant.definitions) } by { Prim.hlevel
            (codes, definition_coding, chunk.the_row.coded) },
    ghost needing: { needs.items
        ≡ needs_of (tree_meant (option_map string_bytes parent) meant) } by { Prim.hlevel (codes, need.the_row.coded) },
    ghost freed: { names_in free ≡ in_text.free (nodes_of meant.nodes) } by { Prim.hlevel codes },
    ghost topped: { tops.items
        ≡ in_tree.top_blocks (nodes_of meant.nodes) } by { Prim.hlevel codes },
}
