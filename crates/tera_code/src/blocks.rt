// The blocks of a template, each with code of its own.
ghost use Rattle.std.specs.Prelude.{◌≡◌, ◌++◌, [], ◌∷◌, map, OnOk, IfOk};
ghost use Rattle.tera_code.specs.Blocks.{block_of, block_listings};
ghost use Rattle.tera_syntax_tree.specs.Prelude.{blocks, node_blocks, node_of, nodes_of, own_block};

use crate::chunk::Chunk;
use crate::nodes::compile_body;
use std::alloc::{AllocError, Global};
use tera_errors::alloc_result;
use tera_syntax_tree::Node;
use tera_values::Name;

/// A block of a template: its name, and the code of its body.
#[derive(Drop)]
pub struct BlockCode {
    pub name: Name,
    pub code: Chunk,
}

/// The blocks of the nodes, which stand in the text of the template of this name, in the order of the text; those inside
/// others too.
pub fn blocks(alloc: Global, file: &str, nodes: &[Node]) -> Result<Vec<BlockCode>, AllocError>
    ensures ok { IfOk result
        (λ v. map block_of v.items ≡ block_listings file.now (blocks (nodes_of nodes.now))) }
{
    let mut found = Vec::new(alloc);
    add_all(alloc, nodes, file, &mut found)?;
    Ok(found)
}

// Puts the blocks of the nodes behind those that were found.
#[cycle(blocks)]
fn add_all(
    alloc: Global,
    nodes: &[Node],
    file: &str,
    found: &mut Vec<BlockCode>,
) -> Result<(), AllocError>
    ensures ok { OnOk result (map block_of found.new.items
        ≡ map block_of found.old.items ++ block_listings file.now (blocks (nodes_of nodes.now))) }
{
    for node in nodes {
        add(alloc, node, file, found)?;
    }
    Ok(())
}

// Puts the blocks of the node behind those that were found.
#[cycle(blocks)]
fn add(alloc: Global, node: &Node, file: &str, found: &mut Vec<BlockCode>) -> Result<(), AllocError>
    ensures { OnOk result (map block_of found.new.items
        ≡ map block_of found.old.items ++ block_listings file.now
        (node_blocks (node_of node.now))) }
{
    add_own(alloc, node, file, found)?;
    add_all(alloc, node.body(), file, found)?;
    add_all(alloc, node.other(), file, found)
}

// Puts the block that the node is, if it is one, behind those that were found.
fn add_own(
    alloc: Global,
    node: &Node,
    file: &str,
    found: &mut Vec<BlockCode>,
) -> Result<(), AllocError>
    ensures { OnOk result (map block_of found.new.items
        ≡ map block_of found.old.items ++ block_listings file.now
        (own_block (node_of node.now))) }
{
    match node {
        Node::Block(block) => put(alloc, block.body.as_slice(), file, block.name, found),
        _ => Ok(()),
    }
}

// Puts the block of this name, which has this body, behind those that were found.
#[inline(never)]
#[tactic(auto, using(crate::proofs::Found::found_block))]
fn put(
    alloc: Global,
    body: &[Node],
    file: &str,
    name: &str,
    found: &mut Vec<BlockCode>,
) -> Result<(), AllocError>
    ensures ok { OnOk result (map block_of found.new.items
        ≡ map block_of found.old.items
        ++ block_listings file.now ((name.now, nodes_of body.now) ∷ [])) }
{
    found.push(BlockCode {
        name: alloc_result(Name::new(alloc, name))?,
        code: compile_body(alloc, file, body)?,
    })?;
    Ok(())
}
