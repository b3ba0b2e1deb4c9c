// The blocks of nodes that are inside no other block.
ghost use Rattle.std.specs.Prelude.{◌≡◌, ◌++◌, false, OnOk, IfOk, IfErr};
ghost use Rattle.tera_errors.specs.Prelude.{Lacks};
ghost use Rattle.tera_syntax_tree.specs.Blocks.{own_block_name};
ghost use Rattle.tera_syntax_tree.specs.Gathered.{is_entered};
ghost use Rattle.tera_syntax_tree.specs.Prelude.{node_of, node_top_blocks, nodes_of, top_blocks};

use std::alloc::{AllocError, Global};
use tera_errors::{TeraResult, alloc_result};
use tera_syntax_tree::Node;
use tera_values::Name;

/// Their names, in the order of the text.
pub fn top_blocks(alloc: Global, nodes: &[Node]) -> TeraResult<Vec<Name>>
    ensures ok { IfOk result (λ v. v.items ≡ top_blocks (nodes_of nodes.now)) }
    ensures lacks { IfErr result Lacks }
{
    let mut found = Vec::new(alloc);
    add_all(alloc, nodes, &mut found)?;
    Ok(found)
}

// Puts those of the nodes behind those that were found.
#[cycle(tops)]
fn add_all(alloc: Global, nodes: &[Node], found: &mut Vec<Name>) -> Result<(), AllocError>
    ensures { OnOk result
        (found.new.items ≡ found.old.items ++ top_blocks (nodes_of nodes.now)) }
{
    for node in nodes {
        add(alloc, node, found)?;
    }
    Ok(())
}

// Puts those of the node behind those that were found.
#[cycle(tops)]
fn add(alloc: Global, node: &Node, found: &mut Vec<Name>) -> Result<(), AllocError>
    ensures { OnOk result
        (found.new.items ≡ found.old.items ++ node_top_blocks (node_of node.now)) }
{
    add_own(alloc, node, found)?;
    if enters(node) {
        add_all(alloc, node.body(), found)?;
        return add_all(alloc, node.other(), found);
    }
    Ok(())
}

// Whether blocks are looked for in the bodies of the node.
fn enters(node: &Node) -> bool
    ensures { result ≡ is_entered false (node_of node.now) }
{
    match node {
        Node::Block(_) => false,
        _ => true,
    }
}

// Puts the name of the block that the node is, if it is one, behind those that were found.
fn add_own(alloc: Global, node: &Node, found: &mut Vec<Name>) -> Result<(), AllocError>
    ensures { OnOk result (found.new.items ≡ found.old.items ++ own_block_name (node_of node.now)) }
{
    match node {
        Node::Block(block) => {
            found.push(alloc_result(Name::new(alloc, block.name))?)?;
            Ok(())
        }
        _ => Ok(()),
    }
}
