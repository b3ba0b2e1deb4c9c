// The names that nodes look up and do not bind. They are found from the end of the text to its start: what is bound behind a
// node is taken away before what the node itself looks up is added. So there is one set, in which a name is put and from which
// it is taken at little cost.
ghost use Rattle.std.specs.Prelude.{◌≡◌, OnOk, IfOk, IfErr, true};
ghost use Rattle.tera_errors.specs.Prelude.{Lacks};
ghost use Rattle.tera_syntax_tree.specs.Prelude.{node_of, nodes_of};
ghost use Rattle.tera_syntax_tree.specs.Tree.{expression_in};
ghost use Rattle.tera_syntax_tree.specs.Free as in_tree;
ghost use Rattle.tera_syntax_tree.specs.Free.{body_names, free, node_binds, binds, optional_free, own_binds, set_binds, tag_free, ◌∖◌};
ghost use Rattle.tera_syntax_tree.specs.Sets.{Adds, names_in, before, before_all, before_body};

use crate::node::Node;
use crate::variables::expressions::{add_entries, add_expression, add_filters};
use crate::variables::sets::{NameSet, add as add_name, join, remove, remove_loop_names};
use std::alloc::{AllocError, Global};
use std::collections::BTreeSet;
use tera_errors::TeraResult;

/// The names that are free in nodes, each once.
pub fn free_names(alloc: Global, nodes: &[Node]) -> TeraResult<BTreeSet<String>>
    ensures ok { IfOk result (λ s. names_in s ≡ free (nodes_of nodes.now)) }
    ensures lacks { IfErr result Lacks }
{
    let mut found = BTreeSet::new(alloc);
    add_all(alloc, nodes, &mut found)?;
    Ok(found)
}

// From the names of what stands behind nodes, those of the nodes and what stands behind them.
#[cycle(names)]
fn add_all(alloc: Global, nodes: &[Node], found: &mut NameSet) -> Result<(), AllocError>
    ensures { OnOk result
        (names_in found.new ≡ before_all (nodes_of nodes.now) (names_in found.old)) }
{
    let mut left = nodes.len();
    'back: while left > 0 {
        left -= 1;
        add(alloc, &nodes[left], found)?;
    }
    Ok(())
}

// The same of a node: what it sets itself is taken away, and then come its bodies and its tag.
#[cycle(names)]
fn add(alloc: Global, node: &Node, found: &mut NameSet) -> Result<(), AllocError>
    ensures { OnOk result (names_in found.new ≡ before (node_of node.now) (names_in found.old)) }
{
    remove_own(node, false, found);
    add_all(alloc, node.other(), found)?;
    add_body(alloc, node, found)?;
    add_tag(alloc, node, found)
}

// The same of the body of a node.
#[cycle(names)]
fn add_body(alloc: Global, node: &Node, found: &mut NameSet) -> Result<(), AllocError>
    ensures { OnOk result
        (names_in found.new ≡ before_body (node_of node.now) (names_in found.old)) }
{
    if !is_loop(node) {
        return add_all(alloc, node.body(), found);
    }
    remove_globals(node.body(), found);
    // What is bound in the body mostly is so there alone: its names are found apart.
    let mut inside = BTreeSet::new(alloc);
    add_all(alloc, node.body(), &mut inside)?;
    remove_body_names(node, &mut inside);
    join(inside, found)
}

fn is_loop(node: &Node) -> bool
    ensures { result ≡ in_tree.is_loop (node_of node.now) }
{
    matches!(node, Node::For { .. })
}

// Takes away the names that the body of a node is given.
fn remove_body_names(node: &Node, found: &mut NameSet)
    ensures { names_in found.new ≡ names_in found.old ∖ body_names (node_of node.now) }
{
    if let Node::For { heading, .. } = node {
        remove_loop_names(heading, found);
    }
}

// Puts what is looked up in a node's own tag among what was found.
fn add_tag(alloc: Global, node: &Node, found: &mut NameSet) -> Result<(), AllocError>
    ensures { Adds result (tag_free (node_of node.now)) found.old found.new }
{
    add_entries(alloc, node.attributes(), found)?;
    add_filters(alloc, node.filters(), found)?;
    add_expression_in(alloc, node, found)
}

// The same of the expression there.
fn add_expression_in(alloc: Global, node: &Node, found: &mut NameSet) -> Result<(), AllocError>
    ensures { Adds result (optional_free (expression_in (node_of node.now))) found.old found.new }
{
    match node {
        Node::Print { value } => add_expression(alloc, value, found),
        Node::PrintName { name, .. } => add_name(alloc, name, found),
        Node::If { condition, .. } => add_expression(alloc, condition, found),
        Node::Set { value, .. } => add_expression(alloc, value, found),
        Node::For { heading, .. } => add_expression(alloc, &heading.target, found),
        _ => Ok(()),
    }
}

// Takes away what the body of a loop binds behind the loop.
#[cycle(globals)]
fn remove_globals(nodes: &[Node], found: &mut NameSet)
    ensures { names_in found.new ≡ names_in found.old ∖ binds true (nodes_of nodes.now) }
{
    for node in nodes {
        remove_globals_of(node, found);
    }
}

#[cycle(globals)]
fn remove_globals_of(node: &Node, found: &mut NameSet)
    ensures { names_in found.new ≡ names_in found.old ∖ node_binds true (node_of node.now) }
{
    remove_own(node, true, found);
    remove_globals(node.body(), found);
    remove_globals(node.other(), found);
}

// Takes away the name that the node itself sets, where that is bound behind it, or behind the loop.
fn remove_own(node: &Node, in_loop: bool, found: &mut NameSet)
    ensures { names_in found.new ≡ names_in found.old ∖ own_binds in_loop (node_of node.now) }
{
    match node {
        Node::Set {
            name,
            is_global,
            ..
        } => remove_set(name, *is_global, in_loop, found),
        Node::Capture {
            is_global,
            captured,
            ..
        } => remove_set(captured.name, *is_global, in_loop, found),
        _ => {}
    }
}

// Takes away what setting this name binds behind it, or behind the loop.
fn remove_set(name: &str, is_global: bool, in_loop: bool, found: &mut NameSet)
    ensures { names_in found.new ≡ names_in found.old ∖ set_binds in_loop is_global name.now }
{
    if is_global || !in_loop {
        remove(name, found);
    }
}
