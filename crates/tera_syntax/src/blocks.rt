// The names of a tree's blocks and components.
ghost use Rattle.std.specs.Prelude.{ℕ, ◌≡◌, ◌≤◌, ◌∷◌, [], IfOk, IfErr};
ghost use Rattle.tera_syntax.specs.File as spec;
ghost use Rattle.tera_syntax.specs.Names.{again, blocks_at, components_at, doubled, first_at, first_text, node_blocks_at, own_block_at, placed, RefusesOnly, text_start, tree_doubled};
ghost use Rattle.tera_syntax.specs.Positions.{NamesWithin, StayWithin};
ghost use Rattle.tera_syntax.specs.View.{Gathers, names_of};
ghost use Rattle.tera_syntax_tokens.specs.Prelude.{Answers, PointsWithin};
ghost use Rattle.tera_syntax_tokens.specs.declared.refusal.Refusal.TheVariants.{OutOfMemory};
ghost use Rattle.tera_syntax_tree.specs.Prelude.{definitions_of, DefinitionsInside, Inside, NodeInside, NodesInside, node_of, nodes_of, tree_of};

use std::alloc::Global;
use std::collections::BTreeMap;
use tera_errors::Span;
use tera_syntax_expressions::parameters::is_same;
use tera_syntax_tokens::refusal::{Reason, Refusal};
use tera_syntax_tree::{DefinedComponent, Node, ParserOutput};

/// Up to so many names are compared with one another, which takes less than to build a tree of them.
const FEW_NAMES: usize = 8;

/// The name of a block or a component, and where it stands.
#[derive(Clone, Copy)]
struct PlacedName<'s> {
    name: &'s str,
    span: Span,
}

/// Puts the names of all blocks of the nodes behind those that are there.
#[cycle(names)]
fn gather<'s>(names: &mut Vec<PlacedName<'s>>, nodes: &[Node<'s>]) -> Result<(), Refusal>
    ensures gathered { let more = blocks_at (nodes_of nodes.now) in
        Gathers more names.old.items result names.new.items }
    ensures points { StayWithin (λ size. NodesInside size (nodes_of nodes.now))
        names.old.items result names.new.items }
{
    for node in nodes {
        gather_node(names, node)?;
    }
    Ok(())
}

#[cycle(names)]
fn gather_node<'s>(names: &mut Vec<PlacedName<'s>>, node: &Node<'s>) -> Result<(), Refusal>
    ensures gathered { let more = node_blocks_at (node_of node.now) in
        Gathers more names.old.items result names.new.items }
    ensures points { StayWithin (λ size. NodeInside size (node_of node.now))
        names.old.items result names.new.items }
{
    gather_own(names, node)?;
    gather(names, node.body())?;
    gather(names, node.other())
}

/// Puts the name of the block that the node is, if it is one, behind those that are there.
fn gather_own<'s>(names: &mut Vec<PlacedName<'s>>, node: &Node<'s>) -> Result<(), Refusal>
    ensures gathered { let more = own_block_at (node_of node.now) in
        Gathers more names.old.items result names.new.items }
    ensures points { StayWithin (λ size. NodeInside size (node_of node.now))
        names.old.items result names.new.items }
{
    match node {
        Node::Block(block) => {
            names.push(PlacedName {
                name: block.name,
                span: block.span,
            })?;
            Ok(())
        }
        _ => Ok(()),
    }
}

/// Where a text begins.
fn text_start(node: &Node<'_>) -> Option<usize>
    ensures { result ≡ text_start (node_of node.now) }
{
    match node {
        Node::Content { text: _, span } => Some(span.start),
        _ => None,
    }
}

/// Where the first text of nodes begins, and where they have none, the start of all.
fn first_text(nodes: &[Node<'_>]) -> usize
    ensures { result ≡ first_text (nodes_of nodes.now) }
{
    for node in nodes {
        if let Some(start) = text_start(node) {
            return start;
        }
    }
    0
}

/// Puts the names of components behind those that are there. One stands where the first text of its body begins.
fn gather_components<'s>(
    names: &mut Vec<PlacedName<'s>>,
    definitions: &[DefinedComponent<'s>],
) -> Result<(), Refusal>
    ensures gathered { let more = components_at (definitions_of definitions.now) in
        Gathers more names.old.items result names.new.items }
    ensures points { StayWithin (λ size. DefinitionsInside size (definitions_of definitions.now))
        names.old.items result names.new.items }
{
    for definition in definitions {
        let at = first_text(definition.body.as_slice());
        gather_component(names, definition.signature.name, at)?;
    }
    Ok(())
}

fn gather_component<'s>(
    names: &mut Vec<PlacedName<'s>>,
    name: &'s str,
    at: usize,
) -> Result<(), Refusal>
    ensures gathered { let more = placed name.now at ∷ [] in
        Gathers more names.old.items result names.new.items }
    ensures points { StayWithin (λ size. at ≤ size) names.old.items result names.new.items }
{
    names.push(PlacedName {
        name,
        span: Span { start: at, end: at },
    })?;
    Ok(())
}

/// Where the first name that stands again stands next, if one does.
fn first_repeat(alloc: Global, names: &[PlacedName<'_>]) -> Result<Option<Span>, Refusal>
    ensures ok { IfOk result (λ found. found ≡ again (names_of names.now)) }
    ensures lacks { IfErr result (λ refusal. refusal ≡ OutOfMemory) }
{
    if names.len() > FEW_NAMES {
        return first_repeat_in_many(alloc, names);
    }
    Ok(first_repeat_in_few(names))
}

/// The same in few names: each is compared with those behind it.
fn first_repeat_in_few(names: &[PlacedName<'_>]) -> Option<Span>
    ensures { result ≡ again (names_of names.now) }
{
    for at in 0..names.len() {
        let next = first_span_of(names[at].name, &names[at + 1..]);
        if next.is_some() {
            return next;
        }
    }
    None
}

/// Where this name stands first.
fn first_span_of(name: &str, names: &[PlacedName<'_>]) -> Option<Span>
    ensures { result ≡ first_at name.now (names_of names.now) }
{
    for placed in names {
        if is_same(placed.name, name) {
            return Some(placed.span);
        }
    }
    None
}

/// The same in names that may be many: they are read from behind, beside where each of them stands first of all that was read.
fn first_repeat_in_many(alloc: Global, names: &[PlacedName<'_>]) -> Result<Option<Span>, Refusal>
    ensures ok { IfOk result (λ found. found ≡ again (names_of names.now)) }
    ensures lacks { IfErr result (λ refusal. refusal ≡ OutOfMemory) }
{
    let mut behind: BTreeMap<&str, Span> = BTreeMap::new(alloc);
    let mut found = None;
    let mut at = names.len();
    while at > 0 {
        at -= 1;
        if let Some(next) = behind.insert(names[at].name, names[at].span)? {
            found = Some(next);
        }
    }
    Ok(found)
}

/// Refuses names of which two are the same, for this reason, where the second stands.
fn refuse_repeats(alloc: Global, names: &[PlacedName<'_>], why: Reason) -> Result<(), Refusal>
    ensures value { RefusesOnly (doubled why (names_of names.now)) result }
    ensures points { (size : ℕ) → NamesWithin size names.now → IfErr result (PointsWithin size) }
{
    match first_repeat(alloc, names)? {
        None => Ok(()),
        Some(span) => Err(Refusal::Syntax(why, span)),
    }
}

/// The tree, where no two of its blocks have one name, and no two of its components.
pub(crate) fn with_distinct_names<'s>(
    alloc: Global,
    output: ParserOutput<'s>,
) -> Result<ParserOutput<'s>, Refusal>
    ensures value { Answers tree_of (spec.once (tree_of output.entry)) result }
    ensures refused { RefusesOnly (tree_doubled (tree_of output.entry)) result }
    ensures points { (size : ℕ) → Inside size (tree_of output.entry)
        → IfErr result (PointsWithin size) }
{
    let mut blocks = Vec::new(alloc);
    gather(&mut blocks, output.nodes.as_slice())?;
    refuse_repeats(alloc, blocks.as_slice(), Reason::BlockTwice)?;
    let mut components = Vec::new(alloc);
    gather_components(&mut components, output.component_definitions.as_slice())?;
    refuse_repeats(alloc, components.as_slice(), Reason::ComponentTwice)?;
    Ok(output)
}
