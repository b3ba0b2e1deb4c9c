// What a template needs of others: what it calls that is not built in.
ghost use Rattle.std.specs.Prelude.{◌≡◌, ◌++◌, [], map, slice_get, option_and_then, OnOk, IfOk, IfErr};
ghost use Rattle.std.specs.List.{flat_map, cons_option};
ghost use Rattle.tera_errors.specs.Prelude.{Lacks};
ghost use Rattle.tera_syntax_tree.specs.Blocks as in_tree;
ghost use Rattle.tera_syntax_tree.specs.Prelude.{definitions_of, nodes_of, tree_of};
ghost use Rattle.tera_code.specs.Prelude.{block_listings, callee_of, listing_of};
ghost use Rattle.tera_registry.specs.Components.{kept_block, kept_of, kept_all};
ghost use Rattle.tera_registry.specs.OutsideCalls.{is_built_in, as_need, callee_needed, needed_by, needs_of, code_needs, bodies_need};

use crate::code::{Code, TemplateBlock};
use crate::components::Component;
use crate::has_body::HasBody;
use std::alloc::Global;
use tera_built_ins::{BuiltInFilter, BuiltInFunction, BuiltInTest};
use tera_code::{Callee, Chunk};
use tera_errors::TeraResult;
use tera_syntax_tree::ParserOutput;
use tera_values::Name;

/// The name of a component that is called, of a template that is included, or of a filter, a test or a function that is not built in.
#[derive(Drop)]
pub enum OutsideCall {
    Filter(Name),
    Test(Name),
    Function(Name),
    Component(Name),
    Template(Name),
}

impl OutsideCall {
    /// What is called. Takes no memory.
    pub fn callee(&self) -> Callee<'_>
        ensures { callee_of result ≡ callee_needed self.now }
    {
        match self {
            OutsideCall::Filter(name) => Callee::Filter(name.as_str()),
            OutsideCall::Test(name) => Callee::Test(name.as_str()),
            OutsideCall::Function(name) => Callee::Function(name.as_str()),
            OutsideCall::Component(name) => Callee::Component(name),
            OutsideCall::Template(name) => Callee::Template(name),
        }
    }
}

/// Whether what is called is built in. No component and no template is.
fn is_built_in(callee: Callee<'_>) -> bool
    ensures { result ≡ is_built_in (callee_of callee.entry) }
{
    match callee {
        Callee::Filter(name) => BuiltInFilter::by_name(name).is_some(),
        Callee::Test(name) => BuiltInTest::by_name(name).is_some(),
        Callee::Function(name) => BuiltInFunction::by_name(name).is_some(),
        Callee::Component(_) | Callee::Template(_) => false,
    }
}

/// What is called, with a name of its own.
fn outside_call_of(alloc: Global, callee: Callee<'_>) -> TeraResult<OutsideCall>
    ensures ok { IfOk result (λ n. n ≡ as_need (callee_of callee.entry)) }
    ensures lacks { IfErr result Lacks }
{
    match callee {
        Callee::Filter(name) => Ok(OutsideCall::Filter(Name::new(alloc, name)?)),
        Callee::Test(name) => Ok(OutsideCall::Test(Name::new(alloc, name)?)),
        Callee::Function(name) => Ok(OutsideCall::Function(Name::new(alloc, name)?)),
        Callee::Component(name) => Ok(OutsideCall::Component(name.share()?)),
        Callee::Template(name) => Ok(OutsideCall::Template(name.share()?)),
    }
}

/// Puts what the instruction at this position calls behind what was found, unless it is built in.
fn add_outside_call(
    alloc: Global,
    chunk: &Chunk,
    position: usize,
    needs: &mut Vec<OutsideCall>,
) -> TeraResult<()>
    ensures ok { let needed = option_and_then needed_by (slice_get chunk.now.code position) in
        OnOk result (needs.new.items ≡ needs.old.items ++ cons_option needed []) }
    ensures lacks { IfErr result Lacks }
{
    let Some(callee) = chunk.callee_at(position) else {
        return Ok(());
    };
    if is_built_in(callee) {
        return Ok(());
    }
    needs.push(outside_call_of(alloc, callee)?)?;
    Ok(())
}

/// Puts what the code needs behind what was found.
fn add_outside_calls(alloc: Global, chunk: &Chunk, needs: &mut Vec<OutsideCall>) -> TeraResult<()>
    ensures ok { OnOk result (needs.new.items ≡ needs.old.items ++ code_needs chunk.now.code) }
    ensures lacks { IfErr result Lacks }
{
    for position in 0..chunk.len() {
        add_outside_call(alloc, chunk, position, needs)?;
    }
    Ok(())
}

/// Puts what the code of each needs behind what was found.
fn add_all<B: HasBody>(alloc: Global, all: &[B], needs: &mut Vec<OutsideCall>) -> TeraResult<()>
    ensures ok { OnOk result (needs.new.items
        ≡ needs.old.items ++ flat_map (λ b. code_needs (B.listing b).code) all.now) }
    ensures lacks { IfErr result Lacks }
{
    for one in all {
        let code: &Code = one.code();
        add_outside_calls(alloc, &code.chunk, needs)?;
    }
    Ok(())
}

/// What the code of a body needs, then that of blocks, then that of components.
fn outside_calls_of_code(
    alloc: Global,
    body: &Chunk,
    blocks: &[TemplateBlock],
    components: &[Component],
) -> TeraResult<Vec<OutsideCall>>
    ensures ok { IfOk result (λ v. v.items ≡ bodies_need body.now blocks.now components.now) }
    ensures lacks { IfErr result Lacks }
{
    let mut needs = Vec::new(alloc);
    add_outside_calls(alloc, body, &mut needs)?;
    add_all(alloc, blocks, &mut needs)?;
    add_all(alloc, components, &mut needs)?;
    Ok(needs)
}

/// What the template of this name needs whose text was read to this, where this is the code of its body, of its blocks and of its
/// components.
#[tactic(auto, using(crate::proofs::Needing::bodies_need_as_tree))]
pub fn outside_calls(
    alloc: Global,
    output: &ParserOutput<'_>,
    name: &str,
    body: &Chunk,
    blocks: &[TemplateBlock],
    components: &[Component],
) -> TeraResult<Vec<OutsideCall>>
    requires body { body.now ≡ listing_of name.now (nodes_of output.now.nodes.items) }
    requires blocks { map kept_block blocks.now
        ≡ block_listings name.now (in_tree.blocks (nodes_of output.now.nodes.items)) }
    requires components { map kept_of components.now
        ≡ kept_all name.now (definitions_of output.now.component_definitions.items) }
    ensures ok { IfOk result (λ v. v.items ≡ needs_of (tree_of output.now)) }
    ensures lacks { IfErr result Lacks }
{
    outside_calls_of_code(alloc, body, blocks, components)
}
