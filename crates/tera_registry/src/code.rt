// Code as templates share it, with what it takes that stands elsewhere.
ghost use Rattle.std.specs.Prelude.{◌≡◌, ◌++◌, [], slice_get, option_and_then, option_map, IfOk, IfErr, OnOk};
ghost use Rattle.std.specs.List.{cons_option};
ghost use Rattle.std.specs.Coded.{codes};
ghost use Rattle.tera_errors.specs.Prelude.{Lacks};
ghost use Rattle.tera_code.specs.Prelude.{callee_of, target_called, target_in};
ghost use Rattle.tera_registry.specs.Takes.{take_of, takes_of, Ascends, IsRank};
ghost use Rattle.tera_registry.specs.declared.code.Take.{Take};

use std::alloc::Global;
use std::rc::Rc;
use tera_code::{Callee, Chunk};
use tera_errors::TeraResult;
use tera_values::Name;

/// A template or a component that code takes: its name, and the position of the instruction.
#[derive(Drop)]
pub struct Take {
    pub at: usize,
    pub is_component: bool,
    pub name: Name,
}

/// The code of a body, and what it takes that stands elsewhere, in the order of the instructions.
#[derive(Drop)]
pub struct Code {
    pub chunk: Chunk,
    pub takes: Vec<Take>,
    ghost taken: { takes.items ≡ takes_of chunk.code } by { Prim.hlevel codes },
}

/// A block of a template: its name, and the code of its body.
#[derive(Drop)]
pub struct TemplateBlock {
    pub name: Name,
    pub code: Rc<Code>,
}

impl Code {
    /// The chunk as it is kept.
    pub fn new(alloc: Global, chunk: Chunk) -> TeraResult<Rc<Code>>
        ensures ok { IfOk result (λ c. c.value.chunk ≡ chunk) }
        ensures lacks { IfErr result Lacks }
    {
        let takes = takes(alloc, &chunk)?;
        Ok(Rc::new(alloc, Code { chunk, takes })?)
    }
}

/// What the instruction at this position takes that stands elsewhere, if that is what it calls.
fn take_at(at: usize, callee: Callee<'_>) -> TeraResult<Option<Take>>
    ensures ok { IfOk result
        (λ t. t ≡ option_map (take_of at) (target_called (callee_of callee.entry))) }
    ensures lacks { IfErr result Lacks }
{
    let (is_component, name) = match callee {
        Callee::Template(name) => (false, name),
        Callee::Component(name) => (true, name),
        _ => return Ok(None),
    };
    let name = name.share()?;
    Ok(Some(Take {
        at,
        is_component,
        name,
    }))
}

/// Puts what the instruction at this position takes behind what was found.
fn add_take(chunk: &Chunk, position: usize, found: &mut Vec<Take>) -> TeraResult<()>
    ensures ok { let target = option_and_then target_in (slice_get chunk.now.code position) in
        OnOk result (found.new.items
        ≡ found.old.items ++ cons_option (option_map (take_of position) target) []) }
    ensures lacks { IfErr result Lacks }
{
    let Some(callee) = chunk.callee_at(position) else {
        return Ok(());
    };
    if let Some(take) = take_at(position, callee)? {
        found.push(take)?;
    }
    Ok(())
}

/// What the code takes.
fn takes(alloc: Global, chunk: &Chunk) -> TeraResult<Vec<Take>>
    ensures ok { IfOk result (λ v. v.items ≡ takes_of chunk.now.code) }
    ensures lacks { IfErr result Lacks }
{
    let mut found = Vec::new(alloc);
    for position in 0..chunk.len() {
        add_take(chunk, position, &mut found)?;
    }
    Ok(found)
}

/// Which of these the instruction at a position takes.
pub fn rank(takes: &[Take], at: usize) -> Option<usize>
    requires { Ascends takes.now }
    ensures { IsRank takes.now at result }
{
    let mut low = 0;
    let mut high = takes.len();
    'halves: while low < high {
        let middle = low + (high - low) / 2;
        let here = takes[middle].at;
        if here == at {
            return Some(middle);
        }
        if here < at {
            low = middle + 1;
        } else {
            high = middle;
        }
    }
    None
}
