// What the machine works on.
use crate::ended_blocks::EndedBlocks;
use crate::loop_place::LoopPlace;
use crate::rendered_text::RenderedText;
use std::alloc::Global;
use tera_operators::Operand;
use tera_state::{Scopes, Stack};

/// Everything that an instruction may read or change. The places are those of the loops that the body which runs has open.
#[derive(Drop)]
pub struct Configuration<'c> {
    pub alloc: Global,
    pub operands: Stack<Operand>,
    pub scopes: Scopes<'c>,
    pub texts: RenderedText,
    pub places: Stack<LoopPlace>,
    pub ended: EndedBlocks,
}

impl<'c> Configuration<'c> {
    ghost use Rattle.std.specs.Prelude.{◌≡◌, []};
    ghost use Rattle.tera_state.specs.Scopes.{variables_of, around_of};
    ghost use Rattle.tera_meaning.specs.Run.{begun};
    ghost use Rattle.tera_machine.specs.Config.{config_of, starting};

    /// Where a body begins that reads these scopes; takes no memory.
    pub fn new(alloc: Global, scopes: Scopes<'c>) -> Configuration<'c>
        ensures starts { config_of result ≡ starting (begun (variables_of scopes.entry)) }
        ensures around { around_of result.scopes ≡ around_of scopes.entry }
    {
        Configuration::with_memory(alloc, scopes, String::new(alloc))
    }

    /// The same, where the text is written to the memory of this one, which is dropped; takes no memory.
    pub fn with_memory(alloc: Global, scopes: Scopes<'c>, memory: String) -> Configuration<'c>
        ensures starts { config_of result ≡ starting (begun (variables_of scopes.entry)) }
        ensures around { around_of result.scopes ≡ around_of scopes.entry }
    {
        Configuration {
            alloc,
            operands: Stack::new(alloc),
            scopes,
            texts: RenderedText::new(alloc, memory),
            places: Stack::new(alloc),
            ended: EndedBlocks::new(),
        }
    }
}
