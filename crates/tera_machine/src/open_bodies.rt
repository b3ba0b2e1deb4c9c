// What is open around the body that runs.
ghost use Rattle.std.specs.Prelude.{◌≡◌, [], false, length, OnOk, IfOk, IfErr};
ghost use Rattle.tera_errors.specs.Prelude.{Lacks};
ghost use Rattle.tera_meaning.specs.Prelude.{Registry};
ghost use Rattle.tera_registry.specs.Prelude.{definers_of, AreAmong};
ghost use Rattle.tera_machine.specs.OpenThings.{nothing, begun, ended_at};
ghost use Rattle.tera_machine.specs.Bodies.{blocks_opened_by, blocks_closed_by};

use crate::open_things::{Numbered, OpenThings};
use crate::requests::BlockRequest;
use crate::wanted_block::WantedBlock;
use std::alloc::Global;
use std::mem::replace;
use tera_registry::{Definer, Definers, FoundTemplate};
use tera_values::{Name, TeraResult};

/// A block that is open, and the number of the body that its nearest definer has: for the template that is rendered no two
/// names share one.
#[derive(Drop)]
pub struct OpenBlock {
    pub name: Name,
    pub number: usize,
}

impl Numbered for OpenBlock {
    ghost number_of = { λ b. b.number };

    fn number(&self) -> usize {
        self.number
    }
}

/// What is to be again behind a template that is included, and behind a component: where the blocks start that are open
/// inside, and whether one that ends may be the one that is wanted.
#[derive(Drop)]
pub struct OuterBlocks {
    pub start: usize,
    pub notes: bool,
}

/// The blocks that are open, those who define the innermost above the body that runs, the block that is wanted, and the
/// templates that are included and open. Inside are those that are open in the template that is rendered, and in the
/// component that runs.
#[derive(Drop)]
pub struct OpenBodies<'t> {
    pub opened: OpenThings<OpenBlock>,
    pub above: Definers<'t>,
    pub wanted: WantedBlock,
    pub included: OpenThings<FoundTemplate<'t>>,
}

impl<'t> OpenBodies<'t> {
    /// Nothing is open; takes no memory.
    pub fn new(alloc: Global, wanted: WantedBlock) -> OpenBodies<'t>
        ensures opened { result.opened ≡ nothing }
        ensures above { definers_of result.above ≡ [] }
        ensures among { (r : Registry) → AreAmong r result.above }
        ensures wanted { result.wanted ≡ wanted }
        ensures included { result.included ≡ nothing }
    {
        OpenBodies {
            opened: OpenThings::new(alloc),
            above: Definers::of_none(),
            wanted,
            included: OpenThings::new(alloc),
        }
    }

    /// What runs now has no block open, and of those that end in it none is wanted. Hands out what is to be again.
    pub fn enter_apart(&mut self) -> OuterBlocks
        ensures opened { self.new.opened ≡ begun self.old.opened }
        ensures above { definers_of self.new.above ≡ [] }
        ensures among { (r : Registry) → AreAmong r self.new.above }
        ensures wanted { self.new.wanted ≡ record self.old.wanted { notes = false } }
        ensures included { self.new.included ≡ self.old.included }
        ensures before { (result.start ≡ length self.old.opened.around)
            × (result.notes ≡ self.old.wanted.notes) }
    {
        self.above = Definers::of_none();
        OuterBlocks {
            start: self.opened.begin(),
            notes: replace(&mut self.wanted.notes, false),
        }
    }

    /// That is over, and what was open is again.
    pub fn leave_apart(&mut self, around: OuterBlocks, above: Definers<'t>)
        ensures opened { self.new.opened ≡ ended_at around.start self.old.opened }
        ensures above { self.new.above ≡ above.entry }
        ensures wanted { self.new.wanted ≡ record self.old.wanted { notes = around.notes } }
        ensures included { self.new.included ≡ self.old.included }
    {
        let OuterBlocks { start, notes } = around;
        self.opened.end(start);
        self.above = above;
        self.wanted.notes = notes;
    }

    /// Opens the body of this definer, and hands those out who were above.
    pub fn enter(
        &mut self,
        asked: BlockRequest<'_>,
        definer: &Definer<'t>,
    ) -> TeraResult<Definers<'t>>
        ensures opened { OnOk result (self.new.opened
            ≡ blocks_opened_by asked.entry definer.now.number self.old.opened) }
        ensures above { OnOk result (self.new.above ≡ definer.now.above) }
        ensures wanted { self.new.wanted ≡ self.old.wanted }
        ensures included { self.new.included ≡ self.old.included }
        ensures before { IfOk result (λ above. above ≡ self.old.above) }
        ensures lacks { IfErr result Lacks }
    {
        match asked {
            BlockRequest::Block(name, _) => self.opened.push(OpenBlock {
                name: name.share()?,
                number: definer.number,
            })?,
            BlockRequest::Super(_) => {}
        }
        let above = self.above;
        self.above = definer.above;
        Ok(above)
    }

    /// Closes the body, with those above who were there before.
    pub fn leave(&mut self, asked: BlockRequest<'_>, above: Definers<'t>)
        ensures opened { self.new.opened ≡ blocks_closed_by asked.entry self.old.opened }
        ensures above { self.new.above ≡ above.entry }
        ensures wanted { self.new.wanted ≡ self.old.wanted }
        ensures included { self.new.included ≡ self.old.included }
    {
        match asked {
            BlockRequest::Block(_, _) => self.opened.pop(),
            BlockRequest::Super(_) => {}
        }
        self.above = above;
    }
}
