// Bodies of blocks: how the machine enters them, and how it leaves them.
ghost use Rattle.std.specs.Prelude.{◌≡◌, ◌≢◌, [], OnOk, IfOk, IfErr};
ghost use Rattle.tera_errors.specs.Prelude.{Lacks};
ghost use Rattle.tera_state.specs.Prelude.{coming_of};
ghost use Rattle.tera_meaning.specs.Prelude.{definers};
ghost use Rattle.tera_registry.specs.Prelude.{definers_of, first_number_of, AreAmong};
ghost use Rattle.tera_machine.specs.Config.{config_of, loops_at};
ghost use Rattle.tera_machine.specs.Exec.{entered};
ghost use Rattle.tera_machine.specs.Flow.{block_request, block_use};
ghost use Rattle.tera_machine.specs.Subject.{AreFrom, AreNumbered, IsLinked, IsOf, Belong, first_number_for, template_of, place_at};
ghost use Rattle.tera_machine.specs.WantedBlock.{ended_by, Noted};
ghost use Rattle.tera_machine.specs.Bodies.{FindsBody, IsNumbered, Enters, closed_in};

use crate::configuration::Configuration;
use crate::ended_blocks::EndedBlocks;
use crate::loop_place::LoopPlace;
use crate::machine::{Limit, VirtualMachine};
use crate::open_bodies::{OpenBodies, OuterBlocks};
use crate::refusals::{no_block, no_definer_above, open_block};
use crate::requests::BlockRequest;
use crate::wanted_block::WantedBlock;
use std::mem::replace;
use tera_code::Chunk;
use tera_operators::Operand;
use tera_registry::{Body, Definer, Definers, FoundTemplate};
use tera_state::{Objects, Stack};
use tera_values::{Name, Span, TeraResult};

/// What a body that takes another has to itself: its open loops, and the blocks that ended in it so far.
#[derive(Drop)]
pub struct SavedBody {
    pub places: Stack<LoopPlace>,
    pub ended: EndedBlocks,
}

/// A body that is entered, which this definer has, and what is to be again behind it.
#[derive(Drop)]
pub struct EnteredBlock<'t> {
    pub definer: Definer<'t>,
    pub above: Definers<'t>,
    pub outer: SavedBody,
}

/// What is to be made of a body's text, and what is to be again behind it.
#[derive(Drop)]
pub enum BodyEnd<'t> {
    /// It is what was asked for.
    Block(BlockRequest<'t>),
    /// It is written. This is open again, and this template is rendered.
    Include {
        around: OuterBlocks,
        template: Option<FoundTemplate<'t>>,
    },
    /// It is an operand, which may be safe. This is open again, with the templates that are included above this start, and
    /// this template is rendered.
    Component {
        around: OuterBlocks,
        included: usize,
        template: Option<FoundTemplate<'t>>,
        depth: usize,
        safe: bool,
        span: Span,
    },
}

/// Where a body goes on.
#[derive(Clone, Copy)]
pub struct ResumePoint<'t> {
    pub body: Body<'t>,
    pub at: usize,
}

/// A body that waits for one that it takes: where it goes on, those who define its block above, its loops and the blocks that
/// ended in it, and the rest of what is to be again then.
#[derive(Drop)]
pub struct Waiting<'t> {
    pub body: Body<'t>,
    pub at: usize,
    pub above: Definers<'t>,
    pub outer: SavedBody,
    pub back: BodyEnd<'t>,
}

impl<'c> Configuration<'c> {
    // A body begins: it has a text of its own, no open loop, and no block that ended.
    pub(crate) fn begin_body(&mut self) -> TeraResult<SavedBody>
        ensures config { OnOk result (config_of self.new ≡ entered (config_of self.old).run.vars
            (config_of self.old)) }
        ensures none { OnOk result (self.new.places ≡ []) }
        ensures places { IfOk result (λ o. o.places ≡ self.old.places) }
        ensures ended { IfOk result (λ o. o.ended.all ≡ self.old.ended.all) }
        ensures scopes { OnOk result (self.new.scopes ≡ self.old.scopes) }
        ensures lacks { IfErr result Lacks }
    {
        self.texts.begin()?;
        let places = Stack::new(self.alloc);
        Ok(SavedBody {
            places: replace(&mut self.places, places),
            ended: replace(&mut self.ended, EndedBlocks::new()),
        })
    }

    // The body ends: its text joins the one around it, or becomes a safe operand. That of a block is kept where it is wanted.
    pub(crate) fn end_body(
        &mut self,
        asked: BlockRequest<'_>,
        outer: SavedBody,
        wanted: &mut WantedBlock,
    ) -> TeraResult<()>
        requires { (config_of self.old).captures ≢ [] }
        ensures config { OnOk result (config_of self.new ≡ closed_in (config_of self.old).captures
            (block_request asked.entry) (block_use asked.entry) outer.ended.all
            (loops_at outer.places (coming_of self.old.scopes)) (config_of self.old)) }
        ensures places { OnOk result (self.new.places ≡ outer.places) }
        ensures noted { OnOk result (Noted wanted.old
            (ended_by asked.entry self.old.texts.now) wanted.new) }
        ensures scopes { OnOk result (self.new.scopes ≡ self.old.scopes) }
        ensures lacks { IfErr result Lacks }
    {
        let SavedBody { places, ended } = outer;
        self.places = places;
        match asked {
            BlockRequest::Block(name, _) => {
                let text = self.texts.text();
                wanted.note(self.alloc, name, text)?;
                self.ended = EndedBlocks::with_block(
                    &ended,
                    &self.ended,
                    name.as_str().as_bytes(),
                    text.as_bytes(),
                );
                self.texts.join();
                Ok(())
            }
            BlockRequest::Super(span) => {
                self.ended = EndedBlocks::join(&ended, &self.ended);
                let value = self.texts.value(self.alloc, true)?;
                self.texts.end();
                self.operands.push(Operand::new(value, span))?;
                Ok(())
            }
        }
    }
}

impl<'t, O: Objects> VirtualMachine<'t, O> {
    // Those who define a block for the template that is rendered.
    fn definers<M: Limit>(&self, name: &Name) -> Definers<'t>
        requires { IsLinked self.now M.world }
        ensures those { definers_of result
            ≡ definers M.world.registry (template_of self.now) name.now }
        ensures number { first_number_of result
            ≡ first_number_for M.world.registry (template_of self.now) name.now }
        ensures among { AreAmong M.world.registry result }
    {
        match self.template {
            Some(found) => found.definers(name.as_str()),
            None => Definers::of_none(),
        }
    }

    // The body to take, or the fault of the request.
    fn definer<M: Limit>(
        &self,
        chunk: &Chunk,
        asked: BlockRequest<'_>,
        blocks: &OpenBodies<'t>,
    ) -> TeraResult<Definer<'t>>
        requires linked { IsLinked self.now M.world }
        requires among { AreAmong M.world.registry blocks.now.above }
        requires numbered { AreNumbered M.world.registry (template_of self.now)
            blocks.now.opened.inner }
        ensures finds { (c : Configuration) → FindsBody M.world
            (place_at self.now chunk.now.file blocks.now c) asked.entry
            (config_of c).run.vars result }
        ensures number { IfOk result (λ d. IsNumbered M.world.registry (template_of self.now)
            asked.entry d.number) }
        ensures belong { IfOk result (λ d. IsOf M.world.registry d.body
            × AreAmong M.world.registry d.above) }
    {
        match asked {
            BlockRequest::Block(name, span) => {
                let Some(definer) = self.definers::<M>(name).next() else {
                    return Err(no_block(self.alloc, name, chunk.file(), span));
                };
                if blocks.opened.has(definer.number) {
                    return Err(open_block(self.alloc, name, chunk.file(), span));
                }
                Ok(definer)
            }
            BlockRequest::Super(span) => match blocks.above.next() {
                Some(definer) => Ok(definer),
                None => Err(no_definer_above(self.alloc, chunk.file(), span)),
            },
        }
    }

    /// Enters the body that is asked for.
    pub(crate) fn enter<M: Limit>(
        &self,
        chunk: &Chunk,
        asked: BlockRequest<'_>,
        blocks: &mut OpenBodies<'t>,
        configuration: &mut Configuration<'_>,
    ) -> TeraResult<EnteredBlock<'t>>
        requires linked { IsLinked self.now M.world }
        requires among { AreAmong M.world.registry blocks.old.above }
        requires included { AreFrom blocks.old.included.inner M.world.registry }
        requires numbered { AreNumbered M.world.registry (template_of self.now)
            blocks.old.opened.inner }
        ensures enters { Enters M.world self.now chunk.now.file asked.entry blocks.old
            configuration.old result blocks.new configuration.new }
        ensures belong { IfOk result (λ inside. Belong M.world self.now inside.definer.body
            blocks.new) }
    {
        let definer = match self.definer::<M>(chunk, asked, blocks) {
            Ok(definer) => definer,
            Err(error) => return Err(error),
        };
        let above = blocks.enter(asked, &definer)?;
        let outer = configuration.begin_body()?;
        Ok(EnteredBlock {
            definer,
            above,
            outer,
        })
    }
}
