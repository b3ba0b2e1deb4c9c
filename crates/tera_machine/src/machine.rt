// A run of a body, and of those that it takes.
ghost use Rattle.std.specs.Prelude.{◌≡◌, ◌≢◌, IfErr, IfOk, IfSome, ℕ, ◌+◌, ◌-◌, ◌*◌, ◌≤◌, [], None, Some, IsTrue, OnOk, string_bytes, map};
ghost use Rattle.tera_meaning.specs.Prelude.{visits_of, new_registry, alone, block_of, World};
ghost use Rattle.tera_errors.specs.Prelude.{Gives, Lacks};
ghost use Rattle.tera_state.specs.Prelude.{around_of};
ghost use Rattle.tera_code.specs.Prelude.{nodes_code};
ghost use Rattle.tera_registry.specs.Prelude.{kept_of, code_of};
ghost use Rattle.tera_code.specs.Targets.{TemplateNamed, ComponentNamed};
ghost use Rattle.tera_machine.specs.Config.{config_of};
ghost use Rattle.tera_machine.specs.Exec.{EndsWithin, Ran};
ghost use Rattle.tera_machine.specs.Flow.{Written, request_of, use_of, block_request, block_use, include_request, component_request, component_use};
ghost use Rattle.tera_machine.specs.Bodies.{Stays};
ghost use Rattle.tera_machine.specs.Open.{TakesBefore, TakesRequested, TakesBody, HasOuter, Resumes};
ghost use Rattle.tera_machine.specs.Subject.{Subject, IsLinked, IsOf, Belong, kept_beside, meant_from, engine_of, place_at, place_of, Means};

use crate::block_bodies::{BodyEnd, EnteredBlock, ResumePoint, Waiting};
use crate::call_notes::with_call_notes;
use crate::components::{ComponentBody, OneOffComponents};
use crate::configuration::Configuration;
use crate::cursor::Cursor;
use crate::open_bodies::OpenBodies;
use crate::requests::{BlockRequest, ComponentRequest, IncludeRequest, Request};
use crate::wanted_block::WantedBlock;
use std::alloc::Global;
use std::marker::Brand;
use tera_code::{Steps, Tally};
use tera_registry::{Body, FoundTemplate, TextTable};
use tera_state::{Objects, Stack};
use tera_values::{Name, TeraResult};

/// Where the machine goes on.
#[derive(Drop)]
pub enum Flow<'f> {
    /// At the next instruction.
    On,
    /// So many instructions behind the next one.
    Skip(usize),
    /// So many instructions behind a position.
    To(usize, usize),
    /// At the end of the body.
    Out,
    /// At the next instruction, when another body was run.
    Call(Request<'f>),
}

/// Where the machine goes on, or why it does not.
pub(crate) type FlowResult<'f> = TeraResult<Flow<'f>>;

/// What a run stands on, and how high the count of instructions may rise. Contracts alone see it.
pub trait Limit {
    ghost world: { World };

    ghost most: { ℕ };
}

impl Limit for Brand {
    ghost world = { alone new_registry };

    ghost most = { 0 };
}

/// Runs bodies of a table, which lead to what they include and call. It holds what no run changes:
/// - the objects, which it asks for filters, tests, functions and the escape;
/// - the template that is rendered, if one is, of which it takes blocks;
/// - the text beside the templates, if one is rendered, with the components that it defines;
/// - how many components are open around what it runs.
#[derive_where(Clone, Copy)]
pub struct VirtualMachine<'t, O> {
    pub(crate) alloc: Global,
    pub(crate) autoescape: bool,
    pub(crate) objects: &'t O,
    pub(crate) template: Option<FoundTemplate<'t>>,
    pub(crate) beside: Option<OneOffComponents<'t>>,
    pub(crate) depth: usize,
}

impl<'t, O: Objects> VirtualMachine<'t, O> {
    /// A machine for bodies of no template, that escapes what it writes.
    pub fn new(alloc: Global, objects: &'t O) -> VirtualMachine<'t, O>
        ensures escapes { IsTrue result.autoescape }
        ensures objects { result.objects.now ≡ objects.now }
        ensures alone { result.template ≡ None }
        ensures text { result.beside ≡ None }
        ensures beside { kept_beside result.beside ≡ [] }
        ensures depth { result.depth ≡ 0 }
    {
        VirtualMachine::new_with_autoescape(alloc, true, objects)
    }

    /// The same, that escapes what it writes where the flag says so.
    pub fn new_with_autoescape(
        alloc: Global,
        autoescape: bool,
        objects: &'t O,
    ) -> VirtualMachine<'t, O>
        ensures escapes { result.autoescape ≡ autoescape }
        ensures objects { result.objects.now ≡ objects.now }
        ensures alone { result.template ≡ None }
        ensures text { result.beside ≡ None }
        ensures beside { kept_beside result.beside ≡ [] }
        ensures depth { result.depth ≡ 0 }
    {
        VirtualMachine {
            alloc,
            autoescape,
            objects,
            template: None,
            beside: None,
            depth: 0,
        }
    }

    /// A machine for a template of an engine: blocks are those of that template.
    pub fn for_template(
        alloc: Global,
        autoescape: bool,
        template: FoundTemplate<'t>,
        objects: &'t O,
    ) -> VirtualMachine<'t, O>
        ensures escapes { result.autoescape ≡ autoescape }
        ensures objects { result.objects.now ≡ objects.now }
        ensures template { result.template ≡ Some template.entry }
        ensures text { result.beside ≡ None }
        ensures beside { kept_beside result.beside ≡ [] }
        ensures depth { result.depth ≡ 0 }
    {
        VirtualMachine {
            alloc,
            autoescape,
            objects,
            template: Some(template),
            beside: None,
            depth: 0,
        }
    }

    /// The same, for this text.
    pub fn with_text(self, text: &'t TextTable<'t>) -> VirtualMachine<'t, O>
        ensures escapes { result.autoescape ≡ self.entry.autoescape }
        ensures objects { result.objects.now ≡ self.entry.objects.now }
        ensures template { result.template ≡ self.entry.template }
        ensures text { IfSome result.beside (λ b. b.text.now ≡ text.now) }
        ensures beside { kept_beside result.beside ≡ map kept_of text.now.components.items }
        ensures depth { result.depth ≡ self.entry.depth }
    {
        VirtualMachine {
            beside: Some(OneOffComponents { text }),
            ..self
        }
    }

    /// Runs the code of a body to its end, and counts each instruction that it takes: at most eight a visit of the body's meaning.
    pub fn run<T: Tally>(
        &self,
        body: Body<'t>,
        configuration: &mut Configuration<'_>,
        steps: &mut Steps<T>,
    ) -> TeraResult<()>
        ghost about: { Subject }
        requires engine { engine_of O.engine self.now ≡ about.world.registry.engine }
        requires linked { IsLinked self.now about.world }
        requires here { IsOf about.world.registry body }
        requires place { place_of self.now (code_of body).file configuration.old ≡ about.place }
        requires code { (code_of body).code ≡ nodes_code about.tree 0 }
        requires own { (config_of configuration.old).loops ≡ [] }
        ensures counted { steps.old ≤ steps.new }
        ensures exact { Ran about.world about.place (code_of body.entry).code
            (config_of configuration.old) result (config_of configuration.new)
            (steps.new - steps.old) }
        ensures few { steps.new ≤ steps.old + 8 * visits_of (meant_from about configuration.old) }
        ensures means { Means (meant_from about configuration.old)
            (config_of configuration.old) result (config_of configuration.new) }
        ensures stays { OnOk result (around_of configuration.new.scopes
            ≡ around_of configuration.old.scopes) }
    {
        let mut blocks = OpenBodies::new(self.alloc, WantedBlock::of_none());
        self.run_counted::<Brand, T>(body, &mut blocks, configuration, steps)
    }

    /// The same, where no block ended before: the text of the block of this name as it ended last, or the empty text.
    pub fn run_for_block<T: Tally>(
        &self,
        body: Body<'t>,
        block: &Name,
        configuration: &mut Configuration<'_>,
        steps: &mut Steps<T>,
    ) -> TeraResult<String>
        ghost about: { Subject }
        requires engine { engine_of O.engine self.now ≡ about.world.registry.engine }
        requires linked { IsLinked self.now about.world }
        requires here { IsOf about.world.registry body }
        requires place { place_of self.now (code_of body).file configuration.old ≡ about.place }
        requires code { (code_of body).code ≡ nodes_code about.tree 0 }
        requires own { (config_of configuration.old).loops ≡ [] }
        requires none { (config_of configuration.old).run.blocks ≡ [] }
        ensures counted { steps.old ≤ steps.new }
        ensures exact { Ran about.world about.place (code_of body.entry).code
            (config_of configuration.old) result (config_of configuration.new)
            (steps.new - steps.old) }
        ensures few { steps.new ≤ steps.old + 8 * visits_of (meant_from about configuration.old) }
        ensures text { Gives string_bytes result
            (block_of block.now (meant_from about configuration.old)) }
    {
        let wanted = WantedBlock::of_name(block)?;
        let mut blocks = OpenBodies::new(self.alloc, wanted);
        match self.run_counted::<Brand, T>(body, &mut blocks, configuration, steps) {
            Ok(()) => {}
            Err(error) => return Err(error),
        }
        let OpenBodies {
            opened: _,
            above: _,
            wanted,
            included: _,
        } = blocks;
        Ok(wanted.into_text(self.alloc))
    }

    // The same, in the machine's own terms, and where blocks may be open. A fault is told of the bodies that wait then.
    fn run_counted<M: Limit, T: Tally>(
        &self,
        first: Body<'t>,
        blocks: &mut OpenBodies<'t>,
        configuration: &mut Configuration<'_>,
        steps: &mut Steps<T>,
    ) -> TeraResult<()>
        requires engine { engine_of O.engine self.now ≡ M.world.registry.engine }
        requires linked { IsLinked self.now M.world }
        requires belong { Belong M.world self.now first blocks.old }
        requires within { EndsWithin M.world
            (place_at self.now (code_of first).file blocks.old configuration.old)
            (code_of first).code 0 (config_of configuration.old) (M.most - steps.old) }
        ensures counted { steps.old ≤ steps.new }
        ensures bounded { steps.old ≤ M.most → steps.new ≤ M.most }
        ensures ends { Ran M.world
            (place_at self.now (code_of first.entry).file blocks.old configuration.old)
            (code_of first.entry).code (config_of configuration.old) result
            (config_of configuration.new) (steps.new - steps.old) }
        ensures stays { OnOk result (Stays blocks.old configuration.old blocks.new
            configuration.new) }
    {
        let mut open: Stack<Waiting<'t>> = Stack::new(self.alloc);
        match self.run_open::<M, T>(first, blocks, configuration, steps, &mut open) {
            Ok(()) => Ok(()),
            Err(error) => Err(with_call_notes(self.alloc, error, &open)),
        }
    }

    // The same, where no body waits at first. Those that wait for those that they take lie in a
    // list, so the host's stack does not grow.
    #[inline(never)]
    fn run_open<M: Limit, T: Tally>(
        &self,
        first: Body<'t>,
        blocks: &mut OpenBodies<'t>,
        configuration: &mut Configuration<'_>,
        steps: &mut Steps<T>,
        open: &mut Stack<Waiting<'t>>,
    ) -> TeraResult<()>
        requires engine { engine_of O.engine self.now ≡ M.world.registry.engine }
        requires linked { IsLinked self.now M.world }
        requires belong { Belong M.world self.now first blocks.old }
        requires within { EndsWithin M.world
            (place_at self.now (code_of first).file blocks.old configuration.old)
            (code_of first).code 0 (config_of configuration.old) (M.most - steps.old) }
        requires none { open.old ≡ [] }
        ensures counted { steps.old ≤ steps.new }
        ensures bounded { steps.old ≤ M.most → steps.new ≤ M.most }
        ensures ends { Ran M.world
            (place_at self.now (code_of first.entry).file blocks.old configuration.old)
            (code_of first.entry).code (config_of configuration.old) result
            (config_of configuration.new) (steps.new - steps.old) }
        ensures stays { OnOk result (Stays blocks.old configuration.old blocks.new
            configuration.new) }
    {
        let mut machine = *self;
        let mut body = first;
        let mut cursor = Cursor {
            chunk: body.chunk(),
            at: 0,
            steps,
        };
        'bodies: loop {
            let chunk = cursor.chunk;
            let Some(instruction) = chunk.get(cursor.at, cursor.steps) else {
                if open.len() == 0 {
                    return Ok(());
                }
                match machine.leave(open, blocks, configuration) {
                    Ok(behind) => {
                        body = behind.body;
                        cursor.at = behind.at;
                    }
                    Err(error) => return Err(error),
                }
                cursor.chunk = body.chunk();
                continue;
            };
            let flow = match configuration.run_instruction(&machine, &mut cursor, &instruction) {
                Ok(flow) => flow,
                Err(error) => return Err(error),
            };
            let next = cursor.at + 1;
            match flow {
                Flow::On => cursor.at = next,
                Flow::Skip(count) => cursor.at = next + count,
                Flow::To(place, count) => cursor.at = place + count,
                Flow::Out => cursor.at = chunk.len(),
                Flow::Call(request) => {
                    match machine.start_body::<M>(
                        body,
                        next,
                        request,
                        blocks,
                        configuration,
                        open,
                    ) {
                        Ok(inner) => body = inner,
                        Err(error) => return Err(error),
                    }
                    cursor.chunk = body.chunk();
                    cursor.at = 0;
                }
            }
        }
    }

    // The body that is requested begins, and the one that requests it waits, to go on at that position.
    #[inline(never)]
    fn start_body<M: Limit>(
        &mut self,
        here: Body<'t>,
        next: usize,
        request: Request<'t>,
        blocks: &mut OpenBodies<'t>,
        configuration: &mut Configuration<'_>,
        waiting: &mut Stack<Waiting<'t>>,
    ) -> TeraResult<Body<'t>>
        requires linked { IsLinked self.old M.world }
        requires belong { Belong M.world self.old here blocks.old }
        requires takes { TakesRequested here next request }
        ensures { TakesBody M.world self.old here.entry next (request_of request.entry)
            (use_of request.entry) blocks.old configuration.old waiting.old self.new result
            blocks.new configuration.new waiting.new }
    {
        match request {
            Request::Block(name, span) => {
                let asked = BlockRequest::Block(name, span);
                self.start_block::<M>(here, next, asked, blocks, configuration, waiting)
            }
            Request::Super(span) => {
                let asked = BlockRequest::Super(span);
                self.start_block::<M>(here, next, asked, blocks, configuration, waiting)
            }
            Request::Include(name, span) => {
                let asked = IncludeRequest { name, span };
                self.start_include::<M>(here, next, asked, blocks, configuration, waiting)
            }
            Request::Component(asked) => {
                self.start_component::<M>(here, next, asked, blocks, configuration, waiting)
            }
        }
    }

    // The same of a block, or of what a template above makes of it.
    #[inline(never)]
    fn start_block<M: Limit>(
        &self,
        here: Body<'t>,
        next: usize,
        asked: BlockRequest<'t>,
        blocks: &mut OpenBodies<'t>,
        configuration: &mut Configuration<'_>,
        waiting: &mut Stack<Waiting<'t>>,
    ) -> TeraResult<Body<'t>>
        requires linked { IsLinked self.now M.world }
        requires belong { Belong M.world self.now here blocks.old }
        ensures { TakesBody M.world self.now here.entry next (block_request asked.entry)
            (block_use asked.entry) blocks.old configuration.old waiting.old self.now result
            blocks.new configuration.new waiting.new }
    {
        let inside = match self.enter::<M>(here.chunk(), asked, blocks, configuration) {
            Ok(inside) => inside,
            Err(error) => return Err(error),
        };
        let EnteredBlock {
            definer,
            above,
            outer,
        } = inside;
        waiting.push(Waiting {
            body: here,
            at: next,
            above,
            outer,
            back: BodyEnd::Block(asked),
        })?;
        Ok(definer.body)
    }

    // The same of the template that is included.
    #[inline(never)]
    fn start_include<M: Limit>(
        &mut self,
        here: Body<'t>,
        next: usize,
        asked: IncludeRequest<'t>,
        blocks: &mut OpenBodies<'t>,
        configuration: &mut Configuration<'_>,
        waiting: &mut Stack<Waiting<'t>>,
    ) -> TeraResult<Body<'t>>
        requires linked { IsLinked self.old M.world }
        requires belong { Belong M.world self.old here blocks.old }
        requires takes { TakesBefore here next (TemplateNamed asked.name.now) }
        ensures { TakesBody M.world self.old here.entry next (include_request asked.entry)
            Written blocks.old configuration.old waiting.old self.new result blocks.new
            configuration.new waiting.new }
    {
        let found = match self.resolve_include::<M>(here, next, asked, blocks) {
            Ok(found) => found,
            Err(error) => return Err(error),
        };
        let outer = configuration.begin_include()?;
        blocks.included.push(found)?;
        let above = blocks.above;
        let around = blocks.enter_apart();
        waiting.push(Waiting {
            body: here,
            at: next,
            above,
            outer,
            back: BodyEnd::Include {
                around,
                template: self.template,
            },
        })?;
        self.template = Some(found);
        Ok(found.body())
    }

    // The same of the component that is called.
    #[inline(never)]
    fn start_component<M: Limit>(
        &mut self,
        here: Body<'t>,
        next: usize,
        asked: Box<ComponentRequest<'t>>,
        blocks: &mut OpenBodies<'t>,
        configuration: &mut Configuration<'_>,
        waiting: &mut Stack<Waiting<'t>>,
    ) -> TeraResult<Body<'t>>
        requires linked { IsLinked self.old M.world }
        requires belong { Belong M.world self.old here blocks.old }
        requires takes { TakesBefore here next (ComponentNamed asked.value.name.now) }
        ensures { TakesBody M.world self.old here.entry next (component_request asked.entry.value)
            (component_use asked.entry.value) blocks.old configuration.old waiting.old self.new
            result blocks.new configuration.new waiting.new }
    {
        let asked = Box::into_inner(asked);
        let safe = asked.safe;
        let span = asked.span;
        let called = match self.resolve_component::<M>(here, next, asked, configuration) {
            Ok(called) => called,
            Err(error) => return Err(error),
        };
        let ComponentBody {
            body,
            context,
            depth,
        } = called;
        let outer = configuration.begin_component(context)?;
        let above = blocks.above;
        let around = blocks.enter_apart();
        let included = blocks.included.begin();
        waiting.push(Waiting {
            body: here,
            at: next,
            above,
            outer,
            back: BodyEnd::Component {
                around,
                included,
                template: self.template,
                depth: self.depth,
                safe,
                span,
            },
        })?;
        self.template = None;
        self.depth = depth;
        Ok(body)
    }

    // A body ends, and the one that waited for it runs again.
    #[inline(never)]
    fn leave(
        &mut self,
        waiting: &mut Stack<Waiting<'t>>,
        blocks: &mut OpenBodies<'t>,
        configuration: &mut Configuration<'_>,
    ) -> TeraResult<ResumePoint<'t>>
        requires waits { waiting.old ≢ [] }
        requires text { (config_of configuration.old).captures ≢ [] }
        requires state { HasOuter waiting.old configuration.old }
        ensures ok { IfOk result (λ behind. Resumes self.old waiting.old blocks.old
            configuration.old behind self.new waiting.new blocks.new configuration.new) }
        ensures lacks { IfErr result Lacks }
    {
        let Waiting {
            body,
            at,
            above,
            outer,
            back,
        } = waiting.pop_top();
        match back {
            BodyEnd::Block(asked) => {
                configuration.end_body(asked, outer, &mut blocks.wanted)?;
                blocks.leave(asked, above);
            }
            BodyEnd::Include { around, template } => {
                self.template = template;
                blocks.leave_apart(around, above);
                blocks.included.pop();
                configuration.end_include(outer)?;
            }
            BodyEnd::Component {
                around,
                included,
                template,
                depth,
                safe,
                span,
            } => {
                self.template = template;
                self.depth = depth;
                blocks.leave_apart(around, above);
                blocks.included.end(included);
                configuration.end_component(safe, span, outer)?;
            }
        }
        Ok(ResumePoint { body, at })
    }
}
