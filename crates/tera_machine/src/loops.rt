// Instructions of loops.
ghost use Rattle.std.specs.Prelude.{◌≡◌, ◌≢◌, []};
ghost use Rattle.tera_errors.specs.Prelude.{Gives};
ghost use Rattle.tera_operators.specs.Prelude.{placed};
ghost use Rattle.tera_state.specs.Prelude.{Heading, loop_turns, around_of, turns_left};
ghost use Rattle.tera_machine.specs.Config.{config_of};
ghost use Rattle.tera_machine.specs.Effect.{CanDo, IsReady, Does, beneath};
ghost use Rattle.tera_machine.specs.Loops.{loop_started, turned, loop_ended, kept, comprehension_ended, innermost, Closes};
ghost use Rattle.tera_machine.specs.Subject.{here_of};

use crate::configuration::Configuration;
use crate::loop_place::LoopPlace;
use crate::machine::{Flow, FlowResult, VirtualMachine};
use std::alloc::Global;
use tera_code::LentName;
use tera_operators::{Operand, fault_of_value_at};
use tera_state::{ForLoop, Objects};
use tera_values::{Span, TeraResult, Value};

// The loop over the operand at its first turn, or none where there is no item. What is no target of a loop is a fault at
// the operand.
fn open_loop(
    alloc: Global,
    file: &str,
    key: &Option<LentName<'_>>,
    name: &LentName<'_>,
    counts: bool,
    target: Operand,
) -> TeraResult<Option<ForLoop>>
    ensures { let heading : Heading = record { name = name.now; key = key.now; counts = counts } in
        Gives turns_left result (placed file.now (loop_turns heading target.value) target.span) }
{
    let span = target.span();
    let name = name.share()?;
    let key = LentName::share_option(key)?;
    let target = target.into_value();
    let opened = if counts {
        ForLoop::new(alloc, name, key, target)
    } else {
        ForLoop::new_comprehension(alloc, name, key, target)
    };
    match opened {
        Ok(opened) => Ok(opened),
        Err(error) => Err(fault_of_value_at(alloc, file, &error, span)),
    }
}

impl<'c> Configuration<'c> {
    // The body starts at the next position.
    pub(crate) fn start_loop<'f, O: Objects>(
        &mut self,
        machine: &VirtualMachine<'_, O>,
        file: &str,
        next: usize,
        key: &Option<LentName<'_>>,
        name: &LentName<'_>,
        counts: bool,
        size: usize,
    ) -> FlowResult<'f>
        requires { CanDo (loop_started (here_of O.engine machine.now file.now self.old)
            next key.now name.now counts size) self.old }
        ensures { Does (loop_started (here_of O.engine machine.now file.now self.old)
            next key.now name.now counts size) self.old result self.new }
    {
        let alloc = machine.alloc;
        let operand = self.operands.pop_top();
        match open_loop(alloc, file, key, name, counts, operand)? {
            None => Ok(Flow::Skip(size + 2)),
            Some(opened) => {
                self.scopes.open_loop(opened)?;
                let kept = Vec::new(alloc);
                self.places.push(LoopPlace {
                    start: next,
                    size,
                    kept,
                })?;
                Ok(Flow::On)
            }
        }
    }

    // The start of the body stands with the loop: nothing is looked for.
    #[inline(always)]
    pub(crate) fn next_turn<'f>(&mut self) -> FlowResult<'f>
        requires { IsReady turned self.old }
        ensures { Does turned self.old result self.new }
    {
        if !self.scopes.next_turn() {
            return Ok(Flow::On);
        }
        Ok(Flow::To(self.places.top().start, 0))
    }

    // Closes the innermost loop, and hands out what it kept.
    fn close_loop(&mut self) -> Vec<Value>
        requires { (config_of self.old).loops ≢ [] }
        ensures closes { Closes (config_of self.old) result.items (config_of self.new) }
        ensures beneath { beneath self.new ≡ beneath self.old }
        ensures stays { around_of self.new.scopes ≡ around_of self.old.scopes }
    {
        self.scopes.close_loop();
        let place = self.places.pop_top();
        let LoopPlace {
            start: _,
            size: _,
            kept,
        } = place;
        kept
    }

    pub(crate) fn end_loop<'f>(&mut self, skip: usize) -> FlowResult<'f>
        requires { IsReady (loop_ended skip) self.old }
        ensures { Does (loop_ended skip) self.old result self.new }
    {
        drop(self.close_loop());
        Ok(Flow::Skip(skip))
    }

    #[inline(always)]
    pub(crate) fn collect<'f>(&mut self) -> FlowResult<'f>
        requires { IsReady kept self.old }
        ensures { Does kept self.old result self.new }
    {
        let operand = self.operands.pop_top();
        let mut place = self.places.pop_top();
        place.kept.push(operand.into_value())?;
        self.places.push(place)?;
        Ok(Flow::On)
    }

    #[inline(always)]
    pub(crate) fn end_comprehension<'f>(&mut self, alloc: Global, span: Span) -> FlowResult<'f>
        requires { IsReady (comprehension_ended span) self.old }
        ensures { Does (comprehension_ended span) self.old result self.new }
    {
        let value = Value::array(self.close_loop()).into_shared(alloc)?;
        self.operands.push(Operand::new(value, span))?;
        Ok(Flow::Skip(1))
    }

    // Where the body of the innermost loop starts, and its size.
    pub(crate) fn innermost_loop(&self) -> Option<(usize, usize)>
        ensures { result ≡ innermost (config_of self.now).loops }
    {
        if !self.scopes.is_in_loop() {
            return None;
        }
        if self.places.len() == 0 {
            return None;
        }
        let place = self.places.top();
        Some((place.start, place.size))
    }
}
