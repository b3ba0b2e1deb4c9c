// Instructions of captures, and the ways out of them.
ghost use Rattle.tera_machine.specs.Config.{config_of};
ghost use Rattle.tera_machine.specs.Effect.{IsReady, IsSmall, Does, beneath};
ghost use Rattle.std.specs.Prelude.{◌≡◌};
ghost use Rattle.tera_state.specs.Prelude.{around_of};
ghost use Rattle.tera_machine.specs.Loops.{innermost};
ghost use Rattle.tera_machine.specs.Captures.{capture_started, capture_ended, dropped, loop_left, turn_left};

use crate::configuration::Configuration;
use crate::machine::{Flow, FlowResult, VirtualMachine};
use tera_state::Objects;
use tera_values::{Span, Value};

impl<'c> Configuration<'c> {
    #[inline(never)]
    pub(crate) fn start_capture<'f>(&mut self) -> FlowResult<'f>
        ensures { Does capture_started self.old result self.new }
    {
        self.texts.begin()?;
        Ok(Flow::On)
    }

    // The text is safe where texts are escaped: what is put out in a capture is escaped already.
    #[inline(never)]
    pub(crate) fn end_capture<'f, O: Objects>(
        &mut self,
        machine: &VirtualMachine<'_, O>,
        span: Span,
    ) -> FlowResult<'f>
        requires { IsReady (capture_ended machine.now.autoescape span) self.old }
        ensures { Does (capture_ended machine.now.autoescape span) self.old result self.new }
    {
        let value = self.texts.value(machine.alloc, machine.autoescape)?;
        self.texts.end();
        self.push_value(value, span)
    }

    // At the instruction that closes the loop.
    pub(crate) fn leave_loop<'f>(&mut self, drops: usize) -> FlowResult<'f>
        requires { IsSmall (loop_left drops (config_of self.old)) }
        ensures { Does (loop_left drops) self.old result self.new }
    {
        match self.leave_captures(drops) {
            Some((start, size)) => Ok(Flow::To(start, size + 1)),
            None => Ok(Flow::Out),
        }
    }

    // At the instruction that begins the next turn.
    pub(crate) fn leave_turn<'f>(&mut self, drops: usize) -> FlowResult<'f>
        ensures { Does (turn_left drops) self.old result self.new }
    {
        match self.leave_captures(drops) {
            Some((start, size)) => Ok(Flow::To(start, size)),
            None => Ok(Flow::Out),
        }
    }

    // Drops so many captures, and tells where the body of the innermost loop starts, and its size.
    fn leave_captures(&mut self, drops: usize) -> Option<(usize, usize)>
        ensures dropped { config_of self.new ≡ dropped drops (config_of self.old) }
        ensures innermost { result ≡ innermost (config_of self.old).loops }
        ensures beneath { beneath self.new ≡ beneath self.old }
        ensures stays { around_of self.new.scopes ≡ around_of self.old.scopes }
    {
        self.texts.drop_captures(drops);
        self.innermost_loop()
    }
}
