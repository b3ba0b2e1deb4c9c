// Loops and comprehensions.
ghost use Rattle.std.specs.Prelude.{◌≡◌, ◌<◌, OnOk, IfOk, length, option_copied};
ghost use Rattle.tera_code.specs.Code.{expr_code, turn_code, lengthened};
ghost use Rattle.tera_code.specs.Filling.{looped};
ghost use Rattle.tera_syntax_tree.specs.Prelude.{comprehension_of, expr_of, optional_of};

use crate::compiler::Compiler;
use crate::instruction::Instruction;
use crate::instruction_parts::{LentName, Spreads};
use std::alloc::{AllocError, Global};
use tera_errors::alloc_result;
use tera_syntax_tree::{Collected, Heading};
use tera_values::{Name, Span};

impl Compiler {
    // An array of what is kept in the turns of a loop.
    #[cycle(expressions)]
    #[inline(never)]
    pub(crate) fn comprehension(
        &mut self,
        collected: &Collected,
        span: Span,
    ) -> Result<(), AllocError>
        ensures ok { OnOk result (self.new ≡ lengthened self.old
            (expr_code (comprehension_of collected.now span))) }
    {
        let heading = &collected.heading;
        self.expression(&heading.target)?;
        let start = self.keep_position()?;
        self.turn(collected)?;
        self.end_turns(start, heading, false)?;
        self.emit(Instruction::EndComprehension(span))?;
        self.emit(Instruction::MakeArray(Spreads::new(&[]), span))
    }

    // What a turn keeps: the value, where there is no condition or that is truthy.
    #[cycle(expressions)]
    fn turn(&mut self, collected: &Collected) -> Result<(), AllocError>
        ensures ok { OnOk result (self.new ≡ lengthened self.old (turn_code
            (optional_of collected.now.condition) (expr_code (expr_of collected.now.value)))) }
    {
        match &collected.condition {
            None => {
                self.expression(&collected.value)?;
                self.emit(Instruction::Keep)
            }
            Some(condition) => {
                self.expression(condition)?;
                let position = self.keep_position()?;
                self.expression(&collected.value)?;
                self.emit(Instruction::Keep)?;
                self.fill(
                    position,
                    Instruction::PopJumpIfFalse(self.count_after(position)),
                )
            }
        }
    }

    // The turns of a loop end, which stand behind the position that was kept for its start.
    pub(crate) fn end_turns(
        &mut self,
        start: usize,
        heading: &Heading,
        counts: bool,
    ) -> Result<(), AllocError>
        requires { start < length self.old.code }
        ensures ok { OnOk result (self.new ≡ looped start heading.now counts self.old) }
    {
        let key = key_name(self.alloc(), &heading.key)?;
        let name = self.name(heading.name)?;
        let size = self.count_after(start);
        self.fill(
            start,
            Instruction::StartLoop {
                key: LentName::from_option(&key),
                name: LentName::new(&name),
                counts,
                size,
            },
        )?;
        self.emit(Instruction::NextTurn)
    }
}

fn key_name(alloc: Global, key: &Option<&str>) -> Result<Option<Name>, AllocError>
    ensures { IfOk result (λ k. k ≡ option_copied key.now) }
{
    match key {
        None => Ok(None),
        Some(key) => Ok(Some(alloc_result(Name::new(alloc, key))?)),
    }
}
