// Instructions as a chunk hands them out.
ghost use Rattle.std.specs.Prelude.{◌≡◌, IfSome, IsTrue, Some, option_map};
ghost use Rattle.tera_values.specs.Val as val;
ghost use Rattle.tera_code.specs.declared.instruction.Instruction.TheVariants as instruction;
ghost use Rattle.tera_code.specs.InstructionParts.{written_text, written_name, loaded_name, loaded_integer, loaded_constant, loaded_attribute, applied_operator, bound_name, started_loop, ended_loop, jump_length, jump_length_if_false, included_template, taken_block, taken_super, taken_component, is_write_top, is_next_turn, uses_top};
ghost use Rattle.tera_built_ins.specs.Prelude.{filter_named, test_named};
ghost use Rattle.tera_code.specs.BuiltIn.{built_in_filter, built_in_test};
ghost use Rattle.tera_code.specs.Called.{callee_of, called_by};
ghost use Rattle.tera_code.specs.Choices.{falsy_jump_length, truthy_jump_length, is_not};
ghost use Rattle.tera_code.specs.Printing.{puts};

use crate::callee::Callee;
use crate::constant::Constant;
use crate::instruction::Instruction;
use crate::instruction_parts::{Keys, LentName, LentText, Names};
use crate::packed::{Packed, Tables};
use std::marker::Model;
use tera_built_ins::{BuiltInFilter, BuiltInTest};
use tera_syntax_tree::BinaryOperator;
use tera_values::{Name, Span};

/// An instruction that lies in its chunk. A contract sees the instruction that is meant. What is run most can be asked for
/// part by part, so that nothing else of it is built.
#[derive(Drop)]
pub struct LentInstruction<'a> {
    packed: &'a Packed,
    tables: &'a Tables,
}

impl<'a> Model for LentInstruction<'a> {
    ghost use Rattle.std.specs.Coded.{codes};
    ghost use Rattle.tera_values.specs.Coding.{val_coding};
    ghost use Rattle.tera_code.specs.declared.instruction.Instruction.{Instruction as Datum};
    ghost use Rattle.tera_code.specs.Packed.{Within, tables_of, unpacked};

    ghost Value = { Datum };

    ghost coded = { Prim.hlevel (codes, val_coding) };

    ghost view = { λ l. unpacked (tables_of l.tables.now) l.packed.now };

    ghost invariant = { λ l. Within (tables_of l.tables.now) l.packed.now };
}

impl<'a> LentInstruction<'a> {
    ghost use Rattle.tera_code.specs.Packed.{Within, tables_of, unpacked};

    #[inline(always)]
    pub(crate) fn new(packed: &'a Packed, tables: &'a Tables) -> LentInstruction<'a>
        requires { Within (tables_of tables.now) packed.now }
        ensures { result ≡ unpacked (tables_of tables.now) packed.now }
    {
        LentInstruction { packed, tables }
    }

    /// The instruction, with all its parts.
    #[inline(always)]
    pub fn unpack(&self) -> Instruction<'a>
        ensures { result ≡ self.now }
    {
        self.tables.unpack(*self.packed)
    }

    /// The text that it puts out.
    #[inline(always)]
    pub fn as_text(&self) -> Option<&'a str>
        ensures means { IfSome result (λ text. self.now ≡ instruction.WriteText text.now) }
        ensures exact { option_map (λ text. text.now) result ≡ written_text self.now }
    {
        match *self.packed {
            Packed::WriteText { start, end } => Some(self.tables.text_between(start, end)),
            _ => None,
        }
    }

    /// The name whose value it puts out.
    #[inline(always)]
    pub fn as_written_name(&self) -> Option<(&'a Name, Span)>
        ensures means { IfSome result (λ p. self.now ≡ instruction.WriteName p.0.now p.1) }
        ensures exact { option_map (λ p. (p.0.now, p.1)) result ≡ written_name self.now }
    {
        match *self.packed {
            Packed::WriteName { name, span } => {
                Some((self.tables.full_name(name), self.tables.span(span)))
            }
            _ => None,
        }
    }

    /// The name whose value it puts on top of the operands.
    #[inline(always)]
    pub fn as_loaded_name(&self) -> Option<(&'a Name, Span)>
        ensures means { IfSome result (λ p. self.now ≡ instruction.LoadName p.0.now p.1) }
        ensures exact { option_map (λ p. (p.0.now, p.1)) result ≡ loaded_name self.now }
    {
        match *self.packed {
            Packed::LoadName { name, span, .. } => {
                Some((self.tables.full_name(name), self.tables.span(span)))
            }
            _ => None,
        }
    }

    /// The integer that it puts on top of the operands.
    #[inline(always)]
    pub fn as_integer(&self) -> Option<(i64, Span)>
        ensures means { IfSome result (λ p. self.now ≡ instruction.LoadConst (val.int p.0) p.1) }
        ensures exact { option_map (λ p. (p.0, p.1)) result ≡ loaded_integer self.now }
    {
        match *self.packed {
            Packed::LoadInt { span, number } => Some((number, self.tables.span(span))),
            Packed::LoadConst { .. } => None,
            _ => None,
        }
    }

    /// The constant that it puts on top of the operands.
    #[inline(always)]
    pub fn as_constant(&self) -> Option<(Constant<'a>, Span)>
        ensures means { IfSome result (λ p. self.now ≡ instruction.LoadConst p.0 p.1) }
        ensures exact { option_map (λ p. (p.0, p.1)) result ≡ loaded_constant self.now }
    {
        match *self.packed {
            Packed::LoadNone { span }
            | Packed::LoadBool { span, .. }
            | Packed::LoadInt { span, .. }
            | Packed::LoadConst { span, .. } => Some((
                self.tables.constant_of(*self.packed),
                self.tables.span(span),
            )),
            _ => None,
        }
    }

    /// The attribute that it takes, and whether it may be missing.
    #[inline(always)]
    pub fn as_attribute(&self) -> Option<(LentText<'a>, bool, Span)>
        ensures means { IfSome result (λ p. self.now ≡ instruction.LoadAttribute p.0 p.1 p.2) }
        ensures exact { option_map (λ p. (p.0, p.1, p.2)) result ≡ loaded_attribute self.now }
    {
        match *self.packed {
            Packed::LoadAttribute {
                name,
                optional,
                span,
            } => Some((
                self.tables.attribute(name),
                optional,
                self.tables.span(span),
            )),
            _ => None,
        }
    }

    /// The operator that it applies to two operands.
    #[inline(always)]
    pub fn as_binary(&self) -> Option<(BinaryOperator, Span)>
        ensures means { IfSome result (λ p. self.now ≡ instruction.Binary p.0 p.1) }
        ensures exact { option_map (λ p. (p.0, p.1)) result ≡ applied_operator self.now }
    {
        match *self.packed {
            Packed::Binary { operator, span } => Some((operator, self.tables.span(span))),
            _ => None,
        }
    }

    /// The name that it binds, and whether that is outside of all turns.
    #[inline(always)]
    pub fn as_store(&self) -> Option<(&'a Name, bool)>
        ensures means { IfSome result (λ p. self.now ≡ instruction.Store p.0.now p.1) }
        ensures exact { option_map (λ p. (p.0.now, p.1)) result ≡ bound_name self.now }
    {
        match *self.packed {
            Packed::Store { name, is_global } => Some((self.tables.full_name(name), is_global)),
            _ => None,
        }
    }

    /// The loop that it opens: the names of keys, if there is one, and of values, whether turns are counted, and how many
    /// instructions its body has.
    #[inline(always)]
    pub fn as_start_loop(&self) -> Option<(Option<LentName<'a>>, LentName<'a>, bool, usize)>
        ensures means { IfSome result (λ p. self.now ≡ instruction.StartLoop p.0 p.1 p.2 p.3) }
        ensures exact { option_map (λ p. (p.0, p.1, p.2, p.3)) result ≡ started_loop self.now }
    {
        match *self.packed {
            Packed::StartLoop {
                counts,
                names,
                size,
                ..
            } => {
                let (key, name) = self.tables.loop_names(names);
                Some((key, name, counts, size))
            }
            _ => None,
        }
    }

    /// How many instructions it passes where a loop ends.
    #[inline(always)]
    pub fn as_end_loop(&self) -> Option<usize>
        ensures means { IfSome result (λ skip. self.now ≡ instruction.EndLoop skip) }
        ensures exact { result ≡ ended_loop self.now }
    {
        match *self.packed {
            Packed::EndLoop(skip) => Some(skip),
            _ => None,
        }
    }

    /// The template that it includes.
    #[inline(always)]
    pub fn as_include(&self) -> Option<(&'a Name, Span)>
        ensures means { IfSome result (λ p. self.now ≡ instruction.TakeInclude p.0.now p.1) }
        ensures exact { option_map (λ p. (p.0.now, p.1)) result ≡ included_template self.now }
    {
        match *self.packed {
            Packed::TakeInclude { target, span } => {
                Some((self.tables.target(target), self.tables.span(span)))
            }
            _ => None,
        }
    }

    /// The block that it takes.
    #[inline(always)]
    pub fn as_block(&self) -> Option<(&'a Name, Span)>
        ensures means { IfSome result (λ p. self.now ≡ instruction.TakeBlock p.0.now p.1) }
        ensures exact { option_map (λ p. (p.0.now, p.1)) result ≡ taken_block self.now }
    {
        match *self.packed {
            Packed::TakeBlock { name, span } => {
                Some((self.tables.full_name(name), self.tables.span(span)))
            }
            _ => None,
        }
    }

    /// What it takes of the templates above: how many arguments the call has, and where it stands.
    #[inline(always)]
    pub fn as_super(&self) -> Option<(usize, Span)>
        ensures means { IfSome result (λ p. self.now ≡ instruction.TakeSuper p.0 p.1) }
        ensures exact { option_map (λ p. (p.0, p.1)) result ≡ taken_super self.now }
    {
        match *self.packed {
            Packed::TakeSuper { span, arguments } => Some((arguments, self.tables.span(span))),
            _ => None,
        }
    }

    /// The component that it calls: its name, the keys of what it is given, and whether it has a body.
    #[inline(always)]
    pub fn as_component(&self) -> Option<(&'a Name, Keys<'a>, bool, Span)>
        ensures means { IfSome result
            (λ p. self.now ≡ instruction.TakeComponent p.0.now p.1 p.2 p.3) }
        ensures exact { option_map (λ p. (p.0.now, p.1, p.2, p.3)) result
            ≡ taken_component self.now }
    {
        match *self.packed {
            Packed::TakeComponent {
                has_body,
                target,
                keys,
                span,
            } => Some((
                self.tables.target(target),
                self.tables.lent_keys(keys),
                has_body,
                self.tables.span(span),
            )),
            _ => None,
        }
    }

    /// The filter that it applies, where one that is built in has the name, with the name and those of the arguments.
    #[inline(always)]
    pub fn as_built_in_filter(&self) -> Option<(BuiltInFilter, LentName<'a>, Names<'a>, Span)>
        ensures means { IfSome result (λ p. (self.now ≡ instruction.ApplyFilter p.1 p.2 p.3)
            × (filter_named p.1 ≡ Some p.0)) }
        ensures exact { option_map (λ p. (p.0, p.1, p.2, p.3)) result ≡ built_in_filter self.now }
    {
        match *self.packed {
            Packed::ApplyFilter { call, span } => {
                let filter = self.tables.built_in_filter(call)?;
                let name = self.tables.lent_callee_name(call);
                let arguments = self.tables.argument_names(call);
                Some((filter, name, arguments, self.tables.span(span)))
            }
            _ => None,
        }
    }

    /// The same of a test.
    #[inline(always)]
    pub fn as_built_in_test(&self) -> Option<(BuiltInTest, LentName<'a>, Names<'a>, Span)>
        ensures means { IfSome result (λ p. (self.now ≡ instruction.ApplyTest p.1 p.2 p.3)
            × (test_named p.1 ≡ Some p.0)) }
        ensures exact { option_map (λ p. (p.0, p.1, p.2, p.3)) result ≡ built_in_test self.now }
    {
        match *self.packed {
            Packed::ApplyTest { call, span } => {
                let test = self.tables.built_in_test(call)?;
                let name = self.tables.lent_callee_name(call);
                let arguments = self.tables.argument_names(call);
                Some((test, name, arguments, self.tables.span(span)))
            }
            _ => None,
        }
    }

    /// How many instructions it passes, in any case.
    #[inline(always)]
    pub fn as_jump(&self) -> Option<usize>
        ensures means { IfSome result (λ skip. self.now ≡ instruction.Jump skip) }
        ensures exact { result ≡ jump_length self.now }
    {
        match *self.packed {
            Packed::Jump(skip) => Some(skip),
            _ => None,
        }
    }

    /// How many instructions it passes where the operand that it takes is falsy.
    #[inline(always)]
    pub fn as_pop_jump_if_false(&self) -> Option<usize>
        ensures means { IfSome result (λ skip. self.now ≡ instruction.PopJumpIfFalse skip) }
        ensures exact { result ≡ jump_length_if_false self.now }
    {
        match *self.packed {
            Packed::PopJumpIfFalse(skip) => Some(skip),
            _ => None,
        }
    }

    /// How many instructions it passes where the topmost operand is falsy, which it takes else.
    #[inline(always)]
    pub fn as_jump_if_false_or_pop(&self) -> Option<usize>
        ensures means { IfSome result (λ skip. self.now ≡ instruction.JumpIfFalseOrPop skip) }
        ensures exact { result ≡ falsy_jump_length self.now }
    {
        match *self.packed {
            Packed::JumpIfFalseOrPop(skip) => Some(skip),
            _ => None,
        }
    }

    /// How many instructions it passes where the topmost operand is truthy, which it takes else.
    #[inline(always)]
    pub fn as_jump_if_true_or_pop(&self) -> Option<usize>
        ensures means { IfSome result (λ skip. self.now ≡ instruction.JumpIfTrueOrPop skip) }
        ensures exact { result ≡ truthy_jump_length self.now }
    {
        match *self.packed {
            Packed::JumpIfTrueOrPop(skip) => Some(skip),
            _ => None,
        }
    }

    /// Whether it puts the truth value in the place of the topmost operand that this has not.
    #[inline(always)]
    pub fn is_not(&self) -> bool
        ensures means { IsTrue result → self.now ≡ instruction.Not }
        ensures exact { result ≡ is_not self.now }
    {
        matches!(self.packed, Packed::Not)
    }

    /// Whether it puts out the topmost operand.
    #[inline(always)]
    pub fn is_write_top(&self) -> bool
        ensures means { IsTrue result → self.now ≡ instruction.WriteTop }
        ensures exact { result ≡ is_write_top self.now }
    {
        matches!(self.packed, Packed::WriteTop)
    }

    /// Whether it takes an attribute of the topmost operand, puts that out or tests it.
    #[inline(always)]
    pub(crate) fn uses_top(&self) -> bool
        ensures { result ≡ uses_top self.now }
    {
        matches!(
            self.packed,
            Packed::LoadAttribute { .. } | Packed::WriteTop | Packed::PopJumpIfFalse(_)
        )
    }

    /// Whether it goes on to the next turn of a loop.
    #[inline(always)]
    pub fn is_next_turn(&self) -> bool
        ensures means { IsTrue result → self.now ≡ instruction.NextTurn }
        ensures exact { result ≡ is_next_turn self.now }
    {
        matches!(self.packed, Packed::NextTurn)
    }

    /// Whether it puts out a text, or what this name stands for.
    pub(crate) fn puts(&self, name: &Name) -> bool
        ensures { result ≡ puts name.now self.now }
    {
        if self.as_text().is_some() {
            return true;
        }
        match self.as_written_name() {
            Some((written, _)) => written == name,
            None => false,
        }
    }

    // What it calls.
    #[inline(always)]
    pub(crate) fn callee(&self) -> Option<Callee<'a>>
        ensures { option_map callee_of result ≡ called_by self.now }
    {
        match *self.packed {
            Packed::ApplyFilter { call, .. } => Some(Callee::Filter(self.tables.callee_name(call))),
            Packed::ApplyTest { call, .. } => Some(Callee::Test(self.tables.callee_name(call))),
            Packed::CallFunction { call, .. } => Some(Callee::Function(
                self.tables.callee_name(call),
            )),
            Packed::TakeComponent { target, .. } => {
                Some(Callee::Component(self.tables.target(target)))
            }
            Packed::TakeInclude { target, .. } => {
                Some(Callee::Template(self.tables.target(target)))
            }
            _ => None,
        }
    }
}
