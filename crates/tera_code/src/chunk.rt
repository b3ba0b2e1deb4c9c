// The instructions of one body.
ghost use Rattle.std.specs.Prelude.{◌≡◌, ◌+◌, ◌<◌, ◌^◌, cond, false, length, map, slice_get, IfSome, IsTrue, MatchOption, Some, None, option_map, option_and_then, unwrap_or};
ghost use Rattle.std.specs.List.{All};
ghost use Rattle.tera_code.specs.Integers.{with_integer, loads_integer_at, integer_comparison_at};
ghost use Rattle.tera_code.specs.InstructionParts.{loaded_attribute, applied_operator, is_write_top, jump_length_if_false, Compares, comparison_at, reads_on_at};
ghost use Rattle.tera_code.specs.Called.{callee_of, called_by};
ghost use Rattle.tera_code.specs.declared.instruction.Instruction.TheVariants as instruction;
ghost use Rattle.tera_code.specs.Packed.{Within, tables_of, unpacked};
ghost use Rattle.tera_code.specs.Printing.{printing_loop_at};

use crate::callee::Callee;
use crate::comparison::{Comparison, IntegerComparison};
use crate::instruction_parts::LentText;
use crate::lent_code::LentCode;
use crate::lent_instruction::LentInstruction;
use crate::packed::{Packed, Tables};
use crate::settling::settle;
use crate::steps::Steps;
use crate::tally::Tally;
use std::marker::Model;
use tera_syntax_tree::BinaryOperator;
use tera_values::{Name, Span};

/// The instructions of a body, and the name of the template in whose text it stands. What is to be known of those behind an instruction
/// is noted in it.
#[derive(Drop)]
pub struct Chunk {
    file: Name,
    tables: Tables,
    code: Vec<Packed>,
}

impl Model for Chunk {
    ghost use Rattle.std.specs.Prelude.{map};
    ghost use Rattle.tera_code.specs.Listing.{Listing};
    ghost use Rattle.tera_code.specs.Packed.{tables_of, unpacked};
    ghost use Rattle.tera_code.specs.Settled.{Settled};
    ghost use Rattle.std.specs.Coded.{codes};
    ghost use Rattle.tera_values.specs.Coding.{val_coding};

    ghost Value = { Listing };

    ghost coded = { Prim.hlevel (codes, val_coding) };

    ghost view = { λ c. record {
      file = c.file;
      code = map (unpacked (tables_of c.tables))
          c.code.items;
    } };

    ghost invariant = { λ c. Settled (tables_of c.tables) c.code.items };
}

impl Chunk {
    ghost use Rattle.tera_code.specs.Listing.{Listing};

    // The body of these instructions, in which nothing has to be noted yet.
    pub(crate) fn new(file: Name, tables: Tables, code: Vec<Packed>) -> Chunk
        requires { All (Within (tables_of tables)) code.items }
        ensures { result ≡ record {
          file = file;
          code = map (unpacked (tables_of tables)) code.items;
        } }
    {
        let mut code = code;
        settle(&tables, code.as_mut_slice());
        Chunk { file, tables, code }
    }

    /// The name of the template in whose text the body stands.
    pub fn file(&self) -> &str
        ensures { result.now ≡ self.now.file }
    {
        self.file.as_str()
    }

    /// The names of code that may look them up often, each once or more: it has a loop, or many instructions for each
    /// name. None of other code.
    pub fn frequent_names(&self) -> &[Name] {
        let names = self.tables.names.as_slice();
        if self.tables.loops.is_empty() && self.code.len() / 16 < names.len() {
            return &[];
        }
        names
    }

    /// The instruction at this position, from 0, which is counted where there is one. No call hands one out that it doesn't count.
    #[inline(always)]
    pub fn get<T: Tally>(&self, at: usize, steps: &mut Steps<T>) -> Option<LentInstruction<'_>>
        ensures found { MatchOption result (slice_get self.now.code at ≡ None)
            (λ i. slice_get self.now.code at ≡ Some i) }
        ensures small { IfSome result (λ _. length self.now.code < 2 ^ 64) }
        ensures count { MatchOption result (steps.new ≡ steps.old)
            (λ _. steps.new ≡ steps.old + 1) }
    {
        tick_if_some(self.lend(at), steps)
    }

    /// The attribute that the instruction at this position takes, which is counted where it takes one.
    #[inline(always)]
    pub fn attribute_at<T: Tally>(
        &self,
        at: usize,
        steps: &mut Steps<T>,
    ) -> Option<(LentText<'_>, bool, Span)>
        ensures means { IfSome result (λ p. slice_get self.now.code at
            ≡ Some (instruction.LoadAttribute p.0 p.1 p.2)) }
        ensures exact { option_map (λ p. (p.0, p.1, p.2)) result
            ≡ option_and_then loaded_attribute (slice_get self.now.code at) }
        ensures count { MatchOption result (steps.new ≡ steps.old)
            (λ _. steps.new ≡ steps.old + 1) }
    {
        tick_if_some(self.lend(at)?.as_attribute(), steps)
    }

    /// Whether the instruction at this position puts out the topmost operand. It is counted where it does.
    #[inline(always)]
    pub fn writes_top_at<T: Tally>(&self, at: usize, steps: &mut Steps<T>) -> bool
        ensures means { IsTrue result → slice_get self.now.code at ≡ Some instruction.WriteTop }
        ensures exact { result
            ≡ unwrap_or (option_map is_write_top (slice_get self.now.code at)) false }
        ensures count { steps.new ≡ cond result (steps.old + 1) steps.old }
    {
        match self.lend(at) {
            Some(instruction) if instruction.is_write_top() => {
                steps.tick();
                true
            }
            _ => false,
        }
    }

    /// How many instructions are passed where the instruction at this position finds a falsy operand, which it takes. Only such
    /// an instruction is counted.
    #[inline(always)]
    pub fn pop_jump_if_false_at<T: Tally>(&self, at: usize, steps: &mut Steps<T>) -> Option<usize>
        ensures means { IfSome result (λ skip. slice_get self.now.code at
            ≡ Some (instruction.PopJumpIfFalse skip)) }
        ensures exact { result
            ≡ option_and_then jump_length_if_false (slice_get self.now.code at) }
        ensures count { MatchOption result (steps.new ≡ steps.old)
            (λ _. steps.new ≡ steps.old + 1) }
    {
        tick_if_some(self.lend(at)?.as_pop_jump_if_false(), steps)
    }

    /// The comparison of the topmost operand with a constant that the two instructions at this position make, which are counted where
    /// they make one.
    #[inline(always)]
    pub fn comparison_at<T: Tally>(&self, at: usize, steps: &mut Steps<T>) -> Option<Comparison<'_>>
        ensures means { IfSome result (Compares self.now.code at) }
        ensures exact { result ≡ comparison_at self.now.code at }
        ensures count { MatchOption result (steps.new ≡ steps.old)
            (λ _. steps.new ≡ steps.old + 2) }
    {
        let comparison = self.instructions().comparison(at)?;
        steps.tick();
        steps.tick();
        Some(comparison)
    }

    /// The same with an integer of at most 64 bits with its sign.
    #[inline(always)]
    pub fn integer_comparison_at<T: Tally>(
        &self,
        at: usize,
        steps: &mut Steps<T>,
    ) -> Option<IntegerComparison>
        ensures means { IfSome result (λ c. Compares self.now.code at (with_integer c)) }
        ensures exact { result ≡ integer_comparison_at self.now.code at }
        ensures count { MatchOption result (steps.new ≡ steps.old)
            (λ _. steps.new ≡ steps.old + 2) }
    {
        let comparison = self.instructions().integer_comparison(at)?;
        steps.tick();
        steps.tick();
        Some(comparison)
    }

    /// Whether the instruction at this position loads such an integer. The instruction is not handed out, so that it isn't counted.
    #[inline(always)]
    pub fn loads_integer_at(&self, at: usize) -> bool
        ensures { result ≡ loads_integer_at self.now.code at }
    {
        match self.lend(at) {
            Some(instruction) => instruction.as_integer().is_some(),
            None => false,
        }
    }

    /// The operator that the instruction at this position applies to two operands, which is counted where it applies one.
    #[inline(always)]
    pub fn operator_at<T: Tally>(
        &self,
        at: usize,
        steps: &mut Steps<T>,
    ) -> Option<(BinaryOperator, Span)>
        ensures means { IfSome result (λ p. slice_get self.now.code at
            ≡ Some (instruction.Binary p.0 p.1)) }
        ensures exact { option_map (λ p. (p.0, p.1)) result
            ≡ option_and_then applied_operator (slice_get self.now.code at) }
        ensures count { MatchOption result (steps.new ≡ steps.old)
            (λ _. steps.new ≡ steps.old + 1) }
    {
        tick_if_some(self.lend(at)?.as_binary(), steps)
    }

    /// Whether the instruction at this position loads a name that is used up behind it: an attribute is taken of it, it is put out or
    /// tested, or it is compared with a constant. That is noted in the instruction itself, and no other one is looked at.
    #[inline(always)]
    pub fn reads_on_at(&self, at: usize) -> bool
        ensures { result ≡ reads_on_at self.now.code at }
    {
        match self.code.get(at) {
            Some(packed) => packed.reads_on(),
            None => false,
        }
    }

    /// The size of the body of the loop that the instruction at this position opens, where the body puts out texts and items alone:
    /// such a loop leaves nothing behind but text. That is noted in the instruction itself, as above.
    #[inline(always)]
    pub fn printing_loop_at(&self, at: usize) -> Option<usize>
        ensures exact { result ≡ printing_loop_at self.now.code at }
        ensures ends { IfSome result (λ size.
            slice_get self.now.code (at + 1 + size) ≡ Some instruction.NextTurn) }
    {
        self.code.get(at)?.printing_size()
    }

    /// How many instructions there are.
    pub fn len(&self) -> usize
        ensures { result ≡ length self.now.code }
    {
        self.code.len()
    }

    /// What the instruction at this position calls; none where it calls nothing, or where there is none. The instruction is not
    /// handed out, so that it isn't counted.
    #[inline(always)]
    pub fn callee_at(&self, position: usize) -> Option<Callee<'_>>
        ensures { option_map callee_of result
            ≡ option_and_then called_by (slice_get self.now.code position) }
    {
        self.lend(position)?.callee()
    }

    // The instruction at this position, which is not counted.
    #[inline(always)]
    pub(crate) fn lend(&self, at: usize) -> Option<LentInstruction<'_>>
        ensures found { MatchOption result (slice_get self.now.code at ≡ None)
            (λ i. slice_get self.now.code at ≡ Some i) }
        ensures small { IfSome result (λ _. length self.now.code < 2 ^ 64) }
    {
        self.instructions().lend(at)
    }

    // All of them, none of which is counted.
    #[inline(always)]
    fn instructions(&self) -> LentCode<'_>
        ensures { result ≡ self.now.code }
    {
        LentCode::new(&self.tables, self.code.as_slice())
    }
}

// What an instruction is asked for. It is counted where it is told.
#[inline(always)]
fn tick_if_some<A: Drop, T: Tally>(told: Option<A>, steps: &mut Steps<T>) -> Option<A>
    ensures same { result ≡ told }
    ensures count { MatchOption result (steps.new ≡ steps.old)
        (λ _. steps.new ≡ steps.old + 1) }
{
    if told.is_some() {
        steps.tick();
    }
    told
}
