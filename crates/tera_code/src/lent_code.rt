// Instructions as they lie, which are looked at where their body is compiled.
ghost use Rattle.std.specs.Prelude.{◌≡◌, ◌<◌, ◌^◌, length, map, slice_get, IfSome, MatchOption, Some, None};
ghost use Rattle.tera_code.specs.InstructionParts.{Compares, comparison_at, uses_top_at};
ghost use Rattle.tera_code.specs.Integers.{with_integer, integer_comparison_at};

use crate::comparison::{Comparison, IntegerComparison};
use crate::lent_instruction::LentInstruction;
use crate::packed::{Packed, Tables};
use std::marker::Model;
use tera_operators::is_comparison;

/// The instructions of a body. None that is looked at is counted, so that nobody has this who runs them.
#[derive(Drop)]
pub(crate) struct LentCode<'a> {
    tables: &'a Tables,
    code: &'a [Packed],
}

impl<'a> Model for LentCode<'a> {
    ghost use Rattle.std.specs.Prelude.{List, map};
    ghost use Rattle.std.specs.List.{All};
    ghost use Rattle.std.specs.Coded.{codes};
    ghost use Rattle.tera_values.specs.Coding.{val_coding};
    ghost use Rattle.tera_code.specs.declared.instruction.Instruction.{Instruction as Datum};
    ghost use Rattle.tera_code.specs.Packed.{Within, tables_of, unpacked};

    ghost Value = { List Datum };

    ghost coded = { Prim.hlevel (codes, val_coding) };

    ghost view = { λ l. map (unpacked (tables_of l.tables.now)) l.code.now };

    ghost invariant = { λ l. All (Within (tables_of l.tables.now)) l.code.now };
}

impl<'a> LentCode<'a> {
    ghost use Rattle.std.specs.List.{All};
    ghost use Rattle.tera_code.specs.Packed.{Within, tables_of, unpacked};

    #[inline(always)]
    pub(crate) fn new(tables: &'a Tables, code: &'a [Packed]) -> LentCode<'a>
        requires { All (Within (tables_of tables.now)) code.now }
        ensures { result ≡ map (unpacked (tables_of tables.now)) code.now }
    {
        LentCode { tables, code }
    }

    /// The instruction at this position.
    #[inline(always)]
    pub(crate) fn lend(&self, at: usize) -> Option<LentInstruction<'a>>
        ensures found { MatchOption result (slice_get self.now at ≡ None)
            (λ i. slice_get self.now at ≡ Some i) }
        ensures small { IfSome result (λ _. length self.now < 2 ^ 64) }
    {
        match self.code.get(at) {
            None => None,
            Some(packed) => Some(LentInstruction::new(packed, self.tables)),
        }
    }

    /// The comparison that the two instructions at this position make.
    #[inline(always)]
    pub(crate) fn comparison(&self, at: usize) -> Option<Comparison<'a>>
        ensures means { IfSome result (Compares self.now at) }
        ensures exact { result ≡ comparison_at self.now at }
    {
        let (constant, constant_span) = self.lend(at)?.as_constant()?;
        let (operator, span) = self.lend(at + 1)?.as_binary()?;
        if !is_comparison(operator) {
            return None;
        }
        Some(Comparison {
            constant,
            constant_span,
            operator,
            span,
        })
    }

    /// The comparison with an integer that the two instructions at this position make.
    #[inline(always)]
    pub(crate) fn integer_comparison(&self, at: usize) -> Option<IntegerComparison>
        ensures means { IfSome result (λ c. Compares self.now at (with_integer c)) }
        ensures exact { result ≡ integer_comparison_at self.now at }
    {
        let (integer, integer_span) = self.lend(at)?.as_integer()?;
        let (operator, span) = self.lend(at + 1)?.as_binary()?;
        if !is_comparison(operator) {
            return None;
        }
        Some(IntegerComparison {
            integer,
            integer_span,
            operator,
            span,
        })
    }

    /// Whether the topmost operand is used up at this position: the instruction there takes an attribute of it, puts it out or tests
    /// it, or it is compared with a constant.
    pub(crate) fn uses_top_at(&self, at: usize) -> bool
        ensures { result ≡ uses_top_at self.now at }
    {
        match self.lend(at) {
            Some(instruction) => instruction.uses_top() || self.comparison(at).is_some(),
            None => false,
        }
    }
}
