// What is noted in an instruction of those behind it, once for all who run it.
ghost use Rattle.std.specs.Prelude.{◌≡◌, ◌<◌, length, map, get_or};
ghost use Rattle.std.specs.List.{All};
ghost use Rattle.tera_code.specs.Packed.{Within, tables_of, unpacked};
ghost use Rattle.tera_code.specs.Settled.{Notes, Settled};
ghost use Rattle.tera_code.specs.declared.packed.Packed.TheVariants as packed;

use crate::lent_code::LentCode;
use crate::packed::{Packed, Tables};

/// Notes in each instruction whether the name that it loads is used up behind it, and whether the loop that it opens puts out texts
/// and items alone. A loop's body is looked at up to the first instruction that does neither, which may open a loop of its own: so
/// no instruction is looked at more often than the three before it and the innermost loop ask for.
#[inline(never)]
pub(crate) fn settle(tables: &Tables, code: &mut [Packed])
    requires { All (Within (tables_of tables.now)) code.old }
    ensures same { map (unpacked (tables_of tables.now)) code.new
        ≡ map (unpacked (tables_of tables.now)) code.old }
    ensures settled { Settled (tables_of tables.now) code.new }
{
    for at in 0..code.len() {
        if code[at].has_notes() {
            let noted = with_notes(tables, code, at);
            code[at] = noted;
        }
    }
}

// The instruction at this position, with its notes.
#[inline(always)]
fn with_notes(tables: &Tables, code: &[Packed], at: usize) -> Packed
    requires within { All (Within (tables_of tables.now)) code.now }
    requires there { at < length code.now }
    ensures within { Within (tables_of tables.now) result }
    ensures same { unpacked (tables_of tables.now) result
        ≡ unpacked (tables_of tables.now) (get_or code.now at (packed.WriteText 0 0)) }
    ensures notes { Notes (map (unpacked (tables_of tables.now)) code.now) at result }
{
    match code[at] {
        Packed::LoadName { name, span, .. } => Packed::LoadName {
            reads_on: LentCode::new(tables, code).uses_top_at(at + 1),
            name,
            span,
        },
        Packed::StartLoop {
            counts,
            names,
            size,
            ..
        } => Packed::StartLoop {
            counts,
            prints: LentCode::new(tables, code).printing_loop_at(at).is_some(),
            names,
            size,
        },
        other => other,
    }
}
