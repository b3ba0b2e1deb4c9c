// Loops whose body puts out texts and items alone.
ghost use Rattle.std.specs.Prelude.{◌≡◌, ◌+◌, IfSome};
ghost use Rattle.tera_code.specs.Printing.{closes_at, printing_loop_at, puts_up_to};

use crate::lent_code::LentCode;
use tera_values::Name;

impl<'a> LentCode<'a> {
    /// The size of the body of the loop that the instruction at this position opens, where the body puts out texts and items alone.
    pub(crate) fn printing_loop_at(&self, at: usize) -> Option<usize>
        ensures { result ≡ printing_loop_at self.now at }
    {
        let (key, name, _, size) = self.lend(at)?.as_start_loop()?;
        let name = name.as_name();
        if key.is_some() || name.as_name_ref().counter().is_some() {
            return None;
        }
        let end = self.puts_up_to(name, size, at + 1)?;
        if self.closes_at(end) {
            Some(size)
        } else {
            None
        }
    }

    // The position behind so many instructions, if each of them puts out a text, or what the name stands for.
    fn puts_up_to(&self, name: &Name, count: usize, at: usize) -> Option<usize>
        ensures exact { result ≡ puts_up_to name.now self.now count at }
        ensures behind { IfSome result (λ end. end ≡ at + count) }
    {
        let mut left = count;
        let mut position = at;
        while left > 0 {
            if !self.lend(position)?.puts(name) {
                return None;
            }
            position += 1;
            left -= 1;
        }
        Some(position)
    }

    // Whether a turn ends at this position, and the loop behind it.
    fn closes_at(&self, at: usize) -> bool
        ensures { result ≡ closes_at self.now at }
    {
        match self.lend(at) {
            Some(instruction) if instruction.is_next_turn() => match self.lend(at + 1) {
                Some(instruction) => instruction.as_end_loop().is_some(),
                None => false,
            },
            _ => false,
        }
    }
}
