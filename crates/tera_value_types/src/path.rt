// Paths: names and positions between full stops.
ghost use Rattle.std.specs.Prelude.{◌≡◌, option_copied};
ghost use Rattle.tera_value_types.specs.Paths.{position_named, step_to, from_path};

use crate::shape::Shape;
use crate::value::Value;

/// The position that the digits name among so many items.
fn position_named(digits: &[u8], length: usize) -> Option<usize>
    ensures { result ≡ position_named digits.now length }
{
    if digits.is_empty() {
        return None;
    }
    let length = length as u128;
    let mut value: u128 = 0;
    for digit in digits {
        if *digit < 48 || *digit > 57 {
            return None;
        }
        if value < length {
            value = value * 10 + (*digit - 48) as u128;
        }
    }
    if value < length {
        Some(value as usize)
    } else {
        None
    }
}

impl Value {
    fn step(&self, piece: &str) -> Option<&Value>
        ensures { option_copied result ≡ step_to piece.now self.now }
    {
        match self.shape() {
            Shape::Map(all) => all.get_text(piece),
            Shape::Array(items) => match position_named(piece.as_bytes(), items.len()) {
                Some(position) => items.get(position),
                None => None,
            },
            _ => None,
        }
    }

    /// What stands at the end of a path, whose pieces are cut at each full stop.
    pub fn get_from_path(&self, path: &str) -> Option<&Value>
        ensures { option_copied result ≡ from_path path.now self.now }
    {
        let mut here = self;
        let mut rest = path;
        while let Some((piece, after)) = rest.split_once('.') {
            match here.step(piece) {
                Some(next) => here = next,
                None => return None,
            }
            rest = after;
        }
        here.step(rest)
    }
}
