// What the numbers of a caller in another language say.
ghost use Rattle.std.specs.Prelude.{◌≡◌};
ghost use Rattle.tera_renderer.specs.Numbers as spec;

use tera_data::Floats;

/// What becomes of numbers that are no integers: their texts where this number is not 0, and otherwise they are refused.
pub fn floats_if(number: u32) -> Floats
    ensures { result ≡ spec.floats_if number }
{
    if number == 0 {
        Floats::Refuse
    } else {
        Floats::Text
    }
}
