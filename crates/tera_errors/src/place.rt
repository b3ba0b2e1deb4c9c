// Places in a text, as people count them.
ghost use Rattle.std.specs.Prelude.{◌≡◌, ◌+◌, ◌≤◌, length, take};
ghost use Rattle.tera_errors.specs.Places.{lines_ended, column_behind};

/// Where a byte of a text stands, in lines and in characters of its line, both from 1.
#[derive(Clone, Copy, Debug, PartialEq, Eq)]
pub struct Place {
    pub line: usize,
    pub column: usize,
}

/// The place of the byte behind the first so many.
pub fn place_of(text: &str, at: usize) -> Place
    requires { at ≤ length text.now }
    ensures line { result.line ≡ 1 + lines_ended (take at text.now) }
    ensures column { result.column ≡ column_behind 1 (take at text.now) }
{
    let mut place = Place { line: 1, column: 1 };
    for byte in text.as_bytes()[..at].iter() {
        if *byte == b'\n' {
            place.line += 1;
            place.column = 1;
        } else if !(128 <= *byte && *byte < 192) {
            place.column += 1;
        }
    }
    place
}
