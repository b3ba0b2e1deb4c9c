// What the names of a loop count.
ghost use Rattle.std.specs.Prelude.{◌≡◌};
ghost use Rattle.tera_values.specs.Naming.{counter_of};

/// A counter of a loop: `loop.index` (from 1), `loop.index0` (from 0), `loop.first`, `loop.last` or `loop.length`.
#[derive(Clone, Copy)]
pub enum Counter {
    Index,
    Index0,
    First,
    Last,
    Length,
}

impl Counter {
    /// What the name counts, if anything. Most names are told from such ones by how they begin.
    #[inline(always)]
    pub fn by_name(name: &str) -> Option<Counter>
        ensures { result ≡ counter_of name.now }
    {
        match name.as_bytes() {
            [b'_', b'_', ..] => counter_of_name(name),
            _ => None,
        }
    }
}

// The same by comparing the name with each of a loop's names.
fn counter_of_name(name: &str) -> Option<Counter>
    ensures { result ≡ counter_of name.now }
{
    if name == "__tera_loop_index" {
        Some(Counter::Index)
    } else if name == "__tera_loop_index0" {
        Some(Counter::Index0)
    } else if name == "__tera_loop_first" {
        Some(Counter::First)
    } else if name == "__tera_loop_last" {
        Some(Counter::Last)
    } else if name == "__tera_loop_length" {
        Some(Counter::Length)
    } else {
        None
    }
}
