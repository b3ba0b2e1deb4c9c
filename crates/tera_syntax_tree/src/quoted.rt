// Texts that are written out between quotes.
ghost use Rattle.std.specs.Prelude.{◌≡◌};
ghost use Rattle.tera_syntax_tree.specs.View.{quoted_of};

/// What a text between quotes stands for.
#[derive(Drop)]
pub enum Quoted<'s> {
    /// It stands so in the source.
    Lent(&'s str),
    /// Made of one with escapes. Few are, so that it has a box of its own and others are small.
    Made(Box<String>),
}

impl<'s> Quoted<'s> {
    /// The text.
    pub fn as_str(&self) -> &str
        ensures { result.now ≡ quoted_of self.now }
    {
        match self {
            Quoted::Lent(text) => text,
            Quoted::Made(text) => text.as_str(),
        }
    }
}
