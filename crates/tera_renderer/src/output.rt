// What a call makes.
ghost use Rattle.std.specs.Prelude.{◌≡◌, option_map};
ghost use Rattle.std.specs.List.{slice_get};
ghost use Rattle.tera_renderer.specs.Outcomes.{size_of, texts_in};

/// What a call makes.
#[derive(Drop)]
pub enum CallOutput {
    /// What it changed is all that it was asked for.
    Nothing,
    Text(String),
    Names(Vec<String>),
}

impl CallOutput {
    /// The bytes of a text, or the number of names.
    pub fn size(&self) -> usize
        ensures { result ≡ size_of self.now }
    {
        match self {
            CallOutput::Nothing => 0,
            CallOutput::Text(text) => text.len(),
            CallOutput::Names(names) => names.len(),
        }
    }

    /// The text, or the name in this place.
    pub fn text_at(&self, index: usize) -> Option<&str>
        ensures { option_map (λ t. t.now) result ≡ slice_get (texts_in self.now) index }
    {
        match self {
            CallOutput::Nothing => None,
            CallOutput::Text(text) if index == 0 => Some(text.as_str()),
            CallOutput::Text(_) => None,
            CallOutput::Names(names) => match names.get(index) {
                Some(name) => Some(name.as_str()),
                None => None,
            },
        }
    }
}
