// Where names were found.

/// How many names can be seen at once.
pub(crate) const SLOTS: usize = 251;

/// Where names of a kind were found last among those of a body.
#[derive(Drop)]
pub(crate) struct NameCache {
    pub(crate) positions: [u32; SLOTS],
}

impl NameCache {
    pub(crate) fn new() -> NameCache {
        NameCache {
            positions: [0; SLOTS],
        }
    }
}
