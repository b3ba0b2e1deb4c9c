// The texts that reports speak of.

/// Texts of templates, by the names that reports give them.
pub trait Sources {
    /// The text of this name, if there is one.
    fn source(&self, file: &str) -> Option<&str>;
}
