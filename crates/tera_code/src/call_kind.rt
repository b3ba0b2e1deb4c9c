// Kinds of calls by name.

/// What an instruction that calls by name calls.
#[derive(Clone, Copy)]
pub enum CallKind {
    /// `value | name`
    Filter,
    /// `value is name`
    Test,
    /// `name(..)`
    Function,
}
