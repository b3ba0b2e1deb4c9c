// The bodies that run, one below the other.
use crate::contexts::Contexts;
use crate::open_loops::OpenLoops;
use tera_values::Kwargs;

/// A template by itself with its contexts, an include, which reads its includer, or a component, which reads the
/// arguments that were made for it.
#[derive(Drop)]
pub enum FrameKind<'c> {
    Template(Contexts<'c>),
    Include,
    Component(Kwargs),
}

/// A body that runs, and its open loops.
#[derive(Drop)]
pub struct Frame<'c> {
    pub standing: FrameKind<'c>,
    pub loops: OpenLoops,
}
