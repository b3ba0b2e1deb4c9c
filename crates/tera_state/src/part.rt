// Layers, and what is taken out of the bindings at once.
ghost use Rattle.std.specs.Prelude.{◌≡◌};
ghost use Rattle.tera_state.specs.BindingMap.{is_outside, comes_after};

use crate::bindings::{Layer, is_beyond};

/// A layer of a frame, or a whole frame.
#[derive(Clone, Copy)]
pub enum Part {
    Layer(Layer),
    Frame(usize),
}

impl Part {
    /// Whether the layer is none of it.
    pub fn is_outside(self, at: Layer) -> bool
        ensures { result ≡ is_outside self at.frame at.layer }
    {
        match self {
            Part::Layer(layer) => at.frame != layer.frame || at.layer != layer.layer,
            Part::Frame(frame) => at.frame != frame,
        }
    }

    /// Whether it comes after the layer.
    pub fn is_after(self, at: Layer) -> bool
        ensures { result ≡ comes_after self at.frame at.layer }
    {
        match self {
            Part::Layer(layer) => is_beyond(layer.frame, layer.layer, at),
            Part::Frame(frame) => frame > at.frame,
        }
    }
}
