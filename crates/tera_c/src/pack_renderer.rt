// What a handle holds.
use tera_filters::{NoObject, PackObjects};
use tera_renderer::Renderer;

/// Objects of the pack alone.
pub type PackOnly = PackObjects<NoObject, NoObject, NoObject>;

/// A renderer over the objects of the pack.
#[derive(Drop)]
pub struct PackRenderer {
    pub renderer: Renderer<PackOnly>,
}
