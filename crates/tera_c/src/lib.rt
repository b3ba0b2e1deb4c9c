//! The engine for C and all that calls C: by a handle, or by bytes at once. `bindings/c/hovdreg.h` declares what it exports.
#![tactic(auto)]

mod box_pointer;
mod handle;
mod listings;
mod lives;
mod options;
mod outcomes;
mod pack_renderer;
mod rendering_once;
mod renderings;
mod settings;
