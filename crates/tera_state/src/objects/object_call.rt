// Calls by name.
use crate::scopes::Scopes;
use std::alloc::Global;
use tera_values::Kwargs;

/// A call of a filter, a test or a function: what an object of the caller sees there of the rendering, the name and the
/// arguments.
#[derive(Drop)]
pub struct ObjectCall<'a> {
    pub alloc: Global,
    pub scopes: &'a Scopes<'a>,
    pub autoescape: bool,
    pub name: &'a str,
    pub arguments: Kwargs,
}
