// Where the first thing of each name stands.
ghost use Rattle.std.specs.Prelude.{◌≡◌, IfOk, OnOk, if◌then◌else◌, bytes_eq, Option, map};
ghost use Rattle.std.specs.Option.{option_or};
ghost use Rattle.tera_errors.specs.Prelude.{Name as Text};
ghost use Rattle.tera_registry.specs.Components.{kept_names};
ghost use Rattle.tera_registry.specs.Places.{stands, ArePlaces};

use crate::code::TemplateBlock;
use crate::components::Component;
use std::alloc::{AllocError, Global};
use std::collections::BTreeMap;

/// Notes that something of this name stands there, unless that was noted of something before.
fn note(
    alloc: Global,
    places: &mut BTreeMap<String, usize>,
    name: &str,
    position: usize,
) -> Result<(), AllocError>
    ensures { OnOk result ((q : Text) → stands places.new q ≡ option_or (stands places.old q)
        (if bytes_eq q name.now then Option.Some position else Option.None)) }
{
    if !places.contains_key(name) {
        places.insert(String::from_str(alloc, name)?, position)?;
    }
    Ok(())
}

/// Where the first block of each name stands among these.
pub fn block_places(
    alloc: Global,
    blocks: &[TemplateBlock],
) -> Result<BTreeMap<String, usize>, AllocError>
    ensures { IfOk result (ArePlaces (map (λ b. b.name) blocks.now)) }
{
    let mut places = BTreeMap::new(alloc);
    for position in 0..blocks.len() {
        note(alloc, &mut places, blocks[position].name.as_str(), position)?;
    }
    Ok(places)
}

/// The same of components.
pub fn component_places(
    alloc: Global,
    components: &[Component],
) -> Result<BTreeMap<String, usize>, AllocError>
    ensures { IfOk result (ArePlaces (kept_names components.now)) }
{
    let mut places = BTreeMap::new(alloc);
    for position in 0..components.len() {
        note(
            alloc,
            &mut places,
            components[position].definition.name(),
            position,
        )?;
    }
    Ok(places)
}
