// What holds of registering. Nothing here runs.
ghost use Rattle.tera_state.specs.Laws.{MovingKeeps, RegisteringAdds, RegisteringOverwrites};

/// A name stands for the filter, the test or the function that was registered under it last, over what is built in too. What was
/// registered there before leaves no trace, and no other name changes.
#[tactic(auto, using(crate::proofs::Standing::registering_overwrites))]
pub fn registering_overwrites()
    ensures { RegisteringOverwrites }
{}

/// What `register_from` moves takes no name that stands for something, also where it stops part of the way.
#[tactic(auto, using(crate::proofs::Standing::moving_keeps))]
pub fn moving_keeps()
    ensures { MovingKeeps }
{}

/// Whatever is registered or moved, each name that stood for something stands for something.
#[tactic(auto, using(crate::proofs::Standing::registering_adds))]
pub fn registering_adds()
    ensures { RegisteringAdds }
{}
