// What holds of the definitions that contracts cite. Nothing here runs.
ghost use Rattle.tera_built_ins.specs.Laws.{KeepsFirsts, SortsStably};

/// `sort` puts items into the order of values, each of them, and those that tie as they stood.
#[tactic(auto, using(crate::proofs::Orders::sorts_stably))]
pub fn sorts_stably()
    ensures { SortsStably }
{}

/// `unique` keeps of values that are the same the first, and the order of those that it keeps.
#[tactic(auto, using(crate::proofs::Orders::keeps_firsts))]
pub fn keeps_firsts()
    ensures { KeepsFirsts }
{}
