// Laws on the definitions, each the contract of a function that does nothing.
ghost use Rattle.tera_meaning.specs.BodyLaws.{ElseIsForNoItem, FlagHolds, KeepsVariables, ReadsItsContextAlone, ResolvesInOrder};
ghost use Rattle.tera_meaning.specs.Circles.{CountsTellCircles, NoCircles};
ghost use Rattle.tera_meaning.specs.Laws.{AcceptanceStays, EmptyBatchIsAccepted, NothingIsMissing};
ghost use Rattle.tera_meaning.specs.Whole.{MeaningUnrolls};

/// The whole meaning of bodies that stand elsewhere is one level of itself: no count of levels shows in it.
#[tactic(auto, using(crate::proofs::Levels::meaning_unrolls))]
pub fn meaning_unrolls()
    ensures { MeaningUnrolls }
{}

/// A registry without templates is accepted. One that is accepted stays so with other suffixes, with another global context, and
/// with objects beside those that are there; and what a batch makes of a registry is accepted.
#[tactic(auto, using(crate::proofs::Faultless::acceptance_stays))]
pub fn acceptance_stays()
    ensures { AcceptanceStays }
{}

/// An empty batch is accepted, and changes nothing.
#[tactic(auto, using(crate::proofs::Faultless::empty_batch_is_accepted))]
pub fn empty_batch_is_accepted()
    ensures { EmptyBatchIsAccepted }
{}

/// Of all that the templates of an accepted registry name nothing is missing.
pub fn nothing_is_missing()
    ensures { NothingIsMissing }
{}

/// A name resolves to the template that has it, whatever the prefixes are, and where none has it, to the one that has it behind the
/// first prefix which gives one.
pub fn resolves_in_order()
    ensures { ResolvesInOrder }
{}

/// The flag of a rendering holds through blocks, what stands above them, includes and components.
pub fn flag_holds()
    ensures { FlagHolds }
{}

/// Neither an include nor a component changes a variable of the body that takes it.
pub fn keeps_variables()
    ensures { KeepsVariables }
{}

/// A component reads the context that its call makes, and its own variables, and nothing else.
pub fn reads_its_context_alone()
    ensures { ReadsItsContextAlone }
{}

/// The `else` of a loop is taken exactly where there is no item.
pub fn else_is_for_no_item()
    ensures { ElseIsForNoItem }
{}

/// The counts of steps by which circles are refused tell exactly whether what a template extends, or includes, leads into one.
pub fn counts_tell_circles()
    ensures { CountsTellCircles }
{}

/// In an accepted registry no templates extend one another in a circle, and none include one another in a circle.
pub fn no_circles()
    ensures { NoCircles }
{}
