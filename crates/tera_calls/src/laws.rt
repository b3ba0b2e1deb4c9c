// What holds of calls one after another. Nothing here runs.
ghost use Rattle.tera_calls.specs.Laws.{CallsKeepAcceptance, RefusedCallsChangeNothing};

/// Calls of any kind, refused ones among them, lead from a registry that is accepted to one that is. A new engine's is.
pub fn calls_keep_acceptance<E, F, T, G>()
    ensures { CallsKeepAcceptance E F T G }
{}

/// A call that is refused with a fault changes nothing, and neither does a batch that is refused, with one name in it twice too.
pub fn refused_calls_change_nothing<E, F, T, G>()
    ensures { RefusedCallsChangeNothing E F T G }
{}
