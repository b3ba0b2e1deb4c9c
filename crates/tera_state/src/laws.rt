// What holds of the definitions that contracts cite. Nothing here runs.
ghost use Rattle.tera_state.specs.View.{StateNamesAreAMap};

/// What a state finds by name is a finite map: it has, each once and in byte order, the names that are bound where the state
/// stands and do not stand for undefined, each with what the look-up gives.
pub fn state_names_are_a_map()
    ensures { StateNamesAreAMap }
{}
