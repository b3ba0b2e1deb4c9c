// What holds of the definitions that contracts cite. Nothing here runs.
ghost use Rattle.tera_value_types.specs.Promises.{OrderIsTotal, EqualityIsByContent, MapsAreFinite, ComparableIsSymmetric, TextsPrintThemselves, InsertedIsFound, OthersAreKept};

/// The order of values is total.
pub fn order_is_total()
    ensures { OrderIsTotal }
{}

/// Equality is by kind and content: marks and the order of entries are no part of it.
pub fn equality_is_by_content()
    ensures { EqualityIsByContent }
{}

/// Maps are equal as finite maps.
pub fn maps_are_finite()
    ensures { MapsAreFinite }
{}

/// Whether two values are comparable does not depend on which comes first.
pub fn comparable_is_symmetric()
    ensures { ComparableIsSymmetric }
{}

/// A text is printed as it is.
pub fn texts_print_themselves()
    ensures { TextsPrintThemselves }
{}

/// A key finds what was put at it last.
pub fn inserted_is_found()
    ensures { InsertedIsFound }
{}

/// What is put at one key changes nothing at another.
pub fn others_are_kept()
    ensures { OthersAreKept }
{}
