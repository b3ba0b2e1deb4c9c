// What holds of the definitions that contracts cite. Nothing here runs.
ghost use Rattle.tera_values.specs.Contexts.{NamedIsFound, OtherNamesAreKept, PutKeepsOrder};
ghost use Rattle.tera_values.specs.Division.{DivisionIsEuclids, ValuesAreDivided};

/// Of any integers, the second other than 0, the first is the second times the quotient and the
/// remainder more; and the remainder is never negative, and nearer to 0 than the second.
pub fn division_is_euclids()
    ensures { DivisionIsEuclids }
{}

/// So are the values that `floor_div` and `rem` answer.
pub fn values_are_divided()
    ensures { ValuesAreDivided }
{}

/// A name finds what was put at it last.
pub fn named_is_found()
    ensures { NamedIsFound }
{}

/// What is put at one name changes nothing at another.
pub fn other_names_are_kept()
    ensures { OtherNamesAreKept }
{}

/// Names that stand in byte order, none of them twice, stay so whatever is put.
pub fn put_keeps_order()
    ensures { PutKeepsOrder }
{}
