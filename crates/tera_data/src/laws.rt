// What holds of the definitions that contracts cite. Nothing here runs.
ghost use Rattle.tera_data.specs.Laws.{LastMemberWins, NewNameGoesLast, KnownNamesStay, FieldsStandUnderNames, TomlHasOneAnswer};

/// Of members with one name the last gives the value.
pub fn last_member_wins()
    ensures { LastMemberWins }
{}

/// A member whose name is new goes last, so names stand in the order of the text.
pub fn new_name_goes_last()
    ensures { NewNameGoesLast }
{}

/// A member whose name is there already moves no name.
pub fn known_names_stay()
    ensures { KnownNamesStay }
{}

/// Where floats are refused, the answer of a text of TOML is a function of its bytes.
pub fn toml_has_one_answer()
    ensures { TomlHasOneAnswer }
{}

/// The fields of a record of CSV stand under the names of the first one, in their order.
pub fn fields_stand_under_names()
    ensures { FieldsStandUnderNames }
{}
