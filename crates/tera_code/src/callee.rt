// What instructions call.
use tera_values::Name;

/// What an instruction calls, by its name. A template is called where it is included.
#[derive(Clone, Copy)]
pub enum Callee<'a> {
    Filter(&'a str),
    Test(&'a str),
    Function(&'a str),
    Component(&'a Name),
    Template(&'a Name),
}
