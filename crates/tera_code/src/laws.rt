// Laws on the definitions, each the contract of a function that does nothing.
ghost use Rattle.tera_code.specs.Called.{CodeCallsTheSame};

/// The code of nodes calls what the nodes call, in the order in which they stand.
pub fn code_calls_the_same()
    ensures { CodeCallsTheSame }
{}
