// What the objects mean that a caller boxes. Contracts alone speak of it.
ghost use Rattle.tera_state.specs.Prelude.{Meanings};

use tera::{CallerObjects, EscapeFn, Filter, Function, Test};

/// Objects of a caller, each with what it means.
pub trait ObjectTypes {
    /// How an escape is kept.
    type Escape;
    /// How a filter is kept.
    type Filter;
    /// How a test is kept.
    type Test;
    /// How a function is kept.
    type Function;

    // What each of them means.
    ghost meanings: { Meanings Self.Escape Self.Filter Self.Test Self.Function };
}

impl ObjectTypes for CallerObjects {
    type Escape = Box<dyn EscapeFn>;

    type Filter = Box<dyn Filter>;

    type Test = Box<dyn Test>;

    type Function = Box<dyn Function>;

    ghost meanings = { record {
      escape = λ b. (EscapeFn-box b).escaped b.value;
      filter = λ b. record {
        meaning = (Filter-box b).meaning b.value;
        safe = (Filter-box b).safe b.value;
      };
      test = λ b. record { meaning = (Test-box b).meaning b.value };
      function = λ b. record {
        meaning = (Function-box b).meaning b.value;
        safe = (Function-box b).safe b.value;
      };
    } };
}
