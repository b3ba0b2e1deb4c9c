// Texts of CSV as values and as values of contexts.
ghost use Rattle.std.specs.Prelude.{◌≡◌, OnErr};
ghost use Rattle.tera_errors.specs.Prelude.{Gives};
ghost use Rattle.tera_data.specs.Csv.{at, csv_in};

use crate::csv_records::{array_of, records_of};
use std::alloc::Global;
use tera_errors::TeraResult;
use tera_value_types::Value;
use tera_values::Context;

/// The array of maps that the text spells. The first record has the names, and each later one is a map of its fields at these
/// names, in their order. All fields are texts. Fields go apart by commas, and quotes hold commas, line ends and, doubled,
/// quotes. A record that has not as many fields as there are names is refused; of two equal names the later has the field.
pub fn csv_value(alloc: Global, text: &str) -> TeraResult<Value>
    ensures { Gives (λ v. v) result (csv_in text.now) }
{
    let records = records_of(alloc, text)?;
    array_of(alloc, text, records.as_slice())
}

/// Puts the array that the text spells over the context at a name, or leaves the context as it is.
pub fn put_csv(context: &mut Context, name: &str, text: &str) -> TeraResult<()>
    ensures put { Gives (λ _. context.new) result (at name.now context.old (csv_in text.now)) }
    ensures err { OnErr result (context.new ≡ context.old) }
{
    let value = csv_value(context.alloc(), text)?;
    context.insert(name, value)
}
