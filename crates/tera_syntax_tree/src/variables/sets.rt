// Sets of names. Each text is copied once.
ghost use Rattle.std.specs.Prelude.{◌≡◌, OnOk, option_copied};
ghost use Rattle.tera_syntax_tree.specs.Free.{only, loop_names, ◌∪◌, ◌∖◌};
ghost use Rattle.tera_syntax_tree.specs.Sets.{names_in};

use crate::expression::Heading;
use std::alloc::{AllocError, Global};
use std::collections::BTreeSet;

/// Names that were found.
pub(crate) type NameSet = BTreeSet<String>;

/// Puts a name among those that were found.
pub fn add(alloc: Global, name: &str, found: &mut BTreeSet<String>) -> Result<(), AllocError>
    ensures { OnOk result (names_in found.new ≡ only name.now ∪ names_in found.old) }
{
    if found.contains(name) {
        return Ok(());
    }
    found.insert(String::from_str(alloc, name)?)?;
    Ok(())
}

/// Takes a name away, if it is there.
pub fn remove(name: &str, found: &mut NameSet)
    ensures { names_in found.new ≡ names_in found.old ∖ only name.now }
{
    found.remove(name);
}

/// Takes away what a loop calls its items.
pub fn remove_loop_names(heading: &Heading, found: &mut NameSet)
    ensures { names_in found.new
        ≡ names_in found.old ∖ loop_names (option_copied heading.now.key) heading.now.name.now }
{
    remove(heading.name, found);
    if let Some(key) = heading.key {
        remove(key, found);
    }
}

/// Puts these names among those that were found.
pub fn join(names: NameSet, found: &mut NameSet) -> Result<(), AllocError>
    ensures { OnOk result (names_in found.new ≡ names_in names ∪ names_in found.old) }
{
    for name in names {
        found.insert(name)?;
    }
    Ok(())
}
