// How good the definitions of components are that a template has.
ghost use Rattle.std.specs.Prelude.{◌≡◌, []};
ghost use Rattle.tera_meaning.specs.Prelude.{priority};
ghost use Rattle.tera_registry.specs.Kept.{seen};

/// 0 where no prefix begins the name of the template, else 1 and the position of the first that does. Less is better.
pub fn priority(prefixes: &[String], name: &str) -> usize
    ensures { result ≡ priority (seen [] prefixes.now) name.now }
{
    for (position, prefix) in prefixes.iter().enumerate() {
        if name.as_bytes().starts_with(prefix.as_bytes()) {
            return position + 1;
        }
    }
    0
}
