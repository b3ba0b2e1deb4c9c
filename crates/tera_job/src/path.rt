// Where the page of a template goes.
ghost use Rattle.std.specs.Prelude.{◌≡◌, option_copied};
ghost use Rattle.tera_job.specs.Paths.{is_page, output_path, stays_inside, stem};

/// Whether the template makes a page of its own: no part of its name begins with `_`.
pub fn is_page(name: &str) -> bool
    ensures { result ≡ is_page name.now }
{
    !name.split('/').any(|part| part.starts_with("_"))
}

/// The name of the page that a template makes: its own, without a last `.tera`, `.j2` or `.jinja`.
pub fn output_path(name: &str) -> &str
    ensures { result.now ≡ output_path name.now }
{
    if let Some(stem) = stem(name, ".tera") {
        stem
    } else if let Some(stem) = stem(name, ".j2") {
        stem
    } else if let Some(stem) = stem(name, ".jinja") {
        stem
    } else {
        name
    }
}

// The name without the suffix, if it has that.
fn stem<'a>(name: &'a str, suffix: &str) -> Option<&'a str>
    ensures { option_copied result ≡ stem suffix.now name.now }
{
    name.strip_suffix(suffix)
}

/// Whether a path leads to a file below the folder in which it starts: each of its parts is a name.
pub(crate) fn stays_inside(path: &str) -> bool
    ensures { result ≡ stays_inside path.now }
{
    !path.split('/').any(|part| matches!(part, "" | "." | ".."))
}
