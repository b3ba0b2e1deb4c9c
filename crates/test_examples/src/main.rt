//! Renders each example of `data/` in memory, and tells whether its pages are those of its folder `expected`.
#![tactic(auto)]

mod example_error;

use crate::example_error::ExampleError;
use std::alloc::Global;
use std::collections::BTreeMap;
use std::env;
use std::process::ExitCode;
use tera_data::Floats;
use tera_folders::{TextFile, read_folder};
use tera_job::{DataForm, Datum, Job, Made, Page, Settings, Task, Unwatched, make};

/// The examples, each a folder with `templates`, `data` and `expected`.
const EXAMPLES: [&str; 3] = ["mail", "report", "site"];

/// Suffixes that escape.
const SUFFIXES: [&str; 3] = [".html", ".htm", ".xml"];

fn main(rt: HostRuntime) -> ExitCode {
    match run(&rt) {
        Ok(()) => ExitCode::SUCCESS,
        Err(error) => {
            let _ = eprintln!(rt; "{error}");
            ExitCode::FAILURE
        }
    }
}

// The examples lie in the folder that the first argument names, or where the program runs.
fn run(rt: &HostRuntime) -> Result<(), ExampleError> {
    let mut words = env::args(rt)?;
    let _program = words.next();
    let folder = words.next();
    let folder = match &folder {
        Some(folder) => folder.as_str(),
        None => ".",
    };
    for name in EXAMPLES.iter() {
        let count = example(rt, folder, *name)?;
        println!(rt; "{name}: {count} pages as expected")?;
    }
    Ok(())
}

// How many pages the example has, all as expected.
fn example(rt: &HostRuntime, folder: &str, name: &str) -> Result<usize, ExampleError> {
    let alloc = rt.alloc();
    let path = |part: &str| format!(in alloc; "{folder}/{name}/{part}");
    let templates = read_folder(rt, path("templates")?.as_str())?;
    let files = read_folder(rt, path("data")?.as_str())?;
    let expected = read_folder(rt, path("expected")?.as_str())?;
    let pages = pages_of(alloc, templates.as_slice(), files.as_slice())?;
    compare(alloc, name, pages.as_slice(), expected.as_slice())?;
    Ok(pages.len())
}

fn pages_of(
    alloc: Global,
    templates: &[TextFile],
    files: &[TextFile],
) -> Result<Vec<Page>, ExampleError> {
    let mut pairs = Vec::new(alloc);
    for file in templates {
        pairs.push((file.name.as_str(), file.text.as_str()))?;
    }
    let mut given = Vec::new(alloc);
    for file in files {
        if let Some(form) = DataForm::of_file(file.name.as_str()) {
            let text = file.text.as_str();
            given.push(Datum::Members { form, text })?;
        }
    }
    let job = Job {
        settings: Settings {
            suffixes: SUFFIXES.as_slice(),
            prefixes: &[],
            tags: None,
        },
        templates: pairs.as_slice(),
        given: given.as_slice(),
        floats: Floats::Refuse,
        task: Task::All,
    };
    match make(alloc, &job, &mut Unwatched)? {
        Made::Pages(pages) => Ok(pages),
        _ => Ok(Vec::new(alloc)),
    }
}

// Each page is the expected one, and no other is expected.
fn compare(
    alloc: Global,
    name: &str,
    pages: &[Page],
    expected: &[TextFile],
) -> Result<(), ExampleError> {
    let mut texts = BTreeMap::new(alloc);
    for file in expected {
        texts.insert(file.name.as_str(), file.text.as_str())?;
    }
    for page in pages {
        let path = page.path.as_str();
        match texts.remove(path) {
            Some(text) if text == page.text.as_str() => {}
            Some(_) => return Err(ExampleError::words(format!(in alloc; "{name}: {path} differs"))),
            None => return Err(ExampleError::words(format!(in alloc; "{name}: {path} is new"))),
        }
    }
    for (path, _) in texts.iter() {
        return Err(ExampleError::words(format!(in alloc; "{name}: {path} is not made")));
    }
    Ok(())
}
