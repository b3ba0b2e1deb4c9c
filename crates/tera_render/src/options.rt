// What the command line says.
use crate::errors::RunError;
use clap::ArgMatches;
use std::alloc::{AllocError, Global};
use tera_data::Floats;
use tera_filters::Clock;
use tera_job::{DataForm, Task};

/// Suffixes of templates that escape where nothing else is said.
const USUAL: [&str; 3] = [".html", ".htm", ".xml"];

/// A word of `-d`: a file of data, and the name at which all of it is put, if one is given.
#[derive(Clone, Copy, Debug)]
pub struct DataFile<'a> {
    pub name: Option<&'a str>,
    pub path: &'a str,
    pub form: DataForm,
}

impl DataFile<'_> {
    /// Whether standard input is meant.
    pub fn is_standard_input(&self) -> bool {
        self.path == "-"
    }
}

/// What the command line says, checked word by word.
#[derive(Drop)]
pub struct Options<'a> {
    pub templates: &'a str,
    pub task: Task<'a>,
    pub output: Option<&'a str>,
    pub output_folder: Option<&'a str>,
    pub files: Vec<DataFile<'a>>,
    /// Names with their texts.
    pub words: Vec<(&'a str, &'a str)>,
    pub prefixes: Vec<&'a str>,
    pub floats: Floats,
    /// Suffixes of templates that escape.
    pub suffixes: Vec<&'a str>,
    pub themes: Vec<&'a str>,
    pub delimiters: Option<&'a str>,
    /// Whether templates have the filters of the language alone.
    pub is_plain: bool,
    /// The time that `now` tells, where it is not the host's.
    pub clock: Option<Clock>,
    pub quiet: bool,
}

impl<'a> Options<'a> {
    /// What the matches say; or what of it makes no sense.
    pub fn new(alloc: Global, matches: &ArgMatches<'a>) -> Result<Options<'a>, RunError> {
        Ok(Options {
            templates: matches.get_str("templates").unwrap_or("."),
            task: task_of(matches),
            output: matches.get_str("output"),
            output_folder: matches.get_str("output-folder"),
            files: files_of(alloc, values_of(alloc, matches, "data")?.as_slice())?,
            words: words_of(alloc, values_of(alloc, matches, "define")?.as_slice())?,
            prefixes: values_of(alloc, matches, "env")?,
            floats: floats_of(matches),
            suffixes: suffixes_of(alloc, matches)?,
            themes: values_of(alloc, matches, "theme")?,
            delimiters: matches.get_str("delimiters"),
            is_plain: matches.get_flag("plain"),
            clock: clock_of(alloc, matches)?,
            quiet: matches.get_flag("quiet"),
        })
    }
}

// All values of an option that may stand several times.
fn values_of<'a>(
    alloc: Global,
    matches: &ArgMatches<'a>,
    name: &str,
) -> Result<Vec<&'a str>, AllocError> {
    match matches.get_strs(name) {
        Some(values) => Vec::from_slice(alloc, values),
        None => Ok(Vec::new(alloc)),
    }
}

fn task_of<'a>(matches: &ArgMatches<'a>) -> Task<'a> {
    if let Some(name) = matches.get_str("name") {
        return match matches.get_str("block") {
            Some(block) => Task::Block { name, block },
            None => Task::One { name },
        };
    }
    if let Some(name) = matches.get_str("variables") {
        return Task::Variables { name };
    }
    if matches.get_flag("components") {
        return Task::Components {
            autoescape: !matches.get_flag("no-escape"),
        };
    }
    if matches.get_flag("all") {
        return Task::All;
    }
    Task::Check
}

fn floats_of(matches: &ArgMatches<'_>) -> Floats {
    match matches.get_str("floats") {
        Some("text") => Floats::Text,
        _ => Floats::Refuse,
    }
}

fn clock_of(alloc: Global, matches: &ArgMatches<'_>) -> Result<Option<Clock>, RunError> {
    let Some(word) = matches.get_str("now") else {
        return Ok(None);
    };
    match word.parse::<i64>() {
        Ok(seconds) => Ok(Some(Clock { seconds })),
        Err(_) => Err(RunError::usage(format!(in alloc;
            "--now: '{word}' is no number of seconds since 1970"
        ))),
    }
}

fn suffixes_of<'a>(alloc: Global, matches: &ArgMatches<'a>) -> Result<Vec<&'a str>, AllocError> {
    if matches.get_flag("no-escape") {
        return Ok(Vec::new(alloc));
    }
    let mut suffixes = values_of(alloc, matches, "escape")?;
    if suffixes.is_empty() {
        for suffix in USUAL.iter() {
            suffixes.push(*suffix)?;
        }
    }
    Ok(suffixes)
}

fn files_of<'a>(alloc: Global, words: &[&'a str]) -> Result<Vec<DataFile<'a>>, RunError> {
    let mut files = Vec::new(alloc);
    let mut reads_input = false;
    for word in words {
        let file = file_of(alloc, *word)?;
        if file.is_standard_input() {
            if reads_input {
                let words = String::from_str(alloc, "standard input (`-`) can be read once");
                return Err(RunError::usage(words));
            }
            reads_input = true;
        }
        files.push(file)?;
    }
    Ok(files)
}

fn file_of<'a>(alloc: Global, word: &'a str) -> Result<DataFile<'a>, RunError> {
    let (name, path) = match word.split_once('=') {
        Some((name, path)) if is_name(name) => (Some(name), path),
        _ => (None, word),
    };
    let form = if path == "-" {
        Some(DataForm::Json)
    } else {
        DataForm::of_file(path)
    };
    match form {
        Some(form) => Ok(DataFile { name, path, form }),
        None => Err(unread_form(alloc, path)),
    }
}

fn unread_form(alloc: Global, path: &str) -> RunError {
    RunError::usage(format!(in alloc;
        "the data file '{path}' ends in none of the suffixes that are read: .json, .toml, .csv"
    ))
}

fn words_of<'a>(alloc: Global, words: &[&'a str]) -> Result<Vec<(&'a str, &'a str)>, RunError> {
    let mut pairs = Vec::new(alloc);
    for word in words {
        match (*word).split_once('=') {
            Some((name, text)) if is_name(name) => pairs.push((name, text))?,
            _ => {
                let word = *word;
                return Err(RunError::usage(format!(in alloc;
                    "'{word}' is no NAME=TEXT: a name has ASCII letters, digits and `_`, and begins with no digit"
                )));
            }
        }
    }
    Ok(pairs)
}

// Whether templates can read a variable of this name.
fn is_name(text: &str) -> bool {
    let bytes = text.as_bytes();
    match bytes.first() {
        Some(byte) if !byte.is_ascii_digit() => {}
        _ => return false,
    }
    for byte in bytes {
        if !byte.is_ascii_alphanumeric() && *byte != b'_' {
            return false;
        }
    }
    true
}
