// All that is read: templates, files of data, the environment and standard input.
use crate::errors::RunError;
use crate::objects::RenderObjects;
use crate::options::{DataFile, Options};
use crate::progress::Progress;
use crate::settings::{suffixes, tags, theme_prefixes};
use std::alloc::Global;
use std::env;
use std::env::VarError;
use std::io::Read;
use tera::ErrorKind;
use tera_data::text_of;
use tera_folders::{FileError, TextFile, read_bytes, read_folder};
use tera_job::{Datum, Job, JobError, Made, Settings, Tags, make_with};

/// What a word of `-d` names: the bytes of a file.
#[derive(Drop)]
struct DataBytes<'a> {
    file: DataFile<'a>,
    bytes: Vec<u8>,
}

/// What a job is made of.
#[derive(Drop)]
pub struct Inputs<'a> {
    templates: Vec<TextFile>,
    suffixes: Vec<String>,
    prefixes: Vec<String>,
    tags: Option<Tags<'a>>,
    /// Variables of the environment.
    variables: Vec<(String, String)>,
    files: Vec<DataBytes<'a>>,
}

impl<'a> Inputs<'a> {
    /// Reads all that the options name.
    pub fn read(rt: &HostRuntime, options: &Options<'a>) -> Result<Inputs<'a>, RunError> {
        let alloc = rt.alloc();
        let tags = tags(alloc, options.delimiters)?;
        let suffixes = suffixes(alloc, options.suffixes.as_slice())?;
        let templates = read_folder(rt, options.templates)?;
        let prefixes = theme_prefixes(alloc, options, templates.as_slice())?;
        let variables = variables(rt, options.prefixes.as_slice())?;
        let files = files(rt, options.files.as_slice())?;
        Ok(Inputs {
            templates,
            suffixes,
            prefixes,
            tags,
            variables,
            files,
        })
    }

    /// Whether a template has this name.
    pub fn has_template(&self, name: &str) -> bool {
        self.templates.iter().any(|file| file.name.as_str() == name)
    }

    /// Makes what the options ask for, with an engine that has these objects.
    pub fn make(
        &self,
        alloc: Global,
        objects: RenderObjects,
        options: &Options<'_>,
        progress: &mut Progress<'_>,
    ) -> Result<Made, RunError> {
        let templates = self.pairs(alloc)?;
        let suffixes = borrow_all(alloc, self.suffixes.as_slice())?;
        let prefixes = borrow_all(alloc, self.prefixes.as_slice())?;
        let data = self.data_in_order(alloc, options)?;
        let settings = Settings {
            suffixes: suffixes.as_slice(),
            prefixes: prefixes.as_slice(),
            tags: self.tags,
        };
        check_tags(alloc, &settings)?;
        let job = Job {
            settings,
            templates: templates.as_slice(),
            given: data.as_slice(),
            floats: options.floats,
            task: options.task,
        };
        match make_with(alloc, objects, &job, progress) {
            Ok(made) => Ok(made),
            Err(error) => Err(self.run_error(alloc, error)),
        }
    }

    fn pairs(&self, alloc: Global) -> Result<Vec<(&str, &str)>, RunError> {
        let mut pairs = Vec::with_capacity(alloc, self.templates.len())?;
        for file in &self.templates {
            pairs.push((file.name.as_str(), file.text.as_str()))?;
        }
        Ok(pairs)
    }

    // The data in its order: the environment, files, and texts of the command line.
    fn data_in_order<'s>(
        &'s self,
        alloc: Global,
        options: &'s Options<'_>,
    ) -> Result<Vec<Datum<'s>>, RunError> {
        let mut all = Vec::new(alloc);
        for (name, text) in self.variables.iter() {
            all.push(Datum::Words {
                name: name.as_str(),
                text: text.as_str(),
            })?;
        }
        for data in &self.files {
            all.push(datum(alloc, data)?)?;
        }
        for (name, text) in options.words.iter() {
            all.push(Datum::Words {
                name: *name,
                text: *text,
            })?;
        }
        Ok(all)
    }

    // The error of a job, with the name of the file of which it speaks.
    fn run_error(&self, alloc: Global, error: JobError) -> RunError {
        match error {
            JobError::Fault(error) => RunError::Template(error),
            JobError::Syntax(errors) => RunError::Syntax(errors),
            JobError::Unreadable(unreadable) => {
                let position = unreadable.position.saturating_sub(self.variables.len());
                match self.files.as_slice().get(position) {
                    Some(data) => RunError::data(alloc, name_of(&data.file), unreadable.error),
                    None => RunError::Template(unreadable.error),
                }
            }
        }
    }
}

// Tags that cannot be told apart are wrong usage.
fn check_tags(alloc: Global, settings: &Settings<'_>) -> Result<(), RunError> {
    let delimiters = match settings.delimiters(alloc) {
        Ok(delimiters) => delimiters,
        Err(_) => return Err(RunError::NoMemory),
    };
    match delimiters.validate(alloc) {
        Ok(()) => Ok(()),
        Err(error) => match error.kind() {
            ErrorKind::OutOfMemory => Err(RunError::NoMemory),
            _ => Err(RunError::usage(format!(in alloc; "--delimiters: {error}"))),
        },
    }
}

// What messages call the file.
fn name_of<'a>(file: &DataFile<'a>) -> &'a str {
    if file.is_standard_input() {
        "standard input"
    } else {
        file.path
    }
}

fn datum<'s>(alloc: Global, data: &'s DataBytes<'_>) -> Result<Datum<'s>, RunError> {
    let text = match text_of(alloc, data.bytes.as_slice()) {
        Ok(text) => text,
        Err(error) => return Err(RunError::data(alloc, name_of(&data.file), error)),
    };
    let form = data.file.form;
    Ok(match data.file.name {
        Some(name) => Datum::Whole { name, form, text },
        None => Datum::Members { form, text },
    })
}

fn borrow_all(alloc: Global, texts: &[String]) -> Result<Vec<&str>, RunError> {
    let mut lent = Vec::with_capacity(alloc, texts.len())?;
    for text in texts {
        lent.push(text.as_str())?;
    }
    Ok(lent)
}

fn files<'a>(rt: &HostRuntime, files: &[DataFile<'a>]) -> Result<Vec<DataBytes<'a>>, RunError> {
    let mut all = Vec::new(rt.alloc());
    for file in files {
        let bytes = if file.is_standard_input() {
            standard_input(rt)?
        } else {
            read_bytes(rt, file.path)?
        };
        all.push(DataBytes { file: *file, bytes })?;
    }
    Ok(all)
}

fn standard_input(rt: &HostRuntime) -> Result<Vec<u8>, RunError> {
    let mut bytes = Vec::new(rt.alloc());
    match rt.stdin().read_to_end(&mut bytes) {
        Ok(_) => Ok(bytes),
        Err(error) => Err(RunError::stream(rt.alloc(), "standard input", error)),
    }
}

// The variables of the environment that begin with one of these, in byte order.
fn variables(rt: &HostRuntime, prefixes: &[&str]) -> Result<Vec<(String, String)>, RunError> {
    let alloc = rt.alloc();
    let mut found = Vec::new(alloc);
    if prefixes.is_empty() {
        return Ok(found);
    }
    let all = match env::vars(rt) {
        Ok(all) => all,
        Err(VarError::OutOfMemory) => return Err(RunError::NoMemory),
        Err(_) => {
            let words = String::from_str(
                alloc,
                "--env: a variable of the environment is no text in UTF-8",
            );
            return Err(RunError::usage(words));
        }
    };
    for variable in all {
        if prefixes
            .iter()
            .any(|prefix| variable.0.as_str().starts_with(*prefix))
        {
            found.push(variable)?;
        }
    }
    found.sort()?;
    Ok(found)
}
