// What was made is written, each file whole or not at all.
use crate::errors::RunError;
use crate::inputs::Inputs;
use crate::options::Options;
use std::alloc::{AllocError, Global};
use std::fmt::Write as _;
use std::io::Write;
use tera_folders::{lies_in, name_in, write_file, write_files};
use tera_job::{Made, Page, Preview};

/// Refuses to write over templates, or among them, where the next run would take pages for templates.
pub fn check(rt: &HostRuntime, options: &Options<'_>, inputs: &Inputs<'_>) -> Result<(), RunError> {
    let alloc = rt.alloc();
    let templates = options.templates;
    if let Some(folder) = options.output_folder {
        if lies_in(rt, folder, templates)? {
            return Err(RunError::usage(format!(in alloc;
                "pages would be written among the templates: {folder} lies in {templates}"
            )));
        }
    }
    match options.output {
        Some(file) => check_file(rt, file, templates, inputs),
        None => Ok(()),
    }
}

fn check_file(
    rt: &HostRuntime,
    file: &str,
    templates: &str,
    inputs: &Inputs<'_>,
) -> Result<(), RunError> {
    match name_in(rt, file, templates)? {
        Some(name) if inputs.has_template(name.as_str()) => Err(RunError::usage(
            format!(in rt.alloc(); "{file} is a template, and would be written over"),
        )),
        _ => Ok(()),
    }
}

/// Writes what was made to where the options say.
pub fn write(rt: &HostRuntime, options: &Options<'_>, made: &Made) -> Result<(), RunError> {
    let alloc = rt.alloc();
    match made {
        Made::Text(text) => write_text(rt, options.output, text.as_str()),
        Made::Names(names) => {
            let text = lines(alloc, names.as_slice())?;
            write_text(rt, options.output, text.as_str())
        }
        Made::Previews(previews) => {
            let text = previews_in_words(alloc, previews.as_slice())?;
            write_text(rt, options.output, text.as_str())
        }
        Made::Pages(pages) => write_pages(rt, options.output_folder, pages.as_slice()),
        Made::Sound => Ok(()),
    }
}

fn write_text(rt: &HostRuntime, output: Option<&str>, text: &str) -> Result<(), RunError> {
    match output {
        Some(path) if path != "-" => Ok(write_file(rt, path, text)?),
        _ => write_to_standard_output(rt, text),
    }
}

fn write_to_standard_output(rt: &HostRuntime, text: &str) -> Result<(), RunError> {
    let mut stdout = rt.stdout();
    let mut answer = stdout.write_all(text.as_bytes());
    if answer.is_ok() {
        answer = stdout.flush();
    }
    match answer {
        Ok(()) => Ok(()),
        Err(error) => Err(RunError::stream(rt.alloc(), "standard output", error)),
    }
}

fn write_pages(rt: &HostRuntime, folder: Option<&str>, pages: &[Page]) -> Result<(), RunError> {
    let mut files = Vec::with_capacity(rt.alloc(), pages.len())?;
    for page in pages {
        files.push((page.path.as_str(), page.text.as_str()))?;
    }
    Ok(write_files(rt, folder.unwrap_or("."), files.as_slice())?)
}

fn lines(alloc: Global, names: &[String]) -> Result<String, AllocError> {
    let mut text = String::new(alloc);
    for name in names {
        text.push_str(name.as_str())?;
        text.push('\n')?;
    }
    Ok(text)
}

// A heading for each component, and under it its text, or what is wrong with it.
fn previews_in_words(alloc: Global, previews: &[Preview]) -> Result<String, AllocError> {
    let mut text = String::new(alloc);
    for preview in previews {
        text.push_str("# ")?;
        text.push_str(preview.name.as_str())?;
        text.push('\n')?;
        match &preview.answer {
            Ok(answer) => text.push_str(answer.as_str())?,
            Err(error) => {
                let words = format!(in alloc; "no text: {error}")?;
                text.push_str(words.as_str())?;
            }
        }
        text.push('\n')?;
    }
    Ok(text)
}
