// Settings of the engine, from options.
use crate::errors::RunError;
use crate::options::Options;
use std::alloc::Global;
use tera_folders::{FileError, TextFile};
use tera_job::Tags;

/// Suffixes that may stand after the one that tells of escaping.
const TEMPLATE_SUFFIXES: [&str; 4] = ["", ".tera", ".j2", ".jinja"];

/// Each of these suffixes, by itself and before one that says that a file is a template.
pub fn suffixes(alloc: Global, given: &[&str]) -> Result<Vec<String>, RunError> {
    let mut suffixes = Vec::new(alloc);
    for suffix in given {
        for last in TEMPLATE_SUFFIXES.iter() {
            let (suffix, last) = (*suffix, *last);
            suffixes.push(format!(in alloc; "{suffix}{last}")?)?;
        }
    }
    Ok(suffixes)
}

/// What stands before the names of each theme's templates. A theme is a folder of the templates.
pub fn theme_prefixes(
    alloc: Global,
    options: &Options<'_>,
    templates: &[TextFile],
) -> Result<Vec<String>, RunError> {
    let mut prefixes = Vec::new(alloc);
    for theme in &options.themes {
        let theme = (*theme).trim_end_matches('/');
        let prefix = format!(in alloc; "{theme}/")?;
        if !templates
            .iter()
            .any(|file| file.name.as_str().starts_with(prefix.as_str()))
        {
            let folder = options.templates;
            let words = format!(in alloc; "no template of {folder} lies in this theme")?;
            return Err(RunError::from(FileError::unfit(alloc, theme, words.as_str())));
        }
        prefixes.push(prefix)?;
    }
    Ok(prefixes)
}

/// Six texts with spaces between them, as what begins and ends tags.
pub fn tags<'a>(alloc: Global, text: Option<&'a str>) -> Result<Option<Tags<'a>>, RunError> {
    let Some(text) = text else {
        return Ok(None);
    };
    let mut words = Vec::new(alloc);
    for word in text.split_whitespace() {
        words.push(word)?;
    }
    match words.as_slice() {
        [
            block_start,
            block_end,
            variable_start,
            variable_end,
            comment_start,
            comment_end,
        ] => {
            Ok(Some(Tags {
                block_start: *block_start,
                block_end: *block_end,
                variable_start: *variable_start,
                variable_end: *variable_end,
                comment_start: *comment_start,
                comment_end: *comment_end,
            }))
        }
        _ => Err(RunError::usage(format!(in alloc;
            "'{text}' is not six texts with spaces between them, as '{{% %}} {{{{ }}}} {{# #}}'"
        ))),
    }
}
