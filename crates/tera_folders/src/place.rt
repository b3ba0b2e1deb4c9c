// Where a path lies, beside a folder.
ghost use Rattle.std.specs.Prelude.{ℕ, List, IfSome, IfNone};
ghost use Rattle.tera_folders.specs.Names.{IsBelow};

use crate::error::FileError;
use std::fs;
use std::fs::Files;
use std::io::ErrorKind;

/// Whether what would be written to the path would lie in the folder, or would be the folder.
pub fn lies_in<R: Files + AllocGlobal>(
    rt: &R,
    path: &str,
    folder: &str,
) -> Result<bool, FileError> {
    let folder = whole_path(rt, folder)?;
    let there = nearest_part(rt, path)?;
    Ok(rest_below(there.as_str(), folder.as_str()).is_some())
}

/// The name that the file at the path has in the folder, where there is one and it lies there.
pub fn name_in<R: Files + AllocGlobal>(
    rt: &R,
    path: &str,
    folder: &str,
) -> Result<Option<String>, FileError> {
    let folder = whole_path(rt, folder)?;
    let there = match fs::canonicalize(rt, path) {
        Ok(there) => there,
        Err(_) => return Ok(None),
    };
    match rest_below(there.as_str(), folder.as_str()) {
        Some(name) => Ok(Some(String::from_str(rt.alloc(), name)?)),
        None => Ok(None),
    }
}

/// What of the path is below the folder, nothing where it is that. Both are paths from the root, without links and steps back.
pub fn rest_below<'a>(path: &'a str, folder: &str) -> Option<&'a str>
    ensures below { IfSome result (λ rest. IsBelow folder.now path.now rest.now) }
    ensures apart { IfNone result ((rest : List ℕ) → ¬ IsBelow folder.now path.now rest) }
{
    if path == folder {
        return Some("");
    }
    let rest = path.strip_prefix(folder)?;
    if folder.ends_with("/") {
        return Some(rest);
    }
    rest.strip_prefix("/")
}

// The path from the root of the system, without links and steps back.
fn whole_path<R: Files + AllocGlobal>(rt: &R, path: &str) -> Result<String, FileError> {
    match fs::canonicalize(rt, path) {
        Ok(whole) => Ok(whole.into_string()),
        Err(error) => Err(FileError::system(rt.alloc(), path, error)),
    }
}

// The same of what is there of the path: the path itself, or a folder above it.
fn nearest_part<R: Files + AllocGlobal>(rt: &R, path: &str) -> Result<String, FileError> {
    let mut part = path.trim_end_matches('/');
    for _ in 0..path.len() {
        match fs::canonicalize(rt, part) {
            Ok(whole) => return Ok(whole.into_string()),
            Err(error) if error.kind() == ErrorKind::NotFound => {}
            Err(error) => return Err(FileError::system(rt.alloc(), part, error)),
        }
        match part.rsplit_once('/') {
            Some((above, _)) if !above.is_empty() => part = above,
            Some(_) => return whole_path(rt, "/"),
            None => break,
        }
    }
    whole_path(rt, ".")
}
