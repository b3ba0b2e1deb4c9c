// A folder with all that lies in it.
ghost use Rattle.std.specs.Prelude.{◌≡◌, string_bytes, IfOk, IfErr};
ghost use Rattle.tera_folders.specs.declared.error.FileError.TheVariants.{NoMemory};
ghost use Rattle.tera_folders.specs.Errors.{IsAt};
ghost use Rattle.tera_folders.specs.Names.{joined, slash_between};

use crate::error::FileError;
use std::alloc::Global;
use std::fs::{Files, OpenFile, ReadDir};
use std::io::Read;
use std::{fs, io};

/// So deep a folder may lie: deeper ones come of links that lead in a circle.
const MOST_FOLDERS: usize = 40;

/// So many bytes at most are made room for before any is read.
const MOST_ROOM: usize = 1 << 24;

/// A file of a folder: its path from there, with `/` between the parts, and its text.
#[derive(Debug, Drop)]
pub struct TextFile {
    pub name: String,
    pub text: String,
}

/// All files of the folder and of folders in it, in byte order of their names. Names that begin with a full stop are left out.
/// The first file that can't be read, or that is no UTF-8, is the error.
pub fn read_folder<R: Files + AllocGlobal + Clone + Drop>(
    rt: &R,
    path: &str,
) -> Result<Vec<TextFile>, FileError> {
    let alloc = rt.alloc();
    let mut files = Vec::new(alloc);
    for name in file_names(rt, path)? {
        let text = read_text(rt, path, name.as_str())?;
        files.push(TextFile { name, text })?;
    }
    Ok(files)
}

/// The bytes of a file.
pub fn read_bytes<R: Files + AllocGlobal>(rt: &R, path: &str) -> Result<Vec<u8>, FileError>
    ensures err { IfErr result (IsAt path.now) }
{
    match read_sized(rt, path) {
        Ok(bytes) => Ok(bytes),
        Err(error) => Err(FileError::system(rt.alloc(), path, error)),
    }
}

// `fs::read` with room for so many bytes as the file says it has, and for one more, which tells that there are no others.
fn read_sized<R: Files + AllocGlobal>(rt: &R, path: &str) -> io::Result<Vec<u8>> {
    let mut file = fs::File::open(rt, path)?;
    let size = usize::try_from(file.metadata()?.len()).unwrap_or(0);
    let mut bytes = Vec::with_capacity(rt.alloc(), size.min(MOST_ROOM).saturating_add(1))?;
    file.read_to_end(&mut bytes)?;
    Ok(bytes)
}

fn read_text<R: Files + AllocGlobal>(
    rt: &R,
    folder: &str,
    name: &str,
) -> Result<String, FileError> {
    let alloc = rt.alloc();
    let path = path_below(alloc, folder, name)?;
    let bytes = read_bytes(rt, path.as_str())?;
    let error = match String::from_utf8(bytes) {
        Ok(text) => return Ok(text),
        Err(error) => error,
    };
    let line = line_at(error.as_bytes(), error.utf8_error().valid_up_to());
    let words = format!(in alloc; "line {line}: this is no text in UTF-8")?;
    Err(FileError::unfit(alloc, path.as_str(), words.as_str()))
}

// The line of the byte after the first so many, counted from 1.
fn line_at(bytes: &[u8], at: usize) -> usize {
    let mut line: usize = 1;
    for byte in bytes.iter().take(at) {
        if *byte == b'\n' {
            line = line.saturating_add(1);
        }
    }
    line
}

// What is known of a folder: folders whose files are still to be listed, each with a `/` at its end, and the names of files.
#[derive(Drop)]
struct Listed {
    waiting: Vec<String>,
    files: Vec<String>,
}

fn file_names<R: Files + AllocGlobal + Clone + Drop>(
    rt: &R,
    path: &str,
) -> Result<Vec<String>, FileError> {
    let alloc = rt.alloc();
    let mut listed = Listed {
        waiting: Vec::new(alloc),
        files: Vec::new(alloc),
    };
    listed.waiting.push(String::new(alloc))?;
    for _ in 0..u64::MAX {
        let Some(folder) = listed.waiting.pop() else {
            break;
        };
        list(rt, path, folder.as_str(), &mut listed)?;
    }
    listed.files.sort()?;
    Ok(listed.files)
}

// Lists what lies in one folder below the path.
fn list<R: Files + AllocGlobal + Clone + Drop>(
    rt: &R,
    path: &str,
    folder: &str,
    listed: &mut Listed,
) -> Result<(), FileError> {
    let alloc = rt.alloc();
    let at = path_below(alloc, path, folder)?;
    let entries: ReadDir<R, Global> = match fs::read_dir(rt, at.as_str()) {
        Ok(entries) => entries,
        Err(error) => return Err(FileError::system(alloc, at.as_str(), error)),
    };
    for entry in entries {
        match entry {
            Ok(entry) => add(rt, path, folder, entry.file_name(), listed)?,
            Err(error) => return Err(FileError::system(alloc, at.as_str(), error)),
        }
    }
    Ok(())
}

fn add<R: Files + AllocGlobal>(
    rt: &R,
    path: &str,
    folder: &str,
    name: &str,
    listed: &mut Listed,
) -> Result<(), FileError> {
    if name.starts_with('.') {
        return Ok(());
    }
    let alloc = rt.alloc();
    let mut below = String::from_str(alloc, folder)?;
    below.push_str(name)?;
    let at = path_below(alloc, path, below.as_str())?;
    match fs::metadata(rt, at.as_str()) {
        Ok(metadata) if metadata.is_dir() => {
            if below.as_str().split('/').count() > MOST_FOLDERS {
                let words = "this lies too deep, or a link leads in a circle";
                return Err(FileError::unfit(alloc, at.as_str(), words));
            }
            below.push('/')?;
            listed.waiting.push(below)?;
        }
        Ok(metadata) if metadata.is_file() => listed.files.push(below)?,
        Ok(_) => {}
        Err(error) => return Err(FileError::system(alloc, at.as_str(), error)),
    }
    Ok(())
}

/// A path below a folder.
pub(crate) fn path_below(alloc: Global, folder: &str, name: &str) -> Result<String, FileError>
    ensures ok { IfOk result (λ p. string_bytes p ≡ joined folder.now name.now) }
    ensures err { IfErr result (λ e. e ≡ NoMemory) }
{
    let mut path = String::from_str(alloc, folder)?;
    path.push_str(slash_between(folder, name))?;
    path.push_str(name)?;
    Ok(path)
}

fn slash_between(folder: &str, name: &str) -> &'static str
    ensures { result.now ≡ slash_between folder.now name.now }
{
    if folder.is_empty() || name.is_empty() {
        return "";
    }
    if folder.ends_with("/") { "" } else { "/" }
}
