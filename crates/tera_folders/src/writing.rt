// Files that are written whole or not at all.
ghost use Rattle.std.specs.Prelude.{◌≡◌, ◌++◌, codes, string_bytes, IfOk, IfErr};
ghost use Rattle.tera_folders.specs.Errors.{IsAt};

use crate::error::FileError;
use crate::reading::path_below;
use std::alloc::Global;
use std::fs::{Files, OpenFile};
use std::io::{ErrorKind, Write};
use std::{fs, io};

/// Writes each of these texts to its path below the folder, as `write_file` does but for the sync: so many files would wait long for a
/// disk. Folders that are missing are made.
pub fn write_files<R: Files + AllocGlobal>(
    rt: &R,
    folder: &str,
    files: &[(&str, &str)],
) -> Result<(), FileError> {
    // The names of one folder stand side by side, so it is made once.
    let mut made = None;
    for file in files {
        let path = path_below(rt.alloc(), folder, file.0)?;
        let parent = parent_of(file.0);
        if made != Some(parent) {
            make_parents(rt, path.as_str())?;
            made = Some(parent);
        }
        put_file(rt, path.as_str(), file.1, false)?;
    }
    Ok(())
}

// The folders of a name, without the last part.
fn parent_of(name: &str) -> &str {
    match name.rsplit_once('/') {
        Some((parent, _)) => parent,
        None => "",
    }
}

/// Writes the text to the path: to `path.part~` first, which is synced and then takes the place of what was there. After an error that
/// is as before.
/// What is no plain file, such as a device or a pipe, is written to where it stands, and so is what the system names in `/dev`.
pub fn write_file<R: Files + AllocGlobal>(rt: &R, path: &str, text: &str) -> Result<(), FileError>
    ensures err { IfErr result (IsAt path.now) }
{
    put_file(rt, path, text, true)
}

// The same, where `syncs` says whether the text is to be on the disk before it takes the place of what was there.
fn put_file<R: Files + AllocGlobal>(
    rt: &R,
    path: &str,
    text: &str,
    syncs: bool,
) -> Result<(), FileError>
    ensures err { IfErr result (IsAt path.now) }
{
    let alloc = rt.alloc();
    let answer = match fs::metadata(rt, path) {
        Ok(there) if there.is_dir() => {
            return Err(FileError::unfit(alloc, path, "this is a folder"));
        }
        Ok(there) if !there.is_file() || path.starts_with("/dev/") => write_to(rt, path, text),
        Ok(_) => match fs::canonicalize(rt, path) {
            Ok(target) => replace(rt, target.as_str(), text, true, syncs),
            Err(error) => Err(error),
        },
        Err(error) if error.kind() == ErrorKind::NotFound => replace(rt, path, text, false, syncs),
        Err(error) => Err(error),
    };
    match answer {
        Ok(()) => Ok(()),
        Err(error) => Err(FileError::system(alloc, path, error)),
    }
}

fn write_to<R: Files>(rt: &R, path: &str, text: &str) -> io::Result<()> {
    let mut file = fs::File::create(rt, path)?;
    file.write_all(text.as_bytes())?;
    file.flush()
}

// Puts a whole file in the place of the one at this path, which keeps the permissions of that.
fn replace<R: Files + AllocGlobal>(
    rt: &R,
    path: &str,
    text: &str,
    is_there: bool,
    syncs: bool,
) -> io::Result<()> {
    let part = part_of(rt.alloc(), path)?;
    let part = part.as_str();
    match write_part(rt, part, path, text, is_there, syncs) {
        Ok(()) => Ok(()),
        Err(error) => {
            // The first error is the one to tell.
            let _ = fs::remove_file(rt, part);
            Err(error)
        }
    }
}

fn write_part<R: Files>(
    rt: &R,
    part: &str,
    path: &str,
    text: &str,
    is_there: bool,
    syncs: bool,
) -> io::Result<()> {
    let mut file = fs::File::create(rt, part)?;
    file.write_all(text.as_bytes())?;
    if is_there {
        file.set_permissions(fs::metadata(rt, path)?.permissions())?;
    }
    if syncs {
        file.sync_all()?;
    }
    drop(file);
    fs::rename(rt, part, path)
}

fn part_of(alloc: Global, path: &str) -> io::Result<String>
    ensures ok { IfOk result (λ p. string_bytes p ≡ path.now ++ codes ".part~") }
{
    let mut part = String::from_str(alloc, path)?;
    part.push_str(".part~")?;
    Ok(part)
}

fn make_parents<R: Files + AllocGlobal>(rt: &R, path: &str) -> Result<(), FileError> {
    let Some((parent, _)) = path.rsplit_once('/') else {
        return Ok(());
    };
    match fs::create_dir_all(rt, parent) {
        Ok(()) => Ok(()),
        Err(error) => Err(FileError::system(rt.alloc(), parent, error)),
    }
}
