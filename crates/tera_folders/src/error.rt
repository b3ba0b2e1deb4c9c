// What goes wrong with a file.
ghost use Rattle.std.specs.Prelude.{◌≡◌};
ghost use Rattle.tera_folders.specs.declared.error.FileError.TheVariants.{NoMemory};
ghost use Rattle.tera_folders.specs.Errors.{IsSystemError, IsUnfitError};

use std::alloc::{AllocError, AllocFailed, Global};
use std::fmt::Write;
use std::{fmt, io};

/// A file or a folder that could not be read or written, and why.
#[derive(Debug, Drop)]
pub enum FileError {
    /// The system refused it.
    System { path: String, error: io::Error },
    /// It is not what is wanted, as these words say.
    Unfit { path: String, words: String },
    /// Memory was refused.
    NoMemory,
}

impl FileError {
    /// The system's error, at this path.
    pub fn system(alloc: Global, path: &str, error: io::Error) -> FileError
        ensures { IsSystemError path.now error result }
    {
        if error.kind() == io::ErrorKind::OutOfMemory {
            return FileError::NoMemory;
        }
        match String::from_str(alloc, path) {
            Ok(path) => FileError::System { path, error },
            Err(_) => FileError::NoMemory,
        }
    }

    /// A file that is not what is wanted.
    pub fn unfit(alloc: Global, path: &str, words: &str) -> FileError
        ensures { IsUnfitError path.now result }
    {
        match (
            String::from_str(alloc, path),
            String::from_str(alloc, words),
        ) {
            (Ok(path), Ok(words)) => FileError::Unfit { path, words },
            _ => FileError::NoMemory,
        }
    }
}

impl From<AllocError> for FileError {
    ghost from_gives = { λ _ e. e ≡ NoMemory };

    fn from(_error: AllocError) -> FileError {
        FileError::NoMemory
    }
}

impl<T: Drop> From<AllocFailed<T>> for FileError {
    ghost from_gives = { λ _ e. e ≡ NoMemory };

    fn from(_error: AllocFailed<T>) -> FileError {
        FileError::NoMemory
    }
}

impl fmt::Display for FileError {
    fn fmt<W: fmt::Write>(&self, f: &mut fmt::Formatter<W>) -> fmt::Result {
        match self {
            FileError::System { path, error } => write!(f, "{path}: {error}"),
            FileError::Unfit { path, words } => write!(f, "{path}: {words}"),
            FileError::NoMemory => f.write_str("there is not enough memory"),
        }
    }
}
