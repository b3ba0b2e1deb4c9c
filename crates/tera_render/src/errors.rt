// Why the program makes nothing, how it says so, and its exit status.
ghost use Rattle.std.specs.Prelude.{◌≡◌};
ghost use Rattle.tera_render.specs.Status.{status_of};

use std::alloc::{AllocError, AllocFailed, Global};
use std::fmt::Write;
use std::{fmt, io};
use tera::{Error, ErrorKind};
use tera_folders::FileError;

/// Why the program ends without what was asked for.
#[derive(Drop)]
pub enum RunError {
    /// The help that the command line asks for.
    Help(clap::Error),
    /// The command line spells no task.
    CommandLine(clap::Error),
    /// What the command line says makes no sense here.
    Usage(String),
    /// A file can't be read or written.
    File(FileError),
    /// A template is refused or fails.
    Template(Error),
    /// Texts of templates that spell no tree.
    Syntax(Vec<Error>),
    /// A file of data can't be read.
    Data { file: String, error: Error },
    NoMemory,
}

impl RunError {
    /// Wrong usage, in words.
    pub fn usage(words: Result<String, AllocError>) -> RunError {
        match words {
            Ok(words) => RunError::Usage(words),
            Err(_) => RunError::NoMemory,
        }
    }

    /// An error of the standard input or output.
    pub fn stream(alloc: Global, name: &str, error: io::Error) -> RunError {
        RunError::from(FileError::system(alloc, name, error))
    }

    /// A file of data that can't be read, or want of memory.
    pub fn data(alloc: Global, file: &str, error: Error) -> RunError {
        match (error.kind(), String::from_str(alloc, file)) {
            (ErrorKind::OutOfMemory, _) | (_, Err(_)) => RunError::NoMemory,
            (_, Ok(file)) => RunError::Data { file, error },
        }
    }

    /// The exit status.
    pub fn status(&self) -> u8
        ensures { result ≡ status_of self.now }
    {
        match self {
            RunError::Help(_) => 0,
            RunError::CommandLine(_) | RunError::Usage(_) => 2,
            RunError::File(FileError::NoMemory) | RunError::NoMemory => 4,
            RunError::File(_) => 3,
            RunError::Template(error) => match error.kind() {
                ErrorKind::OutOfMemory => 4,
                _ => 1,
            },
            RunError::Syntax(_) => 1,
            RunError::Data { .. } => 5,
        }
    }

    /// Says it, on standard error.
    pub fn report(&self, rt: &HostRuntime) -> io::Result<()> {
        match self {
            RunError::Help(words) | RunError::CommandLine(words) => words.print(rt),
            RunError::Syntax(errors) => {
                for error in errors {
                    eprintln!(rt; "{error}")?;
                }
                Ok(())
            }
            error => eprintln!(rt; "{error}"),
        }
    }
}

impl fmt::Display for RunError {
    fn fmt<W: fmt::Write>(&self, f: &mut fmt::Formatter<W>) -> fmt::Result {
        match self {
            RunError::Usage(words) => {
                f.write_str("error: ")?;
                f.write_str(words.as_str())?;
                f.write_str("\n\nFor more information, try '--help'.")
            }
            RunError::File(error) => fmt::Display::fmt(error, f),
            RunError::Template(error) => fmt::Display::fmt(error, f),
            RunError::Data { file, error } => {
                let file = file.as_str();
                write!(f, "{file}: {error}")
            }
            _ => f.write_str("there is not enough memory"),
        }
    }
}

impl From<clap::Error> for RunError {
    fn from(error: clap::Error) -> RunError {
        if error.kind() == clap::error::ErrorKind::OutOfMemory {
            RunError::NoMemory
        } else if error.use_stderr() {
            RunError::CommandLine(error)
        } else {
            RunError::Help(error)
        }
    }
}

impl From<FileError> for RunError {
    fn from(error: FileError) -> RunError {
        RunError::File(error)
    }
}

impl From<AllocError> for RunError {
    fn from(_error: AllocError) -> RunError {
        RunError::NoMemory
    }
}

impl<T: Drop> From<AllocFailed<T>> for RunError {
    fn from(_error: AllocFailed<T>) -> RunError {
        RunError::NoMemory
    }
}
