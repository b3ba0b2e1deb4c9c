// Why an example is not as expected.
use std::alloc::{AllocError, AllocFailed};
use std::{fmt, io};
use tera_folders::FileError;
use tera_job::JobError;

/// Why an example is not as expected.
#[derive(Drop)]
pub enum ExampleError {
    Differs(String),
    File(FileError),
    Job(JobError),
    NoMemory,
    Stream,
}

impl ExampleError {
    /// In words that were made for it.
    pub fn words(words: Result<String, AllocError>) -> ExampleError {
        match words {
            Ok(words) => ExampleError::Differs(words),
            Err(_) => ExampleError::NoMemory,
        }
    }
}

impl fmt::Display for ExampleError {
    fn fmt<W: fmt::Write>(&self, f: &mut fmt::Formatter<W>) -> fmt::Result {
        match self {
            ExampleError::Differs(words) => f.write_str(words.as_str()),
            ExampleError::File(error) => fmt::Display::fmt(error, f),
            ExampleError::Job(JobError::Fault(error)) => fmt::Display::fmt(error, f),
            ExampleError::Job(JobError::Unreadable(unreadable)) => {
                fmt::Display::fmt(&unreadable.error, f)
            }
            ExampleError::Job(JobError::Syntax(_)) => f.write_str("some templates can't be read"),
            ExampleError::NoMemory => f.write_str("there is not enough memory"),
            ExampleError::Stream => f.write_str("a stream failed"),
        }
    }
}

impl From<AllocError> for ExampleError {
    fn from(_error: AllocError) -> ExampleError {
        ExampleError::NoMemory
    }
}

impl<T: Drop> From<AllocFailed<T>> for ExampleError {
    fn from(_error: AllocFailed<T>) -> ExampleError {
        ExampleError::NoMemory
    }
}

impl From<FileError> for ExampleError {
    fn from(error: FileError) -> ExampleError {
        ExampleError::File(error)
    }
}

impl From<JobError> for ExampleError {
    fn from(error: JobError) -> ExampleError {
        ExampleError::Job(error)
    }
}

impl From<io::Error> for ExampleError {
    fn from(_error: io::Error) -> ExampleError {
        ExampleError::Stream
    }
}
