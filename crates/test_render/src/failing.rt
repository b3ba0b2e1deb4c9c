// The system's files, where one call fails.
use std::alloc::{AllocError, Allocator, Global};
use std::cell::Cell;
use std::clone::Clone;
use std::fs::{File, Files, Metadata, OpenFile, OpenOptions, Permissions};
use std::io::{ErrorKind, Read, Seek, SeekFrom, Write};
use std::path::PathBuf;
use std::rc::Rc;
use std::{fs, io};

/// The runtime, of whose calls on files one fails: the one before which so many are made.
#[derive(Drop)]
pub struct FailingFiles {
    pub rt: HostRuntime,
    pub before: Rc<Cell<usize>>,
}

/// A file of such a runtime.
#[derive(Drop)]
pub struct FailingFile {
    file: File,
    before: Rc<Cell<usize>>,
}

fn count(before: &Rc<Cell<usize>>) -> io::Result<()> {
    let left = before.get();
    if left == 0 {
        before.set(usize::MAX);
        return Err(io::Error::from(ErrorKind::StorageFull));
    }
    if left != usize::MAX {
        before.set(left - 1);
    }
    Ok(())
}

impl Clone for FailingFiles {
    fn clone(&self) -> Result<FailingFiles, AllocError> {
        Ok(FailingFiles {
            rt: self.rt.clone()?,
            before: self.before.clone()?,
        })
    }
}

impl Alloc for FailingFiles {
    type A = Global;

    fn alloc(&self) -> Global {
        self.rt.alloc()
    }
}

impl Files for FailingFiles {
    type File = FailingFile;

    type Dir = <HostRuntime as Files>::Dir;

    fn open_file(&self, how: &OpenOptions, path: &str) -> io::Result<FailingFile> {
        count(&self.before)?;
        Ok(FailingFile {
            file: self.rt.open_file(how, path)?,
            before: self.before.clone()?,
        })
    }

    fn open_dir(&self, path: &str) -> io::Result<<HostRuntime as Files>::Dir> {
        count(&self.before)?;
        self.rt.open_dir(path)
    }

    fn metadata(&self, path: &str) -> io::Result<Metadata> {
        count(&self.before)?;
        self.rt.metadata(path)
    }

    fn symlink_metadata(&self, path: &str) -> io::Result<Metadata> {
        self.rt.symlink_metadata(path)
    }

    fn copy(&self, from: &str, to: &str) -> io::Result<u64> {
        self.rt.copy(from, to)
    }

    fn rename(&self, from: &str, to: &str) -> io::Result<()> {
        count(&self.before)?;
        self.rt.rename(from, to)
    }

    fn remove_file(&self, path: &str) -> io::Result<()> {
        self.rt.remove_file(path)
    }

    fn create_dir(&self, path: &str) -> io::Result<()> {
        self.rt.create_dir(path)
    }

    fn remove_dir(&self, path: &str) -> io::Result<()> {
        self.rt.remove_dir(path)
    }

    fn remove_dir_all<B: Allocator>(&self, alloc: B, path: &str) -> io::Result<()> {
        Files::remove_dir_all(&self.rt, alloc, path)
    }

    fn canonicalize<B: Allocator>(&self, alloc: B, path: &str) -> io::Result<PathBuf<B>> {
        count(&self.before)?;
        Files::canonicalize(&self.rt, alloc, path)
    }
}

impl Read for FailingFile {
    fn read(&mut self, buf: &mut [u8]) -> io::Result<usize> {
        count(&self.before)?;
        self.file.read(buf)
    }
}

impl Write for FailingFile {
    fn write(&mut self, buf: &[u8]) -> io::Result<usize> {
        count(&self.before)?;
        // Half of it, so that a text takes several writes.
        self.file.write(&buf[..buf.len() - buf.len() / 2])
    }

    fn flush(&mut self) -> io::Result<()> {
        self.file.flush()
    }
}

impl Seek for FailingFile {
    fn seek(&mut self, to: SeekFrom) -> io::Result<u64> {
        self.file.seek(to)
    }
}

impl OpenFile for FailingFile {
    fn metadata(&self) -> io::Result<Metadata> {
        self.file.metadata()
    }

    fn set_len(&self, size: u64) -> io::Result<()> {
        self.file.set_len(size)
    }

    fn sync_all(&self) -> io::Result<()> {
        count(&self.before)?;
        self.file.sync_all()
    }

    fn sync_data(&self) -> io::Result<()> {
        self.file.sync_data()
    }

    fn set_permissions(&self, permissions: Permissions) -> io::Result<()> {
        count(&self.before)?;
        self.file.set_permissions(permissions)
    }
}
