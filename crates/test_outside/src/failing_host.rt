use crate::files::fetch_one;
use st_outside::{FetchFault, StdFiles, Unread};
use std::alloc::Allocator;
use std::fs::{Metadata, OpenFile, OpenOptions};
use std::io::{self, Error, ErrorKind, Read, Seek, SeekFrom, Write};
use std::rt::Files;
use std::test::Fail;

// A host whose files have an error of this kind after so many bytes; without a number they aren't opened.
#[derive(Drop)]
struct FailingHost {
    readable: Option<usize>,
    kind: ErrorKind,
}

// A file with an error after so many bytes.
#[derive(Drop)]
struct FailingFile {
    left: usize,
    kind: ErrorKind,
}

fn unsupported() -> Error {
    Error::from(ErrorKind::Unsupported)
}

impl Read for FailingFile {
    fn read(&mut self, buf: &mut [u8]) -> io::Result<usize> {
        if self.left == 0 {
            return Err(Error::from(self.kind));
        }
        let count = self.left.min(buf.len());
        self.left -= count;
        Ok(count)
    }
}

impl Write for FailingFile {
    fn write(&mut self, _buf: &[u8]) -> io::Result<usize> {
        Err(unsupported())
    }

    fn flush(&mut self) -> io::Result<()> {
        Err(unsupported())
    }
}

impl Seek for FailingFile {
    fn seek(&mut self, _to: SeekFrom) -> io::Result<u64> {
        Err(unsupported())
    }
}

impl OpenFile for FailingFile {
    fn metadata(&self) -> io::Result<Metadata> {
        Err(unsupported())
    }

    fn set_len(&self, _size: u64) -> io::Result<()> {
        Err(unsupported())
    }

    fn sync_all(&self) -> io::Result<()> {
        Err(unsupported())
    }

    fn sync_data(&self) -> io::Result<()> {
        Err(unsupported())
    }
}

impl Files for FailingHost {
    type File = FailingFile;

    type Dir = FailingFile;

    fn open_file(&self, _how: &OpenOptions, _path: &str) -> io::Result<FailingFile> {
        match self.readable {
            Some(left) => Ok(FailingFile {
                left,
                kind: self.kind,
            }),
            None => Err(Error::from(self.kind)),
        }
    }

    fn open_dir(&self, _path: &str) -> io::Result<FailingFile> {
        Err(unsupported())
    }

    fn metadata(&self, _path: &str) -> io::Result<Metadata> {
        Err(unsupported())
    }

    fn symlink_metadata(&self, _path: &str) -> io::Result<Metadata> {
        Err(unsupported())
    }

    fn copy(&self, _from: &str, _to: &str) -> io::Result<u64> {
        Err(unsupported())
    }

    fn rename(&self, _from: &str, _to: &str) -> io::Result<()> {
        Err(unsupported())
    }

    fn remove_file(&self, _path: &str) -> io::Result<()> {
        Err(unsupported())
    }

    fn create_dir(&self, _path: &str) -> io::Result<()> {
        Err(unsupported())
    }

    fn remove_dir(&self, _path: &str) -> io::Result<()> {
        Err(unsupported())
    }

    fn remove_dir_all<B: Allocator>(&self, _alloc: B, _path: &str) -> io::Result<()> {
        Err(unsupported())
    }
}

// How many bytes can be read, the error after them, the fault of the fetch, and the reason.
type Row = (Option<usize>, ErrorKind, FetchFault, Unread);

const ROWS: [Row; 10] = [
    (
        None,
        ErrorKind::NotFound,
        FetchFault::Missing,
        Unread::Other,
    ),
    (
        None,
        ErrorKind::PermissionDenied,
        FetchFault::Failed,
        Unread::Denied,
    ),
    (
        None,
        ErrorKind::IsADirectory,
        FetchFault::Failed,
        Unread::Directory,
    ),
    (
        None,
        ErrorKind::Interrupted,
        FetchFault::Failed,
        Unread::Other,
    ),
    (
        Some(0),
        ErrorKind::NotFound,
        FetchFault::Failed,
        Unread::Other,
    ),
    (
        Some(0),
        ErrorKind::IsADirectory,
        FetchFault::Failed,
        Unread::Directory,
    ),
    (
        Some(1),
        ErrorKind::PermissionDenied,
        FetchFault::Failed,
        Unread::Denied,
    ),
    (
        Some(5000),
        ErrorKind::Other,
        FetchFault::Failed,
        Unread::Other,
    ),
    (
        Some(1_048_576),
        ErrorKind::Other,
        FetchFault::Failed,
        Unread::Other,
    ),
    (
        Some(1_048_577),
        ErrorKind::PermissionDenied,
        FetchFault::TooLong,
        Unread::Other,
    ),
];

#[test]
fn errors_of_the_host_are_faults(rt: HostRuntime) -> Result<(), Fail> {
    for (readable, kind, fault, reason) in &ROWS {
        let host = FailingHost {
            readable: *readable,
            kind: *kind,
        };
        let mut files = StdFiles::new(&host);
        fetch_one(&rt, &mut files, b"name", Err(*fault))?;
        assert_eq!(rt; files.reason(), *reason);
        assert_eq!(rt; files.faults() == 1, *fault == FetchFault::Failed);
    }
    Ok(())
}
