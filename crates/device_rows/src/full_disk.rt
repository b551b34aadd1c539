//! Real files on a disk that is full.

use std::alloc::Allocator;
use std::fs::{Metadata, OpenFile, OpenOptions, Permissions};
use std::io::{ErrorKind, Read, Seek, SeekFrom, Write};
use std::path::PathBuf;
use std::{io, rt};

/// The real files on a disk that has room for two bytes more in each file.
#[derive(Drop)]
pub struct FullDisk<R: rt::Files + Drop> {
    pub real: R,
}

/// A file with room for so many bytes.
#[derive(Drop)]
pub struct FullFile<F: Drop> {
    real: F,
    room: usize,
}

impl<F: Read + Drop> Read for FullFile<F> {
    fn read(&mut self, buf: &mut [u8]) -> io::Result<usize> {
        self.real.read(buf)
    }
}

impl<F: Write + Drop> Write for FullFile<F> {
    fn write(&mut self, buf: &[u8]) -> io::Result<usize> {
        let fits = buf.len().min(self.room);
        if fits == 0 {
            return Err(io::Error::from(ErrorKind::StorageFull));
        }
        let count = self.real.write(&buf[..fits])?;
        self.room -= count;
        Ok(count)
    }

    fn flush(&mut self) -> io::Result<()> {
        self.real.flush()
    }
}

impl<F: Seek + Drop> Seek for FullFile<F> {
    fn seek(&mut self, to: SeekFrom) -> io::Result<u64> {
        self.real.seek(to)
    }
}

impl<F: OpenFile + Drop> OpenFile for FullFile<F> {
    fn metadata(&self) -> io::Result<Metadata> {
        self.real.metadata()
    }

    fn set_len(&self, size: u64) -> io::Result<()> {
        self.real.set_len(size)
    }

    fn sync_all(&self) -> io::Result<()> {
        self.real.sync_all()
    }

    fn sync_data(&self) -> io::Result<()> {
        self.real.sync_data()
    }

    fn set_permissions(&self, perm: Permissions) -> io::Result<()> {
        self.real.set_permissions(perm)
    }
}

impl<R: rt::Files + Drop> rt::Files for FullDisk<R> {
    type File = FullFile<R::File>;

    type Dir = R::Dir;

    fn open_file(&self, how: &OpenOptions, path: &str) -> io::Result<FullFile<R::File>> {
        let real = self.real.open_file(how, path)?;
        Ok(FullFile { real, room: 2 })
    }

    fn open_dir(&self, path: &str) -> io::Result<R::Dir> {
        self.real.open_dir(path)
    }

    fn metadata(&self, path: &str) -> io::Result<Metadata> {
        self.real.metadata(path)
    }

    fn symlink_metadata(&self, path: &str) -> io::Result<Metadata> {
        self.real.symlink_metadata(path)
    }

    fn copy(&self, from: &str, to: &str) -> io::Result<u64> {
        self.real.copy(from, to)
    }

    fn rename(&self, from: &str, to: &str) -> io::Result<()> {
        self.real.rename(from, to)
    }

    fn remove_file(&self, path: &str) -> io::Result<()> {
        self.real.remove_file(path)
    }

    fn create_dir(&self, path: &str) -> io::Result<()> {
        self.real.create_dir(path)
    }

    fn remove_dir(&self, path: &str) -> io::Result<()> {
        self.real.remove_dir(path)
    }

    fn remove_dir_all<B: Allocator>(&self, alloc: B, path: &str) -> io::Result<()> {
        self.real.remove_dir_all(alloc, path)
    }

    fn canonicalize<B: Allocator>(&self, alloc: B, path: &str) -> io::Result<PathBuf<B>> {
        self.real.canonicalize(alloc, path)
    }
}
