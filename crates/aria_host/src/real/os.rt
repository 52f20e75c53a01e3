ghost use Rattle.std.specs.Prelude.{[], false};

use crate::real::system::System;
use crate::{FileName, Stream};
use aria_page::{Bytes, List};
use std::alloc::Global;
use std::fs::{File, OpenOptions};
use std::io::{ErrorKind, Read, Write};
use std::os::unix::fs::{FileExt, MetadataExt, OpenOptionsExt};
use std::{fs, io, str};

/// The current folder.
const FOLDER: &str = ".";

/// Who may use a file that is made: its owner reads and writes it, and all others read it.
const MODE: u32 = 0o644;

/// An open file, with the name that it was opened by.
#[derive(Drop)]
pub struct Handle {
    pub(crate) name: FileName,
    file: File,
}

/// The operating system. It tells no contents: that each call does what `System` says is trusted.
#[derive(Drop)]
pub struct Os {
    rt: HostRuntime,
}

// What stands under that path, without following a link; an error where it is no regular file.
fn regular(rt: &HostRuntime, path: &str) -> io::Result<fs::Metadata> {
    let found = fs::symlink_metadata(rt, path)?;
    if found.is_file() {
        Ok(found)
    } else {
        Err(ErrorKind::Unsupported.into())
    }
}

// Opens a regular file. What was put in its place while it was opened isn't taken.
fn open(rt: &HostRuntime, path: &str) -> io::Result<File> {
    let named = regular(rt, path)?;
    let file = OpenOptions::new().read(true).write(true).open(rt, path)?;
    let found = file.metadata()?;
    if found.dev() == named.dev() && found.ino() == named.ino() {
        Ok(file)
    } else {
        Err(ErrorKind::Unsupported.into())
    }
}

// The text as a path.
fn path_of(text: &[u8]) -> io::Result<&str> {
    match str::from_utf8(text) {
        Ok(path) => Ok(path),
        Err(_) => Err(ErrorKind::InvalidInput.into()),
    }
}

impl Os {
    pub(crate) fn new(rt: &HostRuntime) -> Os {
        Os { rt: *rt }
    }
}

impl System for Os {
    ghost tells = { false };

    ghost calls = { λ _. [] };

    fn look(&mut self, name: &FileName) -> io::Result<Option<u64>> {
        let text = name.text_in_place();
        match regular(&self.rt, path_of(text.as_slice())?) {
            Ok(found) => Ok(Some(found.len())),
            Err(error) if error.kind() == ErrorKind::NotFound => Ok(None),
            Err(error) => Err(error),
        }
    }

    fn open(&mut self, name: &FileName) -> io::Result<Handle> {
        let text = name.text_in_place();
        let file = open(&self.rt, path_of(text.as_slice())?)?;
        Ok(Handle { name: *name, file })
    }

    fn make(&mut self, name: &FileName) -> io::Result<Handle> {
        let text = name.text_in_place();
        let file = OpenOptions::new()
            .read(true)
            .write(true)
            .create_new(true)
            .mode(MODE)
            .open(&self.rt, path_of(text.as_slice())?)?;
        Ok(Handle { name: *name, file })
    }

    fn remove(&mut self, name: &FileName) -> io::Result<()> {
        let text = name.text_in_place();
        let path = path_of(text.as_slice())?;
        regular(&self.rt, path)?;
        fs::remove_file(&self.rt, path)
    }

    fn list(&mut self, alloc: Global) -> io::Result<List<Bytes>> {
        let mut texts = List::new(alloc);
        for entry in fs::read_dir(&self.rt, FOLDER)? {
            match entry {
                Ok(entry) => texts.push(Bytes::from_slice(alloc, entry.file_name().as_bytes())?)?,
                Err(error) if error.kind() == ErrorKind::InvalidFilename => {}
                Err(error) => return Err(error),
            }
        }
        Ok(texts)
    }

    fn sync_folder(&mut self) -> io::Result<()> {
        File::open(&self.rt, FOLDER)?.sync_all()
    }

    fn read_at(&mut self, handle: &Handle, offset: u64, into: &mut [u8]) -> io::Result<()> {
        handle.file.read_exact_at(into, offset)
    }

    fn write_at(&mut self, handle: &Handle, offset: u64, from: &[u8]) -> io::Result<()> {
        handle.file.write_all_at(from, offset)
    }

    fn cut(&mut self, handle: &Handle, bytes: u64) -> io::Result<()> {
        handle.file.set_len(bytes)
    }

    fn sync_data(&mut self, handle: &Handle) -> io::Result<()> {
        handle.file.sync_data()
    }

    fn sync_whole(&mut self, handle: &Handle) -> io::Result<()> {
        handle.file.sync_all()
    }

    fn tell(&mut self, stream: Stream, bytes: &[u8]) -> io::Result<()> {
        match stream {
            Stream::Out => Write::write_all(&mut self.rt.stdout(), bytes),
            Stream::Err => Write::write_all(&mut self.rt.stderr(), bytes),
        }
    }

    fn take(&mut self, into: &mut [u8]) -> io::Result<usize> {
        self.rt.stdin().read(into)
    }
}
