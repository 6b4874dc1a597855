//! The file system of the machine as a store of files.

ghost use Rattle.std.specs.Prelude.{◌≡◌, ◌≤◌, None, Err, IfOk, OnOk, IfSome, vec_len};
ghost use Rattle.fault_io.specs.Faults.{Rose, one_more};

use crate::calls::Calls;
use crate::paths::is_path;
use crate::plan::raise;
use crate::traits::{Entry, EntryKind, Files, FilesRefusal};
use plain_text::PlainText;
use std::alloc::Global;
use std::fs::{DirEntry, File, FileType};
use std::io::{ErrorKind, Read};
use std::marker::Model;
use std::{fs, io};

/// The file system, with counts of its faults and of its calls. It tells no content.
///
/// Of a file no more than the first `most` bytes are read, so that a caller for whom longer files
/// are all alike says so by one byte more than it wants.
///
/// Nothing stands where a path doesn't exist or leads through a file, and at a text that is no
/// path; every other error but want of memory is a fault. A link at the path that is asked for is
/// followed. In a folder an entry that is a link or a device is `Other`, so that a walk down the
/// folders ends and meets no file twice, and an entry whose name isn't UTF-8 is left out, since no
/// path can name it.
#[derive(Drop)]
pub struct HostFiles<R: std::rt::Files + Clone + Drop> {
    host: R,
    most: usize,
    faults: u64,
    calls: Calls,
}

impl<R: std::rt::Files + Clone + Drop> Model for HostFiles<R> {
    ghost use Rattle.fault_io.specs.Plan.{HostStore};

    ghost Value = { HostStore };

    ghost view = { λ s. record { most = s.most; faults = s.faults; calls = s.calls } };
}

impl<R: std::rt::Files + Clone + Drop> HostFiles<R> {
    /// The files that this runtime reaches, with no fault and no call yet. Of each file at most
    /// the first `most` bytes are read.
    pub fn new(host: R, most: usize) -> HostFiles<R>
        ensures { result ≡ record { most = most; faults = 0; calls = record { lists = 0; reads = 0 } } }
    {
        HostFiles {
            host,
            most,
            faults: 0,
            calls: Calls::none(),
        }
    }

    /// One call of `read`, as `Files` has it.
    pub fn read_bytes(&mut self, alloc: Global, path: &str) -> Result<Option<Vec<u8>>, FilesRefusal>
        ensures most { IfOk result (λ found. IfSome found (λ bytes. vec_len bytes ≤ self.old.most)) }
        ensures ok { OnOk result (self.new.faults ≡ self.old.faults) }
        ensures failed { result ≡ Err FilesRefusal.Failed → Rose self.old.faults self.new.faults }
        ensures memory { result ≡ Err FilesRefusal.Memory → self.new.faults ≡ self.old.faults }
        ensures counted { self.new.calls ≡ record self.old.calls { reads = one_more self.old.calls.reads } }
        ensures kept { self.new.most ≡ self.old.most }
    {
        self.calls.count_read();
        if !is_path(path) {
            return Ok(None);
        }
        match front_of(&self.host, alloc, path, self.most) {
            Ok(found) => Ok(found),
            Err(error) => self.answer_to(error),
        }
    }

    /// What an error of the file system is answered with: nothing where nothing stands, and else a
    /// refusal, which counts as a fault unless it is want of memory.
    fn answer_to<T>(&mut self, error: io::Error) -> Result<Option<T>, FilesRefusal>
        ensures nothing { IfOk result (λ found. found ≡ None) }
        ensures ok { OnOk result (self.new ≡ self.old) }
        ensures failed { result ≡ Err FilesRefusal.Failed → Rose self.old.faults self.new.faults }
        ensures memory { result ≡ Err FilesRefusal.Memory → self.new ≡ self.old }
        ensures kept { (self.new.calls ≡ self.old.calls) × (self.new.most ≡ self.old.most) }
    {
        match error.kind() {
            ErrorKind::NotFound | ErrorKind::NotADirectory => Ok(None),
            ErrorKind::OutOfMemory => Err(FilesRefusal::Memory),
            _ => {
                self.faults = raise(self.faults);
                Err(FilesRefusal::Failed)
            }
        }
    }
}

impl<R: std::rt::Files + Clone + Drop> Files for HostFiles<R> {
    ghost faults = { λ s. s.faults };

    ghost lists = { λ s. s.calls.lists };

    ghost reads = { λ s. s.calls.reads };

    fn list(&mut self, alloc: Global, path: &str) -> Result<Option<Vec<Entry>>, FilesRefusal> {
        self.calls.count_list();
        if !is_path(path) {
            return Ok(None);
        }
        match entries_in(&self.host, alloc, path) {
            Ok(entries) => Ok(Some(entries)),
            Err(error) => self.answer_to(error),
        }
    }

    fn read(&mut self, alloc: Global, path: &str) -> Result<Option<Vec<u8>>, FilesRefusal> {
        self.read_bytes(alloc, path)
    }
}

/// The entries of a folder whose names are UTF-8.
fn entries_in<R: std::rt::Files + Clone + Drop>(
    host: &R,
    alloc: Global,
    path: &str,
) -> io::Result<Vec<Entry>> {
    let mut entries = Vec::new(alloc);
    for read in fs::read_dir(&(host, alloc), path)? {
        if let Some(entry) = named_entry(alloc, read)? {
            entries.push(entry)?;
        }
    }
    Ok(entries)
}

/// An entry that was read, unless its name isn't UTF-8 or it is gone by now.
fn named_entry<R: std::rt::Files + Clone + Drop>(
    alloc: Global,
    read: io::Result<DirEntry<R, Global>>,
) -> io::Result<Option<Entry>> {
    let entry = match read {
        Ok(entry) => entry,
        Err(error) if error.kind() == ErrorKind::InvalidFilename => return Ok(None),
        Err(error) => return Err(error),
    };
    let kind = match entry.file_type() {
        Ok(file_type) => kind_of(file_type),
        Err(error) if error.kind() == ErrorKind::NotFound => return Ok(None),
        Err(error) => return Err(error),
    };
    let name = PlainText::new(alloc, entry.file_name())?;
    Ok(Some(Entry { name, kind }))
}

/// What an entry of this type is.
fn kind_of(file_type: FileType) -> EntryKind {
    if file_type.is_dir() {
        EntryKind::Folder
    } else if file_type.is_file() {
        EntryKind::File
    } else {
        EntryKind::Other
    }
}

/// The first bytes of a file, at most so many, and nothing of what is no file.
fn front_of<R: std::rt::Files>(
    host: &R,
    alloc: Global,
    path: &str,
    most: usize,
) -> io::Result<Option<Vec<u8>>>
    ensures { IfOk result (λ found. IfSome found (λ bytes. vec_len bytes ≤ most)) }
{
    if !fs::metadata(host, path)?.is_file() {
        return Ok(None);
    }
    let mut bytes = Vec::new(alloc);
    let mut file = File::open(host, path)?.take(most as u64);
    file.read_to_end(&mut bytes)?;
    // A reader of so many bytes gives no more, which its contract doesn't say.
    bytes.truncate(most);
    Ok(Some(bytes))
}
