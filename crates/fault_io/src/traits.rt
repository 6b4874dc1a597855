//! What is outside: a source of bytes, a sink for bytes and a store of files, each with a count of
//! its faults. A sink also counts how often it has refused for want of memory, and a store how often
//! it was called.
//!
//! A count starts anywhere, never falls, and stays once it has come to 2^64-1. A call answers
//! `Failed` exactly where the count of faults rose in it, and then has moved nothing.

ghost use Rattle.std.specs.Prelude.{◌≡◌, ◌≢◌, ℕ, ◌<◌, ◌≤◌, List, [], ◌++◌, length, take, Option, None, Ok, Err, IfOk, OnOk, OnErr, IfErr, IsTrue, option_map};
ghost use Rattle.std.specs.Option.{ForSome};
ghost use Rattle.fault_io.specs.Faults.{Rose, one_more};
ghost use Rattle.fault_io.specs.Bytes.{without_first, and_then};

use plain_text::PlainText;
use std::alloc::{AllocError, Global};
use thiserror::Error;

/// The outside failed, and its count of faults rose.
#[derive(Clone, Copy, Debug, PartialEq, Eq, Error)]
#[error("the source failed")]
pub struct Failed;

/// Why a sink took no bytes.
#[derive(Clone, Copy, Debug, PartialEq, Eq, Error)]
pub enum WriteRefusal {
    /// The sink failed, and its count of faults rose.
    #[error("the sink failed")]
    Failed,
    /// Want of memory.
    #[error("out of memory")]
    Memory,
}

impl From<AllocError> for WriteRefusal {
    ghost use Rattle.std.specs.Prelude.{◌≡◌};
    ghost use Rattle.fault_io.specs.declared.traits.WriteRefusal.TheVariants.{Memory};

    ghost from_gives = { λ _ e. e ≡ Memory };

    fn from(_error: AllocError) -> WriteRefusal {
        WriteRefusal::Memory
    }
}

/// Why a store of files answered nothing.
#[derive(Clone, Copy, Debug, PartialEq, Eq, Error)]
pub enum FilesRefusal {
    /// The store failed, and its count of faults rose.
    #[error("the file store failed")]
    Failed,
    /// Want of memory.
    #[error("out of memory")]
    Memory,
}

impl From<AllocError> for FilesRefusal {
    ghost use Rattle.std.specs.Prelude.{◌≡◌};
    ghost use Rattle.fault_io.specs.declared.traits.FilesRefusal.TheVariants.{Memory};

    ghost from_gives = { λ _ e. e ≡ Memory };

    fn from(_error: AllocError) -> FilesRefusal {
        FilesRefusal::Memory
    }
}

/// What an entry of a folder is.
#[derive(Clone, Copy, Debug, PartialEq, Eq)]
pub enum EntryKind {
    /// A folder, which `Files::list` lists.
    Folder,
    /// A file, whose bytes `Files::read` gives.
    File,
    /// Neither, as a link or a device.
    Other,
}

/// A direct entry of a folder.
#[derive(Debug, Drop)]
pub struct Entry {
    /// One segment of a path, without a slash.
    pub name: PlainText,
    /// What stands under that name.
    pub kind: EntryKind,
}

/// A source of bytes.
pub trait Source {
    // the bytes that are left, where the source tells them
    ghost left: { Self → Option (List ℕ) } = { λ _. None };

    // how often it has failed
    ghost faults: { Self → ℕ };

    /// Moves some of the bytes that are left to the front of `buf`, and says how many. Of a `buf`
    /// that isn't empty, 0 is the end.
    fn read(&mut self, buf: &mut [u8]) -> Result<usize, Failed>
        ensures bound { IfOk result (λ n. n ≤ length buf.new) }
        ensures given { IfOk result (λ n. ForSome (left self.old) (λ bytes. take n bytes ≡ take n buf.new)) }
        ensures fits { IfOk result (λ n. ForSome (left self.old) (λ bytes. n ≤ length bytes)) }
        ensures end { IfOk result (λ n. ForSome (left self.old) (λ bytes. n ≡ 0 → 0 < length buf.new → bytes ≡ [])) }
        ensures left { IfOk result (λ n. left self.new ≡ without_first n (left self.old)) }
        ensures kept { OnErr result (left self.new ≡ left self.old) }
        ensures ok { OnOk result (faults self.new ≡ faults self.old) }
        ensures failed { OnErr result (Rose (faults self.old) (faults self.new)) };
}

/// A sink for bytes.
pub trait Sink {
    // the bytes that were written, where the sink tells them
    ghost written: { Self → Option (List ℕ) } = { λ _. None };

    // how often it has failed
    ghost faults: { Self → ℕ };

    // how often it has refused for want of memory
    ghost shortages: { Self → ℕ };

    /// Takes some bytes from the front of `bytes`, at least one if there is one, and says how many.
    fn write(&mut self, alloc: Global, bytes: &[u8]) -> Result<usize, WriteRefusal>
        ensures bound { IfOk result (λ n. n ≤ length bytes.now) }
        ensures some { IfOk result (λ n. 0 < length bytes.now → 0 < n) }
        ensures taken { IfOk result (λ n. written self.new ≡ and_then (written self.old) (take n bytes.now)) }
        ensures kept { OnErr result (written self.new ≡ written self.old) }
        ensures ok { OnOk result (faults self.new ≡ faults self.old) }
        ensures failed { result ≡ Err WriteRefusal.Failed → Rose (faults self.old) (faults self.new) }
        ensures memory { result ≡ Err WriteRefusal.Memory → faults self.new ≡ faults self.old }
        ensures short { result ≡ Err WriteRefusal.Memory → Rose (shortages self.old) (shortages self.new) }
        ensures not_short { result ≢ Err WriteRefusal.Memory → shortages self.new ≡ shortages self.old };
}

/// A store of files by their paths. A path is absolute and normalized, as `is_path` says; a text
/// that is none names nothing.
pub trait Files {
    ghost use Rattle.fault_io.specs.Stored.{Stored, are_files, IsListing, bytes_at};

    // the files, each as its path and its bytes, where the store tells them
    ghost told: { Self → Option Stored } = { λ _. None };

    // how often it has failed
    ghost faults: { Self → ℕ };

    // how often it was asked for a folder
    ghost lists: { Self → ℕ };

    // how often it was asked for a file
    ghost reads: { Self → ℕ };

    /// The direct entries of a folder, each once and in any order; `None` for all else. `/` is
    /// always a folder.
    fn list(&mut self, alloc: Global, path: &str) -> Result<Option<Vec<Entry>>, FilesRefusal>
        ensures listed { IfOk result (λ found. ForSome (told self.old) (λ files. IsListing files path.now (option_map (λ v. v.items) found))) }
        ensures sound { ForSome (told self.old) (λ files. IsTrue (are_files files)) }
        ensures told { told self.new ≡ told self.old }
        ensures ok { OnOk result (faults self.new ≡ faults self.old) }
        ensures failed { result ≡ Err FilesRefusal.Failed → Rose (faults self.old) (faults self.new) }
        ensures memory { result ≡ Err FilesRefusal.Memory → faults self.new ≡ faults self.old }
        ensures listed_once { lists self.new ≡ one_more (lists self.old) }
        ensures not_read { reads self.new ≡ reads self.old };

    /// The bytes of a file; `None` for all else.
    fn read(&mut self, alloc: Global, path: &str) -> Result<Option<Vec<u8>>, FilesRefusal>
        ensures read { IfOk result (λ found. ForSome (told self.old) (λ files. option_map (λ v. v.items) found ≡ bytes_at files path.now)) }
        ensures sound { ForSome (told self.old) (λ files. IsTrue (are_files files)) }
        ensures told { told self.new ≡ told self.old }
        ensures ok { OnOk result (faults self.new ≡ faults self.old) }
        ensures failed { result ≡ Err FilesRefusal.Failed → Rose (faults self.old) (faults self.new) }
        ensures memory { result ≡ Err FilesRefusal.Memory → faults self.new ≡ faults self.old }
        ensures read_once { reads self.new ≡ one_more (reads self.old) }
        ensures not_listed { lists self.new ≡ lists self.old };
}
