//! Snapshots.

ghost use Rattle.std.specs.Prelude.{◌≡◌, ◌≢◌, [], IfOk, IfErr, IsTrue, OnOk, OnErr};
ghost use Rattle.std.specs.Option.{option_copied};
ghost use Rattle.load_files.specs.Contents.{contents_of};
ghost use Rattle.load_files.specs.Tables.{IsInOrder, contents_at, with_contents};
ghost use Rattle.load_files.specs.Places.{StandsAt, WouldStandAt};

use crate::contents::FileContents;
use crate::file::SnapshotFile;
use std::alloc::{AllocError, Global};
use std::marker::Model;

/// What a store contained: its files in the rising order of their paths, each path once.
///
/// A copy shares the files.
#[derive(Debug, Drop)]
pub struct Snapshot {
    files: Vec<SnapshotFile>,
}

impl Model for Snapshot {
    ghost use Rattle.load_files.specs.Tables.{Table, IsInOrder};

    ghost Value = { Table };

    ghost view = { λ s. s.files.items };

    ghost invariant = { λ s. IsInOrder s.files.items };
}

impl Snapshot {
    /// No files.
    pub fn new(alloc: Global) -> Snapshot
        ensures { result ≡ [] }
    {
        Snapshot {
            files: Vec::new(alloc),
        }
    }

    /// What the file at a path contains: None exactly where there is none.
    pub fn contents(&self, path: &str) -> Option<&FileContents>
        ensures { option_copied result ≡ contents_at path.now self.now }
    {
        match self.search(path) {
            Ok(place) => Some(self.files[place].contents()),
            Err(_) => None,
        }
    }

    /// All files, in the order of their paths.
    pub fn files(&self) -> &[SnapshotFile]
        ensures { result.now ≡ self.now }
    {
        &self.files
    }

    /// An equal snapshot, which shares the files.
    pub fn copy(&self) -> Result<Snapshot, AllocError>
        ensures { IfOk result (λ copied. copied ≡ self.now) }
    {
        let count = self.files.len().saturating_add(1);
        let mut files = Vec::with_capacity(*self.files.allocator(), count)?;
        for file in &self.files {
            files.push(file.share()?)?;
        }
        Ok(Snapshot { files })
    }

    /// A law of all snapshots: the files stand in the order of their paths, each path once.
    pub fn paths_are_in_order(&self)
        ensures { IsInOrder self.now }
    {
        // Opens the invariant for the contract.
        let _ = &self.files;
    }

    // One more file, whose path would stand at this place.
    pub(crate) fn insert(
        &mut self,
        alloc: Global,
        place: usize,
        path: &str,
        bytes: &[u8],
    ) -> Result<(), AllocError>
        requires { WouldStandAt self.old path.now place }
        ensures ok { OnOk result (self.new ≡ with_contents path.now (contents_of bytes.now) self.old) }
        ensures err { OnErr result (self.new ≡ self.old) }
    {
        let file = SnapshotFile::new(alloc, path, bytes)?;
        self.files.insert(place, file)?;
        Ok(())
    }

    // Where the file of the path stands, or else where it would.
    pub(crate) fn search(&self, path: &str) -> Result<usize, usize>
        ensures found { IfOk result (StandsAt self.now path.now) }
        ensures absent { IfErr result (WouldStandAt self.now path.now) }
    {
        self.files
            .binary_search_by(|file| file.path().as_str().cmp(path))
    }
}
