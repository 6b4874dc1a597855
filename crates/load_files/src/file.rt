//! One file of a snapshot.

ghost use Rattle.std.specs.Prelude.{◌≡◌, IfOk};
ghost use Rattle.load_files.specs.Contents.{contents_of};

use crate::contents::FileContents;
use plain_text::PlainText;
use std::alloc::{AllocError, Global};
use std::marker::Model;
use std::rc::Rc;

// What the store had at a path.
#[derive(Debug, Drop)]
struct StoredFile {
    path: PlainText,
    contents: FileContents,
}

/// What the store had at a path, which the copies of a snapshot share. Contracts see the pair of
/// both.
#[derive(Debug, Drop)]
pub struct SnapshotFile {
    shared: Rc<StoredFile>,
}

impl Model for SnapshotFile {
    ghost use Rattle.std.specs.Prelude.{ℕ, List};
    ghost use Rattle.load_files.specs.declared.contents.FileContents.{FileContents};

    ghost Value = { List ℕ × FileContents };

    ghost view = { λ f. (f.shared.value.path, f.shared.value.contents) };
}

impl SnapshotFile {
    /// The path with what these bytes are.
    pub(crate) fn new(alloc: Global, path: &str, bytes: &[u8]) -> Result<SnapshotFile, AllocError>
        ensures { IfOk result (λ file. file ≡ (path.now, contents_of bytes.now)) }
    {
        let path = PlainText::new(alloc, path)?;
        let contents = FileContents::of(alloc, bytes)?;
        Ok(SnapshotFile {
            shared: Rc::new(alloc, StoredFile { path, contents })?,
        })
    }

    /// The path of the file.
    pub fn path(&self) -> &PlainText
        ensures { result.now ≡ self.now.0 }
    {
        &self.shared.path
    }

    /// What the file contains.
    pub fn contents(&self) -> &FileContents
        ensures { result.now ≡ self.now.1 }
    {
        &self.shared.contents
    }

    /// The same file once more, which takes a pointer.
    pub fn share(&self) -> Result<SnapshotFile, AllocError>
        ensures { IfOk result (λ shared. shared ≡ self.now) }
    {
        Ok(SnapshotFile {
            shared: self.shared.clone()?,
        })
    }
}
