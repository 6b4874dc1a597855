//! Overlays: what a client says of the text of a file.

ghost use Rattle.std.specs.Prelude.{◌≡◌};

use plain_text::PlainText;
use std::marker::Model;

/// An edit of a text: the protocol's SourceEdit, without its optional member.
#[derive(Debug, Drop)]
pub struct OverlayEdit {
    /// How many UTF-16 code units stand before what is replaced.
    pub offset: u64,
    /// How many are replaced.
    pub length: u64,
    /// What stands in their place afterwards.
    pub replacement: PlainText,
}

/// Edits in the order in which they apply, each to the text that the one before it leaves.
#[derive(Debug, Drop)]
pub struct OverlayEdits {
    edits: Vec<OverlayEdit>,
}

impl Model for OverlayEdits {
    ghost use Rattle.std.specs.Prelude.{List};
    ghost use Rattle.proto_json.specs.declared.overlay.OverlayEdit.{OverlayEdit};

    ghost Value = { List OverlayEdit };

    ghost view = { λ edits. edits.edits.items };
}

impl OverlayEdits {
    /// The edits that the vector holds, which takes no memory.
    pub fn from_vec(edits: Vec<OverlayEdit>) -> OverlayEdits
        ensures { result ≡ edits.items }
    {
        OverlayEdits { edits }
    }

    /// The edits themselves.
    pub fn as_slice(&self) -> &[OverlayEdit]
        ensures { result.now ≡ self.now }
    {
        self.edits.as_slice()
    }
}

/// What becomes of the text of a file.
#[derive(Debug, Drop)]
pub enum Overlay {
    /// The protocol's AddContentOverlay: the file has this text from now on, whatever the disk
    /// holds.
    Add { content: PlainText },
    /// The protocol's ChangeContentOverlay: the text that the client gave is edited.
    Change { edits: OverlayEdits },
    /// The protocol's RemoveContentOverlay: the text that the client gave is dropped.
    Remove,
}

/// What becomes of the text of the file at a path.
#[derive(Debug, Drop)]
pub struct FileOverlay {
    pub path: PlainText,
    pub overlay: Overlay,
}

/// The files of a request, in the order in which they are taken.
#[derive(Debug, Drop)]
pub struct FileOverlays {
    files: Vec<FileOverlay>,
}

impl Model for FileOverlays {
    ghost use Rattle.std.specs.Prelude.{List};
    ghost use Rattle.proto_json.specs.declared.overlay.FileOverlay.{FileOverlay};

    ghost Value = { List FileOverlay };

    ghost view = { λ files. files.files.items };
}

impl FileOverlays {
    /// The files that the vector holds, which takes no memory.
    pub fn from_vec(files: Vec<FileOverlay>) -> FileOverlays
        ensures { result ≡ files.items }
    {
        FileOverlays { files }
    }

    /// The files themselves.
    pub fn as_slice(&self) -> &[FileOverlay]
        ensures { result.now ≡ self.now }
    {
        self.files.as_slice()
    }
}
