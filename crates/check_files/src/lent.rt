//! Files as they are lent.

ghost use Rattle.std.specs.Prelude.{◌≡◌, [], IfOk};
ghost use Rattle.check_files.specs.Contents.{read_as};
ghost use Rattle.std.specs.Option.{option_copied};
ghost use Rattle.check_files.specs.Lent.{contents_view, file_view, table_view};
ghost use Rattle.check_files.specs.Lines.{TextIs};

use dart_text::{Text, TextRefusal};
use load_files::{FileContents, Snapshot, SnapshotFile};
use std::alloc::{AllocError, Global};

/// What a file contains, lent by whoever has it.
#[derive(Clone, Copy)]
pub enum LentContents<'c> {
    /// A text.
    Text(&'c Text),
    /// So many bytes, which aren't UTF-8.
    NotUtf8(u64),
    /// So many bytes, more than a text has.
    TooLong(u64),
}

/// A file, lent by whoever has it.
#[derive(Clone, Copy)]
pub struct LentFile<'c> {
    /// Its path.
    pub path: &'c str,
    /// What it contains.
    pub contents: LentContents<'c>,
}

/// What a file of a snapshot contains.
pub fn lent_contents(contents: &FileContents) -> LentContents<'_>
    ensures { contents_view result ≡ contents.now }
{
    match contents {
        FileContents::Text { text } => LentContents::Text(text),
        FileContents::NotUtf8 { bytes } => LentContents::NotUtf8(*bytes),
        FileContents::TooLong { bytes } => LentContents::TooLong(*bytes),
    }
}

/// A file of a snapshot.
pub fn lent_file(file: &SnapshotFile) -> LentFile<'_>
    ensures { file_view result ≡ file.now }
{
    LentFile {
        path: file.path().as_str(),
        contents: lent_contents(file.contents()),
    }
}

/// The files of a snapshot, in their order. The error is want of memory.
pub fn lent_files(alloc: Global, snapshot: &Snapshot) -> Result<Vec<LentFile<'_>>, AllocError>
    ensures { IfOk result (λ files. table_view files.items ≡ snapshot.now) }
{
    let mut files = Vec::new(alloc);
    for file in snapshot.files() {
        files.push(lent_file(file))?;
    }
    Ok(files)
}

/// The text as which a file is read.
pub fn read_as<'t>(contents: LentContents<'t>, empty: &'t Text) -> &'t Text
    requires { empty.now ≡ [] }
    ensures { result.now ≡ read_as (contents_view contents.entry) }
{
    match contents {
        LentContents::Text(text) => text,
        LentContents::NotUtf8(_) => empty,
        LentContents::TooLong(_) => empty,
    }
}

/// The text that a file contains, if it is one.
pub fn text_in(contents: LentContents<'_>) -> Option<&Text>
    ensures { TextIs (read_as (contents_view contents.entry)) (option_copied result) }
{
    match contents {
        LentContents::Text(text) => Some(text),
        LentContents::NotUtf8(_) => None,
        LentContents::TooLong(_) => None,
    }
}

/// The empty text, as which a file without a text is read.
#[tactic(auto, unfolding(dart_text::specs::Edits::short_text))]
pub fn empty_text(alloc: Global) -> Result<Text, AllocError>
    ensures { IfOk result (λ text. text ≡ []) }
{
    match Text::from_str(alloc, "") {
        Ok(text) => Ok(text),
        Err(TextRefusal::NotUtf8 | TextRefusal::TooLong { .. }) => unreachable!(),
        Err(TextRefusal::Memory) => Err(AllocError),
    }
}
