//! The files that there are.

ghost use Rattle.std.specs.Prelude.{◌≡◌, slice_get, IfOk};
ghost use Rattle.std.specs.Option.{option_copied};
ghost use Rattle.libraries.specs.Files.{paths_of};

use crate::texts::Texts;
use directives::Outline;
use plain_text::PlainText;
use std::alloc::{AllocError, Global};

/// A file, by what its text says to others.
#[derive(Drop)]
pub struct SourceFile {
    /// Its path, absolute and normalized, or `dart:core`.
    pub path: PlainText,
    /// Its directives, and the names that it declares.
    pub outline: Outline,
}

/// The file at a place.
pub(crate) fn file_at(files: &[SourceFile], place: usize) -> Option<&SourceFile>
    ensures { option_copied result ≡ slice_get files.now place }
{
    files.get(place)
}

/// The paths of files, in their order, each once. The error is want of memory.
pub fn paths_of(alloc: Global, files: &[SourceFile]) -> Result<Texts<'_>, AllocError>
    ensures { IfOk result (λ paths. paths ≡ paths_of files.now) }
{
    let mut paths = Texts::new(alloc);
    for file in files {
        paths.add(file.path.as_str())?;
    }
    Ok(paths)
}
