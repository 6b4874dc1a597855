//! Projects of several files, read from their texts.

use dart_parse::parse_unit;
use dart_text::{Text, TextRefusal};
use directives::outline_of;
use libraries::{Aims, SourceFile, all_aims, paths_of};
use load_files::Packages;
use plain_text::PlainText;
use std::alloc::{AllocError, Global};
use work_counts::Work;

// A file with its outline.
pub fn file_of(alloc: Global, path: &str, text: &str) -> Result<SourceFile, TextRefusal> {
    let path = PlainText::new(alloc, path)?;
    let text = Text::from_str(alloc, text)?;
    let unit = parse_unit(alloc, &text, false, &mut Work::new())?;
    let outline = outline_of(alloc, unit.words.as_slice(), &unit.tree)?;
    Ok(SourceFile { path, outline })
}

// What the directives of each file are about, where there are no packages.
pub fn aims_of(alloc: Global, files: &[SourceFile]) -> Result<Vec<Aims>, AllocError> {
    let packages = Packages::from_vec(Vec::new(alloc));
    let paths = paths_of(alloc, files)?;
    all_aims(alloc, &packages, &paths, files)
}
