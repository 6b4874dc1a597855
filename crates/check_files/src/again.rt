//! Files that are read again.

ghost use Rattle.std.specs.Prelude.{◌≡◌, ◌++◌, ◌∷◌, [], true, IfOk, OnOk};
ghost use Rattle.check_files.specs.Again.{AreOf};
ghost use Rattle.check_files.specs.Lent.{contents_view, file_view, table_view};
ghost use Rattle.check_files.specs.Sources.{AreRead, own_faults, source_of};

use crate::lent::{LentContents, LentFile, empty_text};
use crate::sources::{OwnFaults, ReadFiles, add_core, add_source};
use dart_text::Text;
use libraries::SourceFile;
use std::alloc::{AllocError, Global};
use std::collections::BTreeMap;
use std::marker::Model;

/// A file with what was read of it. Contracts see the file.
#[derive(Drop)]
pub struct OldFile<'c> {
    file: LentFile<'c>,
    source: SourceFile,
    faults: OwnFaults,
}

impl<'c> Model for OldFile<'c> {
    ghost use Rattle.std.specs.Prelude.{ℕ, List};
    ghost use Rattle.load_files.specs.declared.contents.FileContents.{FileContents};
    ghost use Rattle.check_files.specs.Again.{IsOf};
    ghost use Rattle.check_files.specs.Lent.{file_view};

    ghost Value = { List ℕ × FileContents };

    ghost view = { λ o. file_view o.file };

    ghost invariant = { λ o. IsOf (file_view o.file) o.source o.faults };
}

/// Whether files contain the same.
fn same_contents(a: LentContents<'_>, b: LentContents<'_>) -> bool
    ensures { result ≡ true → contents_view a.entry ≡ contents_view b.entry }
{
    match (a, b) {
        (LentContents::Text(text), LentContents::Text(other)) => text.as_str() == other.as_str(),
        (LentContents::NotUtf8(bytes), LentContents::NotUtf8(others)) => bytes == others,
        (LentContents::TooLong(bytes), LentContents::TooLong(others)) => bytes == others,
        _ => false,
    }
}

/// Whether two files are the same.
fn same_file(a: LentFile<'_>, b: LentFile<'_>) -> bool
    ensures { result ≡ true → file_view a.entry ≡ file_view b.entry }
{
    a.path == b.path && same_contents(a.contents, b.contents)
}

/// Adds a file: as it was read before, where an old file is the same, and else it is read.
fn add_again(
    alloc: Global,
    file: LentFile<'_>,
    old: Option<OldFile<'_>>,
    empty: &Text,
    read: &mut ReadFiles,
) -> Result<(), AllocError>
    requires { empty.now ≡ [] }
    ensures sources { OnOk result (read.new.sources.items ≡ read.old.sources.items ++ source_of (file_view file.entry) ∷ []) }
    ensures faults { OnOk result (read.new.faults.items ≡ read.old.faults.items ++ own_faults (contents_view file.entry.contents) ∷ []) }
{
    match old {
        Some(old) if same_file(old.file, file) => {
            read.faults.push(old.faults)?;
            read.sources.push(old.source)?;
            Ok(())
        }
        _ => add_source(alloc, file, empty, read),
    }
}

/// Keeps an old file by its path, with what was read of it.
fn keep<'c>(
    file: LentFile<'c>,
    source: Option<SourceFile>,
    faults: Option<OwnFaults>,
    old: &mut BTreeMap<&'c str, OldFile<'c>>,
) -> Result<(), AllocError>
    requires { AreOf (file_view file) source faults }
{
    if let (Some(source), Some(faults)) = (source, faults) {
        let read = OldFile {
            file,
            source,
            faults,
        };
        old.insert(file.path, read)?;
    }
    Ok(())
}

/// Old files by their paths, each with what was read of it. Of several with one path the last one is
/// there.
fn by_path<'c>(
    alloc: Global,
    files: &[LentFile<'c>],
    read: ReadFiles,
) -> Result<BTreeMap<&'c str, OldFile<'c>>, AllocError>
    requires { AreRead (table_view files.now) read }
{
    let ReadFiles { sources, faults } = read;
    let mut sources = sources.into_iter();
    let mut faults = faults.into_iter();
    let _core = (sources.next(), faults.next());
    let mut old = BTreeMap::new(alloc);
    for file in files {
        let source = sources.next();
        let own = faults.next();
        keep(*file, source, own, &mut old)?;
    }
    Ok(old)
}

/// Takes the old file at a path out, if there is one.
fn take<'c>(old: &mut BTreeMap<&'c str, OldFile<'c>>, path: &str) -> Option<OldFile<'c>> {
    old.remove(path)
}

/// Reads files where others were read before: a text is read only where no old file has its path, or
/// where that contains something else. Beside this it takes n log n steps for n files, in any order, and
/// compares the texts.
pub fn read_again(
    alloc: Global,
    files: &[LentFile<'_>],
    old: &[LentFile<'_>],
    read: ReadFiles,
) -> Result<ReadFiles, AllocError>
    requires { AreRead (table_view old.now) read }
    ensures { IfOk result (AreRead (table_view files.now)) }
{
    let mut old = by_path(alloc, old, read)?;
    let empty = empty_text(alloc)?;
    let mut read = ReadFiles::new(alloc);
    add_core(alloc, &mut read)?;
    for file in files {
        let same = take(&mut old, file.path);
        add_again(alloc, *file, same, &empty, &mut read)?;
    }
    Ok(read)
}
