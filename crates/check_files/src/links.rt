//! Files with those that their directives name.

ghost use Rattle.std.specs.Prelude.{◌≡◌, ◌+◌, ◌<◌, ◌^◌, true, bytes_eq, length, position, IfOk, IfSome};
ghost use Rattle.check_files.specs.Lent.{file_view, table_view};
ghost use Rattle.check_files.specs.Links.{AreLinked, IsLinkedFrom, aims_of, if_library, library_in, place_in};
ghost use Rattle.check_files.specs.Sources.{all_own_faults, sources_of};
ghost use Rattle.libraries.specs.Heads.{is_library_at};
ghost use Rattle.load_files.specs.Paths.{lies_in};

use crate::again::read_again;
use crate::lent::LentFile;
use crate::sources::{OwnFaults, ReadFiles, read_files};
use element_terms::LibraryElement;
use fault_io::is_under;
use libraries::{Aims, Head, SourceFile, all_aims, elements_of, heads_of, paths_of};
use load_files::Packages;
use namespaces::{Namespace, PlaceTable, exports, place_table};
use std::alloc::{AllocError, Global};

/// What is known of files, `dart:core` before them.
#[derive(Drop)]
pub struct Linked {
    /// The files as others see them.
    pub sources: Vec<SourceFile>,
    /// What is wrong with each by itself.
    pub faults: Vec<OwnFaults>,
    /// What the directives of each are about.
    pub aims: Vec<Aims>,
    /// What each is for others.
    pub heads: Vec<Head>,
    /// What each library declares, and what its exports are.
    pub elements: Vec<LibraryElement>,
    /// What each library exports.
    pub spaces: Vec<Namespace>,
    /// The places of the libraries.
    pub places: PlaceTable,
}

/// What the directives of each file are about.
fn aims_of(
    alloc: Global,
    packages: &Packages,
    sources: &[SourceFile],
) -> Result<Vec<Aims>, AllocError>
    ensures { IfOk result (λ aims. aims.items ≡ aims_of packages.now sources.now) }
{
    let paths = paths_of(alloc, sources)?;
    all_aims(alloc, packages, &paths, sources)
}

/// What is known of files that were read. The error is want of memory.
fn link_read(alloc: Global, packages: &Packages, read: ReadFiles) -> Result<Linked, AllocError>
    requires { length read.sources.items < 2 ^ 32 }
    ensures { IfOk result (λ linked. IsLinkedFrom packages.now read linked) }
{
    let ReadFiles { sources, faults } = read;
    let aims = aims_of(alloc, packages, sources.as_slice())?;
    let heads = heads_of(alloc, aims.as_slice())?;
    let elements = elements_of(alloc, sources.as_slice(), heads.as_slice(), aims.as_slice())?;
    let spaces = exports(alloc, elements.as_slice())?;
    let places = place_table(alloc, elements.as_slice())?;
    Ok(Linked {
        sources,
        faults,
        aims,
        heads,
        elements,
        spaces,
        places,
    })
}

/// Reads files, and which of them their directives name. Each text is read once, of which the contract
/// doesn't speak. The error is want of memory.
pub fn link(
    alloc: Global,
    packages: &Packages,
    files: &[LentFile<'_>],
) -> Result<Linked, AllocError>
    requires { length files.now + 1 < 2 ^ 32 }
    ensures { IfOk result (λ linked. AreLinked packages.now (table_view files.now) linked) }
{
    let read = read_files(alloc, files)?;
    link_read(alloc, packages, read)
}

/// The same where files were linked before, over any packages. A text is read only where none of these
/// had its path, or where that had another text; the contract speaks of what is found alone.
pub fn link_again(
    alloc: Global,
    packages: &Packages,
    files: &[LentFile<'_>],
    old: &[LentFile<'_>],
    linked: Linked,
) -> Result<Linked, AllocError>
    requires few { length files.now + 1 < 2 ^ 32 }
    requires sources { linked.sources.items ≡ sources_of (table_view old.now) }
    requires faults { linked.faults.items ≡ all_own_faults (table_view old.now) }
    ensures { IfOk result (λ linked. AreLinked packages.now (table_view files.now) linked) }
{
    let Linked {
        sources,
        faults,
        ..
    } = linked;
    let read = read_again(alloc, files, old, ReadFiles { sources, faults })?;
    link_read(alloc, packages, read)
}

/// The place of a path among lent files.
fn position_in(files: &[LentFile<'_>], path: &str) -> Option<usize>
    ensures { result ≡ position (λ file. bytes_eq file.path.now path.now) files.now }
{
    files.iter().position(|file| file.path == path)
}

/// The place of a path among files.
fn position_of(files: &[LentFile<'_>], path: &str) -> Option<usize>
    ensures { result ≡ position (λ file. bytes_eq file.0 path.now) (table_view files.now) }
{
    position_in(files, path)
}

/// The place of a path among all files, `dart:core` before these.
pub fn place_in(files: &[LentFile<'_>], path: &str) -> Option<usize>
    ensures is { result ≡ place_in path.now (table_view files.now) }
    ensures within { IfSome result (λ place. place < length files.now + 1) }
    ensures file { IfSome result (λ place. 0 < place) }
{
    let place = position_of(files, path)?;
    Some(place + 1)
}

/// Whether a library is at a place.
fn is_library_at(heads: &[Head], place: usize) -> bool
    ensures is { result ≡ is_library_at heads.now place }
    ensures within { result ≡ true → place < length heads.now }
{
    match heads.get(place) {
        Some(head) => head.is_library,
        None => false,
    }
}

/// A place, if a library is there.
fn if_library(heads: &[Head], place: usize) -> Option<usize>
    ensures is { result ≡ if_library heads.now place }
    ensures same { IfSome result (λ found. found ≡ place) }
    ensures within { IfSome result (λ found. found < length heads.now) }
{
    if is_library_at(heads, place) {
        Some(place)
    } else {
        None
    }
}

/// Whether a path is, or lies under, a folder.
fn lies_in(folder: &str, path: &str) -> bool
    ensures { result ≡ lies_in folder.now path.now }
{
    path == folder || is_under(folder, path)
}

/// The place of the library of a path in a folder: None where the folder has no such file, or where it
/// is a part. It is never that of `dart:core`, which is no file.
pub fn library_in(folder: &str, path: &str, files: &[LentFile<'_>], heads: &[Head]) -> Option<usize>
    ensures is { result ≡ library_in folder.now path.now (table_view files.now) heads.now }
    ensures within { IfSome result (λ place. place < length heads.now) }
    ensures file { IfSome result (λ place. 0 < place) }
{
    if !lies_in(folder, path) {
        return None;
    }
    let place = place_in(files, path)?;
    if_library(heads, place)
}
