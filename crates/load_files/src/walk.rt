//! The walk over the folders of the roots.

ghost use Rattle.std.specs.Prelude.{◌≡◌, ◌≢◌, map, flat_map, option_map, Err, IfOk, IfErr, IsTrue};
ghost use Rattle.std.specs.Option.{ForSome};
ghost use Rattle.fault_io.specs.Faults.{Rose};
ghost use Rattle.load_files.specs.Causes.{PassesItsLimit};
ghost use Rattle.load_files.specs.Counts.{IsWithinLimits};
ghost use Rattle.load_files.specs.Folders.{listing};
ghost use Rattle.load_files.specs.Kept.{are_kept};
ghost use Rattle.load_files.specs.Loads.{after_visits, loaded, ComesAnywhere, Gives, Loads};
ghost use Rattle.load_files.specs.Paths.{child, is_library};
ghost use Rattle.load_files.specs.Visits.{entry_visits, file_visits, root_visits, visits, included_visits, package_visits};

use crate::kept::KeptFile;
use crate::loading::Loading;
use crate::packages::Package;
use crate::refusal::{LoadRefusal, refused_by};
use crate::roots::{Roots, is_excluded};
use crate::table::Snapshot;
use fault_io::{Entry, EntryKind, Files};
use plain_text::PlainText;
use std::alloc::{AllocError, Global};

/// How many folders deep a folder may stand below an included path or a package folder.
pub const MAX_DEPTH: usize = 64;

/// Whether the name of a file ends in `.dart`.
fn is_library(path: &str) -> bool
    ensures { result ≡ is_library path.now }
{
    path.ends_with(".dart")
}

/// The path of an entry of a folder.
fn child(alloc: Global, folder: &str, name: &str) -> Result<PlainText, AllocError>
    ensures { IfOk result (λ path. path ≡ child folder.now name.now) }
{
    let mut path = String::from_str(alloc, folder)?;
    if folder != "/" {
        path.push_str("/")?;
    }
    path.push_str(name)?;
    Ok(PlainText::from_string(path))
}

/// The entries of a folder in the order of their names; nothing for all else.
fn entries_at<F: Files>(
    alloc: Global,
    files: &mut F,
    path: &str,
) -> Result<Option<Vec<Entry>>, LoadRefusal>
    ensures listed { IfOk result (λ found. ForSome (F.told files.old) (λ stored.
        option_map (λ entries. map (λ entry. (entry.name, entry.kind)) entries.items) found ≡ listing stored path.now)) }
    ensures anywhere { IfErr result ComesAnywhere }
    ensures told { F.told files.new ≡ F.told files.old }
    ensures fault { result ≡ Err LoadRefusal.FilesFault → Rose (F.faults files.old) (F.faults files.new) }
    ensures no_fault { result ≢ Err LoadRefusal.FilesFault → F.faults files.new ≡ F.faults files.old }
    ensures passed { IfErr result PassesItsLimit }
{
    match files.list(alloc, path) {
        Err(refusal) => Err(refused_by(refusal)),
        Ok(None) => Ok(None),
        Ok(Some(mut entries)) => {
            entries.sort_by(|entry, other| entry.name.as_str().cmp(other.name.as_str()))?;
            Ok(Some(entries))
        }
    }
}

/// Reads the file at a path, if there is one and its name ends in `.dart`.
fn read_file<F: Files>(
    alloc: Global,
    files: &mut F,
    path: &str,
    loading: &mut Loading<'_>,
) -> Result<(), LoadRefusal>
    ensures walked { ForSome (F.told files.old) (λ stored.
        Gives result loading.new.files (after_visits loading.old.kept (file_visits stored path.now) loading.old.files)) }
    ensures kept { loading.new.kept ≡ loading.old.kept }
    ensures told { F.told files.new ≡ F.told files.old }
    ensures fault { result ≡ Err LoadRefusal.FilesFault → Rose (F.faults files.old) (F.faults files.new) }
    ensures no_fault { result ≢ Err LoadRefusal.FilesFault → F.faults files.new ≡ F.faults files.old }
    ensures passed { IfErr result PassesItsLimit }
{
    if !is_library(path) {
        return Ok(());
    }
    match files.read(alloc, path) {
        Err(refusal) => Err(refused_by(refusal)),
        Ok(None) => Ok(()),
        Ok(Some(bytes)) => loading.add(alloc, path, &bytes),
    }
}

/// Walks a folder, or reads a file, below which there may be folders `left - 1` deep.
#[cycle(walk)]
fn walk<F: Files>(
    alloc: Global,
    files: &mut F,
    excluded: &[PlainText],
    left: usize,
    path: &str,
    loading: &mut Loading<'_>,
) -> Result<(), LoadRefusal>
    ensures walked { ForSome (F.told files.old) (λ stored.
        Gives result loading.new.files (after_visits loading.old.kept (visits stored excluded.now left path.now) loading.old.files)) }
    ensures kept { loading.new.kept ≡ loading.old.kept }
    ensures told { F.told files.new ≡ F.told files.old }
    ensures fault { result ≡ Err LoadRefusal.FilesFault → Rose (F.faults files.old) (F.faults files.new) }
    ensures no_fault { result ≢ Err LoadRefusal.FilesFault → F.faults files.new ≡ F.faults files.old }
    ensures passed { IfErr result PassesItsLimit }
{
    if left == 0 {
        let depth = MAX_DEPTH as u64 + 1;
        return Err(LoadRefusal::TooDeep { depth });
    }
    match entries_at(alloc, files, path)? {
        Some(entries) => {
            walk_entries(alloc, files, excluded, left - 1, path, &entries, loading)?;
            Ok(())
        }
        None => {
            read_file(alloc, files, path, loading)?;
            Ok(())
        }
    }
}

/// Walks the entries of a folder, one after another.
#[cycle(walk)]
fn walk_entries<F: Files>(
    alloc: Global,
    files: &mut F,
    excluded: &[PlainText],
    left: usize,
    folder: &str,
    entries: &[Entry],
    loading: &mut Loading<'_>,
) -> Result<(), LoadRefusal>
    ensures walked { ForSome (F.told files.old) (λ stored. let inner = visits stored excluded.now left in
        Gives result loading.new.files (after_visits loading.old.kept
        (flat_map (λ entry. entry_visits stored excluded.now inner folder.now (entry.name, entry.kind)) entries.now) loading.old.files)) }
    ensures kept { loading.new.kept ≡ loading.old.kept }
    ensures told { F.told files.new ≡ F.told files.old }
    ensures fault { result ≡ Err LoadRefusal.FilesFault → Rose (F.faults files.old) (F.faults files.new) }
    ensures no_fault { result ≢ Err LoadRefusal.FilesFault → F.faults files.new ≡ F.faults files.old }
    ensures passed { IfErr result PassesItsLimit }
{
    for entry in entries {
        walk_entry(alloc, files, excluded, left, folder, entry, loading)?;
    }
    Ok(())
}

/// Walks an entry of a folder, unless it is excluded. What is no folder is only read, so that a
/// loop of links ends.
#[cycle(walk)]
fn walk_entry<F: Files>(
    alloc: Global,
    files: &mut F,
    excluded: &[PlainText],
    left: usize,
    folder: &str,
    entry: &Entry,
    loading: &mut Loading<'_>,
) -> Result<(), LoadRefusal>
    ensures walked { ForSome (F.told files.old) (λ stored. let inner = visits stored excluded.now left in
        Gives result loading.new.files (after_visits loading.old.kept
        (entry_visits stored excluded.now inner folder.now (entry.now.name, entry.now.kind)) loading.old.files)) }
    ensures kept { loading.new.kept ≡ loading.old.kept }
    ensures told { F.told files.new ≡ F.told files.old }
    ensures fault { result ≡ Err LoadRefusal.FilesFault → Rose (F.faults files.old) (F.faults files.new) }
    ensures no_fault { result ≢ Err LoadRefusal.FilesFault → F.faults files.new ≡ F.faults files.old }
    ensures passed { IfErr result PassesItsLimit }
{
    let path = child(alloc, folder, entry.name.as_str())?;
    let path = path.as_str();
    if is_excluded(excluded, path) {
        return Ok(());
    }
    match entry.kind {
        EntryKind::Folder => {
            walk(alloc, files, excluded, left, path, loading)?;
            Ok(())
        }
        EntryKind::File | EntryKind::Other => {
            read_file(alloc, files, path, loading)?;
            Ok(())
        }
    }
}

/// Walks an included path or a package folder, unless it is excluded.
fn walk_root<F: Files>(
    alloc: Global,
    files: &mut F,
    excluded: &[PlainText],
    root: &str,
    loading: &mut Loading<'_>,
) -> Result<(), LoadRefusal>
    ensures walked { ForSome (F.told files.old) (λ stored.
        Gives result loading.new.files (after_visits loading.old.kept (root_visits stored excluded.now root.now) loading.old.files)) }
    ensures kept { loading.new.kept ≡ loading.old.kept }
    ensures told { F.told files.new ≡ F.told files.old }
    ensures fault { result ≡ Err LoadRefusal.FilesFault → Rose (F.faults files.old) (F.faults files.new) }
    ensures no_fault { result ≢ Err LoadRefusal.FilesFault → F.faults files.new ≡ F.faults files.old }
    ensures passed { IfErr result PassesItsLimit }
{
    if is_excluded(excluded, root) {
        return Ok(());
    }
    walk(alloc, files, excluded, MAX_DEPTH + 1, root, loading)?;
    Ok(())
}

/// Walks the included paths, one after another.
fn walk_included<F: Files>(
    alloc: Global,
    files: &mut F,
    excluded: &[PlainText],
    included: &[PlainText],
    loading: &mut Loading<'_>,
) -> Result<(), LoadRefusal>
    ensures walked { ForSome (F.told files.old) (λ stored.
        Gives result loading.new.files (after_visits loading.old.kept (included_visits stored excluded.now included.now) loading.old.files)) }
    ensures kept { loading.new.kept ≡ loading.old.kept }
    ensures told { F.told files.new ≡ F.told files.old }
    ensures fault { result ≡ Err LoadRefusal.FilesFault → Rose (F.faults files.old) (F.faults files.new) }
    ensures no_fault { result ≢ Err LoadRefusal.FilesFault → F.faults files.new ≡ F.faults files.old }
    ensures passed { IfErr result PassesItsLimit }
{
    for root in included {
        walk_root(alloc, files, excluded, root.as_str(), loading)?;
    }
    Ok(())
}

/// Walks the folders of packages, one after another.
fn walk_packages<F: Files>(
    alloc: Global,
    files: &mut F,
    excluded: &[PlainText],
    packages: &[Package],
    loading: &mut Loading<'_>,
) -> Result<(), LoadRefusal>
    ensures walked { ForSome (F.told files.old) (λ stored.
        Gives result loading.new.files (after_visits loading.old.kept (package_visits stored excluded.now packages.now) loading.old.files)) }
    ensures kept { loading.new.kept ≡ loading.old.kept }
    ensures told { F.told files.new ≡ F.told files.old }
    ensures fault { result ≡ Err LoadRefusal.FilesFault → Rose (F.faults files.old) (F.faults files.new) }
    ensures no_fault { result ≢ Err LoadRefusal.FilesFault → F.faults files.new ≡ F.faults files.old }
    ensures passed { IfErr result PassesItsLimit }
{
    for package in packages {
        walk_root(alloc, files, excluded, package.folder.as_str(), loading)?;
    }
    Ok(())
}

/// What the files of the roots contain. Included paths come before package folders, each in list
/// order: a folder is walked in the order of its names, all else is read as a file. `kept` are the
/// overlays, which count in the limits: their paths are distinct and at most `MAX_PATHS`, and they
/// have at most `MAX_BYTES` bytes together.
///
/// It costs a look at the overlays and a move of the pointers behind it for each file.
pub fn snapshot<F: Files>(
    alloc: Global,
    files: &mut F,
    roots: &Roots,
    kept: &[KeptFile],
) -> Result<Snapshot, LoadRefusal>
    requires { IsTrue (are_kept kept.now) }
    ensures exact { ForSome (F.told files.old) (λ stored. Loads result (loaded stored roots.now kept.now)) }
    ensures told { F.told files.new ≡ F.told files.old }
    ensures fault { result ≡ Err LoadRefusal.FilesFault → Rose (F.faults files.old) (F.faults files.new) }
    ensures no_fault { result ≢ Err LoadRefusal.FilesFault → F.faults files.new ≡ F.faults files.old }
    ensures passed { IfErr result PassesItsLimit }
    ensures within { IfOk result (IsWithinLimits kept.now) }
{
    let excluded = roots.excluded.as_slice();
    let mut loading = Loading::new(alloc, kept);
    walk_included(
        alloc,
        files,
        excluded,
        roots.included.as_slice(),
        &mut loading,
    )?;
    walk_packages(
        alloc,
        files,
        excluded,
        roots.packages.as_slice(),
        &mut loading,
    )?;
    Ok(loading.into_snapshot())
}
