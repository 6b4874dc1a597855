//! The files of a store in memory, and what it answers of them.

ghost use Rattle.std.specs.Prelude.{◌≡◌, ◌≢◌, ◌↔◌, ◌⊎◌, Contains, AllPairs, IfOk, IsTrue, OnOk, Some, option_map};
ghost use Rattle.std.specs.List.{list_all, list_any};
ghost use Rattle.fault_io.specs.Paths.{is_under};
ghost use Rattle.fault_io.specs.Stored.{are_apart, are_files, is_folder, first_entry, entry_toward, AreEntries, IsListing, bytes_at};

use crate::paths::{after_folder, is_path, is_under};
use crate::traits::{Entry, EntryKind};
use plain_text::{PlainBytes, PlainText};
use std::alloc::{AllocError, Global};

/// Whether neither path is the other or lies under it.
fn are_apart(path: &str, other: &str) -> bool
    ensures { result ≡ are_apart path.now other.now }
{
    !(path == other || is_under(path, other) || is_under(other, path))
}

/// Whether a path is apart from those of all these files.
fn is_apart_from_all(path: &str, files: &[(PlainText, PlainBytes)]) -> bool
    ensures { result ≡ list_all (λ other. are_apart path.now other.0) files.now }
{
    files.iter().all(|other| are_apart(path, other.0.as_str()))
}

/// Whether these are files of a store: each path is absolute and normalized and isn't `/`, all are
/// distinct, and none lies under another.
pub fn are_files(files: &[(PlainText, PlainBytes)]) -> bool
    ensures { result ≡ are_files files.now }
{
    let mut rest = files;
    while let [file, more @ ..] = rest {
        let path = file.0.as_str();
        if !is_path(path) || path == "/" || !is_apart_from_all(path, more) {
            return false;
        }
        rest = more;
    }
    true
}

/// Whether some file lies under a path.
fn has_file_under(files: &[(PlainText, PlainBytes)], path: &str) -> bool
    ensures { result ≡ list_any (λ file. is_under path.now file.0) files.now }
{
    files.iter().any(|file| is_under(path, file.0.as_str()))
}

/// Whether a path is that of a folder: `/`, or a path under which a file lies.
fn is_folder(files: &[(PlainText, PlainBytes)], path: &str) -> bool
    ensures { result ≡ is_folder files.now path.now }
{
    is_path(path) && (path == "/" || has_file_under(files, path))
}

/// The name and the kind of the entry at which a rest of a path begins.
fn first_entry(rest: &str) -> (&str, EntryKind)
    ensures { first_entry rest.now ≡ record { name = result.0.now; kind = result.1 } }
{
    match rest.split_once('/') {
        Some((name, _)) => (name, EntryKind::Folder),
        None => (rest, EntryKind::File),
    }
}

/// The name and the kind of the direct entry of a folder that leads to the file at this path.
fn entry_toward<'a>(folder: &str, path: &'a str) -> Option<(&'a str, EntryKind)>
    ensures { entry_toward folder.now path.now ≡ option_map (λ found. record { name = found.0.now; kind = found.1 }) result }
{
    match after_folder(folder, path) {
        Some(rest) => Some(first_entry(rest)),
        None => None,
    }
}

/// Whether this entry stands in the list.
fn has_entry(entries: &[Entry], name: &str, kind: EntryKind) -> bool
    ensures { IsTrue result ↔ Contains entries.now (record { name = name.now; kind = kind }) }
{
    entries
        .iter()
        .any(|entry| entry.kind == kind && entry.name.as_str() == name)
}

/// Adds an entry that doesn't stand in the list yet.
fn add_entry(
    alloc: Global,
    entries: &mut Vec<Entry>,
    name: &str,
    kind: EntryKind,
) -> Result<(), AllocError>
    ensures holds { OnOk result ((entry : Entry) → Contains entries.new.items entry
        ↔ (Contains entries.old.items entry ⊎ (record { name = name.now; kind = kind } ≡ entry))) }
    ensures once { OnOk result (AllPairs (λ entry other. entry ≢ other) entries.old.items → AllPairs (λ entry other. entry ≢ other) entries.new.items) }
{
    if has_entry(entries, name, kind) {
        return Ok(());
    }
    let name = PlainText::new(alloc, name)?;
    entries.push(Entry { name, kind })?;
    Ok(())
}

/// Adds the direct entry of a folder that leads to the file at this path, if there is one and it
/// doesn't stand in the list yet.
fn add_entry_toward(
    alloc: Global,
    entries: &mut Vec<Entry>,
    folder: &str,
    path: &str,
) -> Result<(), AllocError>
    ensures holds { OnOk result ((entry : Entry) → Contains entries.new.items entry
        ↔ (Contains entries.old.items entry ⊎ (entry_toward folder.now path.now ≡ Some entry))) }
    ensures once { OnOk result (AllPairs (λ entry other. entry ≢ other) entries.old.items → AllPairs (λ entry other. entry ≢ other) entries.new.items) }
{
    let Some((name, kind)) = entry_toward(folder, path) else {
        return Ok(());
    };
    add_entry(alloc, entries, name, kind)?;
    Ok(())
}

/// The direct entries of a folder, each once.
fn entries_of(
    alloc: Global,
    files: &[(PlainText, PlainBytes)],
    folder: &str,
) -> Result<Vec<Entry>, AllocError>
    ensures { IfOk result (λ entries. AreEntries files.now folder.now entries.items) }
{
    let mut entries = Vec::new(alloc);
    for file in files {
        add_entry_toward(alloc, &mut entries, folder, file.0.as_str())?;
    }
    Ok(entries)
}

/// What a store of these files answers to `list`.
pub fn listing(
    alloc: Global,
    files: &[(PlainText, PlainBytes)],
    path: &str,
) -> Result<Option<Vec<Entry>>, AllocError>
    ensures { IfOk result (λ found. IsListing files.now path.now (option_map (λ v. v.items) found)) }
{
    if !is_folder(files, path) {
        return Ok(None);
    }
    let entries = entries_of(alloc, files, path)?;
    Ok(Some(entries))
}

/// What a store of these files answers to `read`.
pub fn bytes_at(
    alloc: Global,
    files: &[(PlainText, PlainBytes)],
    path: &str,
) -> Result<Option<Vec<u8>>, AllocError>
    ensures { IfOk result (λ found. option_map (λ v. v.items) found ≡ bytes_at files.now path.now) }
{
    match files.iter().find(|file| file.0.as_str() == path) {
        Some(file) => {
            let bytes = file.1.as_slice().to_vec(alloc)?;
            Ok(Some(bytes))
        }
        None => Ok(None),
    }
}
