//! Snapshots of stores in memory.

use fault_io::{SteadyFiles, are_files};
use load_files::{FileContents, Package, Packages, Paths, Roots, Snapshot, snapshot};
use plain_text::{PlainBytes, PlainText};
use std::alloc::Global;
use std::test::Fail;

// The files of a store, the included and the excluded paths, the package folders, and the files of
// the snapshot. A file has the bytes behind its `=`, where `?` stands for a byte that is in no UTF-8.
const ROWS: &str = "\
/r/a.dart=a /r/b/c.dart=c /r/d.txt=d /s/e.dart=e|/r|||/r/a.dart=a /r/b/c.dart=c
/r/a.dart=a /r/b.dart=b|/r/a.dart|||/r/a.dart=a
/r/a.txt=a|/r/a.txt|||
/r/a.dart=a /r/b/c.dart=c|/r|/r/b||/r/a.dart=a
/r/a.dart=a /r/b.dart=b|/r|/r/b.dart||/r/a.dart=a
/r/a.dart=a /rb/c.dart=c|/|/r||/rb/c.dart=c
/r/a.dart=a|/r|/||
/r/a.dart=a /p/lib/b.dart=b /p/test/c.dart=c|/r||/p/lib|/p/lib/b.dart=b /r/a.dart=a
/r/a.dart=a /p/lib/b.dart=b|/r|/p|/p/lib|/r/a.dart=a
/r/a.dart=a /r/lib/b.dart=b|/r/lib /r|||/r/a.dart=a /r/lib/b.dart=b
/r/a.dart=? /r/b.dart=b|/r||/r|/r/a.dart!1 /r/b.dart=b
/r/.dart=a /r/b.dart/c.dart=c|/r|||/r/.dart=a /r/b.dart/c.dart=c
/r/a.dart=a|/q /r/a|||
";

/// The files of a row.
fn files_of(alloc: Global, row: &str) -> Result<Vec<(PlainText, PlainBytes)>, Fail> {
    let mut files = Vec::new(alloc);
    for word in row.split_whitespace() {
        if let Some((path, text)) = word.split_once('=') {
            let path = PlainText::new(alloc, path)?;
            let bytes = if text == "?" {
                PlainBytes::new(alloc, &[0xFF])?
            } else {
                PlainBytes::new(alloc, text.as_bytes())?
            };
            files.push((path, bytes))?;
        }
    }
    Ok(files)
}

/// The paths of a row.
fn paths_of(alloc: Global, row: &str) -> Result<Paths, Fail> {
    let mut paths = Vec::new(alloc);
    for word in row.split_whitespace() {
        paths.push(PlainText::new(alloc, word)?)?;
    }
    Ok(Paths::from_vec(paths))
}

/// Packages with the folders of a row.
fn packages_of(alloc: Global, row: &str) -> Result<Packages, Fail> {
    let mut packages = Vec::new(alloc);
    for word in row.split_whitespace() {
        let name = PlainText::new(alloc, "p")?;
        let folder = PlainText::new(alloc, word)?;
        packages.push(Package { name, folder })?;
    }
    Ok(Packages::from_vec(packages))
}

/// The files of a snapshot in a row, a mark with the count of its bytes.
fn shown(alloc: Global, snapshot: &Snapshot) -> Result<String, Fail> {
    let mut shown = String::new(alloc);
    for file in snapshot.files() {
        if !shown.is_empty() {
            shown.push_str(" ")?;
        }
        shown.push_str(file.path().as_str())?;
        match file.contents() {
            FileContents::Text { text } => {
                shown.push_str("=")?;
                shown.push_str(text.as_str())?;
            }
            FileContents::NotUtf8 { bytes } => {
                shown.push_str(format!(in alloc; "!{bytes}")?.as_str())?;
            }
            FileContents::TooLong { bytes } => {
                shown.push_str(format!(in alloc; "+{bytes}")?.as_str())?;
            }
        }
    }
    Ok(shown)
}

/// A store with the files of a row.
fn store_of(alloc: Global, row: &str) -> Result<SteadyFiles, Fail> {
    let files = files_of(alloc, row)?;
    if !are_files(files.as_slice()) {
        return Err("no paths of files".into());
    }
    Ok(SteadyFiles::new(files))
}

/// The roots with the included and the excluded paths of a row, and its package folders.
fn roots_of(alloc: Global, included: &str, excluded: &str, packages: &str) -> Result<Roots, Fail> {
    let included = paths_of(alloc, included)?;
    let excluded = paths_of(alloc, excluded)?;
    let packages = packages_of(alloc, packages)?;
    Ok(Roots {
        included,
        excluded,
        packages,
    })
}

/// The parts of a row; one that isn't there is empty.
fn parts_of(row: &str) -> (&str, &str, &str, &str, &str) {
    let (files, rest) = row.split_once('|').unwrap_or((row, ""));
    let (included, rest) = rest.split_once('|').unwrap_or((rest, ""));
    let (excluded, rest) = rest.split_once('|').unwrap_or((rest, ""));
    let (packages, answer) = rest.split_once('|').unwrap_or((rest, ""));
    (files, included, excluded, packages, answer)
}

/// The snapshot of the store and a copy of the roots of a row.
fn read_of(alloc: Global, row: &str) -> Result<Snapshot, Fail> {
    let (files, included, excluded, packages, _) = parts_of(row);
    let mut store = store_of(alloc, files)?;
    let roots = roots_of(alloc, included, excluded, packages)?.copy()?;
    Ok(snapshot(alloc, &mut store, &roots, &[])?)
}

/// Whether a snapshot is that of its row, and a copy of it too.
fn is_right(alloc: Global, row: &str) -> Result<bool, Fail> {
    let (_, _, _, _, answer) = parts_of(row);
    let read = read_of(alloc, row)?;
    let told = shown(alloc, &read.copy()?)?;
    let is_there = read.contents("/r/a.dart").is_some();
    Ok(told.as_str() == answer && is_there == answer.contains("/r/a.dart"))
}

#[test]
fn stores_are_read(rt: HostRuntime) -> Result<(), Fail> {
    for row in ROWS.lines() {
        assert!(rt; is_right(rt.alloc(), row)?, "{row}");
    }
    Ok(())
}
