//! Each call of a store fails in turn.

use fault_io::{MemoryFiles, are_files};
use load_files::{FileContents, LoadRefusal, Package, Packages, Paths, Roots, Snapshot, snapshot};
use plain_text::{PlainBytes, PlainText};
use std::alloc::{AllocError, Global};
use std::test::Fail;

// Twenty files in five folders, in the order of their paths.
const TWENTY: &str = "\
/p/a.dart=a /p/b.dart=b /p/c.dart=c /p/d/e.dart=e /p/d/f.dart=f \
/r/a.dart=a /r/b.dart=b /r/c.dart=c /r/d.dart=d /r/e.dart=e \
/r/f/g.dart=g /r/f/h.dart=h /r/f/i.dart=i /r/f/j/k.dart=k /r/f/j/l.dart=l \
/r/m.dart=m /r/n.dart=n /r/o.dart=o /r/q.dart=q /r/s.dart=s";

/// A reading lists the five folders and reads the twenty files.
const CALLS: u64 = 25;

/// The twenty files.
fn twenty_files(alloc: Global) -> Result<Vec<(PlainText, PlainBytes)>, AllocError> {
    let mut files = Vec::new(alloc);
    for word in TWENTY.split_whitespace() {
        if let Some((path, text)) = word.split_once('=') {
            let path = PlainText::new(alloc, path)?;
            let bytes = PlainBytes::new(alloc, text.as_bytes())?;
            files.push((path, bytes))?;
        }
    }
    Ok(files)
}

/// A store of the twenty files, of which one call fails.
fn failing_store(alloc: Global, call: u64) -> Result<MemoryFiles, Fail> {
    let files = twenty_files(alloc)?;
    if !are_files(files.as_slice()) {
        return Err("no paths of files".into());
    }
    let mut fails = Vec::new(alloc);
    fails.push(call)?;
    Ok(MemoryFiles::new(files, fails))
}

/// The folder `/r`, and a package in `/p`.
fn roots_of(alloc: Global) -> Result<Roots, AllocError> {
    let mut included = Vec::new(alloc);
    included.push(PlainText::new(alloc, "/r")?)?;
    let name = PlainText::new(alloc, "p")?;
    let folder = PlainText::new(alloc, "/p")?;
    let mut packages = Vec::new(alloc);
    packages.push(Package { name, folder })?;
    Ok(Roots {
        included: Paths::from_vec(included),
        excluded: Paths::from_vec(Vec::new(alloc)),
        packages: Packages::from_vec(packages),
    })
}

/// The files of a snapshot whose bytes are texts.
fn shown(alloc: Global, snapshot: &Snapshot) -> Result<String, AllocError> {
    let mut shown = String::new(alloc);
    for file in snapshot.files() {
        if let FileContents::Text { text } = file.contents() {
            if !shown.is_empty() {
                shown.push_str(" ")?;
            }
            shown.push_str(file.path().as_str())?;
            shown.push_str("=")?;
            shown.push_str(text.as_str())?;
        }
    }
    Ok(shown)
}

/// Whether a reading fails where a call does, and the next one reads all.
fn fails_once(alloc: Global, call: u64) -> Result<bool, Fail> {
    let roots = roots_of(alloc)?;
    let mut store = failing_store(alloc, call)?;
    let failed = snapshot(alloc, &mut store, &roots, &[]);
    if !matches!(&failed, Err(LoadRefusal::FilesFault)) {
        return Ok(false);
    }
    let read = snapshot(alloc, &mut store, &roots, &[])?;
    Ok(shown(alloc, &read)?.as_str() == TWENTY)
}

#[test]
fn each_call_of_a_store_may_fail(rt: HostRuntime) -> Result<(), Fail> {
    for call in 0..CALLS {
        assert!(rt; fails_once(rt.alloc(), call)?, "{call}");
    }
    assert!(rt; !fails_once(rt.alloc(), CALLS)?);
    Ok(())
}
