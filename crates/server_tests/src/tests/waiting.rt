//! How many files wait for an answer, by what both checkers say.

use analysis_store::{Plain, Recent};
use fault_io::{SteadyFiles, are_files};
use load_files::{Package, Packages, Paths, Roots};
use overlays::Overlays;
use plain_text::{PlainBytes, PlainText};
use proto_json::{FileOverlay, Overlay};
use protocol_rules::Contents;
use request_core::Checker;
use std::alloc::{AllocError, Global};
use std::test::Fail;

/// Files of a store: two of the folder `/r`, and one of a package.
fn store(alloc: Global) -> Result<SteadyFiles, Fail> {
    let mut files = Vec::new(alloc);
    for path in ["/p/lib/c.dart", "/r/a.dart", "/r/b.dart"] {
        let path = PlainText::new(alloc, path)?;
        files.push((path, PlainBytes::new(alloc, b"void main(){}")?))?;
    }
    if !are_files(files.as_slice()) {
        return Err("no paths of files".into());
    }
    Ok(SteadyFiles::new(files))
}

/// The folder `/r`, over the package.
fn roots(alloc: Global) -> Result<Roots, Fail> {
    let name = PlainText::new(alloc, "p")?;
    let folder = PlainText::new(alloc, "/p/lib")?;
    let packages = Packages::from_vec(vec![in alloc; Package { name, folder }]?);
    let included = Paths::from_vec(vec![in alloc; PlainText::new(alloc, "/r")?]?);
    Ok(Roots {
        included,
        excluded: Paths::from_vec(Vec::new(alloc)),
        packages,
    })
}

/// Texts of a file of the store, of another library, and of a file that is none.
fn texts(alloc: Global) -> Result<Overlays, Fail> {
    let mut files = Vec::new(alloc);
    for path in ["/n.dart", "/n.txt", "/r/b.dart"] {
        let path = PlainText::new(alloc, path)?;
        let content = PlainText::new(alloc, "int = ;")?;
        let overlay = Overlay::Add { content };
        files.push(FileOverlay { path, overlay })?;
    }
    let mut overlays = Overlays::new(alloc);
    overlays.apply(files.as_slice())?;
    Ok(overlays)
}

/// How many files wait for an answer, before these contents are held and afterwards.
fn waiting<C: Checker + Drop>(
    alloc: Global,
    mut checker: C,
    contents: &Contents,
) -> Result<(u64, u64), AllocError> {
    let before = checker.work();
    checker.set_contents(alloc, contents)?;
    Ok((before, checker.work()))
}

#[test]
fn all_analyzed_files_wait_for_an_answer(rt: HostRuntime) -> Result<(), Fail> {
    let alloc = rt.alloc();
    let packages = Packages::from_vec(Vec::new(alloc));
    let empty = Contents::new(alloc, packages);
    let mut files = store(alloc)?;
    let read = empty.read(alloc, &mut files, roots(alloc)?)?;
    let contents = read
        .with_overlays(texts(alloc)?)?
        .ok_or("a limit is passed")?;
    let plain = waiting(alloc, Plain::new(alloc), &contents)?;
    let recent = waiting(alloc, Recent::new(alloc), &contents)?;
    assert!(rt;
        plain == (0, 3),
        "the two files of the folder and the other library"
    );
    assert!(rt;
        recent == (0, 3),
        "the one that keeps what it has read counts them too"
    );
    Ok(())
}
