//! Limits on depth, counts and bytes.

use fault_io::{SteadyFiles, are_files};
use load_files::{KeptFile, LoadRefusal, Packages, Paths, Roots, are_kept, snapshot};
use plain_text::{PlainBytes, PlainText};
use std::alloc::{AllocError, Global};
use std::test::Fail;

// How many folders deep the one file of a store lies, which has four bytes; how many texts are given,
// and the bytes of the first; and how many files are read, or which limit is passed.
const ROWS: [(usize, usize, u64, &str); 7] = [
    (64, 0, 0, "1"),
    (65, 0, 0, "deep 65"),
    (1, 1, 67_108_860, "1"),
    (1, 1, 67_108_861, "much 67108865"),
    (1, 1, 67_108_865, "too many texts"),
    (1, 9_999, 0, "1"),
    (1, 10_000, 0, "many 10001"),
];

/// The path of a file so many folders deep.
fn deep_path(alloc: Global, folders: usize) -> Result<PlainText, AllocError> {
    let mut path = String::new(alloc);
    for _ in 0..folders {
        path.push_str("/a")?;
    }
    path.push_str("/b.dart")?;
    Ok(PlainText::from_string(path))
}

/// A store of one file, so many folders deep.
fn deep_store(alloc: Global, folders: usize) -> Result<SteadyFiles, Fail> {
    let path = deep_path(alloc, folders)?;
    let bytes = PlainBytes::new(alloc, b"four")?;
    let files = vec![in alloc; (path, bytes)]?;
    if !are_files(files.as_slice()) {
        return Err("no path of a file".into());
    }
    Ok(SteadyFiles::new(files))
}

/// The whole store as a root.
fn whole(alloc: Global) -> Result<Roots, AllocError> {
    let path = PlainText::new(alloc, "/")?;
    let mut included = Vec::new(alloc);
    included.push(path)?;
    Ok(Roots {
        included: Paths::from_vec(included),
        excluded: Paths::from_vec(Vec::new(alloc)),
        packages: Packages::from_vec(Vec::new(alloc)),
    })
}

/// So many given texts, the first with so many bytes and the others with none.
fn given(alloc: Global, count: usize, first: u64) -> Result<Vec<KeptFile>, AllocError> {
    let mut kept = Vec::new(alloc);
    let mut bytes = first;
    for number in 0..count {
        let path = PlainText::from_string(format!(in alloc; "/o/{number}.dart")?);
        kept.push(KeptFile { path, bytes })?;
        bytes = 0;
    }
    Ok(kept)
}

/// A refusal, by its limit.
fn shown(alloc: Global, refusal: &LoadRefusal) -> Result<String, AllocError> {
    match refusal {
        LoadRefusal::FilesFault => format!(in alloc; "fault"),
        LoadRefusal::TooManyFiles { count } => format!(in alloc; "many {count}"),
        LoadRefusal::TooDeep { depth } => format!(in alloc; "deep {depth}"),
        LoadRefusal::TooMuch { bytes } => format!(in alloc; "much {bytes}"),
        LoadRefusal::Memory => format!(in alloc; "memory"),
    }
}

/// How many files are read beside these texts, or which limit is passed.
fn answer(alloc: Global, folders: usize, kept: &[KeptFile]) -> Result<String, Fail> {
    if !are_kept(kept) {
        return Ok(String::from_str(alloc, "too many texts")?);
    }
    let mut store = deep_store(alloc, folders)?;
    let roots = whole(alloc)?;
    match snapshot(alloc, &mut store, &roots, kept) {
        Ok(read) => {
            let count = read.files().len();
            Ok(format!(in alloc; "{count}")?)
        }
        Err(refusal) => Ok(shown(alloc, &refusal)?),
    }
}

#[test]
fn limits_are_kept(rt: HostRuntime) -> Result<(), Fail> {
    let alloc = rt.alloc();
    for (folders, count, bytes, expected) in &ROWS {
        let kept = given(alloc, *count, *bytes)?;
        let found = answer(alloc, *folders, kept.as_slice())?;
        assert_eq!(rt; found.as_str(), *expected);
    }
    Ok(())
}
