//! Which libraries reach each other.

use crate::project::{aims_of, file_of};
use libraries::{SourceFile, edges_of, heads_of};
use library_graph::cycles;
use std::alloc::Global;
use std::test::Fail;

// The cycles of files, each as its places, in the order in which they are listed.
fn cycles_text(alloc: Global, files: &[SourceFile]) -> Result<String, Fail> {
    let all = aims_of(alloc, files)?;
    let heads = heads_of(alloc, &all)?;
    let count = u32::try_from(files.len()).unwrap_or(0);
    let edges = edges_of(alloc, &heads, count, &all)?;
    let mut text = String::new(alloc);
    for cycle in &cycles(alloc, &edges, count)? {
        for place in cycle.as_slice() {
            text.push_str(&format!(in alloc; "{place} ")?)?;
        }
        text.push_str("| ")?;
    }
    Ok(text)
}

#[test]
fn cycles_come_after_what_they_reach(rt: HostRuntime) -> Result<(), Fail> {
    let alloc = rt.alloc();
    let mut files = Vec::new(alloc);
    files.push(file_of(alloc, "dart:core", "")?)?;
    files.push(file_of(alloc, "/a.dart", "import 'b.dart';part 'd.dart';")?)?;
    files.push(file_of(alloc, "/b.dart", "export 'c.dart';import 'd.dart';")?)?;
    files.push(file_of(alloc, "/c.dart", "import 'b.dart';import 'nope.dart';")?)?;
    files.push(file_of(alloc, "/d.dart", "part of 'a.dart';import 'e.dart';")?)?;
    files.push(file_of(alloc, "/e.dart", "import 'a.dart';")?)?;
    let text = cycles_text(alloc, &files)?;
    assert_eq!(rt; text.as_str(), "0 | 2 3 | 1 | 4 | 5 | ");
    Ok(())
}

#[test]
fn a_long_chain_is_followed(rt: HostRuntime) -> Result<(), Fail> {
    let alloc = rt.alloc();
    let mut files = Vec::new(alloc);
    files.push(file_of(alloc, "dart:core", "")?)?;
    for number in 0u32..10_000 {
        let next = number + 1;
        let path = format!(in alloc; "/l{number}.dart")?;
        let text = format!(in alloc; "import 'l{next}.dart';")?;
        files.push(file_of(alloc, path.as_str(), text.as_str())?)?;
    }
    let text = cycles_text(alloc, &files)?;
    assert!(rt; text.as_str().starts_with("0 | 10000 | 9999 | "));
    assert!(rt; text.as_str().ends_with("| 2 | 1 | "));
    Ok(())
}
