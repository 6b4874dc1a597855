//! Packages files of stores in memory.

use crate::packages::shown_packages;
use fault_io::{FilesRefusal, MemoryFiles, are_files};
use packages_file::packages_at;
use plain_text::{PlainBytes, PlainText};
use std::alloc::Global;
use std::test::Fail;

// A packages file, which is `/p/.dart_tool/package_config.json` and `/package_config.json`.
const FILE: &[u8] = br#"{"configVersion":2,"packages":[{"name":"p","rootUri":"lib"}]}"#;

// The path of a file, and its packages; `-` where it is refused.
const ROWS: &str = "\
/p/.dart_tool/package_config.json|p=/p/.dart_tool/lib
/package_config.json|p=/lib
/p/package_config.json|-
/p/.dart_tool|-
/p/empty.json|-
/|-
";

/// A store of the file, of which the first call fails.
fn store(alloc: Global) -> Result<MemoryFiles, Fail> {
    let mut files = Vec::new(alloc);
    for path in ["/p/.dart_tool/package_config.json", "/package_config.json"] {
        files.push((PlainText::new(alloc, path)?, PlainBytes::new(alloc, FILE)?))?;
    }
    let path = PlainText::new(alloc, "/p/empty.json")?;
    files.push((path, PlainBytes::new(alloc, b"")?))?;
    if !are_files(files.as_slice()) {
        return Err("no paths of files".into());
    }
    Ok(MemoryFiles::new(files, vec![in alloc; 0]?))
}

#[test]
fn packages_files_of_stores_are_read(rt: HostRuntime) -> Result<(), Fail> {
    let alloc = rt.alloc();
    let mut files = store(alloc)?;
    let failed = packages_at(alloc, &mut files, "/package_config.json");
    assert!(rt; matches!(&failed, Err(FilesRefusal::Failed)));
    for row in ROWS.lines() {
        if let Some((path, expected)) = row.split_once('|') {
            let shown = match packages_at(alloc, &mut files, path)? {
                Some(packages) => shown_packages(alloc, &packages)?,
                None => String::from_str(alloc, "-")?,
            };
            assert_eq!(rt; shown.as_str(), expected, "{path}");
        }
    }
    Ok(())
}
