//! Packages files, one for each cause of a refusal.

use load_files::Packages;
use packages_file::{PackagesRefusal, read_packages};
use std::alloc::Global;
use std::test::Fail;

// The bytes of a file in the folder `/p/.dart_tool`, and its packages; `-` where it is refused.
const ROWS: &str = r#"
{"configVersion":2,"packages":[{"name":"p","rootUri":"../","packageUri":"lib/"}]}|p=/p/lib
{"configVersion":2,"packages":[]}|
{"configVersion":2,"packages":[{"name":"q","rootUri":"file:///q"},{"name":"r","rootUri":"..","languageVersion":"2.12"}],"generator":"pub"}|q=/q r=/p
{"configVersion":2,"packages":[{"name":"s","rootUri":"file:///a%20b/","packageUri":"./lib"}]}|s=/a b/lib
{"configVersion":3,"packages":[]}|-
{"packages":[]}|-
{"configVersion":2.0,"packages":[]}|-
{"configVersion":2}|-
{"configVersion":2,"packages":{}}|-
{"configVersion":2,"packages":[1]}|-
{"configVersion":2,"packages":[{"rootUri":"../"}]}|-
{"configVersion":2,"packages":[{"name":1,"rootUri":"../"}]}|-
{"configVersion":2,"packages":[{"name":"p"}]}|-
{"configVersion":2,"packages":[{"name":"p","rootUri":["../"]}]}|-
{"configVersion":2,"packages":[{"name":"p","rootUri":"../","packageUri":null}]}|-
{"configVersion":2,"packages":[{"name":"p","rootUri":"../"},{"name":"p","rootUri":"../q"}]}|-
{"configVersion":2,"packages":[{"name":"p","rootUri":"../../.."}]}|-
{"configVersion":2,"packages":[{"name":"p","rootUri":"http://p"}]}|-
{"configVersion":2,"packages":[{"name":"p","rootUri":"../","packageUri":"lib?a"}]}|-
[]|-
{|-
"#;

/// Packages, each as its name and its folder.
pub fn shown_packages(alloc: Global, packages: &Packages) -> Result<String, Fail> {
    let mut shown = String::new(alloc);
    for package in packages.as_slice() {
        if !shown.is_empty() {
            shown.push_str(" ")?;
        }
        shown.push_str(package.name.as_str())?;
        shown.push_str("=")?;
        shown.push_str(package.folder.as_str())?;
    }
    Ok(shown)
}

/// The packages of a file.
fn shown(alloc: Global, bytes: &[u8]) -> Result<String, Fail> {
    match read_packages(alloc, "/p/.dart_tool", bytes) {
        Ok(packages) => shown_packages(alloc, &packages),
        Err(PackagesRefusal::Refused) => Ok(String::from_str(alloc, "-")?),
        Err(refusal) => Err(refusal.into()),
    }
}

#[test]
fn packages_files_are_read_or_refused(rt: HostRuntime) -> Result<(), Fail> {
    let alloc = rt.alloc();
    for row in ROWS.lines() {
        if let Some((file, packages)) = row.split_once('|') {
            assert_eq!(rt; shown(alloc, file.as_bytes())?.as_str(), packages, "{file}");
        }
    }
    assert_eq!(rt; shown(alloc, &[0xFF])?.as_str(), "-");
    Ok(())
}
