//! References, over a table.

use crate::resolved;
use std::test::Fail;

// A folder, a reference, and the path; `-` where there is none.
const ROWS: &str = "\
/p/.dart_tool ../ /p
/p/.dart_tool .. /p
/p lib/ /p/lib
/p lib /p/lib
/p ./a/./b/../c.dart /p/a/c.dart
/ a.dart /a.dart
/p ../.. -
/p ../../a -
/p .. /
/p a//b -
/p // -
/p /q/r /q/r
/p file:///q/r/ /q/r
/p file:/// /
/p FILE:///q -
/p file:/q -
/p http://q -
/p dart:core -
/p a?b -
/p a#b -
/p a%3Fb /p/a?b
/p %2e%2e/a /a
/p a%2Fb /p/a/b
/p %FF -
/p %00 -
/p %C3%A9 /p/\u{e9}
/p a/b:c /p/a/b:c
p a -
";

#[test]
fn references_are_resolved(rt: HostRuntime) -> Result<(), Fail> {
    let alloc = rt.alloc();
    for row in ROWS.lines() {
        let (folder, rest) = row.split_once(' ').unwrap_or((row, ""));
        let (reference, path) = rest.split_once(' ').unwrap_or((rest, ""));
        let found = resolved(alloc, folder, reference)?;
        match found {
            Some(found) => assert_eq!(rt; found.as_str(), path, "{row}"),
            None => assert_eq!(rt; "-", path, "{row}"),
        }
    }
    let empty = resolved(alloc, "/p/q", "")?;
    assert!(rt; empty.is_some_and(|path| path.as_str() == "/p/q"));
    Ok(())
}
