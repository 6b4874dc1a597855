//! Roots over a store in memory, calls of it that fail, and the limits on files and texts together.

use super::limits::session_in;
use super::{Run, cell, ends};
use std::alloc::Global;
use std::test::Fail;

// Sessions over a store of one file, each behind a line `FAILS|PATH|TEXT`: the call of the store that
// fails, the path of the file and its text. A reading of its folder lists that and then reads the file, two
// calls.
// Requests and replies are those of the tests of limits.
const SESSIONS: &str = r#"store 3|/r/a.dart|void main(){}
-- The fourth call fails, and what was read before stays.
roots "/r" = done
roots "/r" = failed
get /r/a.dart = clean

store 3|/a.dart|void main(){}
get /a.dart = not analyzed
roots "/" = done
get /a.dart = clean
roots "/" = failed
get /a.dart = clean
again roots = done
get /a.dart = clean
roots "/b" = done
get /a.dart = not analyzed

store 0|/a.dart|void main(){}
-- So does what was there before anything was read.
add /b.dart void main(){} = done
roots "/" = failed
get /a.dart = not analyzed
get /b.dart = clean
again roots = done
get /a.dart = not analyzed
roots "/a.dart" = done
get /a.dart = clean

store 1|/a.dart|void main(){}
roots "/" = failed
get /a.dart = not analyzed
roots "/" = done
get /a.dart = clean

|/a.dart|«#255»
-- Bytes that are no text, and one more than a text has; a text that is given stands before them.
roots "/" = done
get /a.dart = not UTF-8
add /a.dart void main(){} = done
get /a.dart = clean
again roots = done
get /a.dart = clean
files "/a.dart":{"type":"remove"} = done
get /a.dart = not UTF-8

|/a.dart|«4194304: »x
roots "/" = done
get /a.dart = too long

|/a.dart|x
-- Texts of 67,108,864 bytes together leave no room for a file, and one byte less leaves room for one byte.
add /0 «4194304:x» = done
add /1 «4194304:x» = done
add /2 «4194304:x» = done
add /3 «4194304:x» = done
add /4 «4194304:x» = done
add /5 «4194304:x» = done
add /6 «4194304:x» = done
add /7 «4194304:x» = done
add /8 «4194304:x» = done
add /9 «4194304:x» = done
add /a «4194304:x» = done
add /b «4194304:x» = done
add /c «4194304:x» = done
add /d «4194304:x» = done
add /e «4194304:x» = done
add /f «4194304:x» = done
roots "/" = limit
get /a.dart = not analyzed
edit /f {"offset":0,"length":1,"replacement":""} = done
roots "/" = done
get /a.dart = syntax error of 1
edit /f {"offset":0,"length":0,"replacement":"x"} = limit

|/a.dart|void main(){}
-- Texts of 10,000 paths leave no room for another path; a path that has both counts once.
files "/z":{"type":"remove"}«10000:,"/№":{"type":"add","content":""}» = done
roots "/" = limit
get /a.dart = not analyzed
files "/0":{"type":"remove"} = done
roots "/" = done
get /a.dart = clean
add /0 x = limit
add /a.dart void main(){} = done
get /a.dart = clean
add /0 x = limit"#;

// The same over the packages of a file, which is the store's only one: it is read first, in one call.
const PACKAGE_SESSIONS: &str =
    r#"store 1|/p.json|{"configVersion":2,"packages":[{"name":"p","rootUri":"."}]}
-- The folder of a package is read where no path is included, too.
roots  = failed
roots  = done

store 2|/p.json|{"configVersion":2,"packages":[{"name":"p","rootUri":"."}]}
-- It is read behind what is included, which takes one call here.
roots "/p.json" = failed
roots "/p.json" = done
again roots = done

store 1|/p.json|{"configVersion":2,"packages":[]}
-- Where there is no package nothing is read.
roots  = done
roots "/" = failed"#;

/// Whether a session of the program with these words has the replies of its lines.
fn is_right(alloc: Global, words: &str, block: &str) -> Result<bool, Fail> {
    let (head, requests) = block.split_once('\n').ok_or("no session")?;
    let (fails, file) = cell(head)?;
    let file = cell(file)?;
    let session = session_in(alloc, requests)?;
    let run = Run { words, fails, file };
    ends(alloc, run, session.input, "Done", &session.output)
}

#[test]
fn roots_are_read(rt: HostRuntime) -> Result<(), Fail> {
    for session in SESSIONS.split("\n\n") {
        assert!(rt; is_right(rt.alloc(), " serve", session)?, "{session}");
    }
    Ok(())
}

#[test]
fn folders_of_packages_are_read(rt: HostRuntime) -> Result<(), Fail> {
    let words = " serve --packages /p.json";
    for session in PACKAGE_SESSIONS.split("\n\n") {
        assert!(rt; is_right(rt.alloc(), words, session)?, "{session}");
    }
    Ok(())
}
