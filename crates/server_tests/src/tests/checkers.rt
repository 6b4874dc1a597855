//! The two checkers, by the same sessions: the one that keeps nothing says plainly what the one of the
//! program has to answer.

use super::is_comment;
use super::limits::request_of;
use analysis_store::{Plain, Recent};
use fault_io::{SteadyFiles, SteadySink, SteadySource, are_files};
use load_files::Packages;
use plain_text::{PlainBytes, PlainText};
use request_core::{Checker, Session};
use serve_loop::{ServeEnd, serve};
use std::alloc::Global;
use std::test::Fail;

// The files of the store, each a path and its text.
const FILES: &str = r#"/r/a.dart import 'm.dart';int a;int a;
/r/m.dart part 'n.dart';void main(){bool b=1;}
/r/n.dart part of 'm.dart';int = ;
/s/b.dart export '../r/m.dart';export '../r/a.dart';int b;"#;

// Sessions, whose lines are requests as in the tests of limits.
const SESSIONS: &str = r#"-- Files come, are edited and go: a library, a file that it imports and
-- then has as a part, and a third file that stands before both.
add /m.dart import 'n.dart';void main(){bool b=1;}
get /m.dart
add /n.dart part of 'm.dart';int a;int a;
get /m.dart
edit /m.dart {"offset":0,"length":6,"replacement":"part"}
get /m.dart
get /n.dart
add /a.dart export 'm.dart';int = ;
get /a.dart
get /n.dart
files "/n.dart":{"type":"remove"}
get /m.dart
get /n.dart

-- Files of the store come and go before and behind others, with those of the client behind them.
roots "/s"
get /s/b.dart
add /t.dart import 's/b.dart';int = ;
add /q.dart part of 'r/m.dart';bool q;
get /t.dart
roots "/r","/s"
get /s/b.dart
get /r/n.dart
get /q.dart
again roots
get /t.dart
roots "/r/n.dart","/s"
get /r/n.dart
get /t.dart
roots "/r"
get /r/a.dart
get /s/b.dart

-- Two files have what the other had; one goes and comes again; the text of a file stands before that of the
-- store, and goes again.
roots "/r"
add /p.dart void main(){int p;int p;}
add /q.dart int = ;
add /t.dart part of 'q.dart';
get /p.dart
files "/p.dart":{"type":"add","content":"int = ;"},"/q.dart":{"type":"add","content":"void main(){int p;int p;}"}
get /p.dart
get /q.dart
files "/p.dart":{"type":"remove"}
get /q.dart
add /p.dart int = ;
get /p.dart
get /t.dart
add /r/m.dart part 'n.dart';int m;int m;
get /r/m.dart
get /r/n.dart
files "/r/m.dart":{"type":"remove"},"/q.dart":{"type":"remove"}
get /r/m.dart
get /p.dart
get /t.dart"#;

/// A store of the files.
fn store(alloc: Global) -> Result<SteadyFiles, Fail> {
    let mut files = Vec::new(alloc);
    for line in FILES.lines() {
        let (path, text) = line.split_once(' ').ok_or("no text")?;
        let path = PlainText::new(alloc, path)?;
        let text = PlainBytes::from_vec(text.as_bytes().to_vec(alloc)?);
        files.push((path, text))?;
    }
    if !are_files(files.as_slice()) {
        return Err("no path of a file".into());
    }
    Ok(SteadyFiles::new(files))
}

/// Puts the request of a line behind others.
fn push_request(alloc: Global, line: &str, lines: &mut Vec<u8>) -> Result<(), Fail> {
    let (word, rest) = line.split_once(' ').ok_or("no request")?;
    let request = request_of(alloc, word, rest)?;
    lines.extend_from_slice(request.as_bytes())?;
    lines.push(b'\n')?;
    Ok(())
}

/// The lines of a session.
fn lines_of(alloc: Global, session: &str) -> Result<Vec<u8>, Fail> {
    let mut lines = Vec::new(alloc);
    for line in session.lines() {
        if !is_comment(line) {
            push_request(alloc, line, &mut lines)?;
        }
    }
    Ok(lines)
}

/// What is written over this checker, and how serving ends.
fn served<C: Checker + Drop>(
    alloc: Global,
    lines: &[u8],
    checker: C,
) -> Result<(ServeEnd, Vec<u8>), Fail> {
    let mut source = SteadySource::new(lines.to_vec(alloc)?);
    let mut sink = SteadySink::new(alloc);
    let mut files = store(alloc)?;
    let packages = Packages::from_vec(Vec::new(alloc));
    let mut session = Session::new(alloc, packages, checker);
    let end = serve(
        alloc,
        65_536,
        65_536,
        &mut source,
        &mut sink,
        &mut session,
        &mut files,
    );
    Ok((end, sink.written().to_vec(alloc)?))
}

/// How many lines there are.
fn line_count(bytes: &[u8]) -> usize {
    bytes.iter().filter(|byte| **byte == b'\n').count()
}

/// Whether both checkers answer each line of a session, and alike.
fn are_alike(alloc: Global, session: &str) -> Result<bool, Fail> {
    let lines = lines_of(alloc, session)?;
    let (plain_end, plain) = served(alloc, &lines, Plain::new(alloc))?;
    let (end, replies) = served(alloc, &lines, Recent::new(alloc))?;
    let done = plain_end == ServeEnd::Done && end == ServeEnd::Done;
    Ok(done && line_count(&plain) == line_count(&lines) && plain == replies)
}

#[test]
fn both_checkers_answer_alike(rt: HostRuntime) -> Result<(), Fail> {
    for session in SESSIONS.split("\n\n") {
        assert!(rt; are_alike(rt.alloc(), session)?, "{session}");
    }
    Ok(())
}
