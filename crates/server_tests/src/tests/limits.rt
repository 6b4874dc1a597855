//! Lines and texts as long as the limits allow, and longer; edits of long texts.

use super::{Run, bytes_in, ends, is_comment};
use std::alloc::Global;
use std::test::Fail;

// Sessions, each behind the comment that says what it is about. A line of a session is a request and the
// reply to it, `REQUEST = REPLY`. The requests, all with the id 1, are:
//
// | Request | What it asks for |
// |---|---|
// | `get PATH`, `get PATH BLANKS` | the errors of a file, with so much behind the request |
// | `add PATH TEXT` | a text for a file |
// | `edit PATH EDITS` | these edits of a file's text |
// | `files FILES` | an update of these files |
// | `roots PATHS` | these included paths, and none that is excluded |
// | `again roots` | the files of the roots once more |
// | `line TEXT` | nothing: the line is this text |
const SESSIONS: &str =
    r#"-- Lines of 16,777,216 bytes and of one more: requests, and then blanks. A request for errors alone has 68
-- bytes, and a line of blanks alone is no request.
add /a.dart void main() {} = done
get /a.dart «16777148: » = clean
get /a.dart «16777149: » = no request
get /a.dart = clean
line «16777216: » = nothing
line «16777217: » = no request
get /a.dart = clean

-- Texts of 4,194,304 bytes and of one more, by `add` and by `change`; of two faults in one update the
-- first file, by its path, decides.
add /a.dart void main(){} = done
add /a.dart «4194304:x»y = limit
get /a.dart = clean
add /b.dart «4194304:x» = done
edit /b.dart {"offset":7,"length":0,"replacement":"y"} = limit
edit /b.dart {"offset":7,"length":1,"replacement":"y"} = done
edit /b.dart {"offset":7,"length":1,"replacement":"é"} = limit
files "/c.dart":{"type":"change","edits":[]},"/b.dart":{"type":"change","edits":[{"offset":7,"length":0,"replacement":"y"}]} = limit
files "/0.dart":{"type":"change","edits":[]},"/b.dart":{"type":"change","edits":[{"offset":7,"length":0,"replacement":"y"}]} = bad change

-- Texts of 67,108,864 bytes together, and of one more.
add /0 «4194304:x» = done
add /1 «4194304:x» = done
add /2 «4194304:x» = done
add /3 «4194304:x» = done
add /4 «4194304:x» = done
add /5 «4194304:x» = done
add /6 «4194304:x» = done
add /7 «4194304:x» = done
add /8 «4194304:x» = done
add /9 «4194304:x» = done
add /a «4194304:x» = done
add /b «4194304:x» = done
add /c «4194304:x» = done
add /d «4194304:x» = done
add /e «4194304:x» = done
add /f «4194304:x» = done
add /a.dart y = limit
get /a.dart = not analyzed
files "/a.dart":{"type":"add","content":"void main(){}"},"/f":{"type":"change","edits":[{"offset":0,"length":13,"replacement":""}]} = done
get /a.dart = clean
add /b.dart  = done
add /b.dart y = limit

-- Texts of 10,000 files, and of one more; the limit is looked at when all files of an update are taken, so
-- that one may come and one go.
files "/a.dart":{"type":"remove"}«10001:,"/№.dart":{"type":"add","content":""}» = limit
get /0.dart = not analyzed
files "/a.dart":{"type":"remove"}«10000:,"/№.dart":{"type":"add","content":""}» = done
add /a.dart void main(){} = limit
get /a.dart = not analyzed
add /0.dart void main(){} = done
get /0.dart = clean
files "/+.dart":{"type":"add","content":""},"/9.dart":{"type":"remove"} = done
files "/a.dart":{"type":"remove"}«10000:,"/№.dart":{"type":"add","content":""}» = limit

-- Edits of a text of 40,026 bytes and 20,026 units, in which 10,000 characters of two units stand before the
-- one error: edits that split a character, 4,001 in one request, which put 2,000 blanks before the error and
-- take them out again, and one of all of the characters but one.
add /a.dart /*«10000:😀»*/void main(){bool b=1;} = done
get /a.dart = invalid assignment at 20023
edit /a.dart {"offset":10003,"length":0,"replacement":"x"} = bad change
edit /a.dart {"offset":10002,"length":3,"replacement":""} = bad change
edit /a.dart «2000:{"offset":20016,"length":0,"replacement":" "},»«2000:{"offset":20016,"length":1,"replacement":""},»{"offset":20023,"length":1,"replacement":"2"} = done
get /a.dart = invalid assignment at 20023
edit /a.dart {"offset":4,"length":19998,"replacement":""} = done
get /a.dart = invalid assignment at 25

-- Texts so deep that no call may be nested like them: blocks, branches and loops.
add /a.dart void main(){«10000:{»«10000:}»} = done
get /a.dart = too deep at 210 of 19604
add /a.dart void main(){«10000:if(true){»«10000:}»} = done
get /a.dart = too deep at 903 of 99010
add /a.dart void main(){«10000:while(true){»«10000:}»} = done
get /a.dart = too deep at 1200 of 128713"#;

/// A reply: why a request is refused.
fn refused(reply: &str) -> Option<(&'static str, &'static str)> {
    match reply {
        "no request" => Some(("INVALID_REQUEST", "The line is not a request.")),
        "limit" => Some(("PROFILE_LIMIT", "A limit is passed.")),
        "bad change" => Some((
            "INVALID_OVERLAY_CHANGE",
            "The change does not fit the overlay.",
        )),
        "not analyzed" => Some(("GET_ERRORS_INVALID_FILE", "The file is not analyzed.")),
        "failed" => Some(("SERVER_ERROR", "The file store failed.")),
        _ => None,
    }
}

/// A reply of one error of `/a.dart`: what it is, its type, its length and its offset.
fn error(
    alloc: Global,
    words: (&str, &str, &str),
    length: u32,
    offset: u32,
) -> Result<String, Fail> {
    let (code, message, kind) = words;
    let column = offset.saturating_add(1);
    Ok(format!(in alloc;
        "{{\"id\":\"1\",\"result\":{{\"errors\":[{{\"code\":\"{code}\",\"location\":{{\"file\":\"/a.dart\",\"length\":{length},\"offset\":{offset},\"startColumn\":{column},\"startLine\":1}},\"message\":\"{message}\",\"severity\":\"ERROR\",\"type\":\"{kind}\"}}]}}}}\n"
    )?)
}

/// The reply of a word.
fn reply_of(alloc: Global, reply: &str) -> Result<String, Fail> {
    if let Some((code, message)) = refused(reply) {
        let id = if reply == "no request" { "" } else { "1" };
        return Ok(format!(in alloc;
            "{{\"error\":{{\"code\":\"{code}\",\"message\":\"{message}\"}},\"id\":\"{id}\"}}\n"
        )?);
    }
    if let Some(offset) = reply.strip_prefix("invalid assignment at ") {
        let words = (
            "invalid_assignment",
            "Invalid assignment.",
            "COMPILE_TIME_ERROR",
        );
        return error(alloc, words, 1, offset.parse::<u32>()?);
    }
    if let Some(length) = reply.strip_prefix("syntax error of ") {
        let words = ("syntax_error", "Syntax error.", "SYNTACTIC_ERROR");
        return error(alloc, words, length.parse::<u32>()?, 0);
    }
    if let Some(place) = reply.strip_prefix("too deep at ") {
        let (offset, length) = place.split_once(" of ").ok_or("no length")?;
        let words = ("profile_nesting", "Profile nesting.", "SYNTACTIC_ERROR");
        return error(alloc, words, length.parse::<u32>()?, offset.parse::<u32>()?);
    }
    match reply {
        "not UTF-8" => {
            let words = ("file_not_utf8", "File not utf8.", "COMPILE_TIME_ERROR");
            error(alloc, words, 0, 0)
        }
        "too long" => {
            let words = (
                "profile_file_length",
                "Profile file length.",
                "COMPILE_TIME_ERROR",
            );
            error(alloc, words, 0, 0)
        }
        "nothing" => Ok(String::new(alloc)),
        "done" => Ok(String::from_str(alloc, "{\"id\":\"1\"}\n")?),
        "clean" => Ok(String::from_str(alloc, "{\"id\":\"1\",\"result\":{\"errors\":[]}}\n")?),
        _ => Err("no reply".into()),
    }
}

/// The request that asks for an update of these files.
fn update(alloc: Global, files: &str) -> Result<String, Fail> {
    Ok(format!(in alloc;
        "{{\"id\":\"1\",\"method\":\"analysis.updateContent\",\"params\":{{\"files\":{{{files}}}}}}}"
    )?)
}

/// The request, in the notation, of a word and what stands behind it.
pub(super) fn request_of(alloc: Global, word: &str, rest: &str) -> Result<String, Fail> {
    let (path, behind) = rest.split_once(' ').unwrap_or((rest, ""));
    let request = match word {
        "line" => String::from_str(alloc, rest)?,
        "files" => update(alloc, rest)?,
        "roots" => format!(in alloc;
            "{{\"id\":\"1\",\"method\":\"analysis.setAnalysisRoots\",\"params\":{{\"included\":[{rest}],\"excluded\":[]}}}}"
        )?,
        "again" => String::from_str(alloc, r#"{"id":"1","method":"analysis.reanalyze"}"#)?,
        "get" => format!(in alloc;
            "{{\"id\":\"1\",\"method\":\"analysis.getErrors\",\"params\":{{\"file\":\"{path}\"}}}}{behind}"
        )?,
        "add" => {
            let file = format!(in alloc;
                "\"{path}\":{{\"type\":\"add\",\"content\":\"{behind}\"}}"
            )?;
            update(alloc, &file)?
        }
        "edit" => {
            let file = format!(in alloc;
                "\"{path}\":{{\"type\":\"change\",\"edits\":[{behind}]}}"
            )?;
            update(alloc, &file)?
        }
        _ => return Err("no request".into()),
    };
    Ok(request)
}

/// What is sent in a session, and what is to come back.
#[derive(Drop)]
pub(super) struct Session {
    /// The lines of the requests.
    pub(super) input: Vec<u8>,
    /// The replies to them.
    pub(super) output: Vec<u8>,
}

impl Session {
    /// Sends the request of a line.
    fn send(&mut self, alloc: Global, line: &str) -> Result<(), Fail> {
        let (request, reply) = line.split_once(" = ").ok_or("no reply")?;
        let (word, rest) = request.split_once(' ').ok_or("no request")?;
        let request = request_of(alloc, word, rest)?;
        let reply = reply_of(alloc, reply)?;
        self.input.extend_from_slice(&bytes_in(alloc, &request)?)?;
        self.input.push(b'\n')?;
        self.output.extend_from_slice(reply.as_bytes())?;
        Ok(())
    }
}

/// The session of a text.
pub(super) fn session_in(alloc: Global, text: &str) -> Result<Session, Fail> {
    let mut session = Session {
        input: Vec::new(alloc),
        output: Vec::new(alloc),
    };
    for line in text.lines() {
        if !is_comment(line) {
            session.send(alloc, line)?;
        }
    }
    Ok(session)
}

/// Whether a session has the replies of its lines. The store, which fails, isn't asked.
fn is_right(alloc: Global, text: &str) -> Result<bool, Fail> {
    let session = session_in(alloc, text)?;
    let run = Run {
        words: " serve",
        fails: "store 0",
        file: ("/a.dart", ""),
    };
    ends(alloc, run, session.input, "Done", &session.output)
}

#[test]
fn limits_are_kept(rt: HostRuntime) -> Result<(), Fail> {
    for session in SESSIONS.split("\n\n") {
        assert!(rt; is_right(rt.alloc(), session)?, "{session}");
    }
    Ok(())
}
