//! Lines and replies from the protocol's documents and from JSON's own rules, where no session
//! shows them: what is read of a request that isn't served yet, the order of an update's files, and
//! replies of each form.

use proto_json::{
    Asked, Code, ErrorKind, ErrorRow, ErrorRows, FileOverlay, FixedText, Location, Overlay,
    OverlayEdit, Paths, ReplyBody, Request, RequestRefusal, Severity, SharedText, read_request,
    write_reply,
};
use std::alloc::Global;
use std::test::Fail;

// Paths in words.
fn listed(alloc: Global, paths: &Paths) -> Result<String, Fail> {
    let mut text = String::new(alloc);
    for path in paths.as_slice() {
        text.push_str("<")?;
        text.push_str(path.as_str())?;
        text.push_str(">")?;
    }
    Ok(text)
}

// Edits in words.
fn edited(alloc: Global, edits: &[OverlayEdit]) -> Result<String, Fail> {
    let mut text = String::new(alloc);
    for edit in edits {
        let offset = edit.offset;
        let length = edit.length;
        let replacement = edit.replacement.as_str();
        let words = format!(in alloc; " {offset}+{length}={replacement};")?;
        text.push_str(words.as_str())?;
    }
    Ok(text)
}

// What becomes of a file, in words.
fn changed(alloc: Global, file: &FileOverlay) -> Result<String, Fail> {
    let path = file.path.as_str();
    let text = match &file.overlay {
        Overlay::Add { content } => {
            let content = content.as_str();
            format!(in alloc; "<{path}> is {content}.")?
        }
        Overlay::Change { edits } => {
            let edits = edited(alloc, edits.as_slice())?;
            format!(in alloc; "<{path}> changes{edits}.")?
        }
        Overlay::Remove => format!(in alloc; "<{path}> is dropped.")?,
    };
    Ok(text)
}

fn updated(alloc: Global, files: &[FileOverlay]) -> Result<String, Fail> {
    let mut text = format!(in alloc; "files")?;
    for file in files {
        let words = changed(alloc, file)?;
        text.push_str(" ")?;
        text.push_str(words.as_str())?;
    }
    Ok(text)
}

// A request in words.
fn asked_for(alloc: Global, request: &Request) -> Result<String, Fail> {
    let text = match request {
        Request::SetRoots { included, excluded } => {
            let included = listed(alloc, included)?;
            let excluded = listed(alloc, excluded)?;
            format!(in alloc; "roots {included} but {excluded}")?
        }
        Request::Reanalyze => format!(in alloc; "reanalyze")?,
        Request::Update { files } => updated(alloc, files.as_slice())?,
        Request::GetErrors { file } => {
            let file = file.as_str();
            format!(in alloc; "errors of <{file}>")?
        }
        Request::GetWork => format!(in alloc; "work")?,
    };
    Ok(text)
}

// What a line is, in words.
fn told(alloc: Global, line: &[u8]) -> Result<String, Fail> {
    let text = match read_request(alloc, line) {
        Ok(Asked { id, request }) => {
            let id = id.as_str();
            let request = asked_for(alloc, &request)?;
            format!(in alloc; "{id}: {request}")?
        }
        Err(RequestRefusal::Refused { id, code }) => {
            let id = id.as_str();
            let code = code.name();
            format!(in alloc; "{id}: {code}")?
        }
        Err(RequestRefusal::Memory) => format!(in alloc; "memory")?,
    };
    Ok(text)
}

#[test]
fn a_line_is_its_request(rt: HostRuntime) -> Result<(), Fail> {
    let alloc = rt.alloc();
    let cases: [(&[u8], &str); 11] = [
        (
            br#"{"id":"1","method":"analysis.setAnalysisRoots","params":{"included":["/b","/a","/b"],"excluded":["/a/c"]}}"#,
            "1: roots </b></a></b> but </a/c>",
        ),
        (
            br#"{"id":"2","method":"analysis.setAnalysisRoots","params":{"excluded":[],"included":[],"packageRoots":{}}}"#,
            "2: roots  but ",
        ),
        (
            br#"{"id":"3","method":"analysis.reanalyze","params":{"included":0}}"#,
            "3: reanalyze",
        ),
        (br#"{"id":"4","method":"profile.getWork"}"#, "4: work"),
        // Escapes, in keys too.
        (
            b"{\"\\u0069d\":\"\\\"\\u00e9\\ud83d\\ude00\",\"method\":\"analysis.getErrors\",\"params\":{\"file\":\"\\/\xc3\xb1\"}}",
            "\"é😀: errors of </ñ>",
        ),
        // The last of two equal keys counts.
        (
            br#"{"id":"5","method":"analysis.updateContent","params":{"files":{"/a":{"type":"x"},"/a":{"type":"add","type":"remove"}}}}"#,
            "5: files </a> is dropped.",
        ),
        // Edits in the order of the list.
        (
            br#"{"id":"6","method":"analysis.updateContent","params":{"files":{"/a":{"type":"change","edits":[{"offset":2,"length":1,"replacement":"x","id":"e"},{"replacement":"","length":0,"offset":18446744073709551615}]}}}}"#,
            "6: files </a> changes 2+1=x; 18446744073709551615+0=;.",
        ),
        // Files in the order of their paths, byte by byte: a fullwidth tilde stands before an emoji,
        // though not in UTF-16.
        (
            br#"{"id":"7","method":"analysis.updateContent","params":{"files":{"/b":{"type":"remove"},"/\ud83d\ude00":{"type":"remove"},"/a/c":{"type":"remove"},"/a":{"type":"add","content":"1"},"/\uff5e":{"type":"remove"},"/a.dart":{"type":"change","edits":[]},"/B":{"type":"remove"},"/a":{"type":"add","content":"2"}}}}"#,
            "7: files </B> is dropped. </a> is 2. </a.dart> changes. </a/c> is dropped. </b> is dropped. </～> is dropped. </😀> is dropped.",
        ),
        (
            br#"{"id":"8","method":"analysis.setAnalysisRoots","params":{"included":["/a"],"excluded":["/a/.."]}}"#,
            "8: INVALID_FILE_PATH_FORMAT",
        ),
        // No UTF-8, and no line at all.
        (
            b"{\"id\":\"\xff\",\"method\":\"analysis.getErrors\",\"params\":{\"file\":\"/a\"}}",
            ": INVALID_REQUEST",
        ),
        (b"", ": INVALID_REQUEST"),
    ];
    for (line, want) in cases {
        let said = told(alloc, line)?;
        assert_eq!(rt; said.as_str(), want);
    }
    Ok(())
}

fn error_row(
    file: &SharedText,
    code: &'static str,
    kind: ErrorKind,
    offset: u32,
) -> Result<ErrorRow, Fail> {
    Ok(ErrorRow {
        code: FixedText::new(code),
        location: Location {
            file: file.share()?,
            offset,
            length: 1,
            start_line: 2,
            start_column: 3,
        },
        message: FixedText::new("Look \"here\"."),
        severity: Severity::Error,
        kind,
    })
}

#[test]
fn a_reply_is_one_line(rt: HostRuntime) -> Result<(), Fail> {
    let alloc = rt.alloc();
    let file = SharedText::new(alloc, "/a.dart")?;
    let first = error_row(&file, "syntax_error", ErrorKind::SyntacticError, 0)?;
    let second = error_row(
        &file,
        "unassigned_read",
        ErrorKind::CompileTimeError,
        u32::MAX,
    )?;
    let third = error_row(&file, "a", ErrorKind::CompileTimeError, 7)?;
    let rows = vec![in alloc; first, second, third]?;
    let work = ReplyBody::Work {
        parses: 1,
        links: 0,
        checks: u64::MAX,
    };
    let cases: [(&str, ReplyBody, &str); 6] = [
        ("1", ReplyBody::Plain, "{\"id\":\"1\"}\n"),
        (
            "2",
            ReplyBody::Errors(ErrorRows::from_vec(Vec::new(alloc))),
            "{\"id\":\"2\",\"result\":{\"errors\":[]}}\n",
        ),
        (
            "\"\\/\u{8}\u{c}\n\r\t\u{0}\u{1f}\u{7f}é",
            ReplyBody::Errors(ErrorRows::from_vec(rows)),
            "{\"id\":\"\\\"\\\\/\\b\\f\\n\\r\\t\\u0000\\u001f\u{7f}é\",\"result\":{\"errors\":[{\"code\":\"syntax_error\",\"location\":{\"file\":\"/a.dart\",\"length\":1,\"offset\":0,\"startColumn\":3,\"startLine\":2},\"message\":\"Look \\\"here\\\".\",\"severity\":\"ERROR\",\"type\":\"SYNTACTIC_ERROR\"},{\"code\":\"unassigned_read\",\"location\":{\"file\":\"/a.dart\",\"length\":1,\"offset\":4294967295,\"startColumn\":3,\"startLine\":2},\"message\":\"Look \\\"here\\\".\",\"severity\":\"ERROR\",\"type\":\"COMPILE_TIME_ERROR\"},{\"code\":\"a\",\"location\":{\"file\":\"/a.dart\",\"length\":1,\"offset\":7,\"startColumn\":3,\"startLine\":2},\"message\":\"Look \\\"here\\\".\",\"severity\":\"ERROR\",\"type\":\"COMPILE_TIME_ERROR\"}]}}\n",
        ),
        (
            "4",
            work,
            "{\"id\":\"4\",\"result\":{\"checks\":18446744073709551615,\"links\":0,\"parses\":1}}\n",
        ),
        (
            "",
            ReplyBody::Error(Code::ProfileLimit),
            "{\"error\":{\"code\":\"PROFILE_LIMIT\",\"message\":\"A limit is passed.\"},\"id\":\"\"}\n",
        ),
        (
            "5",
            ReplyBody::Error(Code::ServerError),
            "{\"error\":{\"code\":\"SERVER_ERROR\",\"message\":\"The file store failed.\"},\"id\":\"5\"}\n",
        ),
    ];
    for (id, body, want) in cases {
        let line = write_reply(alloc, id, &body)?;
        assert_eq!(rt; line.as_slice(), want.as_bytes());
    }
    Ok(())
}
