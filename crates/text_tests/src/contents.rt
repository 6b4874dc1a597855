//! Requests and the texts that they leave, worked out by hand from the protocol.

use overlays::{OverlayRefusal, Overlays};
use plain_text::PlainText;
use proto_json::{FileOverlay, FileOverlays, Overlay, OverlayEdit, OverlayEdits};
use std::alloc::{AllocError, Global};
use std::test::Fail;

// An edit, as the tables write it: `OFFSET LENGTH REPLACEMENT`.
fn edit_of(alloc: Global, edit: &str) -> Result<OverlayEdit, Fail> {
    let (offset, rest) = edit.split_once(' ').ok_or("no offset")?;
    let (length, replacement) = rest.split_once(' ').ok_or("no length")?;
    Ok(OverlayEdit {
        offset: offset.parse::<u64>()?,
        length: length.parse::<u64>()?,
        replacement: PlainText::new(alloc, replacement)?,
    })
}

// A file of a request: `add PATH TEXT`, `change PATH EDIT,EDIT,..` or `remove PATH `.
fn file_of(alloc: Global, file: &str) -> Result<FileOverlay, Fail> {
    let (kind, rest) = file.split_once(' ').ok_or("no kind")?;
    let (path, rest) = rest.split_once(' ').ok_or("no path")?;
    let path = PlainText::new(alloc, path)?;
    if kind == "add" {
        let content = PlainText::new(alloc, rest)?;
        let overlay = Overlay::Add { content };
        return Ok(FileOverlay { path, overlay });
    }
    if kind == "change" {
        let mut edits = Vec::new(alloc);
        for edit in rest.split(',') {
            edits.push(edit_of(alloc, edit)?)?;
        }
        let edits = OverlayEdits::from_vec(edits);
        let overlay = Overlay::Change { edits };
        return Ok(FileOverlay { path, overlay });
    }
    let overlay = Overlay::Remove;
    Ok(FileOverlay { path, overlay })
}

// The files of a request, `FILE|FILE|..`.
fn files_of(alloc: Global, request: &str) -> Result<FileOverlays, Fail> {
    let mut files = Vec::new(alloc);
    for file in request.split('|') {
        files.push(file_of(alloc, file)?)?;
    }
    Ok(FileOverlays::from_vec(files))
}

// Applies a request, and tells what becomes of it.
fn outcome_of(alloc: Global, overlays: &mut Overlays, request: &str) -> Result<String, Fail> {
    let files = files_of(alloc, request)?;
    let said = match overlays.apply(files.as_slice()) {
        Ok(()) => String::from_str(alloc, "done")?,
        Err(OverlayRefusal::BadChange { path }) => format!(in alloc; "{} stays", path.as_str())?,
        Err(OverlayRefusal::TooLong { path, bytes }) => {
            format!(in alloc; "{} has {bytes}", path.as_str())?
        }
        Err(OverlayRefusal::Memory) => String::from_str(alloc, "no memory")?,
    };
    Ok(said)
}

// The overlays, `PATH TEXT|PATH TEXT|..`; a `?` follows a path that does not find its text.
fn shown(alloc: Global, overlays: &Overlays) -> Result<String, AllocError> {
    let mut shown = String::new(alloc);
    for entry in overlays.entries() {
        let path = entry.path().as_str();
        let text = entry.text().as_str();
        let found = overlays
            .text(path)
            .is_some_and(|found| found.as_str() == text);
        if !shown.is_empty() {
            shown.push('|')?;
        }
        shown.push_str(path)?;
        shown.push(if found { ' ' } else { '?' })?;
        shown.push_str(text)?;
    }
    Ok(shown)
}

// Applies a request, and tells what becomes of it and which overlays there are, `OUTCOME: PATH TEXT|..`.
fn told(alloc: Global, overlays: &mut Overlays, request: &str) -> Result<String, Fail> {
    let mut told = outcome_of(alloc, overlays, request)?;
    told.push_str(": ")?;
    told.push_str(shown(alloc, overlays)?.as_str())?;
    Ok(told)
}

#[test]
fn requests_change_the_texts(rt: HostRuntime) -> Result<(), Fail> {
    let alloc = rt.alloc();
    let mut overlays = Overlays::new(alloc);
    let table = [
        // nothing to change
        ("remove /b ", "done: "),
        ("change /b 0 0 ", "/b stays: "),
        // texts that are added, in any order, and again
        ("add /b x", "done: /b x"),
        (
            "add /ba |add /a ab|add /B c|add /b é😀z",
            "done: /B c|/a ab|/b é😀z|/ba ",
        ),
        // edits of one file, each to the text that the one before it leaves
        (
            "change /a 2 0 cd,0 1 ,1 2 xyz",
            "done: /B c|/a bxyz|/b é😀z|/ba ",
        ),
        // a text that is removed, one that isn't there, and one that comes and goes
        (
            "remove /B |remove /C |add /C q|remove /C ",
            "done: /a bxyz|/b é😀z|/ba ",
        ),
        ("remove /ba |add /ba 1", "done: /a bxyz|/b é😀z|/ba 1"),
        // edits at the end of a text, and behind it
        ("change /ba 1 0 2,2 0 3", "done: /a bxyz|/b é😀z|/ba 123"),
        ("change /ba 4 0 ", "/ba stays: /a bxyz|/b é😀z|/ba 123"),
        ("change /ba 2 2 ", "/ba stays: /a bxyz|/b é😀z|/ba 123"),
        (
            "change /ba 1 18446744073709551615 ",
            "/ba stays: /a bxyz|/b é😀z|/ba 123",
        ),
        // edits that begin or end inside the surrogate pair, and one around it
        ("change /b 2 1 ", "/b stays: /a bxyz|/b é😀z|/ba 123"),
        ("change /b 0 2 ", "/b stays: /a bxyz|/b é😀z|/ba 123"),
        ("change /b 1 2 e", "done: /a bxyz|/b éez|/ba 123"),
        // of several files that are refused the first is told, and none is applied
        (
            "add /c 1|change /d 0 0 ",
            "/d stays: /a bxyz|/b éez|/ba 123",
        ),
        (
            "remove /a |change /b 0 3 ,0 1 |change /ba 9 0 ",
            "/b stays: /a bxyz|/b éez|/ba 123",
        ),
        // a file that stands twice is changed twice
        (
            "change /a 0 4 1|change /a 1 0 2",
            "done: /a 12|/b éez|/ba 123",
        ),
        ("remove /a |remove /ba |remove /b ", "done: "),
    ];
    for (request, want) in table {
        let said = told(alloc, &mut overlays, request)?;
        assert_eq!(rt; said.as_str(), want, "{request}");
    }
    assert!(rt; overlays.text("/a").is_none());
    Ok(())
}

#[test]
fn copies_are_independent(rt: HostRuntime) -> Result<(), Fail> {
    let alloc = rt.alloc();
    let mut overlays = Overlays::new(alloc);
    outcome_of(alloc, &mut overlays, "add /a 1|add /b 2")?;
    let mut copied = overlays.copy()?;
    let said = told(alloc, &mut copied, "change /a 0 0 0|remove /b ")?;
    assert_eq!(rt; said.as_str(), "done: /a 01");
    assert_eq!(rt; shown(alloc, &overlays)?.as_str(), "/a 1|/b 2");
    for entry in overlays.entries() {
        assert_eq!(rt; entry.share()?.path().as_str(), entry.path().as_str());
    }
    Ok(())
}

#[test]
fn a_text_is_as_long_as_a_file(rt: HostRuntime) -> Result<(), Fail> {
    let alloc = rt.alloc();
    let mut text = String::from_str(alloc, "x")?;
    for _ in 0..22 {
        let half = text.clone()?;
        text.push_str(half.as_str())?;
    }
    let longest = format!(in alloc; "add /a {text}")?;
    let longer = format!(in alloc; "add /a {text}é")?;
    let table = [
        (longest.as_str(), "done"),
        (longer.as_str(), "/a has 4194306"),
        ("add /b |change /a 0 0 y", "/a has 4194305"),
        ("change /a 0 2 é", "done"),
        ("change /a 0 1 é€", "/a has 4194307"),
    ];
    let mut overlays = Overlays::new(alloc);
    for (request, outcome) in table {
        let said = outcome_of(alloc, &mut overlays, request)?;
        assert_eq!(rt; said.as_str(), outcome);
    }
    assert_eq!(rt; overlays.entries().len(), 1);
    Ok(())
}
