//! Lines, sinks and stores, by tables, and the adapters to the system.
//!
//! The tables are texts, which are read when the tests run: a line is a case, and a bar stands between
//! its cells.

ghost use Rattle.std.specs.Prelude.{◌≤◌};

use fault_io::{
    EntryKind, Files, HostFiles, Line, LineEnd, MemoryFiles, MemorySink, MemorySource, Sink,
    Source, StdSink, StdSource, SteadyFiles, SteadySink, SteadySource, WriteRefusal, are_files,
    is_path, is_under, read_line, write_all_of,
};
use plain_text::{PlainBytes, PlainText};
use std::alloc::{AllocError, Global};
use std::process::Abort;
use std::test::Fail;
use std::{env, fs};

/// The text up to a bar, and the text behind it.
pub(crate) fn cell(text: &str) -> Result<(&str, &str), Fail> {
    match text.split_once('|') {
        Some(parts) => Ok(parts),
        None => Err("a bar is missing in a line".into()),
    }
}

/// The bytes of a text, in which `/` is a line feed.
pub(crate) fn bytes_in(alloc: Global, text: &str) -> Result<Vec<u8>, AllocError> {
    let mut bytes = text.as_bytes().to_vec(alloc)?;
    for byte in &mut bytes {
        if *byte == b'/' {
            *byte = b'\n';
        }
    }
    Ok(bytes)
}

// Inputs, `INPUT|LINES|END TAKEN`: the lines that are read of them, each behind `=` or, if it is too
// long, behind `!`, what ends them, and how many bytes were taken then. A `/` is a line feed. A line has
// at most 4 bytes, and all lines 14.
const INPUTS: &str = "\
||End 0
/|=|End 1
a//bc/|=a==bc|End 6
abc/def/gh|=abc=def=gh|End 10
abcdefgh/ij/|!abcd=ij|End 12
abcdefgh|!abcd|End 8
abc/defg/hi/jk|=abc=defg=hi|InputSpent 14
abc/defg/hi/jklm|=abc=defg=hi|InputSpent 14";

/// The lines that are read, as a line of the table tells them, and what ended them.
fn lines_of<S: Source>(alloc: Global, source: &mut S) -> Result<String, Fail> {
    let mut line = Line::new(alloc, 4, 14)?;
    let mut told = Vec::new(alloc);
    let mut end = LineEnd::Line;
    for _ in 0..50 {
        end = read_line(source, &mut line)?;
        match end {
            LineEnd::Line => told.push(b'=')?,
            LineEnd::TooLong => told.push(b'!')?,
            LineEnd::End | LineEnd::InputSpent => break,
        }
        told.extend_from_slice(line.bytes())?;
    }
    let told = std::str::from_utf8(&told)?;
    let taken = line.taken();
    Ok(format!(in alloc; "{told}|{end:?} {taken}")?)
}

/// The same of a source that gives so many bytes at a time.
fn lines_by(alloc: Global, input: &[u8], piece: usize) -> Result<String, Fail>
    requires { 1 ≤ piece }
{
    let mut source = MemorySource::new(input.to_vec(alloc)?, piece, Vec::new(alloc));
    lines_of(alloc, &mut source)
}

/// Whether the lines of an input are those of its line in the table, in pieces of any length, from a
/// source that never fails, and from a reader.
fn are_lines(alloc: Global, line: &str) -> Result<bool, Fail> {
    let (input, lines) = cell(line)?;
    let input = bytes_in(alloc, input)?;
    let mut steady = SteadySource::new(input.to_vec(alloc)?);
    let mut reader = StdSource::new(input.as_slice());
    Ok(
        lines_by(alloc, &input, 1)?.as_str() == lines
            && lines_by(alloc, &input, 3)?.as_str() == lines
            && lines_by(alloc, &input, 65_536)?.as_str() == lines
            && lines_of(alloc, &mut steady)?.as_str() == lines
            && lines_of(alloc, &mut reader)?.as_str() == lines,
    )
}

#[test]
fn lines_are_read_in_pieces_of_any_length(rt: HostRuntime) -> Result<(), Fail> {
    for line in INPUTS.lines() {
        assert!(rt; are_lines(rt.alloc(), line)?, "{line}");
    }
    Ok(())
}

/// A sink in memory takes pieces, and fails where it is said to.
fn memory_sink_takes(alloc: Global) -> Result<bool, Fail> {
    let mut sink = MemorySink::new(alloc, 8, vec![in alloc; 2]?);
    write_all_of(alloc, &mut sink, b"eleven byte")?;
    let refused = write_all_of(alloc, &mut sink, b"more");
    Ok(refused == Err(WriteRefusal::Failed) && sink.written() == b"eleven byte".as_slice())
}

/// One that never fails takes all.
fn steady_sink_takes(alloc: Global) -> Result<bool, Fail> {
    let mut sink = SteadySink::new(alloc);
    write_all_of(alloc, &mut sink, b"all")?;
    Ok(sink.written() == b"all".as_slice())
}

/// A writer takes what it has room for, and then fails.
fn writer_takes(alloc: Global) -> bool {
    let mut room = [0u8; 4];
    let refused = {
        let mut sink = StdSink::new(room.as_mut_slice());
        write_all_of(alloc, &mut sink, b"longer")
    };
    refused == Err(WriteRefusal::Failed) && room.as_slice() == b"long".as_slice()
}

#[test]
fn a_sink_is_handed_all_that_is_left(rt: HostRuntime) -> Result<(), Fail> {
    let alloc = rt.alloc();
    assert!(rt; memory_sink_takes(alloc)?);
    assert!(rt; steady_sink_takes(alloc)?);
    assert!(rt; writer_takes(alloc));
    Ok(())
}

/// A file of a store in memory.
fn file(alloc: Global, path: &str, bytes: &[u8]) -> Result<(PlainText, PlainBytes), AllocError> {
    let path = PlainText::new(alloc, path)?;
    let bytes = PlainBytes::new(alloc, bytes)?;
    Ok((path, bytes))
}

/// Three files in two folders.
fn three_files(alloc: Global) -> Result<Vec<(PlainText, PlainBytes)>, AllocError> {
    let mut files = Vec::new(alloc);
    files.push(file(alloc, "/lib/a.dart", b"a")?)?;
    files.push(file(alloc, "/lib/src/b.dart", b"b")?)?;
    files.push(file(alloc, "/lib/src/c.dart", b"c")?)?;
    Ok(files)
}

// Paths in a store of these files, `PATH|ENTRIES|BYTES`: the entries of the folder, a folder with a
// slash behind it, and the bytes of the file; `-` for nothing.
const PATHS: &str = "\
/|lib/ |-
/lib|a.dart src/ |-
/lib/src|b.dart c.dart |-
/lib/src/b.dart|-|b
/li|-|-
/lib/|-|-
|-|-";

/// The entries of a folder, as a line of the table tells them.
fn entries_of<F: Files>(alloc: Global, files: &mut F, path: &str) -> Result<String, Fail> {
    let mut told = String::new(alloc);
    let Some(entries) = files.list(alloc, path)? else {
        told.push_str("-")?;
        return Ok(told);
    };
    for entry in &entries {
        told.push_str(entry.name.as_str())?;
        match entry.kind {
            EntryKind::Folder => told.push_str("/ ")?,
            EntryKind::File | EntryKind::Other => told.push_str(" ")?,
        }
    }
    Ok(told)
}

/// The bytes of a file, or `-` for nothing.
fn bytes_of<F: Files>(alloc: Global, files: &mut F, path: &str) -> Result<Vec<u8>, Fail> {
    match files.read(alloc, path)? {
        Some(bytes) => Ok(bytes),
        None => Ok(b"-".to_vec(alloc)?),
    }
}

/// Whether a path has the entries and the bytes of its line, below this folder of a store.
fn is_told<F: Files>(alloc: Global, files: &mut F, below: &str, line: &str) -> Result<bool, Fail> {
    let (path, line) = cell(line)?;
    let (entries, bytes) = cell(line)?;
    let path = format!(in alloc; "{below}{path}")?;
    let listed = entries_of(alloc, files, path.as_str())?;
    let read = bytes_of(alloc, files, path.as_str())?;
    Ok(listed.as_str() == entries && read.as_slice() == bytes.as_bytes())
}

/// The first line of a table that a store contradicts, or nothing.
fn first_wrong<'t, F: Files>(
    alloc: Global,
    files: &mut F,
    below: &str,
    table: &'t str,
) -> Result<&'t str, Fail> {
    for line in table.lines() {
        if !is_told(alloc, files, below, line)? {
            return Ok(line);
        }
    }
    Ok("")
}

/// The first line that a store in memory contradicts which never fails.
fn first_wrong_of_steady(rt: &impl Abort, alloc: Global) -> Result<&'static str, Fail> {
    let files = three_files(alloc)?;
    assert!(rt; are_files(files.as_slice()));
    first_wrong(alloc, &mut SteadyFiles::new(files), "", PATHS)
}

/// Whether the first call of a store fails and the fourth, and no other of the first four.
fn fails_where_told(alloc: Global, store: &mut MemoryFiles) -> bool {
    store.list(alloc, "/lib").is_err()
        && store.read(alloc, "/lib/a.dart").is_ok()
        && store.list(alloc, "/lib").is_ok()
        && store.read(alloc, "/lib/a.dart").is_err()
}

#[test]
fn a_store_in_memory_lists_and_reads(rt: HostRuntime) -> Result<(), Fail> {
    let alloc = rt.alloc();
    assert_eq!(rt; first_wrong_of_steady(&rt, alloc)?, "");
    let files = three_files(alloc)?;
    assert!(rt; are_files(files.as_slice()));
    let mut store = MemoryFiles::new(files, vec![in alloc; 0, 3]?);
    assert!(rt; fails_where_told(alloc, &mut store));
    assert_eq!(rt; first_wrong(alloc, &mut store, "", PATHS)?, "");
    Ok(())
}

// Texts behind what they are: `path` or `other`, whether or not a text is a path that is absolute and
// normalized; `under` or `beside`, whether or not the second of two paths lies under the first.
const TEXTS: &str = "\
path|/
path|/a
path|/a/b.dart
path|/...
path|/a b/ä
path|/.a
other|
other|a
other|//
other|/a/
other|/a//b
other|/.
other|/a/..
other|/a/./b
other|/a\0
under|/|/a
under|/a|/a/b
under|/a|/a/b/c
beside|/|/
beside|/a|/a
beside|/a|/ab";

/// Whether the second of two paths lies under the first.
fn lies_under(paths: &str) -> Result<bool, Fail> {
    let (folder, path) = cell(paths)?;
    Ok(is_under(folder, path))
}

/// Whether a text is what its line says.
fn is_as_told(line: &str) -> Result<bool, Fail> {
    let (word, text) = cell(line)?;
    match word {
        "path" => Ok(is_path(text)),
        "other" => Ok(!is_path(text)),
        "under" => lies_under(text),
        "beside" => Ok(!lies_under(text)?),
        _ => Err("no word of paths".into()),
    }
}

#[test]
fn paths_are_absolute_and_normalized(rt: HostRuntime) -> Result<(), Fail> {
    for line in TEXTS.lines() {
        assert!(rt; is_as_told(line)?, "{line}");
    }
    Ok(())
}

// Paths below the folder in which the test runs, in the form of the table above. A store of the host
// reads 3 bytes of a file at most.
const HOST_PATHS: &str = "\
/folder/inner||-
/folder/file|-|tex
/folder/files|-|-
/folder/file/inner|-|-
/folder/|-|-";

#[test]
fn files_of_the_host_are_listed_and_read(rt: HostRuntime) -> Result<(), Fail> {
    let alloc = rt.alloc();
    fs::create_dir_all(&rt, "folder/inner")?;
    fs::write(&rt, "folder/file", b"text".as_slice())?;
    let here = env::current_dir(&rt)?;
    let here = here.to_str().ok_or("no text")?;
    let mut store = HostFiles::new(&rt, 3);
    assert_eq!(rt; first_wrong(alloc, &mut store, here, HOST_PATHS)?, "");
    let folder = format!(in alloc; "{here}/folder")?;
    let listed = entries_of(alloc, &mut store, folder.as_str())?;
    assert!(rt;
        listed.as_str() == "file inner/ " || listed.as_str() == "inner/ file ",
        "{listed}"
    );
    Ok(())
}
