//! What the tests have in common: texts in a short notation, and a run of the program over them.
//!
//! The tables are texts, which are read when the tests run: a line is a case, and one that is empty or
//! begins with `--` is none. In a text `¶` is a line feed, `«#255»` the byte 255, and `«3:ab»` the text
//! `ab` three times. Where `№` stands between such marks, it is the number of the time, from 0.

use dart_server::dart_main;
use fault_io::{MemoryFiles, MemorySink, MemorySource, are_files};
use plain_text::{PlainBytes, PlainText};
use std::alloc::{AllocError, Global};
use std::test::Fail;

mod checkers;
mod checks;
mod commands;
mod faults;
mod limits;
mod roots;
mod runs;
mod waiting;
mod words;

/// Whether a line of a table is no case.
fn is_comment(line: &str) -> bool {
    line.is_empty() || line.starts_with("--")
}

/// The text up to a bar, and the text behind it.
fn cell(text: &str) -> Result<(&str, &str), Fail> {
    match text.split_once('|') {
        Some(parts) => Ok(parts),
        None => Err("a bar is missing in a line".into()),
    }
}

/// Puts what stands between two marks of the notation behind some bytes.
fn push_group(alloc: Global, bytes: &mut Vec<u8>, group: &str) -> Result<(), Fail> {
    if let Some(byte) = group.strip_prefix('#') {
        bytes.push(byte.parse::<u8>()?)?;
        return Ok(());
    }
    let (count, text) = group.split_once(':').ok_or("no count")?;
    let count = count.parse::<usize>()?;
    if text.contains('№') {
        return push_numbered(alloc, bytes, count, text);
    }
    let block = text.repeat(alloc, 64)?;
    bytes.extend_from_slice(block.repeat(alloc, count / 64)?.as_bytes())?;
    bytes.extend_from_slice(text.repeat(alloc, count % 64)?.as_bytes())?;
    Ok(())
}

/// Puts a text so many times behind some bytes, each with its number.
fn push_numbered(alloc: Global, bytes: &mut Vec<u8>, count: usize, text: &str) -> Result<(), Fail> {
    for number in 0..count {
        let number = format!(in alloc; "{number}")?;
        let text = text.replace(alloc, "№", &number)?;
        bytes.extend_from_slice(text.as_bytes())?;
    }
    Ok(())
}

/// The bytes of a text in the notation.
fn bytes_in(alloc: Global, text: &str) -> Result<Vec<u8>, Fail> {
    let text = text.replace(alloc, "¶", "\n")?;
    let mut bytes = Vec::new(alloc);
    for part in text.split('«') {
        let behind = match part.split_once('»') {
            Some((group, behind)) => {
                push_group(alloc, &mut bytes, group)?;
                behind
            }
            None => part,
        };
        bytes.extend_from_slice(behind.as_bytes())?;
    }
    Ok(bytes)
}

/// A run of the program, over a store of one file.
#[derive(Clone, Copy)]
struct Run<'w, 't> {
    /// The words of the command line, each behind a blank.
    words: &'w str,
    /// What fails, none if it is empty: `read`, `write` or `store`, a call of the store, and the number
    /// of the call, from 0.
    fails: &'t str,
    /// The path of the file, and its text in the notation.
    file: (&'t str, &'t str),
}

/// The words, each of which stands behind a blank.
fn words_in(alloc: Global, text: &str) -> Result<Vec<PlainText>, AllocError> {
    let mut words = Vec::new(alloc);
    for word in text.split(' ').skip(1) {
        words.push(PlainText::new(alloc, word)?)?;
    }
    Ok(words)
}

/// The numbers of the calls of this kind that fail.
fn failing(alloc: Global, fails: &str, kind: &str) -> Result<Vec<u64>, Fail> {
    let mut calls = Vec::new(alloc);
    if let Some(call) = fails.strip_prefix(kind) {
        calls.push(call.parse::<u64>()?)?;
    }
    Ok(calls)
}

/// A store of these files.
fn store_of(
    alloc: Global,
    files: Vec<(PlainText, PlainBytes)>,
    fails: &str,
) -> Result<MemoryFiles, Fail> {
    if !are_files(files.as_slice()) {
        return Err("no path of a file".into());
    }
    Ok(MemoryFiles::new(files, failing(alloc, fails, "store ")?))
}

/// A store of the file.
fn store(alloc: Global, run: Run<'_, '_>) -> Result<MemoryFiles, Fail> {
    let (path, text) = run.file;
    let path = PlainText::new(alloc, path)?;
    let bytes = PlainBytes::from_vec(bytes_in(alloc, text)?);
    let files = vec![in alloc; (path, bytes)]?;
    store_of(alloc, files, run.fails)
}

/// A source of this input. A read gives 16 bytes, or 65,536 where none is to fail.
fn source(alloc: Global, fails: &str, input: Vec<u8>) -> Result<MemorySource, Fail> {
    let calls = failing(alloc, fails, "read ")?;
    if calls.is_empty() {
        return Ok(MemorySource::new(input, 65_536, calls));
    }
    Ok(MemorySource::new(input, 16, calls))
}

/// A sink that takes 8 bytes at most in a write.
fn sink(alloc: Global, fails: &str) -> Result<MemorySink, Fail> {
    let calls = failing(alloc, fails, "write ")?;
    Ok(MemorySink::new(alloc, 8, calls))
}

/// Whether words over a store and an input end with this status and write these bytes.
fn ends_over(
    alloc: Global,
    words: &str,
    fails: &str,
    files: MemoryFiles,
    input: Vec<u8>,
    status: &str,
    output: &[u8],
) -> Result<bool, Fail> {
    let words = words_in(alloc, words)?;
    let mut files = files;
    let mut source = source(alloc, fails, input)?;
    let mut sink = sink(alloc, fails)?;
    let ended = dart_main(alloc, &words, &mut source, &mut sink, &mut files);
    let ended = format!(in alloc; "{ended:?}")?;
    Ok(ended.as_str() == status && sink.written() == output)
}

/// Whether a run over this input ends with this status and writes these bytes.
fn ends(
    alloc: Global,
    run: Run<'_, '_>,
    input: Vec<u8>,
    status: &str,
    output: &[u8],
) -> Result<bool, Fail> {
    let files = store(alloc, run)?;
    ends_over(alloc, run.words, run.fails, files, input, status, output)
}
