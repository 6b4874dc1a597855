//! The words of the command line, as an environment gives them.

use super::{bytes_in, cell, is_comment};
use dart_server::words_of;
use std::alloc::Global;
use std::env::FillError;
use std::rt::Env;
use std::test::Fail;

/// An environment of these words, of which the first is the program's name.
#[derive(Drop)]
struct Words {
    words: Vec<Vec<u8>>,
}

impl Env for Words {
    fn arg(&self, place: usize, buf: &mut [u8]) -> Result<usize, FillError> {
        let Some(word) = self.words.get(place) else {
            return Err(FillError::NotPresent);
        };
        if buf.len() < word.len() {
            return Err(FillError::TooLong);
        }
        let (front, _) = buf.split_at_mut(word.len());
        front.copy_from_slice(word);
        Ok(word.len())
    }

    fn var(&self, _name: &str, _buf: &mut [u8]) -> Result<usize, FillError> {
        Err(FillError::NotPresent)
    }

    fn var_at(&self, _place: usize, _buf: &mut [u8]) -> Result<usize, FillError> {
        Err(FillError::NotPresent)
    }
}

// `GIVEN|READ`: words from the program's name on, and those behind it as they are read: none, where one
// of these isn't UTF-8. Each word stands behind a blank.
const WORDS: &str = "
 dart_serve serve| serve
 /«#255»«#254»/dart_serve«#195» serve| serve
  run /a.dart| run /a.dart
 «#255» run «#255»|
 dart_serve «#255» serve|
 dart_serve  serve|  serve
 dart_serve|
|
";

/// The environment of these words.
fn environment(alloc: Global, text: &str) -> Result<Words, Fail> {
    let mut words = Vec::new(alloc);
    for word in text.split(' ').skip(1) {
        words.push(bytes_in(alloc, word)?)?;
    }
    Ok(Words { words })
}

/// Whether words are read as their line says.
fn is_right(alloc: Global, line: &str) -> Result<bool, Fail> {
    let (given, read) = cell(line)?;
    let mut told = String::new(alloc);
    for word in &words_of(alloc, &environment(alloc, given)?)? {
        told.push_str(" ")?;
        told.push_str(word.as_str())?;
    }
    Ok(told.as_str() == read)
}

#[test]
fn words_are_read_behind_any_name(rt: HostRuntime) -> Result<(), Fail> {
    for line in WORDS.lines() {
        assert!(rt; is_comment(line) || is_right(rt.alloc(), line)?, "{line}");
    }
    Ok(())
}
