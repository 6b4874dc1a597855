//! The program on the machine that it runs on.

use crate::program::dart_main;
use crate::status::Status;
use fault_io::{HostFiles, StdSink, StdSource};
use load_files::MAX_BYTES;
use plain_text::PlainText;
use std::alloc::{AllocError, Global};
use std::env;
use std::env::FillError;
use std::io::{ErrorKind, writer};
use std::process::ExitCode;
use std::rt::{Env, Runtime};

/// An environment, but for the program's own name: that isn't read, since it need not be UTF-8.
#[derive(Drop)]
struct Nameless<'e, E: Env> {
    environment: &'e E,
}

impl<E: Env> Env for Nameless<'_, E> {
    fn arg(&self, place: usize, buf: &mut [u8]) -> Result<usize, FillError> {
        if place == 0 {
            return Ok(0);
        }
        self.environment.arg(place, buf)
    }

    fn var(&self, name: &str, buf: &mut [u8]) -> Result<usize, FillError> {
        self.environment.var(name, buf)
    }

    fn var_at(&self, place: usize, buf: &mut [u8]) -> Result<usize, FillError> {
        self.environment.var_at(place, buf)
    }
}

/// The words behind the program's name, whatever that is. Words that aren't all UTF-8 are no
/// command: there are none.
pub fn words_of<E: Env>(alloc: Global, environment: &E) -> Result<Vec<PlainText>, AllocError> {
    let nameless = Nameless { environment };
    let mut words = Vec::new(alloc);
    match env::args(&(nameless, alloc)) {
        Ok(args) => {
            for word in args.skip(1) {
                words.push(PlainText::from_string(word))?;
            }
            Ok(words)
        }
        Err(error) if error.kind() == ErrorKind::OutOfMemory => Err(AllocError),
        Err(_) => Ok(words),
    }
}

/// The program over the standard streams and the file system.
fn status_on_host<R: Runtime + AllocGlobal>(rt: &R) -> Result<Status, AllocError> {
    let words = words_of(rt.alloc(), rt)?;
    let mut source = StdSource::new(rt.reader());
    let mut sink = StdSink::new(writer(rt));
    let mut files = HostFiles::new(rt.clone()?, MAX_BYTES as usize + 1);
    Ok(dart_main(rt.alloc(), &words, &mut source, &mut sink, &mut files))
}

/// The program with the words that it was called with, the standard streams and the file system;
/// the process is to exit with the code that is given.
pub fn on_host<R: Runtime + AllocGlobal>(rt: &R) -> ExitCode {
    let status = status_on_host(rt).unwrap_or(Status::Memory);
    ExitCode::from(status.code())
}
