//! Readers and writers of std, as standard input and output.

ghost use Rattle.std.specs.Prelude.{◌≡◌};

use crate::plan::raise;
use crate::traits::{Failed, Sink, Source, WriteRefusal};
use std::alloc::Global;
use std::io::{Read, Write};
use std::marker::Model;

/// A reader of std as a source, with a count of its faults: every error is one. It tells no
/// content, and contracts see it as that count.
#[derive(Drop)]
pub struct StdSource<R: Read> {
    reader: R,
    faults: u64,
}

impl<R: Read> Model for StdSource<R> {
    ghost use Rattle.std.specs.Prelude.{ℕ};

    ghost Value = { ℕ };

    ghost view = { λ s. s.faults };
}

impl<R: Read> StdSource<R> {
    /// This reader, with no fault yet.
    pub fn new(reader: R) -> StdSource<R>
        ensures { result ≡ 0 }
    {
        StdSource { reader, faults: 0 }
    }
}

impl<R: Read> Source for StdSource<R> {
    ghost faults = { λ count. count };

    fn read(&mut self, buf: &mut [u8]) -> Result<usize, Failed> {
        match self.reader.read(buf) {
            Ok(n) => Ok(n),
            Err(_) => {
                self.faults = raise(self.faults);
                Err(Failed)
            }
        }
    }
}

/// A writer of std as a sink, with a count of its faults: every error is one, and a write that
/// takes nothing of bytes that there are. So it never refuses for want of memory. It tells no
/// content, and contracts see it as that count.
#[derive(Drop)]
pub struct StdSink<W: Write> {
    writer: W,
    faults: u64,
}

impl<W: Write> Model for StdSink<W> {
    ghost use Rattle.std.specs.Prelude.{ℕ};

    ghost Value = { ℕ };

    ghost view = { λ s. s.faults };
}

impl<W: Write> StdSink<W> {
    /// This writer, with no fault yet.
    pub fn new(writer: W) -> StdSink<W>
        ensures { result ≡ 0 }
    {
        StdSink { writer, faults: 0 }
    }
}

impl<W: Write> Sink for StdSink<W> {
    ghost faults = { λ count. count };

    ghost shortages = { λ _. 0 };

    fn write(&mut self, _alloc: Global, bytes: &[u8]) -> Result<usize, WriteRefusal> {
        match self.writer.write(bytes) {
            Ok(n) if n > 0 || bytes.is_empty() => Ok(n),
            _ => {
                self.faults = raise(self.faults);
                Err(WriteRefusal::Failed)
            }
        }
    }
}
