//! What the program writes by itself, and the status that it ends with.

ghost use Rattle.std.specs.Prelude.{◌≡◌};
ghost use Rattle.dart_server.specs.Writes.{Counts, Says, Writes, status_after};

use crate::status::Status;
use fault_io::{Sink, WriteRefusal, write_all_of};
use std::alloc::Global;

/// What is written where the packages file is refused.
pub const PACKAGES_REFUSED: &[u8] = b"dart_serve: packages refused\n";

/// What is written where the files that are read pass a limit.
pub const LIMIT: &[u8] = b"dart_serve: limit\n";

/// What is written where there is no library of the name.
pub const NO_LIBRARY: &[u8] = b"dart_serve: no such library\n";

/// What is written where a library in which nothing is wrong has no function `main`.
pub const NO_MAIN: &[u8] = b"dart_serve: no main\n";

/// What is written where a library in which nothing is wrong can't be run, since it has directives.
pub const NOT_BUILT: &[u8] = b"dart_serve: not built\n";

/// The last line of a run that hasn't ended within its steps.
pub const STEPS_SPENT: &[u8] = b"steps spent\n";

/// Writes a text, after which the program has a status.
pub fn say<K: Sink>(
    alloc: Global,
    sink: &mut K,
    text: &[u8],
    status: Status,
) -> Result<Status, WriteRefusal>
    ensures writes { Writes (Says text.now status) (K.written sink.old) (K.written sink.new) result }
    ensures counts { Counts result (K.faults sink.old) (K.faults sink.new) }
{
    write_all_of(alloc, sink, text)?;
    Ok(status)
}

/// The status of an end.
pub fn status_after(end: Result<Status, WriteRefusal>) -> Status
    ensures { result ≡ status_after end }
{
    match end {
        Ok(status) => status,
        Err(WriteRefusal::Failed) => Status::WriteFault,
        Err(WriteRefusal::Memory) => Status::Memory,
    }
}
