//! Input and output that may fail, with counts of faults, and the lines of an input.
//!
//! A source of bytes, a sink for bytes and a store of files are traits (`Source`, `Sink`, `Files`),
//! whose contracts say what each call moves and that it fails exactly where a count of faults rose.
//! Below them stand sources, sinks and stores in memory, and the adapters to those of the system.
//! `read_line` reads the lines of `specs/Lines.antt` from any source; `write_all_of` writes all of
//! a text to any sink. The crate stands on std and on plain texts, and knows no Dart and no JSON.
#![tactic(auto)]

mod calls;
mod host_files;
mod line;
mod memory;
mod memory_files;
mod paths;
mod plan;
mod standard;
mod stored;
mod traits;
mod write_all;

pub use host_files::HostFiles;
pub use line::{Line, LineEnd, PIECE, ReadRefusal, read_line};
pub use memory::{MemorySink, MemorySource, SteadySink, SteadySource};
pub use memory_files::{MemoryFiles, SteadyFiles};
pub use paths::{is_path, is_under};
pub use standard::{StdSink, StdSource};
pub use stored::are_files;
pub use traits::{Entry, EntryKind, Failed, Files, FilesRefusal, Sink, Source, WriteRefusal};
pub use write_all::write_all_of;
