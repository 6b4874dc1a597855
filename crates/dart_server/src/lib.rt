//! The whole of `dart_serve` but for its `main`: an analysis server for Dart as a library.
//!
//! `dart_main` is the program over any source, sink and store of files; its contract is the theorem
//! of the program (`specs/Output.antt`), and a law says that where nothing fails there is one output
//! (`specs/Settled.antt`). `on_host` hands it the standard streams, the file system and the words of the
//! command line, and gives its exit code, so that a program is a `main` of one call. The crate stands on
//! the words of commands, the loop, the sessions, the checker and the machine, and adds the check and the
//! run of the library of a file (`specs/Libraries.antt`, `specs/Run.antt`).
#![tactic(auto)]

mod host;
mod laws;
mod output;
mod over_files;
mod program;
mod run;
mod status;
mod task;

pub use host::{on_host, words_of};
pub use laws::{replies_are_settled, the_output_is_settled};
pub use program::dart_main;
pub use status::Status;
pub use task::Task;
