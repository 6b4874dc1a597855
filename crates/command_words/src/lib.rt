//! The words of the command line: which command they are.
//!
//! `command_of` in `specs/Words.antt` states it: what each word is where it stands, the arguments
//! that the words give, that a command takes them and each at most once, and what is asked of their
//! values. Words that are allowed are read by a plain parser of `clap` for each command
//! (`specs/Parsers.antt`), which is proved to take them and to find exactly what they give. The crate
//! stands on `fault_io`, whose paths these are; it reads no file and knows no other meaning of a
//! command.
#![tactic(auto)]

mod arguments;
mod parsers;
mod words;

pub use words::{Command, command_of};
