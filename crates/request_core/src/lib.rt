//! Sessions: the replies to a client's lines, over any checker of libraries.
//!
//! `Session` answers each line as `IsTurn` of `protocol_rules` states it, over a store of files and a
//! `Checker`, whose meaning is the contents that it holds and whose answers are the diagnostics of their
//! files. A session keeps the contents, hands them to the checker when they change, and stands on no
//! parser and no rule of the language. `specs/Said.antt` has the words of its contracts.
#![tactic(auto)]

mod checker;
mod faults;
mod rows;
mod said;
mod session;

pub use checker::Checker;
pub use faults::Faults;
pub use session::Session;
