//! The states of a server and its replies: the protocol's rules as definitions.
//!
//! `IsTurn` in `specs/Turns.antt` states, for a state and an event, the reply and the state after it,
//! one row for each request and refusal. A row is an equation, but for the reading of roots, which
//! rests on the store of files: there `IsReading` in `specs/Reading.antt` says what it may come to. A
//! state has the roots, what the store had there and the texts that the client has given, and nothing
//! that was computed from them: `AreDiagnosticsOf` in `specs/Files.antt` states the diagnostics of a file
//! over all files of the state. The crate has these definitions, their laws, the type of a state
//! (`Contents`), the tests of lines and limits, and the count of the files of which errors may be
//! asked; sessions above are proved against it.
#![tactic(auto)]

mod analyzed;
mod contents;
mod files;
mod laws;
mod limits;
mod skipped;

pub use analyzed::analyzed_count;
pub use contents::Contents;
pub use files::is_library;
pub use laws::{
    a_fault_of_the_store_is_told_where_it_came, a_refusal_changes_nothing, a_reply_repeats_the_id,
    a_turn_is_settled, an_update_is_taken_whole_or_not_at_all, contents_keep_within_the_limits,
    files_have_what_is_current, want_of_memory_is_no_answer,
};
pub use limits::passes_limit;
pub use skipped::is_skipped;
