//! Overlays: the texts that a client has given of files, whatever the disk holds.
//!
//! `applied` in `specs/Applied.antt` states what the files of a request make of the overlays, all of
//! them or none: texts that are added, changed by edits or removed, and the first file that is
//! refused. `Overlays` keeps the texts in the order of their paths. The crate stands on the texts
//! and edits of `dart_text` and on the overlays that `proto_json` reads, and knows no Dart.
#![tactic(auto)]

mod change;
mod entry;
mod laws;
mod overlays;
mod refusal;

pub use entry::Entry;
pub use laws::{
    drop_changes_one_text, edits_apply_in_turn, files_apply_in_turn, one_file_gets_its_text,
    overlays_are_their_texts, put_changes_one_text, request_changes_no_other_file,
    request_keeps_the_order,
};
pub use overlays::Overlays;
pub use refusal::OverlayRefusal;
