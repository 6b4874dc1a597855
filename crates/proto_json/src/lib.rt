//! Requests and replies of the analysis server protocol, as lines of JSON.
//!
//! A line of bytes is read as the request that it is, or refused by a code; a reply is written as
//! one line. `answer` in `specs/Requests.antt` states which request a line is, and `reply_line` in
//! `specs/Replies.antt` which bytes a reply is. Both stand on the readings and texts of JSON that
//! `serde_json` defines, and on what `fault_io` calls a path; texts are those of `plain_text`, but
//! for those of a reply's errors, which take no memory of their own. The crate knows no Dart and
//! reads no files.
#![tactic(auto)]

mod code;
mod laws;
mod overlay;
mod parameters;
mod paths;
mod reply;
mod request;
mod text;
mod write;

pub use code::Code;
pub use laws::{
    errors_are_listed_with_commas, files_of_an_update_rise_by_path,
    paths_of_a_request_are_normalized,
};
pub use overlay::{FileOverlay, FileOverlays, Overlay, OverlayEdit, OverlayEdits};
pub use paths::Paths;
pub use reply::{ErrorKind, ErrorRow, ErrorRows, Location, ReplyBody, Severity};
pub use request::{Asked, MAX_LINE, Request, RequestRefusal, read_request};
pub use text::{FixedText, SharedText};
pub use write::write_reply;
