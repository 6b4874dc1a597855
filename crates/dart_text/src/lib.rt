//! The text of a file, which the protocol counts in UTF-16 code units and this server keeps in UTF-8.
//!
//! `specs/Units.antt` states the code units of a text, `edited` in `specs/Edits.antt` what an edit by
//! units makes of it or why it is refused, and `position_of` in `specs/Lines.antt` the line and the
//! column of an offset. A `Text` is UTF-8 and has at most 4,194,304 bytes, so that its offsets fit
//! 32 bits with no test anywhere above. The crate stands on `plain_text`, and knows no Dart.
#![tactic(auto)]

mod cursor;
mod edit;
mod edited_text;
mod laws;
mod piece;
mod pieces;
mod position;
mod positions;
mod text;

pub use edit::EditRefusal;
pub use edited_text::EditedText;
pub use position::Position;
pub use positions::Positions;
pub use text::{MAX_TEXT, Text, TextRefusal};
