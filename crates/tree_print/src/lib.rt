//! The text of a unit, printed from its tokens.
//!
//! `specs/Printed.antt` says what text is printed of tokens: their lexemes, one after another, with a
//! space where gaps, comments or characters that begin no lexeme stood between them. `print` gives
//! exactly that. Scanned again, the text has the same tokens, and these adjoin where they did, as
//! `specs/Seen.antt` says. The crate stands on the tokens of `dart_tokens` and the units of
//! `dart_tree`.
#![tactic(auto)]

mod laws;
mod printed;

pub use laws::tokens_are_read_again;
pub use printed::print;
