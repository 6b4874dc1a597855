//! The scanner: from the text of a file to its tokens.
//!
//! `pieces` in `specs/Pieces.antt` cuts a text into gaps and lexemes, `specs/Scanned.antt` makes
//! tokens, words and faults of them, and `scan_grouped` gives exactly those, each token with its group,
//! and `scan` gives them without groups; `string_value` in `specs/Values.antt` states what a string
//! stands for. No state of a scanner occurs in any of it; what is still to come of a text at each step
//! of the cut is in `specs/Suspended.antt`, for its proof. The crate stands on the texts of `dart_text`,
//! the tokens of `dart_tokens` and their groups, which `grouping` makes.
#![tactic(auto)]

mod cut;
mod escape;
mod fault;
mod kind;
mod laws;
mod piece;
mod scanner;
mod units;
mod value;
mod words;

pub use laws::{
    a_comment_is_as_its_grammar_says, a_lexeme_is_the_longest, a_piece_is_the_longest_lexeme,
    a_string_is_whole_or_one_piece, a_string_of_one_quote_stands_in_a_line, a_word_is_its_lexeme,
    pieces_cover_a_text, pieces_of_a_text_are_texts, tokens_rise,
};
pub use scanner::{GroupedText, scan, scan_grouped};
pub use value::string_value;
