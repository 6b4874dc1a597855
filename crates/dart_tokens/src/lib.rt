//! Tokens of a text, and which of its brackets belong together.
//!
//! `specs/Words.antt` and `specs/Marks.antt` have the words and the marks of the language and what
//! tokens they are, which `kind_of_word` and `mark_at` give; `specs/Kinds.antt` says of each kind of
//! tokens what it is for the grammar, which the methods of `Kind` tell; `specs/Groups.antt` states the
//! partner of each bracket and what is wrong with the groups, and `group` gives exactly that;
//! `specs/Read.antt` has the tokens that the grammar reads, each with the size of its group, and
//! `Tokens` holds those of a text as they are read. The crate has the types that a scanner fills and a parser reads; it stands on `plain_text`, and knows
//! no text.
#![tactic(auto)]

mod bracket;
mod faults;
mod grouped_token;
mod groups;
mod laws;
mod mark;
mod open_groups;
mod pairing;
mod scanned;
mod sort;
mod token;
mod tokens;
mod word;

pub use bracket::{Bracket, closes, opens};
pub use grouped_token::GroupedToken;
pub use groups::{GroupFault, GroupFaultKind, GroupFaults, Groups, Partners, group};
pub use laws::{
    a_group_ends_where_it_or_one_around_it_is_closed, an_interpolation_is_a_border,
    an_unopened_bracket_can_close_no_group, faults_are_of_brackets_without_counterparts,
    groups_nest, partners_are_mutual, the_mark_is_the_longest, the_nearest_group_is_closed,
    words_are_distinct, words_are_identifiers_or_reserved, words_have_their_kinds,
};
pub use mark::mark_at;
pub use open_groups::{Open, OpenGroups};
pub use scanned::{LexFault, LexFaultKind, LexFaults, Scanned, TextTokens, Words};
pub use token::{Kind, Token};
pub use tokens::{Tokens, UnopenedBracket};
pub use word::{is_reserved, kind_of_word};
