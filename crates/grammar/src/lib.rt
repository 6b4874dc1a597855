//! The grammar of the language, whole: what each production reads, how deep its nodes may lie, and
//! what a parser finds that goes down the tokens.
//!
//! The tokens that the grammar reads are those of `dart_tokens`, each with the number of tokens in the
//! group that it opens, and `specs/Tokens.antt` has tests of them; `specs/Types.antt`,
//! `Expressions.antt` and `Statements.antt` have the productions as rules of `readings`,
//! `specs/Below.antt` ties them together by the room that is left for nodes, and
//! `specs/Declarations.antt` goes on to whole texts. `specs/Descents.antt` and
//! `DeclarationDescents.antt` are the parser's way. The contracts of `laws.rt` state that this way
//! finds, of each type, expression and statement, the first of the longest readings, and the tree of
//! each text; `specs/Rows.antt` has small texts with their trees. The crate has no parser; it stands
//! on `dart_tokens`, `dart_tree` and `readings`, and knows nothing of what trees mean.
#![tactic(auto)]

mod laws;
mod level;

pub use dart_tokens::GroupedToken as Token;
pub use laws::{
    list_laws, parser_laws, readings_are_single, small_texts_are_read, trees_fit_their_room,
    unit_laws,
};
pub use level::{Level, Setting, Sign};
