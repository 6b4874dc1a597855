//! The interface part of a unit: what of it other libraries may see.
//!
//! It is the list of the unit's lexemes, with one mark in the place of each body of a declared
//! function, member or constructor and of each initializer of a variable with a written type. What
//! stands in such a part is no part of it, and so can matter to no other library.
//! `specs/Hidden.antt` says which ranges of a text are hidden, `specs/Interface.antt` what the
//! interface part is, and `interface_part` gives exactly that, in time that is linear in the tokens;
//! `interface_laws` says when two are equal, and which lexemes they hold. `specs/Numbers.antt` numbers
//! the parts, so that a token that is seen can be named while texts move: `SeenTokens` finds the number
//! of a token and the token of a number, and `number_laws` says that these lead to each other. The
//! crate stands on the tokens of `dart_tokens` and the trees of `dart_tree`, and knows neither names
//! nor types.
#![tactic(auto)]

mod hidden;
mod laws;
mod numbers;
mod parts;
mod shown;

pub use laws::{interface_laws, number_laws};
pub use numbers::{NumberRange, SeenToken, SeenTokens};
pub use parts::Interface;
pub use shown::interface_part;
