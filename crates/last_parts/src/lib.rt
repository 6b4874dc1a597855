//! Whatever a descent of the grammar leaves behind an expression is a last part of the tokens that
//! it was given.
//!
//! A parser knows a place in a list of tokens by how many tokens are left there: so what is left
//! must be told by its length alone. `specs/LastParts.antt` says what a last part is, and that each
//! combinator of `readings` leaves one if its parts do; `specs/Expressions.antt` goes on to the types
//! and expressions of `grammar`, in whatever room. The contract of `laws.rt` states it of expressions.
//! The crate has no other code.
#![tactic(auto)]

mod laws;

pub use laws::expressions_leave_last_parts;
