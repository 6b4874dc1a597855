//! The judge: the diagnostics and the typed tree of a function's body, by the rules.
//!
//! `judge_body` gives exactly what the table of the rules gives for a tree (`run` of
//! `judgement`), one code function for each row; what a row hands on is one clause
//! (`specs/Judged.antt`), over what trees give at a point (`specs/Points.antt`).
//! `NamesInScope` has the locals in scope at a point of a body. The crate stands on the trees,
//! the types, the flow models and the rules, and knows no tokens.
#![tactic(auto)]

mod judge;
mod names;
mod said;

pub use judge::{Found, judge_body};
pub use names::{NamesInScope, Shadowed};
pub use said::{Keep, Said};
