//! A text cut into its pieces.

mod comment;
mod cutting;
mod ending;
pub mod form;
mod lexeme;
mod line;
mod name;
mod number;
mod strings;

pub use cutting::Cutting;
