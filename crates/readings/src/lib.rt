//! The combinators in which the whole grammar is defined, and what a parser finds that never gives
//! a reading up for another.
//!
//! A rule is the ordered list of its readings (`specs/Readings.antt`), a parser a descent that gives
//! one (`specs/Descent.antt`). The contracts of `laws.rt` state that the descent's reading is the
//! first of the longest of the rule's (`specs/Leading.antt`), combinator by combinator, also where
//! several readings are equally long. The crate stands on std alone and knows nothing of Dart:
//! tokens and trees are any types.
#![tactic(auto)]

ghost use Rattle.std.specs.Prelude.{◌≡◌, ℕ, List};
ghost use Rattle.readings.specs.Readings.{tokens_read};

mod laws;

pub use laws::{
    choice_laws, element_laws, item_laws, level_laws, longest_laws, repetition_laws, sequence_laws,
    single_laws,
};

/// The tokens that were read, where `rest` was left of `tokens`.
pub fn tokens_read<'a, T>(tokens: &'a [T], rest: &[T]) -> &'a [T]
    ensures { result.now ≡ tokens_read tokens.now rest.now }
{
    &tokens[..tokens.len().saturating_sub(rest.len())]
}
