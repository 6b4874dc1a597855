//! Tests of the words, marks and groups of `dart_tokens`, and of what `dart_scan` makes of texts and
//! of strings: rows worked out by hand from the rules of the language.
#![tactic(auto)]

#[cfg(test)]
mod group_rows;
#[cfg(test)]
mod groups;
#[cfg(test)]
mod rows;
#[cfg(test)]
mod texts;
