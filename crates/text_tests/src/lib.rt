//! Tests of texts, of the texts that clients give, of requests and replies, and of printed lines.
#![tactic(auto)]

#[cfg(test)]
mod contents;
#[cfg(test)]
mod lines;
#[cfg(test)]
mod rows;
#[cfg(test)]
mod texts;
