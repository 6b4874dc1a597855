//! The cells of a line.

use std::test::Fail;

/// The text up to a bar, and the text behind it.
pub(crate) fn cell(text: &str) -> Result<(&str, &str), Fail> {
    match text.split_once('|') {
        Some(parts) => Ok(parts),
        None => Err("a cell is missing".into()),
    }
}

/// The number of a cell.
pub(crate) fn number(text: &str) -> Result<u64, Fail> {
    Ok(text.parse::<u64>()?)
}

/// The number of a cell, as that of a class or of a type variable.
pub(crate) fn index(text: &str) -> Result<u32, Fail> {
    Ok(text.parse::<u32>()?)
}

/// The word for an answer.
pub(crate) fn yes_or_no(answer: bool) -> &'static str {
    if answer { "yes" } else { "no" }
}
