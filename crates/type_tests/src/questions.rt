//! The answers to questions, by their first words.

use crate::calls::{context, infer};
use crate::cells::yes_or_no;
use crate::large_rows::rows_in;
use crate::row_questions::{
    declares, fits, has_bound, has_class, kept, object_takes, takes_again, told,
};
use crate::type_questions::{Bound, bound_of_types, invalid, put, same, sub, with, without_null};
use dart_types::{ExtendedRows, Rows};
use std::alloc::Global;
use std::test::Fail;

/// What is answered to a line, which may change the rows.
pub(crate) fn answer(alloc: Global, rows: &mut ExtendedRows, line: &str) -> Result<String, Fail> {
    let (word, cells) = line.split_once(' ').unwrap_or((line, ""));
    if word == "rows" {
        *rows = rows_in(alloc, cells)?;
        let classes = rows.too_large.len();
        return Ok(format!(in alloc; "{classes} told")?);
    }
    match of_types(alloc, &rows.rows, word, cells)? {
        Some(said) => Ok(said),
        None => of_rows(alloc, rows, word, cells),
    }
}

// What is asked of types.
fn of_types(alloc: Global, rows: &Rows, word: &str, cells: &str) -> Result<Option<String>, Fail> {
    let said = match word {
        "put" => put(alloc, cells)?,
        "with" => with(alloc, cells)?,
        "same" => String::from_str(alloc, same(alloc, cells)?)?,
        "sub" => sub(alloc, rows, cells)?,
        "invalid" => invalid(alloc, cells)?,
        "upper" => bound_of_types(alloc, rows, Bound::Upper, cells)?,
        "lower" => bound_of_types(alloc, rows, Bound::Lower, cells)?,
        "without" => bound_of_types(alloc, rows, Bound::Without, cells)?,
        "non_null" => without_null(alloc, rows, cells)?,
        "infer" => infer(alloc, rows, cells)?,
        "context" => context(alloc, rows, cells)?,
        _ => return Ok(None),
    };
    Ok(Some(said))
}

// What is asked of rows.
fn of_rows(alloc: Global, rows: &ExtendedRows, word: &str, cells: &str) -> Result<String, Fail> {
    let said = match word {
        "fits" => yes_or_no(fits(alloc, cells)?),
        "object" => yes_or_no(object_takes(alloc, cells)?),
        "declares" => yes_or_no(declares(alloc, cells)?),
        "again" => yes_or_no(takes_again(alloc, &rows.rows)?),
        "class" => has_class(&rows.rows, cells)?,
        "bound" => has_bound(&rows.rows, cells)?,
        "supers" => return Ok(format!(in alloc; "{}", kept(&rows.rows, cells)?)?),
        "told" => return told(alloc, rows),
        _ => return Err("no such question".into()),
    };
    Ok(String::from_str(alloc, said)?)
}
