//! Which rows are well formed, and what rows answer.

use crate::cells::{cell, index, number, yes_or_no};
use crate::large_rows::other_class;
use crate::letters::{Lettered, var};
use crate::sample_rows::{class_row, row_in, var_row};
use dart_types::{CORE, ClassId, ExtendedRows, LibId, Rows, VarRow};
use std::alloc::Global;
use std::test::Fail;

const OBJECT_ROW: &str = "o|0|0|0|0|";

const COMPARABLE_ROW: &str = "C|0|2|1|1|o";

const MAP_ROW: &str = "M|0|9|1|1|o";

// A class of `dart:core`, by its place, its type parameters, its supertypes and its depth.
fn core_class(text: &str) -> Result<Lettered<'_>, Fail> {
    let (place, text) = cell(text)?;
    let (params, text) = cell(text)?;
    let (supers, depth) = cell(text)?;
    Ok(Lettered {
        letter: "",
        class: ClassId {
            lib: CORE,
            index: index(place)?,
        },
        params: index(params)?,
        depth: number(depth)?,
        supers,
    })
}

/// Whether the row of a class is well formed beside the others, in the place of that of Object where it
/// is one of Object.
pub(crate) fn fits(alloc: Global, text: &str) -> Result<bool, Fail> {
    let class = core_class(text)?;
    let is_root = class.class.index == 0;
    let row = class_row(alloc, class)?;
    let mut classes = Vec::new(alloc);
    if is_root {
        classes.push(row)?;
        classes.push(row_in(alloc, COMPARABLE_ROW)?)?;
    } else {
        classes.push(row_in(alloc, OBJECT_ROW)?)?;
        classes.push(row_in(alloc, COMPARABLE_ROW)?)?;
        classes.push(row)?;
    }
    classes.push(row_in(alloc, MAP_ROW)?)?;
    let mut vars = Vec::new(alloc);
    for index in [4, 6, 8, 18] {
        vars.push(var_row(alloc, CORE, index, "o?")?)?;
    }
    Ok(Rows::none(alloc).takes(&classes, &vars))
}

/// Whether rows of Object with so many parameters are well formed.
pub(crate) fn object_takes(alloc: Global, text: &str) -> Result<bool, Fail> {
    let class = Lettered {
        letter: "",
        class: ClassId {
            lib: CORE,
            index: 0,
        },
        params: index(text)?,
        depth: 0,
        supers: "",
    };
    let mut classes = Vec::new(alloc);
    classes.push(class_row(alloc, class)?)?;
    let mut vars = Vec::new(alloc);
    vars.push(var_row(alloc, CORE, 0, "V")?)?;
    Ok(Rows::none(alloc).takes(&classes, &vars))
}

/// Whether rows of Object and of a type variable of this library are well formed.
pub(crate) fn declares(alloc: Global, text: &str) -> Result<bool, Fail> {
    let mut classes = Vec::new(alloc);
    classes.push(row_in(alloc, OBJECT_ROW)?)?;
    let mut vars = Vec::new(alloc);
    vars.push(var_row(alloc, LibId(number(text)?), 7, "o?")?)?;
    Ok(Rows::none(alloc).takes(&classes, &vars))
}

/// Whether rows take a class of the library 7.
pub(crate) fn takes_again(alloc: Global, rows: &Rows) -> Result<bool, Fail> {
    let again = other_class(alloc, LibId(7))?;
    let vars: Vec<VarRow> = Vec::new(alloc);
    Ok(rows.takes(&again, &vars))
}

// The class of a library and a place.
fn class_at(text: &str) -> Result<ClassId, Fail> {
    let (lib, place) = cell(text)?;
    Ok(ClassId {
        lib: LibId(number(lib)?),
        index: index(place)?,
    })
}

/// Whether a class has a row.
pub(crate) fn has_class(rows: &Rows, text: &str) -> Result<&'static str, Fail> {
    Ok(yes_or_no(rows.class(class_at(text)?).is_some()))
}

/// Whether a type variable has a bound.
pub(crate) fn has_bound(rows: &Rows, text: &str) -> Result<&'static str, Fail> {
    Ok(yes_or_no(rows.bound(var(index(text)?)).is_some()))
}

/// How many superinterfaces a class keeps.
pub(crate) fn kept(rows: &Rows, text: &str) -> Result<usize, Fail> {
    Ok(rows.superinterfaces(class_at(text)?).len())
}

/// The classes that form too large a superinterface, each as `LIBRARY|INDEX`, or `none`.
pub(crate) fn told(alloc: Global, rows: &ExtendedRows) -> Result<String, Fail> {
    if rows.too_large.is_empty() {
        return Ok(String::from_str(alloc, "none")?);
    }
    let mut text = String::new(alloc);
    for class in &rows.too_large {
        text.push_str(if text.is_empty() { "" } else { " " })?;
        text.push_str(format!(in alloc; "{}|{}", class.lib.0, class.index)?.as_str())?;
    }
    Ok(text)
}
