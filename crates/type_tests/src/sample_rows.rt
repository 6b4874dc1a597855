//! The rows of the classes and type variables with letters.

use crate::letters::{Lettered, VARS, bounds, class_in, class_lines, var};
use crate::notation::{type_in, types_in};
use dart_types::{
    CORE, ClassRow, DartType, ExtendedRows, LibId, Rows, TypeList, TypeNode, VarId, VarList,
    VarRow, substitute,
};
use std::alloc::Global;
use std::test::Fail;

/// The library of the classes that the lines declare.
pub(crate) const OTHER: LibId = LibId(1);

// A type parameter of the class at a place: each class has two numbers.
fn param(lib: LibId, class: u32, place: u32) -> VarId {
    VarId {
        lib,
        index: class.saturating_mul(2).saturating_add(place),
    }
}

/// The row of a class.
pub(crate) fn class_row(alloc: Global, class: Lettered) -> Result<ClassRow, Fail> {
    let mut params = VarList::new(alloc);
    for place in 0..class.params {
        params.push(param(class.class.lib, class.class.index, place))?;
    }
    let supers = supers_in(alloc, class)?;
    Ok(ClassRow {
        id: class.class,
        params,
        supers,
        depth: class.depth,
    })
}

// The direct supertypes of a class.
fn supers_in(alloc: Global, class: Lettered) -> Result<TypeList, Fail> {
    let x = TypeNode::Var(param(class.class.lib, class.class.index, 0));
    let y = TypeNode::Var(param(class.class.lib, class.class.index, 1));
    let with = [
        (var(0), DartType { node: x }),
        (var(1), DartType { node: y }),
    ];
    let types = types_in(alloc, class.supers)?;
    let mut supers = TypeList::new(alloc);
    for t in &types {
        supers.push(substitute(alloc, t, &with)?)?;
    }
    Ok(supers)
}

/// The row of a class without a letter.
pub(crate) fn row_in(alloc: Global, line: &str) -> Result<ClassRow, Fail> {
    class_row(alloc, class_in(line)?)
}

/// The row of a type variable, by its bound in the notation.
pub(crate) fn var_row(alloc: Global, lib: LibId, index: u32, bound: &str) -> Result<VarRow, Fail> {
    let bound = type_in(alloc, bound)?;
    Ok(VarRow {
        var: VarId { lib, index },
        bound,
    })
}

/// The rows of these classes and type variables, which are well formed.
pub(crate) fn rows_of(
    alloc: Global,
    classes: Vec<ClassRow>,
    vars: Vec<VarRow>,
) -> Result<ExtendedRows, Fail> {
    let none = Rows::none(alloc);
    if !none.takes(&classes, &vars) {
        return Err("rows that aren't well formed".into());
    }
    Ok(Rows::extend(alloc, &none, classes, vars)?)
}

/// The rows of the classes with letters.
pub(crate) fn sample_classes(alloc: Global) -> Result<Vec<ClassRow>, Fail> {
    let mut rows = Vec::new(alloc);
    for line in class_lines().lines() {
        rows.push(row_in(alloc, line)?)?;
    }
    Ok(rows)
}

/// The rows of the parameters of these classes, whose bound is `Object?`.
pub(crate) fn sample_params(alloc: Global) -> Result<Vec<VarRow>, Fail> {
    let mut vars = Vec::new(alloc);
    for lib in [CORE, OTHER] {
        for index in 0..38 {
            vars.push(var_row(alloc, lib, index, "o?")?)?;
        }
    }
    Ok(vars)
}

/// The rows of the classes and of the type variables with letters, of which none forms a superinterface
/// that is too large; they are a copy.
pub(crate) fn sample_rows(alloc: Global) -> Result<ExtendedRows, Fail> {
    let classes = sample_classes(alloc)?;
    let mut vars = sample_params(alloc)?;
    let mut index: u32 = 0;
    for bound in bounds().split('|') {
        vars.push(var_row(alloc, VARS, index, bound)?)?;
        index = index.saturating_add(1);
    }
    let extended = rows_of(alloc, classes, vars)?;
    Ok(ExtendedRows {
        rows: extended.rows.copy(alloc)?,
        too_large: extended.too_large,
    })
}
