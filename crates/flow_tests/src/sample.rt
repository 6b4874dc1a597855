//! Rows of some classes and type variables, and types by letters.

use dart_types::{
    CORE, ClassId, ClassRow, DartType, LibId, Rows, TypeList, TypeNode, VarId, VarList, VarRow,
};
use flow_model::{LocalDecl, LocalId};
use std::alloc::{AllocError, Global};
use std::rc::Rc;
use std::test::Fail;

/// The type of a letter: `o` Object, `n` num, `i` int, `d` double, `s` String; `X` and `Y`, type
/// variables within `Object?` and within `num`; `N` Null, `V` void, `E` Never.
pub(crate) fn letter(alloc: Global, letter: u8) -> Result<Option<DartType>, AllocError> {
    let class = match letter {
        b'o' => 0,
        b'n' => 1,
        b'i' => 4,
        b'd' => 5,
        b's' => 6,
        _ => return Ok(bare_letter(letter)),
    };
    let t = class_of(alloc, class)?;
    Ok(Some(t))
}

// The type of a letter that names no class.
fn bare_letter(letter: u8) -> Option<DartType> {
    match letter {
        b'X' => Some(of(TypeNode::Var(var(0)))),
        b'Y' => Some(of(TypeNode::Var(var(1)))),
        b'N' => Some(of(TypeNode::Null)),
        b'V' => Some(of(TypeNode::Void)),
        b'E' => Some(of(TypeNode::Never)),
        _ => None,
    }
}

/// The type of a form.
pub(crate) fn of(node: TypeNode) -> DartType {
    DartType { node }
}

/// `T?`
pub(crate) fn or_null(alloc: Global, t: DartType) -> Result<DartType, Fail> {
    let bare = Rc::new(alloc, t)?;
    Ok(of(TypeNode::Nullable(bare)))
}

/// A local that has a value.
pub(crate) fn local(number: u32, ty: DartType) -> LocalDecl {
    LocalDecl {
        var: LocalId(number),
        ty,
        assigned: true,
        unassigned: false,
    }
}

/// The rows.
pub(crate) fn rows(alloc: Global) -> Result<Rows, Fail> {
    let mut classes = Vec::new(alloc);
    classes.push(row(alloc, 0, None, 0)?)?;
    classes.push(row(alloc, 1, Some(0), 1)?)?;
    classes.push(row(alloc, 4, Some(1), 2)?)?;
    classes.push(row(alloc, 5, Some(1), 2)?)?;
    classes.push(row(alloc, 6, Some(0), 1)?)?;
    let mut vars = Vec::new(alloc);
    let object = class_of(alloc, 0)?;
    vars.push(VarRow {
        var: var(0),
        bound: or_null(alloc, object)?,
    })?;
    vars.push(VarRow {
        var: var(1),
        bound: class_of(alloc, 1)?,
    })?;
    let none = Rows::none(alloc);
    if !none.takes(&classes, &vars) {
        return Err("rows that aren't well formed".into());
    }
    let extended = Rows::extend(alloc, &none, classes, vars)?;
    Ok(extended.rows)
}

// A type variable, by its place.
fn var(index: u32) -> VarId {
    VarId {
        lib: LibId(1),
        index,
    }
}

// A class without arguments, by its place in `dart:core`.
fn class_of(alloc: Global, index: u32) -> Result<DartType, AllocError> {
    DartType::class(alloc, ClassId { lib: CORE, index })
}

// The row of a class, by its supertype and how far it is from `Object`.
fn row(alloc: Global, index: u32, above: Option<u32>, depth: u64) -> Result<ClassRow, Fail> {
    let mut supers = TypeList::new(alloc);
    if let Some(place) = above {
        supers.push(class_of(alloc, place)?)?;
    }
    Ok(ClassRow {
        id: ClassId { lib: CORE, index },
        params: VarList::new(alloc),
        supers,
        depth,
    })
}
