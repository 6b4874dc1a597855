//! Classes that form superinterfaces that are too large.

ghost use Rattle.std.specs.Prelude.{◌≡◌, ◌<◌, ◌↔◌, ◌++◌, ◌∷◌, [], if◌then◌else◌, IsTrue, IfOk, OnOk, Contains, map, filter};
ghost use Rattle.dart_types.specs.Ty.{Ty, interface, types_of};
ghost use Rattle.dart_types.specs.Sizes.{size_of};
ghost use Rattle.dart_types.specs.Normal.{normal};
ghost use Rattle.dart_types.specs.Kept.{forms_too_large};
ghost use Rattle.dart_types.specs.Replacements.{replaced};
ghost use Rattle.dart_types.specs.Superinterfaces.{interface_of};
ghost use Rattle.dart_types.specs.Gathering.{GivesTooLarge, HandsOnTooLarge};
ghost use Rattle.dart_types.specs.declared.refusal.TheConstants.{NODE_LIMIT};
ghost use Rattle.dart_types.specs.declared.superinterfaces.Superinterface.{Superinterface};

use crate::class_rows::ClassRow;
use crate::ids::ClassId;
use crate::pairs::replacements_for;
use crate::refusal::NODE_LIMIT;
use crate::replacements::Replacement;
use crate::rows::Rows;
use crate::superinterfaces::Superinterface;
use crate::types::{DartType, TypeList, TypeNode};
use std::alloc::{AllocError, Global};

/// The ids of classes, in their order.
pub(crate) fn ids_of(alloc: Global, classes: &[ClassRow]) -> Result<Vec<ClassId>, AllocError>
    ensures { IfOk result (λ ids. ids.items ≡ map (λ row. row.id) classes.now) }
{
    let mut ids = Vec::new(alloc);
    for row in classes {
        ids.push(row.id)?;
    }
    Ok(ids)
}

/// Of these classes those that form a superinterface that is too large, in their order.
pub(crate) fn too_large_among(
    alloc: Global,
    rows: &Rows,
    classes: &[ClassId],
) -> Result<Vec<ClassId>, AllocError>
    ensures { IfOk result (λ told. told.items ≡ filter (forms_too_large rows.now.table) classes.now) }
{
    let mut told = Vec::new(alloc);
    for class in classes {
        let found = is_told(alloc, rows, *class)?;
        push_if(&mut told, *class, found)?;
    }
    Ok(told)
}

// Puts a class at the end where it is to be told.
fn push_if(told: &mut Vec<ClassId>, class: ClassId, found: bool) -> Result<(), AllocError>
    ensures { OnOk result (told.new.items ≡ told.old.items ++ (if found then class ∷ [] else [])) }
{
    if found {
        told.push(class)?;
    }
    Ok(())
}

// Whether a class forms a superinterface that is too large.
fn is_told(alloc: Global, rows: &Rows, class: ClassId) -> Result<bool, AllocError>
    ensures { IfOk result (λ told. told ≡ forms_too_large rows.now.table class) }
{
    match rows.class(class) {
        None => Ok(false),
        Some(row) => forms_too_large_by(alloc, rows, row),
    }
}

// Whether a class with this row forms a superinterface that is too large.
fn forms_too_large_by(alloc: Global, rows: &Rows, row: &ClassRow) -> Result<bool, AllocError>
    ensures { IfOk result (λ told. IsTrue told ↔ ((v : Ty) × Contains row.now.supers v × GivesTooLarge rows.now.table v)) }
{
    for v in row.supers.as_slice() {
        let found = gives_too_large(alloc, rows, v)?;
        if found {
            return Ok(true);
        }
    }
    Ok(false)
}

// Whether a direct supertype is too large or gives what is too large.
fn gives_too_large(alloc: Global, rows: &Rows, v: &DartType) -> Result<bool, AllocError>
    ensures { IfOk result (λ told. IsTrue told ↔ GivesTooLarge rows.now.table v.now) }
{
    if is_itself_too_large(v) {
        return Ok(true);
    }
    match &v.node {
        TypeNode::Interface { class, args } => hands_on_too_large(alloc, rows, *class, args),
        _ => Ok(false),
    }
}

// Whether a type is too large in normal form.
fn is_itself_too_large(v: &DartType) -> bool
    ensures { IsTrue result ↔ (NODE_LIMIT < size_of (normal v.now)) }
{
    v.nodes_with(&[]) > NODE_LIMIT
}

// Whether a class with these arguments hands on what is too large.
fn hands_on_too_large(
    alloc: Global,
    rows: &Rows,
    class: ClassId,
    args: &TypeList,
) -> Result<bool, AllocError>
    ensures { IfOk result (λ told. IsTrue told ↔ HandsOnTooLarge rows.now.table class (types_of args.now)) }
{
    let row = match rows.class(class) {
        None => return Ok(false),
        Some(row) => row,
    };
    let replacements = replacements_for(alloc, row.params.as_slice(), args.as_slice())?;
    Ok(is_any_too_large(rows.superinterfaces(class), &replacements))
}

// Whether one of the superinterfaces is too large with the replacements put in.
fn is_any_too_large(list: &[Superinterface], replacements: &[Replacement]) -> bool
    ensures { IsTrue result ↔ ((s : Superinterface) × Contains list.now s × (NODE_LIMIT < size_of (replaced replacements.now (interface_of s)))) }
{
    for kept in list {
        if is_too_large(kept.class, &kept.args, replacements) {
            return true;
        }
    }
    false
}

// Whether a class with these arguments is too large with the replacements put in.
fn is_too_large(_class: ClassId, args: &TypeList, replacements: &[Replacement]) -> bool
    ensures { IsTrue result ↔ (NODE_LIMIT < size_of (replaced replacements.now (interface _class (types_of args.now)))) }
{
    args.nodes_with(replacements).saturating_add(1) > NODE_LIMIT
}
