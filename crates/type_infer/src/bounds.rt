//! The bounds of type parameters, and arguments within them.

ghost use Rattle.std.specs.Prelude.{◌≡◌, ◌↔◌, IfOk, IsTrue};
ghost use Rattle.dart_types.specs.Ty.{nullable};
ghost use Rattle.dart_types.specs.Heads.{object};
ghost use Rattle.dart_types.specs.Formed.{Forms};
ghost use Rattle.type_infer.specs.Inference.{bound_with, declared_bound};
ghost use Rattle.type_infer.specs.Bounded.{IsHeld, IsByBound};

use crate::reading::read_type;
use crate::refusal::InferRefusal;
use dart_types::{DartType, OBJECT, Rows, TypeNode, TypeRefusal, VarId, is_subtype, substitute};
use std::alloc::{AllocError, Global};

/// The solution of a parameter as its argument, where it is within the bound.
pub(crate) fn within_bound(
    alloc: Global,
    rows: &Rows,
    before: &[(VarId, DartType)],
    param: VarId,
    solved: &DartType,
) -> Result<DartType, InferRefusal>
    ensures { IsHeld rows.now.table before.now param solved.now result }
{
    let read = read_type(alloc, solved)?;
    if is_unbounded(rows, param) {
        return Ok(read);
    }
    let bound = bound_given(alloc, rows, before, param)?;
    if !is_subtype(rows, &read, &bound) {
        return Err(InferRefusal::NoSolution { param });
    }
    Ok(read)
}

/// The bound of a parameter that nothing constrains as its argument, unless it is `Object?`.
pub(crate) fn bound_as_argument(
    alloc: Global,
    rows: &Rows,
    before: &[(VarId, DartType)],
    param: VarId,
) -> Result<DartType, InferRefusal>
    ensures { IsByBound rows.now.table before.now param result }
{
    if is_unbounded(rows, param) {
        return Err(InferRefusal::Unconstrained { param });
    }
    let bound = bound_given(alloc, rows, before, param)?;
    Ok(bound)
}

// The bound of a parameter with the arguments of those before it put in.
fn bound_given(
    alloc: Global,
    rows: &Rows,
    before: &[(VarId, DartType)],
    param: VarId,
) -> Result<DartType, TypeRefusal>
    ensures { Forms result (bound_with rows.now.table before.now param) }
{
    match rows.bound(param) {
        Some(bound) => substitute(alloc, bound, before),
        None => {
            let bound = nullable_object(alloc)?;
            Ok(bound)
        }
    }
}

// Whether the bound of a parameter is `Object?`.
fn is_unbounded(rows: &Rows, param: VarId) -> bool
    ensures { IsTrue result ↔ (declared_bound rows.now.table param ≡ nullable object) }
{
    match rows.bound(param) {
        Some(bound) => is_nullable_object(bound),
        None => true,
    }
}

// Whether the type is `Object?`.
fn is_nullable_object(t: &DartType) -> bool
    ensures { IsTrue result ↔ (t.now ≡ nullable object) }
{
    match &t.node {
        TypeNode::Nullable(bare) => bare.is_object(),
        _ => false,
    }
}

// `Object?`
fn nullable_object(alloc: Global) -> Result<DartType, AllocError>
    ensures { IfOk result (λ t. t ≡ nullable object) }
{
    let bare = DartType::class(alloc, OBJECT)?;
    DartType::nullable(alloc, bare)
}
