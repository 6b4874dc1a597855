//! What the rows ask of types.

ghost use Rattle.std.specs.Prelude.{◌≡◌, ◌||◌, is_some, IfOk};
ghost use Rattle.dart_types.specs.Ty.{invalid, never, null};
ghost use Rattle.dart_types.specs.Same.{same_type};
ghost use Rattle.dart_types.specs.SubTest.{sub};
ghost use Rattle.type_bounds.specs.NonNull.{non_null_of};
ghost use Rattle.judgement.specs.Given as given;
ghost use Rattle.judgement.specs.ExpressionRows as row;

use super::Context;
use super::core_types::CoreTypes;
use super::receivers::{member_type, member_type_without_null};
use dart_tree::BinaryOperatorKind;
use dart_types::{DartType, INT, Rows, TypeNode, is_subtype};
use judgement::Operation;
use std::alloc::{AllocError, Global};

// Whether a value of the type s may stand where t is wanted. Of a type that has a diagnostic no more
// is said.
pub(super) fn fits(rows: &Rows, s: &DartType, t: &DartType) -> bool
    ensures { result ≡ given.fits rows.now.table s.now t.now }
{
    s.holds_invalid() || t.holds_invalid() || is_subtype(rows, s, t)
}

// The type of what has a diagnostic.
pub(super) fn invalid_type() -> DartType
    ensures { result ≡ invalid }
{
    DartType {
        node: TypeNode::Invalid,
    }
}

pub(super) fn is_null(t: &DartType) -> bool
    ensures { result ≡ same_type t.now null }
{
    matches!(&t.node, TypeNode::Null)
}

pub(super) fn is_never(t: &DartType) -> bool
    ensures { result ≡ same_type t.now never }
{
    matches!(&t.node, TypeNode::Never)
}

// The operators of int.
fn int_operation(
    alloc: Global,
    core: &CoreTypes,
    kind: BinaryOperatorKind,
) -> Result<Option<Operation>, AllocError>
    ensures { IfOk result (λ operation. operation ≡ row.int_operation kind) }
{
    match kind {
        BinaryOperatorKind::Add => Ok(Some(Operation {
            parameter: core.int().copy(alloc)?,
            result: core.int().copy(alloc)?,
        })),
        BinaryOperatorKind::Less => Ok(Some(Operation {
            parameter: core.int().copy(alloc)?,
            result: core.bool().copy(alloc)?,
        })),
        _ => Ok(None),
    }
}

// The operator that a class has, and none of the other types.
fn operation_in(
    alloc: Global,
    core: &CoreTypes,
    t: &DartType,
    kind: BinaryOperatorKind,
) -> Result<Option<Operation>, AllocError>
    ensures { IfOk result (λ operation. operation ≡ row.operation_in t.now kind) }
{
    match &t.node {
        TypeNode::Interface { class, .. } => {
            if *class == INT {
                return int_operation(alloc, core, kind);
            }
            Ok(None)
        }
        _ => Ok(None),
    }
}

// The operator that is used of a value of this type: its own, and else that of the type without null.
pub(super) fn operation_of(
    context: Context,
    t: &DartType,
    kind: BinaryOperatorKind,
) -> Result<Option<Operation>, AllocError>
    ensures { IfOk result (λ operation. operation ≡ row.operation_of context.entry.rows.now.table t.now kind) }
{
    let own = member_type(context.rows, t);
    if let Some(operation) = operation_in(context.alloc, context.core, own, kind)? {
        return Ok(Some(operation));
    }
    let bare = member_type_without_null(context.rows, context.core, t);
    operation_in(context.alloc, context.core, bare, kind)
}

// Whether an operator may stand behind a value of a type, which has it, or of which none is looked for.
pub(super) fn may_operate(context: Context, t: &DartType, kind: BinaryOperatorKind) -> bool
    ensures { result ≡ row.may_operate context.entry.rows.now.table t.now kind }
{
    takes(member_type(context.rows, t), kind)
}

// Likewise without null.
pub(super) fn may_operate_without_null(
    context: Context,
    t: &DartType,
    kind: BinaryOperatorKind,
) -> bool
    ensures { let table = context.entry.rows.now.table in result ≡ row.may_operate table (non_null_of table t.now) kind }
{
    takes(
        member_type_without_null(context.rows, context.core, t),
        kind,
    )
}

// Whether a type that has its own members takes an operator.
fn takes(t: &DartType, kind: BinaryOperatorKind) -> bool
    ensures { result ≡ (is_some (row.operation_in t.now kind) || row.takes_any t.now) }
{
    has_operation(t, kind) || is_never(t) || t.holds_invalid()
}

// Whether it has the operator.
fn has_operation(t: &DartType, kind: BinaryOperatorKind) -> bool
    ensures { result ≡ is_some (row.operation_in t.now kind) }
{
    match &t.node {
        TypeNode::Interface { class, .. } => {
            *class == INT && matches!(kind, BinaryOperatorKind::Add | BinaryOperatorKind::Less)
        }
        _ => false,
    }
}
