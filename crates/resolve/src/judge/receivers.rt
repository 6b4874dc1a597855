//! The types whose members receivers have.

ghost use Rattle.std.specs.Prelude.{◌≡◌};
ghost use Rattle.std.specs.Option.{option_copied};
ghost use Rattle.dart_types.specs.Ty.{variable};
ghost use Rattle.type_bounds.specs.NonNull.{non_null_of};
ghost use Rattle.judgement.specs.Receivers.{member_type};
ghost use Rattle.resolve.specs.Receivers.{HasMembersOf, HasMembersWithoutNullOf};

use super::core_types::CoreTypes;
use super::types::is_null;
use dart_types::{DartType, Rows, TypeNode, VarId, is_subtype_of_object, row_laws};
use judgement::members_are_those_of_bounds;
use type_bounds::non_null_laws;

// The type whose members a type has. A long chain of variables as bounds is gone through step by step.
pub(super) fn member_type<'a>(rows: &'a Rows, t: &'a DartType) -> &'a DartType
    ensures { result.now ≡ member_type rows.now.table t.now }
{
    let mut left = t;
    while let Some(next) = next_with_members(rows, left) {
        left = next;
    }
    left
}

// The type whose members a type has without null.
pub(super) fn member_type_without_null<'a>(
    rows: &'a Rows,
    core: &'a CoreTypes,
    t: &'a DartType,
) -> &'a DartType
    ensures { result.now ≡ member_type rows.now.table (non_null_of rows.now.table t.now) }
{
    non_null_laws(rows);
    let mut left = t;
    while let Some(next) = next_without_null(rows, left) {
        left = next;
    }
    if is_null(left) {
        return member_type(rows, core.never());
    }
    member_type(rows, left)
}

// A lighter type whose members a type has, if it hasn't its own.
fn next_with_members<'a>(rows: &'a Rows, t: &'a DartType) -> Option<&'a DartType>
    ensures { HasMembersOf rows.now.table t.now (option_copied result) }
{
    row_laws(rows);
    members_are_those_of_bounds(rows);
    match &t.node {
        TypeNode::Promoted { to, .. } => Some(to),
        TypeNode::Var(var) => rows.bound(*var),
        _ => None,
    }
}

// A lighter type that has the same members without null, if there is one.
fn next_without_null<'a>(rows: &'a Rows, t: &'a DartType) -> Option<&'a DartType>
    ensures { HasMembersWithoutNullOf rows.now.table t.now (option_copied result) }
{
    row_laws(rows);
    non_null_laws(rows);
    members_are_those_of_bounds(rows);
    match &t.node {
        TypeNode::Nullable(bare) => Some(bare),
        TypeNode::Promoted { to, .. } => Some(to),
        TypeNode::Var(var) => bound_with_null(rows, *var),
        TypeNode::Null => None,
        TypeNode::Invalid => None,
        TypeNode::Never => None,
        TypeNode::Void => None,
        TypeNode::Interface { .. } => None,
        TypeNode::Function(_) => None,
    }
}

// The bound of a variable, if it has one that null is a value of, or may be.
fn bound_with_null<'a>(rows: &'a Rows, var: VarId) -> Option<&'a DartType>
    ensures { HasMembersWithoutNullOf rows.now.table (variable var) (option_copied result) }
{
    row_laws(rows);
    non_null_laws(rows);
    members_are_those_of_bounds(rows);
    match rows.bound(var) {
        None => None,
        Some(bound) => {
            if is_subtype_of_object(rows, bound) {
                return None;
            }
            Some(bound)
        }
    }
}
