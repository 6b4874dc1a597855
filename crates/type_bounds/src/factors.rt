//! What is left of a type without another.

ghost use Rattle.std.specs.Prelude.{◌≡◌, IfOk};
ghost use Rattle.dart_types.specs.Ty.{null};
ghost use Rattle.dart_types.specs.Sub.{Sub};
ghost use Rattle.dart_types.specs.SubTest.{sub};
ghost use Rattle.dart_types.specs.Formed.{Forms};
ghost use Rattle.type_bounds.specs.Factor.{factor_of};
ghost use Rattle.type_bounds.specs.Counts.{Counts};

use crate::counts::Count;
use dart_types::{DartType, NODE_LIMIT, Rows, TypeNode, TypeRefusal, is_subtype};
use std::alloc::{AllocError, Global};

/// What is left of s where a value of it hasn't the type t: nothing where s is a subtype of t; of
/// `R?` what is left of R, and null, unless it is a value of t; else s. `TooLarge` comes exactly
/// where more than `NODE_LIMIT` types would stand in it, and is found before any of it is formed.
pub fn factor(
    alloc: Global,
    rows: &Rows,
    s: &DartType,
    t: &DartType,
) -> Result<DartType, TypeRefusal>
    ensures forms { Forms result (factor_of rows.now.table s.now t.now) }
    ensures below { IfOk result (λ formed. Sub rows.now.table formed s.now) }
{
    let nodes = factor_count(rows, s, t).nodes;
    if nodes > NODE_LIMIT {
        return Err(TypeRefusal::TooLarge { nodes });
    }
    let formed = form_factor(alloc, rows, s, t)?;
    Ok(formed)
}

// The count of what is left of s.
#[tactic(auto, using(crate::proofs::Leaves::below_leaves, crate::proofs::Leaves::marked_leaves, crate::proofs::Leaves::marked_leaves_null))]
fn factor_count(rows: &Rows, s: &DartType, t: &DartType) -> Count
    ensures { Counts result (factor_of rows.now.table s.now t.now) }
{
    if is_subtype(rows, s, t) {
        return Count::never();
    }
    match &s.node {
        TypeNode::Nullable(bare) => {
            let left = factor_count(rows, bare, t);
            if admits_null(rows, t) {
                return left;
            }
            left.nullable()
        }
        _ => Count::of(s),
    }
}

// Whether null is a value of the type.
fn admits_null(rows: &Rows, t: &DartType) -> bool
    ensures { result ≡ sub rows.now.table null t.now }
{
    let null = DartType {
        node: TypeNode::Null,
    };
    is_subtype(rows, &null, t)
}

// What is left of s.
#[tactic(auto, using(crate::proofs::Leaves::below_leaves, crate::proofs::Leaves::marked_leaves, crate::proofs::Leaves::marked_leaves_null))]
fn form_factor(
    alloc: Global,
    rows: &Rows,
    s: &DartType,
    t: &DartType,
) -> Result<DartType, AllocError>
    ensures { IfOk result (λ formed. formed ≡ factor_of rows.now.table s.now t.now) }
{
    if is_subtype(rows, s, t) {
        return Ok(DartType {
            node: TypeNode::Never,
        });
    }
    match &s.node {
        TypeNode::Nullable(bare) => {
            let left = form_factor(alloc, rows, bare, t)?;
            if admits_null(rows, t) {
                return Ok(left);
            }
            DartType::nullable(alloc, left)
        }
        _ => s.copy(alloc),
    }
}
