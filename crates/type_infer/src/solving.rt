//! What constraints make of a type parameter.

ghost use Rattle.dart_types.specs.Formed.{Forms};
ghost use Rattle.type_infer.specs.FormsSome.{FormsSome};
ghost use Rattle.type_infer.specs.Constraints.{types_on};
ghost use Rattle.type_infer.specs.Solves.{bound_on, Folds, FormsWith, Solves};

use crate::constraints::{Constraint, Side};
use dart_types::{DartType, NODE_LIMIT, Rows, TypeRefusal, VarId, size};
use std::alloc::Global;
use type_bounds::{bound_table_laws, lower, upper};

/// The solution of a parameter: the upper bound of the types that it is at least, else the lower bound
/// of those that it is at most, each in the order of the constraints; none where nothing constrains
/// it. `TooLarge` comes where one of these types, or a bound on the way, has too many nodes.
pub(crate) fn solution(
    alloc: Global,
    rows: &Rows,
    found: &[Constraint],
    param: VarId,
) -> Result<Option<DartType>, TypeRefusal>
    ensures { Solves rows.now.table found.now param result }
{
    match bound_of_side(alloc, rows, found, param, Side::AtLeast)? {
        Some(least) => Ok(Some(least)),
        None => bound_of_side(alloc, rows, found, param, Side::AtMost),
    }
}

// The bound of the types of the constraints of one side, if there are any.
fn bound_of_side(
    alloc: Global,
    rows: &Rows,
    found: &[Constraint],
    param: VarId,
    side: Side,
) -> Result<Option<DartType>, TypeRefusal>
    ensures { Folds (bound_on side rows.now.table) (types_on side param found.now) result }
{
    let mut bound = None;
    for constraint in found {
        if constraint.side.is(side) && constraint.param == param {
            let more = bound_with(alloc, rows, side, bound, &constraint.ty)?;
            bound = Some(more);
        }
    }
    Ok(bound)
}

// The bound so far with one more type.
fn bound_with(
    alloc: Global,
    rows: &Rows,
    side: Side,
    so_far: Option<DartType>,
    t: &DartType,
) -> Result<DartType, TypeRefusal>
    ensures { FormsWith (bound_on side rows.now.table) so_far t.now result }
{
    match so_far {
        None => copy_within_limit(alloc, t),
        Some(bound) => bound_of_two(alloc, rows, side, &bound, t),
    }
}

// A copy of the type.
fn copy_within_limit(alloc: Global, t: &DartType) -> Result<DartType, TypeRefusal>
    ensures { Forms result t.now }
{
    let nodes = size(t);
    if nodes > NODE_LIMIT {
        return Err(TypeRefusal::TooLarge { nodes });
    }
    let copied = t.copy(alloc)?;
    Ok(copied)
}

// The bound of two types on one side.
fn bound_of_two(
    alloc: Global,
    rows: &Rows,
    side: Side,
    s: &DartType,
    t: &DartType,
) -> Result<DartType, TypeRefusal>
    ensures { FormsSome (bound_on side rows.now.table s.now t.now) result }
{
    bound_table_laws(rows);
    match side {
        Side::AtLeast => upper(alloc, rows, s, t),
        Side::AtMost => lower(alloc, rows, s, t),
    }
}
