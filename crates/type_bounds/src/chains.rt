//! Chains of variables, of which each is the bound of the one before, with or without `?`.

ghost use Rattle.std.specs.Prelude.{MatchOption};
ghost use Rattle.type_bounds.specs.Chains.{LeadsTo, IsNext};

use crate::type_forms::{bare, is_marked};
use dart_types::{DartType, Rows, TypeNode, is_subtype, row_laws};

/// Where a chain of variables leads.
#[derive(Drop)]
pub(crate) struct Chain<'a> {
    /// The last type.
    pub(crate) last: &'a DartType,
    /// Whether a bound on the way has a `?`.
    pub(crate) marked: bool,
}

/// The chain of variables that begins with this type, up to one whose bound is no variable, or has
/// the other type above or below it. It takes no memory, and a long chain is gone through step by
/// step.
pub(crate) fn chain_from<'a>(rows: &'a Rows, first: &'a DartType, other: &DartType) -> Chain<'a>
    ensures { LeadsTo rows.now.table other.now first.now result.marked result.last.now }
{
    row_laws(rows);
    let mut last = first;
    let mut marked = false;
    while let Some(bound) = variable_bound(rows, last) {
        if is_subtype(rows, other, bound) {
            return Chain { last, marked };
        }
        let next = bare(bound);
        if is_marked(bound) {
            if is_subtype(rows, next, other) {
                return Chain { last, marked };
            }
            marked = true;
        }
        last = next;
    }
    Chain { last, marked }
}

// The bound of a variable, where that is a variable too, with or without `?`.
fn variable_bound<'a>(rows: &'a Rows, t: &DartType) -> Option<&'a DartType>
    ensures { MatchOption result (Unit {0}) (λ bound. IsNext rows.now.table t.now bound.now) }
{
    let TypeNode::Var(var) = &t.node else {
        return None;
    };
    let bound = rows.bound(*var)?;
    match &bare(bound).node {
        TypeNode::Var(_) => Some(bound),
        _ => None,
    }
}
