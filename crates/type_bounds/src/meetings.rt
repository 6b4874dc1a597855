//! Where two types meet that give way to others, before their parts are compared.

ghost use Rattle.std.specs.Prelude.{◌≡◌, ◌+◌, true};
ghost use Rattle.dart_types.specs.Measure.{weight_of};
ghost use Rattle.type_bounds.specs.Bounds.{AreApart, Upper, UpperApart, is_bare, is_settled};
ghost use Rattle.type_bounds.specs.Meetings.{Meets, IsNext, IsStep};

use crate::chains::chain_from;
use crate::type_forms::{bare, is_marked, is_null, is_promoted_from};
use dart_types::{DartType, Rows, TypeNode, VarId, is_subtype, row_laws};

/// What the upper bound of two types comes to.
#[derive(Clone, Copy)]
pub(crate) enum End<'a> {
    /// It is this type.
    At(&'a DartType),
    /// It is this variable.
    Var(VarId),
    /// The table has no row.
    Nowhere,
    /// It is that of these two, which are no variables, not `Null`, without `?`, and no subtypes of
    /// each other.
    Apart(&'a DartType, &'a DartType),
}

/// Where two types meet.
#[derive(Clone, Copy)]
pub(crate) struct Meeting<'a> {
    /// What their upper bound comes to.
    pub(crate) end: End<'a>,
    /// Whether it gets a `?` then.
    pub(crate) marked: bool,
}

// What comes next.
#[derive(Clone, Copy)]
enum Next<'a> {
    // The way ends.
    Ends(End<'a>),
    // It goes on with these two types.
    Pair(&'a DartType, &'a DartType),
}

// One step of the way.
#[derive(Clone, Copy)]
struct Step<'a> {
    next: Next<'a>,
    // Whether the bound gets a `?` then.
    marked: bool,
}

/// Where two types meet: variables give way to their bounds, and a `?` is taken off, step by step. It
/// takes no memory.
#[inline(never)]
pub(crate) fn meet<'a>(rows: &'a Rows, s: &'a DartType, t: &'a DartType) -> Meeting<'a>
    ensures { Meets rows.now.table (weight_of rows.now.table s.now + weight_of rows.now.table t.now) (Upper rows.now.table s.now t.now) result }
{
    let mut left = s;
    let mut right = t;
    let mut marked = false;
    loop {
        let step = step_of(rows, left, right);
        marked = marked | step.marked;
        match step.next {
            Next::Ends(end) => return Meeting { end, marked },
            Next::Pair(first, second) => {
                left = first;
                right = second;
            }
        }
    }
}

// The step of two types.
fn step_of<'a>(rows: &'a Rows, s: &'a DartType, t: &'a DartType) -> Step<'a>
    ensures { IsStep rows.now.table (weight_of rows.now.table s.now + weight_of rows.now.table t.now) (Upper rows.now.table s.now t.now) result }
{
    if is_subtype(rows, s, t) {
        return Step {
            next: Next::Ends(End::At(t)),
            marked: false,
        };
    }
    if is_subtype(rows, t, s) {
        return Step {
            next: Next::Ends(End::At(s)),
            marked: false,
        };
    }
    step_apart(rows, s, t)
}

// The step of two types that aren't subtypes of each other.
fn step_apart<'a>(rows: &'a Rows, s: &'a DartType, t: &'a DartType) -> Step<'a>
    requires apart { AreApart rows.now.table s.now t.now }
    ensures { IsStep rows.now.table (weight_of rows.now.table s.now + weight_of rows.now.table t.now) (UpperApart rows.now.table s.now t.now) result }
{
    row_laws(rows);
    if is_null(s) {
        return Step {
            next: Next::Ends(End::At(t)),
            marked: true,
        };
    }
    if is_null(t) {
        return Step {
            next: Next::Ends(End::At(s)),
            marked: true,
        };
    }
    if is_marked(s) | is_marked(t) {
        return Step {
            next: Next::Pair(bare(s), bare(t)),
            marked: true,
        };
    }
    let chain = chain_from(rows, s, t);
    let step = step_left(rows, chain.last, t);
    Step {
        next: step.next,
        marked: chain.marked | step.marked,
    }
}

// The step of two types without `?`, where the left one is the last of a chain of variables.
fn step_left<'a>(rows: &'a Rows, s: &'a DartType, t: &'a DartType) -> Step<'a>
    requires apart { AreApart rows.now.table s.now t.now }
    requires left { is_bare s.now ≡ true }
    requires right { is_bare t.now ≡ true }
    ensures { IsStep rows.now.table (weight_of rows.now.table s.now + weight_of rows.now.table t.now) (UpperApart rows.now.table s.now t.now) result }
{
    row_laws(rows);
    match &s.node {
        TypeNode::Var(var) => match rows.bound(*var) {
            None => Step {
                next: Next::Ends(End::Nowhere),
                marked: false,
            },
            Some(bound) => Step {
                next: Next::Pair(bound, t),
                marked: false,
            },
        },
        TypeNode::Promoted { var, to } => {
            if is_promoted_from(*var, t) {
                return Step {
                    next: Next::Ends(End::Var(*var)),
                    marked: false,
                };
            }
            Step {
                next: Next::Pair(to, t),
                marked: false,
            }
        }
        _ => {
            let chain = chain_from(rows, t, s);
            Step {
                next: next_right(rows, s, chain.last),
                marked: chain.marked,
            }
        }
    }
}

// What comes next where the right one is the last of a chain of variables, and the left one is none.
fn next_right<'a>(rows: &'a Rows, s: &'a DartType, t: &'a DartType) -> Next<'a>
    requires apart { AreApart rows.now.table s.now t.now }
    requires left { is_settled s.now ≡ true }
    requires right { is_bare t.now ≡ true }
    ensures { IsNext rows.now.table (weight_of rows.now.table s.now + weight_of rows.now.table t.now) (UpperApart rows.now.table s.now t.now) result }
{
    row_laws(rows);
    match &t.node {
        TypeNode::Var(var) => match rows.bound(*var) {
            None => Next::Ends(End::Nowhere),
            Some(bound) => Next::Pair(s, bound),
        },
        TypeNode::Promoted { to, .. } => Next::Pair(s, to),
        _ => Next::Ends(End::Apart(s, t)),
    }
}
