//! What a type gives way to where it faces a class or a function type.

ghost use Rattle.std.specs.Option.{option_copied};
ghost use Rattle.dart_types.specs.Heads.{is_plain};
ghost use Rattle.std.specs.Prelude.{◌≡◌, true};
ghost use Rattle.type_infer.specs.Matching.{gives_way_at_mark};
ghost use Rattle.type_infer.specs.Ways.{GivesWay, IsWay, WayAtMark};

use crate::constraints::Side;
use dart_types::{DartType, Rows, TypeNode, row_laws};

// What a type gives way to first.
enum Way<'a> {
    // It stands.
    Stands,
    // It is a variable without a bound.
    Nothing,
    // It gives way to this one.
    Next(&'a DartType),
}

// What a type gives way to first, where it is to be a subtype, as the formal is a supertype, or is to
// be a supertype.
fn first_way<'a>(rows: &'a Rows, side: Side, other: &'a DartType) -> Way<'a>
    ensures { IsWay rows.now.table side other.now result }
{
    row_laws(rows);
    match side {
        Side::AtLeast => match &other.node {
            TypeNode::Var(var) => match rows.bound(*var) {
                None => Way::Nothing,
                Some(bound) => Way::Next(bound),
            },
            TypeNode::Promoted { to, .. } => Way::Next(to),
            TypeNode::Invalid => Way::Stands,
            TypeNode::Never => Way::Stands,
            TypeNode::Void => Way::Stands,
            TypeNode::Null => Way::Stands,
            TypeNode::Interface { .. } => Way::Stands,
            TypeNode::Function(_) => Way::Stands,
            TypeNode::Nullable(_) => Way::Stands,
        },
        Side::AtMost => match &other.node {
            TypeNode::Nullable(bare) => Way::Next(bare),
            TypeNode::Invalid => Way::Stands,
            TypeNode::Never => Way::Stands,
            TypeNode::Void => Way::Stands,
            TypeNode::Null => Way::Stands,
            TypeNode::Interface { .. } => Way::Stands,
            TypeNode::Function(_) => Way::Stands,
            TypeNode::Var(_) => Way::Stands,
            TypeNode::Promoted { .. } => Way::Stands,
        },
    }
}

/// The type that another stands for where it faces a class or a function type: a subtype that is a
/// variable stands for its bound, if it has one, and `X & U` for U; a supertype with `?` stands for
/// its bare type. A long chain of variables as bounds is gone through step by step.
pub(crate) fn standing<'a>(rows: &'a Rows, side: Side, other: &'a DartType) -> Option<&'a DartType>
    ensures { GivesWay rows.now.table side other.now (option_copied result) }
{
    let mut left = other;
    loop {
        match first_way(rows, side, left) {
            Way::Stands => return Some(left),
            Way::Nothing => return None,
            Way::Next(next) => left = next,
        }
    }
}

/// Likewise where it faces this type with `?`: a subtype of a class or a function type gives way, its
/// own `?` too, while that of the formal stays; and any other stands.
pub(crate) fn standing_at_mark<'a>(
    rows: &'a Rows,
    side: Side,
    bare: &DartType,
    other: &'a DartType,
) -> Option<&'a DartType>
    ensures { WayAtMark rows.now.table (gives_way_at_mark side bare.now) other.now (option_copied result) }
{
    match side {
        Side::AtLeast => {
            if is_plain(bare) {
                standing_bare(rows, other)
            } else {
                Some(other)
            }
        }
        Side::AtMost => Some(other),
    }
}

// What a subtype gives way to, where its `?` goes too.
fn standing_bare<'a>(rows: &'a Rows, other: &'a DartType) -> Option<&'a DartType>
    ensures { WayAtMark rows.now.table true other.now (option_copied result) }
{
    row_laws(rows);
    let mut left = other;
    loop {
        let last = match standing(rows, Side::AtLeast, left) {
            None => return None,
            Some(last) => last,
        };
        match &last.node {
            TypeNode::Nullable(bare) => left = bare,
            _ => return Some(last),
        }
    }
}

// Whether the type is a class or a function type.
fn is_plain(t: &DartType) -> bool
    ensures { result ≡ is_plain t.now }
{
    match &t.node {
        TypeNode::Interface { .. } => true,
        TypeNode::Function(_) => true,
        _ => false,
    }
}
