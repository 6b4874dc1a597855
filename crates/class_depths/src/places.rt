//! Where declared classes stand, and what is known of their depths.

ghost use Rattle.std.specs.Prelude.{◌≡◌, ◌<◌, ◌≤◌, true, false, length, AllPairs};
ghost use Rattle.std.specs.List.Sorted.{IsPartitionPoint};
ghost use Rattle.dart_types.specs.WellFormed.{class_before};
ghost use Rattle.dart_types.specs.Tables.{depth_of};
ghost use Rattle.class_depths.specs.Marked.{AreMarked, IsAbove, IsMarked, IsPlaceOf};

use crate::classes::DeclaredClass;
use crate::marks::{Above, Mark};
use dart_types::{ClassId, DartType, Rows, TypeNode};

/// The place of a declared class, if it is one.
pub(crate) fn place_of(declared: &[DeclaredClass], class: ClassId) -> Option<usize>
    requires { AllPairs (λ a b. class_before a.id b.id ≡ true) declared.now }
    ensures { IsPlaceOf declared.now class result }
{
    let at = smaller(declared, class);
    if at >= declared.len() {
        return None;
    }
    let there = &declared[at];
    if there.id == class { Some(at) } else { None }
}

// How many declared classes have smaller ids.
fn smaller(declared: &[DeclaredClass], class: ClassId) -> usize
    requires { AllPairs (λ a b. class_before a.id b.id ≡ true) declared.now }
    ensures bound { result ≤ length declared.now }
    ensures parts { IsPartitionPoint (λ d. class_before d.id class ≡ true) (λ d. class_before d.id class ≡ false) declared.now result }
{
    declared.partition_point(|there| there.id < class)
}

/// What is known of the depth of a direct supertype.
pub(crate) fn above(below: &Rows, declared: &[DeclaredClass], marks: &[Mark], v: &DartType) -> Above
    requires in_order { AllPairs (λ a b. class_before a.id b.id ≡ true) declared.now }
    requires marked { AreMarked below.now.table declared.now marks.now }
    ensures { IsAbove below.now.table declared.now marks.now v.now result }
{
    match &v.node {
        TypeNode::Interface { class, .. } => match place_of(declared, *class) {
            None => Above::Known(depth_below(below, *class)),
            Some(place) => above_at(marks, place),
        },
        TypeNode::Invalid
        | TypeNode::Never
        | TypeNode::Void
        | TypeNode::Null
        | TypeNode::Function(_)
        | TypeNode::Var(_)
        | TypeNode::Promoted { .. }
        | TypeNode::Nullable(_) => Above::Known(0),
    }
}

// The depth of a class below, 0 where it has no row.
fn depth_below(below: &Rows, class: ClassId) -> u64
    ensures { result ≡ depth_of below.now.table class }
{
    match below.class(class) {
        None => 0,
        Some(row) => row.depth,
    }
}

// What the mark at a place says.
fn above_at(marks: &[Mark], place: usize) -> Above
    requires { place < length marks.now }
    ensures { IsMarked marks.now place result }
{
    match marks[place] {
        Mark::Unseen => Above::Ahead(place),
        Mark::Open => Above::Behind(place),
        Mark::Settled(depth) => Above::Known(depth),
    }
}
