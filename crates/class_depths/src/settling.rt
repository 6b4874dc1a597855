//! The rows of declared classes with their depths.

ghost use Rattle.std.specs.Prelude.{◌≡◌, ◌<◌, ◌∷◌, ◌++◌, List, [], true, length, AllPairs, Err, IfOk, IfErr, OnOk};
ghost use Rattle.dart_types.specs.WellFormed.{class_before};
ghost use Rattle.dart_types.specs.declared.class_rows.ClassRow.{ClassRow};
ghost use Rattle.dart_types.specs.declared.class_rows.VarRow.{VarRow};
ghost use Rattle.dart_types.specs.declared.ids.ClassId.{ClassId};
ghost use Rattle.class_depths.specs.Over.{LiesOver};
ghost use Rattle.class_depths.specs.Settled.{AreRowsOf, AreSettled, row_of};
ghost use Rattle.class_depths.specs.Marked.{IsDepthAt, mark_at};
ghost use Rattle.class_depths.specs.declared.marks.Mark.TheVariants.{Settled};
ghost use Rattle.class_depths.specs.Climbing.{Begins, Climbing, HasDepth, IsRefusal};
ghost use Rattle.class_depths.specs.declared.unsettled.Unsettled.TheVariants.{Cycle};

use crate::classes::DeclaredClass;
use crate::climbing::{come_to, take_step};
use crate::marks::{Mark, Step};
use crate::unsettled::Unsettled;
use dart_types::{ClassRow, Rows};
use std::alloc::{AllocError, Global};

/// The rows of declared classes over rows below, each with its depth: the longest way up over one of its
/// direct supertypes, as well-formed rows want it; no other depths fit. The classes stand in the order of
/// their ids, and the rows in the same. `Cycle` comes exactly where no depths fit, and then its class is a
/// supertype of itself.
pub fn settle(
    alloc: Global,
    below: &Rows,
    declared: &[DeclaredClass],
) -> Result<Vec<ClassRow>, Unsettled>
    requires { AllPairs (λ a b. class_before a.id b.id ≡ true) declared.now }
    ensures ok { (vars : List VarRow) → IfOk result (λ rows. AreRowsOf below.now.table vars declared.now rows.items) }
    ensures over_itself { (class : ClassId) → result ≡ Err (Cycle class) → LiesOver declared.now class class }
    ensures none_fit { (class : ClassId) → result ≡ Err (Cycle class) →
        (vars : List VarRow) (rows : List ClassRow) → AreSettled below.now.table vars declared.now rows → ⊥ }
{
    rows_of(alloc, below, declared)
}

// The rows, or a class that is a supertype of itself.
fn rows_of(
    alloc: Global,
    below: &Rows,
    declared: &[DeclaredClass],
) -> Result<Vec<ClassRow>, Unsettled>
    requires { AllPairs (λ a b. class_before a.id b.id ≡ true) declared.now }
    ensures ok { (vars : List VarRow) → IfOk result (λ rows. AreRowsOf below.now.table vars declared.now rows.items) }
    ensures err { IfErr result (IsRefusal declared.now) }
{
    let mut marks = vec![in alloc; Mark::Unseen; declared.len()]?;
    let mut rows = Vec::new(alloc);
    for place in 0..declared.len() {
        let depth = depth_at(alloc, below, declared, place, &mut marks)?;
        push_row(alloc, &declared[place], depth, &mut rows)?;
    }
    Ok(rows)
}

// Puts the row of a class with this depth at the end.
fn push_row(
    alloc: Global,
    class: &DeclaredClass,
    depth: u64,
    rows: &mut Vec<ClassRow>,
) -> Result<(), AllocError>
    ensures { OnOk result (rows.new.items ≡ rows.old.items ++ row_of class.now depth ∷ []) }
{
    rows.push(class.row(alloc, depth)?)?;
    Ok(())
}

// The depth of the class at a place, with those of the classes over it.
fn depth_at(
    alloc: Global,
    below: &Rows,
    declared: &[DeclaredClass],
    root: usize,
    marks: &mut Vec<Mark>,
) -> Result<u64, Unsettled>
    requires in_order { AllPairs (λ a b. class_before a.id b.id ≡ true) declared.now }
    requires place { root < length declared.now }
    requires climbing { Climbing below.now.table declared.now marks.old.items [] }
    ensures depth { IfOk result (IsDepthAt below.now.table declared.now root) }
    ensures climbing { IfOk result (λ _. Climbing below.now.table declared.now marks.new.items []) }
    ensures err { IfErr result (IsRefusal declared.now) }
{
    let mut path = Vec::new(alloc);
    begin(root, marks, &mut path)?;
    while let Some(step) = path.pop() {
        take_step(below, declared, step, marks, &mut path)?;
    }
    Ok(marked_depth(marks, root))
}

// Comes to a class, unless it was come to before.
fn begin(root: usize, marks: &mut Vec<Mark>, path: &mut Vec<Step>) -> Result<(), AllocError>
    requires { root < length marks.old.items }
    ensures { OnOk result (Begins (mark_at marks.old.items root) root marks.old.items marks.new.items path.old.items path.new.items) }
{
    match marks[root] {
        Mark::Unseen => come_to(root, marks, path),
        Mark::Open | Mark::Settled(_) => Ok(()),
    }
}

// The depth that is marked at a place.
fn marked_depth(marks: &[Mark], place: usize) -> u64
    requires place { place < length marks.now }
    requires settled { HasDepth marks.now place }
    ensures { mark_at marks.now place ≡ Settled result }
{
    match marks[place] {
        Mark::Settled(depth) => depth,
        Mark::Unseen | Mark::Open => unreachable!(),
    }
}
