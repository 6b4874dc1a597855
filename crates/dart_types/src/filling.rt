//! The superinterfaces of own classes over those below, formed one distance from `Object` after
//! another.

ghost use Rattle.std.specs.Prelude.{◌≡◌, ◌≤◌, ◌<◌, ◌+◌, OnOk, All, length};
ghost use Rattle.dart_types.specs.Entries.{table_of, among, AreAmong, AreBeside};
ghost use Rattle.dart_types.specs.Gathering.{AreKnownBelow, AreKnownTo};

use crate::class_rows::VarRow;
use crate::entries::ClassEntry;
use crate::hierarchy::superinterfaces_of;
use crate::rows::Rows;
use std::alloc::{AllocError, Global};

/// Puts their superinterfaces beside all own classes.
pub(crate) fn fill_all(
    alloc: Global,
    below: &Rows,
    entries: &mut Vec<ClassEntry>,
    vars: &[VarRow],
) -> Result<(), AllocError>
    requires { AreAmong below.now.table (table_of entries.old.items vars.now) }
    ensures rows { OnOk result (table_of entries.new.items vars.now ≡ table_of entries.old.items vars.now) }
    ensures ok { OnOk result (AreBeside (among below.now.table entries.old.items vars.now) entries.new.items) }
{
    let top = greatest_depth(entries);
    for depth in 0..top {
        fill(alloc, depth, below, entries, vars)?;
    }
    fill(alloc, top, below, entries, vars)
}

// The greatest distance of a class from `Object`.
fn greatest_depth(entries: &[ClassEntry]) -> u64
    ensures { All (λ entry. entry.row.depth ≤ result) entries.now }
{
    let mut greatest: u64 = 0;
    for entry in entries {
        greatest = greatest.max(entry.row.depth);
    }
    greatest
}

// Puts their superinterfaces beside the classes of one depth, where those of all that are less far
// from `Object` are known.
fn fill(
    alloc: Global,
    depth: u64,
    below: &Rows,
    entries: &mut Vec<ClassEntry>,
    vars: &[VarRow],
) -> Result<(), AllocError>
    requires among { AreAmong below.now.table (table_of entries.old.items vars.now) }
    requires known { AreKnownBelow depth (among below.now.table entries.old.items vars.now) entries.old.items }
    ensures rows { OnOk result (table_of entries.new.items vars.now ≡ table_of entries.old.items vars.now) }
    ensures ok { OnOk result (AreKnownBelow (depth + 1) (among below.now.table entries.old.items vars.now) entries.new.items) }
{
    for i in 0..entries.len() {
        fill_at(alloc, depth, i, below, entries, vars)?;
    }
    Ok(())
}

// Puts its superinterfaces beside the class at a place, if it has this depth.
fn fill_at(
    alloc: Global,
    depth: u64,
    i: usize,
    below: &Rows,
    entries: &mut Vec<ClassEntry>,
    vars: &[VarRow],
) -> Result<(), AllocError>
    requires place { i < length entries.old.items }
    requires among { AreAmong below.now.table (table_of entries.old.items vars.now) }
    requires known { AreKnownTo depth i (among below.now.table entries.old.items vars.now) entries.old.items }
    ensures rows { OnOk result (table_of entries.new.items vars.now ≡ table_of entries.old.items vars.now) }
    ensures ok { OnOk result (AreKnownTo depth (i + 1) (among below.now.table entries.old.items vars.now) entries.new.items) }
{
    if entries[i].row.depth != depth {
        return Ok(());
    }
    let list = superinterfaces_of(alloc, &entries[i].row, below, entries, vars)?;
    entries[i].superinterfaces = list;
    Ok(())
}
