//! Rows in the order of their ids, and how one is found.

ghost use Rattle.std.specs.Prelude.{◌≡◌, ◌≤◌, AllPairs, true, false, find, length, map, IfOk};
ghost use Rattle.std.specs.List.Sorted.{IsPartitionPoint};
ghost use Rattle.std.specs.Option.{option_copied, option_map};
ghost use Rattle.dart_types.specs.Same.{same_class, same_var};
ghost use Rattle.dart_types.specs.WellFormed.{class_before, var_before};

use crate::class_rows::{ClassRow, VarRow};
use crate::ids::{ClassId, VarId};
use crate::superinterfaces::Superinterface;
use crate::types::DartType;
use std::alloc::{AllocError, Global};

/// A class with its superinterfaces, in the order of their classes.
#[derive(Drop)]
pub(crate) struct ClassEntry {
    pub(crate) row: ClassRow,
    pub(crate) superinterfaces: Vec<Superinterface>,
}

/// Entries of these rows, with no superinterfaces beside them.
pub(crate) fn entries_of(alloc: Global, rows: Vec<ClassRow>) -> Result<Vec<ClassEntry>, AllocError>
    ensures { IfOk result (λ entries. map (λ entry. entry.row) entries.items ≡ rows.items) }
{
    let mut entries = Vec::new(alloc);
    for row in rows {
        entries.push(ClassEntry {
            row,
            superinterfaces: Vec::new(alloc),
        })?;
    }
    Ok(entries)
}

/// The entry of a class, if it has one. It stands at the place that the index of the class names where
/// each class of the library has an entry, else it is looked for by a binary search.
pub(crate) fn find_entry(entries: &[ClassEntry], class: ClassId) -> Option<&ClassEntry>
    requires { AllPairs (λ a b. class_before a.row.id b.row.id ≡ true) entries.now }
    ensures { option_copied result ≡ find (λ entry. same_class entry.row.id class) entries.now }
{
    let place = class.index as usize;
    if place >= entries.len() {
        return search_entry(entries, class);
    }
    let entry = &entries[place];
    if entry.row.id == class {
        Some(entry)
    } else {
        search_entry(entries, class)
    }
}

// The entry of a class, if it has one, by a binary search.
fn search_entry(entries: &[ClassEntry], class: ClassId) -> Option<&ClassEntry>
    requires { AllPairs (λ a b. class_before a.row.id b.row.id ≡ true) entries.now }
    ensures { option_copied result ≡ find (λ entry. same_class entry.row.id class) entries.now }
{
    let at = place_of_class(entries, class);
    if at >= entries.len() {
        return None;
    }
    let entry = &entries[at];
    if entry.row.id == class {
        Some(entry)
    } else {
        None
    }
}

/// The bound of a type variable, if it has one. Its row stands at the place that the index of the variable
/// names where each variable of the library has a row, else it is looked for by a binary search.
pub(crate) fn find_bound(rows: &[VarRow], var: VarId) -> Option<&DartType>
    requires { AllPairs (λ a b. var_before a.var b.var ≡ true) rows.now }
    ensures { option_copied result ≡ option_map (λ row. row.bound) (find (λ row. same_var row.var var) rows.now) }
{
    let place = var.index as usize;
    if place >= rows.len() {
        return search_bound(rows, var);
    }
    let row = &rows[place];
    if row.var == var {
        Some(&row.bound)
    } else {
        search_bound(rows, var)
    }
}

// The bound of a type variable, if it has one, by a binary search.
fn search_bound(rows: &[VarRow], var: VarId) -> Option<&DartType>
    requires { AllPairs (λ a b. var_before a.var b.var ≡ true) rows.now }
    ensures { option_copied result ≡ option_map (λ row. row.bound) (find (λ row. same_var row.var var) rows.now) }
{
    let at = place_of_var(rows, var);
    if at >= rows.len() {
        return None;
    }
    let row = &rows[at];
    if row.var == var {
        Some(&row.bound)
    } else {
        None
    }
}

/// The row of a class, if it has one.
pub(crate) fn find_row(rows: &[ClassRow], class: ClassId) -> Option<&ClassRow>
    requires { AllPairs (λ a b. class_before a.id b.id ≡ true) rows.now }
    ensures { option_copied result ≡ find (λ row. same_class row.id class) rows.now }
{
    let at = place_of_row(rows, class);
    if at >= rows.len() {
        return None;
    }
    let row = &rows[at];
    if row.id == class { Some(row) } else { None }
}

// How many entries have smaller ids.
fn place_of_class(entries: &[ClassEntry], class: ClassId) -> usize
    requires { AllPairs (λ a b. class_before a.row.id b.row.id ≡ true) entries.now }
    ensures bound { result ≤ length entries.now }
    ensures parts { IsPartitionPoint (λ e. class_before e.row.id class ≡ true) (λ e. class_before e.row.id class ≡ false) entries.now result }
{
    entries.partition_point(|entry| entry.row.id < class)
}

// How many rows have smaller ids.
fn place_of_var(rows: &[VarRow], var: VarId) -> usize
    requires { AllPairs (λ a b. var_before a.var b.var ≡ true) rows.now }
    ensures bound { result ≤ length rows.now }
    ensures parts { IsPartitionPoint (λ r. var_before r.var var ≡ true) (λ r. var_before r.var var ≡ false) rows.now result }
{
    rows.partition_point(|row| row.var < var)
}

// How many rows have smaller ids.
fn place_of_row(rows: &[ClassRow], class: ClassId) -> usize
    requires { AllPairs (λ a b. class_before a.id b.id ≡ true) rows.now }
    ensures bound { result ≤ length rows.now }
    ensures parts { IsPartitionPoint (λ r. class_before r.id class ≡ true) (λ r. class_before r.id class ≡ false) rows.now result }
{
    rows.partition_point(|row| row.id < class)
}
