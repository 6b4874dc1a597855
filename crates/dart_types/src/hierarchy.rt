//! Superinterfaces of classes, formed from those of their direct supertypes.

ghost use Rattle.std.specs.Prelude.{◌≡◌, ◌<◌, Some, IfOk, OnOk, Contains};
ghost use Rattle.dart_types.specs.Ty.{interface, types_of};
ghost use Rattle.dart_types.specs.Tables.{class_of};
ghost use Rattle.dart_types.specs.Entries.{table_of, among, AreAmong};
ghost use Rattle.dart_types.specs.Superinterfaces.{AreSuperinterfaces, AreOrdered};
ghost use Rattle.dart_types.specs.Gathering.{Adds, IsGiven, IsGivenBy, IsPut, AreKnownBelow};
ghost use Rattle.dart_types.specs.Known.{IsKnown};

use crate::class_rows::{ClassRow, VarRow};
use crate::entries::{ClassEntry, find_entry};
use crate::gathering::{gather, put_one};
use crate::ids::ClassId;
use crate::pairs::replacements_for;
use crate::rows::Rows;
use crate::superinterfaces::Superinterface;
use crate::types::{DartType, TypeList, TypeNode};
use std::alloc::{AllocError, Global};

// Puts what a direct supertype, a class with these arguments, gives another class into its list:
// itself, and the superinterfaces that its class keeps, with the arguments put in, as far as they aren't
// too large.
fn gather_interface(
    alloc: Global,
    row: &ClassRow,
    class: ClassId,
    args: &TypeList,
    below: &Rows,
    entries: &[ClassEntry],
    vars: &[VarRow],
    list: &mut Vec<Superinterface>,
) -> Result<(), AllocError>
    requires among { AreAmong below.now.table (table_of entries.now vars.now) }
    requires of_class { class_of (among below.now.table entries.now vars.now) row.now.id ≡ Some row.now }
    requires direct { Contains row.now.supers (interface class (types_of args.now)) }
    requires known { AreKnownBelow row.now.depth (among below.now.table entries.now vars.now) entries.now }
    requires in_order { AreOrdered list.old.items }
    ensures { let given = IsGivenBy (among below.now.table entries.now vars.now) (interface class (types_of args.now)) in
        OnOk result (Adds given list.old.items list.new.items) }
{
    put_one(alloc, class, args, &[], list)?;
    match known_class(below, entries, vars, class, row.depth) {
        None => Ok(()),
        Some(known) => gather_above(alloc, &known, args, list),
    }
}

// A class, and what is known of its superinterfaces.
#[derive(Clone, Copy)]
struct Known<'a> {
    row: &'a ClassRow,
    superinterfaces: &'a [Superinterface],
}

// What is known of a class, where the superinterfaces of those below and of own ones of less depth are
// known. Contracts speak of the rows of type variables, so they are handed over, and the depth.
fn known_class<'a>(
    below: &'a Rows,
    entries: &'a [ClassEntry],
    _vars: &[VarRow],
    class: ClassId,
    _depth: u64,
) -> Option<Known<'a>>
    requires among { AreAmong below.now.table (table_of entries.now _vars.now) }
    requires known { AreKnownBelow _depth (among below.now.table entries.now _vars.now) entries.now }
    ensures { IsKnown (among below.now.table entries.now _vars.now) class _depth result }
{
    if let Some(entry) = find_entry(entries, class) {
        return Some(Known {
            row: &entry.row,
            superinterfaces: &entry.superinterfaces,
        });
    }
    match below.class(class) {
        None => None,
        Some(row) => Some(Known {
            row,
            superinterfaces: below.superinterfaces(class),
        }),
    }
}

// Puts the superinterfaces that a class keeps into the list of another, with these arguments put in, as
// far as they aren't too large.
fn gather_above(
    alloc: Global,
    known: &Known,
    args: &TypeList,
    list: &mut Vec<Superinterface>,
) -> Result<(), AllocError>
    requires in_order { AreOrdered list.old.items }
    ensures { OnOk result (Adds (IsPut known.now.row.now.params (types_of args.now) known.now.superinterfaces.now) list.old.items list.new.items) }
{
    let replacements = replacements_for(alloc, known.row.params.as_slice(), args.as_slice())?;
    gather(alloc, known.superinterfaces, &replacements, list)
}

// Puts what a direct supertype of a class gives it into its list.
fn gather_super(
    alloc: Global,
    row: &ClassRow,
    v: &DartType,
    below: &Rows,
    entries: &[ClassEntry],
    vars: &[VarRow],
    list: &mut Vec<Superinterface>,
) -> Result<(), AllocError>
    requires among { AreAmong below.now.table (table_of entries.now vars.now) }
    requires of_class { class_of (among below.now.table entries.now vars.now) row.now.id ≡ Some row.now }
    requires direct { Contains row.now.supers v.now }
    requires known { AreKnownBelow row.now.depth (among below.now.table entries.now vars.now) entries.now }
    requires in_order { AreOrdered list.old.items }
    ensures { OnOk result (Adds (IsGivenBy (among below.now.table entries.now vars.now) v.now) list.old.items list.new.items) }
{
    match &v.node {
        TypeNode::Interface { class, args } => {
            gather_interface(alloc, row, *class, args, below, entries, vars, list)
        }
        _ => unreachable!(),
    }
}

// Puts what the direct supertypes of a class give it into its list.
fn gather_supers(
    alloc: Global,
    row: &ClassRow,
    below: &Rows,
    entries: &[ClassEntry],
    vars: &[VarRow],
    list: &mut Vec<Superinterface>,
) -> Result<(), AllocError>
    requires among { AreAmong below.now.table (table_of entries.now vars.now) }
    requires of_class { class_of (among below.now.table entries.now vars.now) row.now.id ≡ Some row.now }
    requires known { AreKnownBelow row.now.depth (among below.now.table entries.now vars.now) entries.now }
    requires in_order { AreOrdered list.old.items }
    ensures { OnOk result (Adds (IsGiven (among below.now.table entries.now vars.now) row.now.supers) list.old.items list.new.items) }
{
    for v in row.supers.as_slice() {
        gather_super(alloc, row, v, below, entries, vars, list)?;
    }
    Ok(())
}

/// The superinterfaces that a class keeps, where those of all that are less far from `Object` are known.
pub(crate) fn superinterfaces_of(
    alloc: Global,
    row: &ClassRow,
    below: &Rows,
    entries: &[ClassEntry],
    vars: &[VarRow],
) -> Result<Vec<Superinterface>, AllocError>
    requires among { AreAmong below.now.table (table_of entries.now vars.now) }
    requires of_class { class_of (table_of entries.now vars.now) row.now.id ≡ Some row.now }
    requires known { AreKnownBelow row.now.depth (among below.now.table entries.now vars.now) entries.now }
    ensures { IfOk result (λ list. AreSuperinterfaces (among below.now.table entries.now vars.now) row.now.id list.items) }
{
    let mut list = Vec::new(alloc);
    gather_supers(alloc, row, below, entries, vars, &mut list)?;
    Ok(list)
}
