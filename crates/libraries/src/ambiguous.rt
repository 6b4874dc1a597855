//! Ambiguous exports.

ghost use Rattle.std.specs.Prelude.{◌≡◌, ◌++◌, length, OnOk};
ghost use Rattle.namespaces.specs.Links.{IsPlaceTable};
ghost use Rattle.libraries.specs.Ambiguous.{ambiguous_faults, exports_library, is_export, told_fault, told_from};

use crate::aims::{Aim, AimKind};
use crate::heads::{Head, is_library_at};
use directives::{LibraryFault, LibraryFaultKind};
use element_terms::LibraryElement;
use namespaces::{Namespace, PlaceTable, ambiguous_exports};
use std::alloc::{AllocError, Global};

/// Whether a directive is an export.
fn is_export(kind: AimKind) -> bool
    ensures { result ≡ is_export kind }
{
    match kind {
        AimKind::Library => false,
        AimKind::Import => false,
        AimKind::Export => true,
        AimKind::Part => false,
        AimKind::PartOf => false,
        AimKind::PartOfName => false,
    }
}

/// Whether a directive is an export of a library.
fn exports_library(heads: &[Head], aim: &Aim) -> bool
    ensures { result ≡ exports_library heads.now aim.now }
{
    match aim.target {
        None => false,
        Some(place) => is_export(aim.kind) && is_library_at(heads, place),
    }
}

/// Adds that an export is ambiguous, over the URI of its directive, if this is told of the one at this
/// place.
fn add_ambiguous(
    told: &[bool],
    export: usize,
    aim: &Aim,
    faults: &mut Vec<LibraryFault>,
) -> Result<(), AllocError>
    ensures { OnOk result (faults.new.items ≡ faults.old.items ++ told_fault told.now export aim.now) }
{
    if export < told.len() && told[export] {
        faults.push(LibraryFault {
            span: aim.span,
            kind: LibraryFaultKind::AmbiguousExport,
        })?;
    }
    Ok(())
}

/// Adds the exports among directives of which this is told.
fn add_told(
    heads: &[Head],
    told: &[bool],
    aims: &[Aim],
    faults: &mut Vec<LibraryFault>,
) -> Result<(), AllocError>
    ensures { OnOk result (faults.new.items ≡ faults.old.items ++ told_from heads.now told.now 0 aims.now) }
{
    let mut export = 0;
    for aim in aims {
        if exports_library(heads, aim) {
            add_ambiguous(told, export, aim, faults)?;
            export += 1;
        }
    }
    Ok(())
}

/// Adds which exports of a library are ambiguous, from its element and what its directives are about,
/// the elements of all files with their places, and what each of them exports. The error is want of
/// memory.
pub fn add_ambiguous_exports(
    alloc: Global,
    heads: &[Head],
    elements: &[LibraryElement],
    places: &PlaceTable,
    spaces: &[Namespace],
    element: &LibraryElement,
    aims: &[Aim],
    faults: &mut Vec<LibraryFault>,
) -> Result<(), AllocError>
    requires places { IsPlaceTable elements.now places.now.places }
    requires size { length spaces.now ≡ length elements.now }
    ensures { OnOk result (faults.new.items ≡ faults.old.items ++ ambiguous_faults heads.now elements.now spaces.now element.now aims.now) }
{
    let told = ambiguous_exports(alloc, elements, places, spaces, element)?;
    add_told(heads, told.as_slice(), aims, faults)?;
    Ok(())
}
