//! What is wrong with the files that directives name.

ghost use Rattle.std.specs.Prelude.{◌≡◌, ◌++◌, OnOk};
ghost use Rattle.libraries.specs.LinkFaults.{import_fault, link_fault, link_faults, missing_fault, part_fault};

use crate::aims::{Aim, AimKind};
use crate::heads::{Head, claims, is_library_at};
use directives::{LibraryFault, LibraryFaultKind};
use std::alloc::AllocError;

/// What is wrong with a URI that needs to name a file.
fn missing_fault(target: Option<usize>) -> Option<LibraryFaultKind>
    ensures { result ≡ missing_fault target }
{
    match target {
        None => Some(LibraryFaultKind::UriDoesNotExist),
        Some(_) => None,
    }
}

/// What is wrong with the URI of an import or an export: it is to name a library.
fn import_fault(heads: &[Head], target: Option<usize>) -> Option<LibraryFaultKind>
    ensures { result ≡ import_fault heads.now target }
{
    match target {
        None => Some(LibraryFaultKind::UriDoesNotExist),
        Some(place) => {
            if is_library_at(heads, place) {
                None
            } else {
                Some(LibraryFaultKind::ImportOfPart)
            }
        }
    }
}

/// What is wrong with the URI of a `part`: in a library it is to name a part of that.
fn part_fault(
    heads: &[Head],
    own: bool,
    library: usize,
    target: Option<usize>,
) -> Option<LibraryFaultKind>
    ensures { result ≡ part_fault heads.now own library target }
{
    match target {
        None => Some(LibraryFaultKind::UriDoesNotExist),
        Some(place) => {
            if !own || claims(heads, library, place) {
                None
            } else {
                Some(LibraryFaultKind::PartMismatch)
            }
        }
    }
}

/// What is wrong with the file that a directive names, in a library or in a part of it.
fn link_fault(heads: &[Head], own: bool, library: usize, aim: &Aim) -> Option<LibraryFaultKind>
    ensures { result ≡ link_fault heads.now own library aim.now.target aim.now.kind }
{
    match aim.kind {
        AimKind::Library => None,
        AimKind::Import => import_fault(heads, aim.target),
        AimKind::Export => import_fault(heads, aim.target),
        AimKind::Part => part_fault(heads, own, library, aim.target),
        AimKind::PartOf => missing_fault(aim.target),
        AimKind::PartOfName => None,
    }
}

/// Adds what is wrong with the files that directives name, in a library or in a part of it. The error
/// is want of memory.
pub fn add_link_faults(
    heads: &[Head],
    own: bool,
    library: usize,
    aims: &[Aim],
    faults: &mut Vec<LibraryFault>,
) -> Result<(), AllocError>
    ensures { OnOk result (faults.new.items ≡ faults.old.items ++ link_faults heads.now own library aims.now) }
{
    for aim in aims {
        if let Some(kind) = link_fault(heads, own, library, aim) {
            faults.push(LibraryFault {
                span: aim.span,
                kind,
            })?;
        }
    }
    Ok(())
}
