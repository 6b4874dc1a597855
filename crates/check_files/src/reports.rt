//! What is wrong with files, and with the libraries that a library reaches.

ghost use Rattle.std.specs.Prelude.{◌≡◌, ◌<◌, ◌^◌, ◌++◌, length, slice_get, IfOk, OnOk, Some};
ghost use Rattle.std.specs.List.{flat_map};
ghost use Rattle.std.specs.Option.{option_copied};
ghost use Rattle.check_library.specs.Order.{sorted_faults};
ghost use Rattle.check_files.specs.Contents.{bare_faults_of};
ghost use Rattle.check_files.specs.Lent.{contents_view};
ghost use Rattle.check_files.specs.Reports.{AreFindings, ambiguous_in, faults_at, faults_of_library, findings_in, findings_in_file, findings_in_library, homeless_faults, own_at};
ghost use Rattle.libraries.specs.Checks.{aims_at};
ghost use Rattle.libraries.specs.Parts.{home_of};
ghost use Rattle.namespaces.specs.Links.{IsPlaceTable};

use crate::findings::{Finding, add_faults, add_library_faults, fault_of, faults_in, sorted};
use crate::lent::LentContents;
use crate::links::Linked;
use crate::sources::{OwnFaults, bare_faults_of};
use check_library::sorted as sorted_faults;
use element_terms::LibraryElement;
use judgement::Fault;
use libraries::{
    FileFaults, Home, add_ambiguous_exports, aims_at, edges_of, file_faults, home_of,
    library_faults,
};
use library_graph::reached;
use std::alloc::{AllocError, Global};

/// What is wrong with the text of the file at a place.
fn own_at(own: &[OwnFaults], place: usize) -> &[Fault]
    ensures { result.now ≡ own_at own.now place }
{
    match own.get(place) {
        Some(faults) => faults.as_slice(),
        None => &[],
    }
}

/// Adds what is found in a file of a library.
fn add_file(
    own: &[OwnFaults],
    one: &FileFaults,
    findings: &mut Vec<Finding>,
) -> Result<(), AllocError>
    ensures { OnOk result (findings.new.items ≡ findings.old.items ++ findings_in_file own.now one.now) }
{
    add_faults(one.file, own_at(own, one.file), findings)?;
    add_library_faults(one.file, one.faults.as_slice(), findings)
}

/// Adds what is found in files of a library.
fn add_files(
    own: &[OwnFaults],
    found: &[FileFaults],
    findings: &mut Vec<Finding>,
) -> Result<(), AllocError>
    ensures { OnOk result (findings.new.items ≡ findings.old.items ++ flat_map (findings_in_file own.now) found.now) }
{
    for one in found {
        add_file(own, one, findings)?;
    }
    Ok(())
}

/// The element of the library at a place.
fn element_at(elements: &[LibraryElement], place: usize) -> Option<&LibraryElement>
    ensures { option_copied result ≡ slice_get elements.now place }
{
    elements.get(place)
}

/// Adds which exports of a library are ambiguous.
fn add_ambiguous(
    alloc: Global,
    linked: &Linked,
    library: usize,
    element: &LibraryElement,
    findings: &mut Vec<Finding>,
) -> Result<(), AllocError>
    requires places { IsPlaceTable linked.now.elements.items linked.now.places.places }
    requires spaces { length linked.now.spaces.items ≡ length linked.now.elements.items }
    ensures { OnOk result (findings.new.items ≡ findings.old.items ++ ambiguous_in linked.now.heads.items linked.now.elements.items linked.now.spaces.items (aims_at linked.now.aims.items library) library (Some element.now)) }
{
    let mut faults = Vec::new(alloc);
    add_ambiguous_exports(
        alloc,
        linked.heads.as_slice(),
        linked.elements.as_slice(),
        &linked.places,
        linked.spaces.as_slice(),
        element,
        aims_at(linked.aims.as_slice(), library),
        &mut faults,
    )?;
    add_library_faults(library, faults.as_slice(), findings)
}

/// Adds which exports of the library at a place are ambiguous, if there is one.
fn add_ambiguous_at(
    alloc: Global,
    linked: &Linked,
    library: usize,
    findings: &mut Vec<Finding>,
) -> Result<(), AllocError>
    requires places { IsPlaceTable linked.now.elements.items linked.now.places.places }
    requires spaces { length linked.now.spaces.items ≡ length linked.now.elements.items }
    ensures { OnOk result (findings.new.items ≡ findings.old.items ++ ambiguous_in linked.now.heads.items linked.now.elements.items linked.now.spaces.items (aims_at linked.now.aims.items library) library (slice_get linked.now.elements.items library)) }
{
    match element_at(linked.elements.as_slice(), library) {
        None => Ok(()),
        Some(element) => add_ambiguous(alloc, linked, library, element, findings),
    }
}

/// Adds what is found in the library at a place.
fn add_library(
    alloc: Global,
    linked: &Linked,
    library: usize,
    findings: &mut Vec<Finding>,
) -> Result<(), AllocError>
    requires places { IsPlaceTable linked.now.elements.items linked.now.places.places }
    requires spaces { length linked.now.spaces.items ≡ length linked.now.elements.items }
    ensures { OnOk result (findings.new.items ≡ findings.old.items ++ findings_in_library linked.now.sources.items linked.now.heads.items linked.now.aims.items linked.now.faults.items linked.now.elements.items linked.now.spaces.items library) }
{
    let heads = linked.heads.as_slice();
    let all = linked.aims.as_slice();
    let found = library_faults(alloc, linked.sources.as_slice(), heads, all, library)?;
    add_files(linked.faults.as_slice(), found.as_slice(), findings)?;
    add_ambiguous_at(alloc, linked, library, findings)
}

/// What is found in these libraries, in the order in which it is reported.
fn findings_in(
    alloc: Global,
    linked: &Linked,
    libraries: &[u32],
) -> Result<Vec<Finding>, AllocError>
    requires places { IsPlaceTable linked.now.elements.items linked.now.places.places }
    requires spaces { length linked.now.spaces.items ≡ length linked.now.elements.items }
    ensures { IfOk result (λ findings. findings.items ≡ findings_in linked.now.sources.items linked.now.heads.items linked.now.aims.items linked.now.faults.items linked.now.elements.items linked.now.spaces.items libraries.now) }
{
    let mut findings = Vec::new(alloc);
    for library in libraries {
        add_library(alloc, linked, *library as usize, &mut findings)?;
    }
    sorted(alloc, findings)
}

/// What is found in all libraries that the library at a place reaches, itself too, in the order in which
/// it is reported. The error is want of memory.
pub fn findings_from(
    alloc: Global,
    linked: &Linked,
    place: usize,
) -> Result<Vec<Finding>, AllocError>
    requires few { length linked.now.sources.items < 2 ^ 32 }
    requires place { place < length linked.now.sources.items }
    requires places { IsPlaceTable linked.now.elements.items linked.now.places.places }
    requires spaces { length linked.now.spaces.items ≡ length linked.now.elements.items }
    ensures { IfOk result (λ findings. AreFindings linked.now.sources.items linked.now.heads.items linked.now.aims.items linked.now.faults.items linked.now.elements.items linked.now.spaces.items place findings.items) }
{
    let count = linked.sources.len() as u32;
    let edges = edges_of(
        alloc,
        linked.heads.as_slice(),
        count,
        linked.aims.as_slice(),
    )?;
    let libraries = reached(alloc, edges.as_slice(), count, place as u32)?;
    findings_in(alloc, linked, libraries.as_slice())
}

/// What is wrong with a part at a place that belongs to no library.
fn homeless_faults(
    alloc: Global,
    linked: &Linked,
    contents: LentContents<'_>,
    place: usize,
) -> Result<Vec<Fault>, AllocError>
    requires { home_of linked.now.heads.items linked.now.aims.items place ≡ Home.Homeless }
    ensures { IfOk result (λ faults. faults.items ≡ homeless_faults (contents_view contents.entry) (slice_get linked.now.sources.items place)) }
{
    let heads = linked.heads.as_slice();
    let all = linked.aims.as_slice();
    let found = file_faults(alloc, linked.sources.as_slice(), heads, all, place)?;
    let mut faults = bare_faults_of(alloc, contents)?;
    for fault in found.as_slice() {
        faults.push(fault_of(*fault))?;
    }
    sorted_faults(alloc, faults)
}

/// What of the findings of a library is wrong with the file at a place.
fn faults_of_library(
    alloc: Global,
    linked: &Linked,
    place: usize,
    library: usize,
) -> Result<Vec<Fault>, AllocError>
    requires places { IsPlaceTable linked.now.elements.items linked.now.places.places }
    requires spaces { length linked.now.spaces.items ≡ length linked.now.elements.items }
    ensures { IfOk result (λ faults. faults.items ≡ faults_of_library linked.now.sources.items linked.now.heads.items linked.now.aims.items linked.now.faults.items linked.now.elements.items linked.now.spaces.items place library) }
{
    let mut findings = Vec::new(alloc);
    add_library(alloc, linked, library, &mut findings)?;
    let findings = sorted(alloc, findings)?;
    faults_in(alloc, place, findings.as_slice())
}

/// What is wrong with the file at a place, which has these contents, in the order in which it is
/// reported. The error is want of memory.
pub fn faults_at(
    alloc: Global,
    linked: &Linked,
    contents: LentContents<'_>,
    place: usize,
) -> Result<Vec<Fault>, AllocError>
    requires places { IsPlaceTable linked.now.elements.items linked.now.places.places }
    requires spaces { length linked.now.spaces.items ≡ length linked.now.elements.items }
    ensures { IfOk result (λ faults. faults.items ≡ faults_at linked.now.sources.items linked.now.heads.items linked.now.aims.items linked.now.faults.items linked.now.elements.items linked.now.spaces.items (contents_view contents.entry) place (home_of linked.now.heads.items linked.now.aims.items place)) }
{
    match home_of(linked.heads.as_slice(), linked.aims.as_slice(), place) {
        Home::Homeless => homeless_faults(alloc, linked, contents, place),
        Home::Library => faults_of_library(alloc, linked, place, place),
        Home::PartOf { library } => faults_of_library(alloc, linked, place, library),
    }
}
