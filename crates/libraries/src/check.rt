//! What is wrong with the directives and the declared names of a library.

ghost use Rattle.std.specs.Prelude.{◌≡◌, ◌++◌, IfOk, OnOk, slice_get};
ghost use Rattle.libraries.specs.Checks.{aims_at, directives_at, faults_for, faults_of_unit, faults_of_units, file_faults, homeless_at, library_faults, taken_by_unit};

use crate::aims::{Aim, Aims};
use crate::duplicates::{Taken, add_duplicates, no_names, take_prefixes};
use crate::files::{SourceFile, file_at};
use crate::heads::Head;
use crate::link_faults::add_link_faults;
use crate::parts::{Home, home_of, units_of};
use directives::{Directive, LibraryFault, homeless_faults, unit_faults};
use std::alloc::{AllocError, Global};
use std::marker::Model;

/// Faults of one file.
#[derive(Drop)]
pub struct Faults {
    faults: Vec<LibraryFault>,
}

impl Model for Faults {
    ghost use Rattle.std.specs.Prelude.{List};
    ghost use Rattle.directives.specs.declared.faults.LibraryFault.{LibraryFault};

    ghost Value = { List LibraryFault };

    ghost view = { λ f. f.faults.items };
}

impl Faults {
    /// The faults.
    pub fn as_slice(&self) -> &[LibraryFault]
        ensures { result.now ≡ self.now }
    {
        self.faults.as_slice()
    }
}

/// What is wrong with a file of a library.
#[derive(Drop)]
pub struct FileFaults {
    /// The place of the file.
    pub file: usize,
    /// What is wrong with it.
    pub faults: Faults,
}

/// What the directives of the file at a place are about.
pub fn aims_at(all: &[Aims], place: usize) -> &[Aim]
    ensures { result.now ≡ aims_at all.now place }
{
    match all.get(place) {
        Some(aims) => aims.as_slice(),
        None => &[],
    }
}

/// The directives of the file at a place.
fn directives_at(files: &[SourceFile], place: usize) -> &[Directive]
    ensures { result.now ≡ directives_at (slice_get files.now place) }
{
    match file_at(files, place) {
        Some(file) => file.outline.directives.as_slice(),
        None => &[],
    }
}

/// Adds what is wrong with a file of a library, behind files that take these names.
fn add_unit<'t>(
    alloc: Global,
    file: &'t SourceFile,
    heads: &[Head],
    aims: &[Aim],
    library: usize,
    place: usize,
    taken: &mut Taken<'t>,
    found: &mut Vec<FileFaults>,
) -> Result<(), AllocError>
    ensures found { OnOk result (found.new.items ≡ found.old.items ++ faults_of_unit heads.now aims.now library place taken.old (Some file.now)) }
    ensures taken { OnOk result (taken.new ≡ taken_by_unit taken.old (Some file.now)) }
{
    let mut faults = unit_faults(alloc, &file.outline)?;
    add_link_faults(heads, place == library, library, aims, &mut faults)?;
    let declared = file.outline.declared.as_slice();
    add_duplicates(taken, declared, &mut faults)?;
    found.push(FileFaults {
        file: place,
        faults: Faults { faults },
    })?;
    Ok(())
}

/// Adds what is wrong with the file at a place, if there is one.
fn add_unit_at<'t>(
    alloc: Global,
    files: &'t [SourceFile],
    heads: &[Head],
    all: &[Aims],
    library: usize,
    place: usize,
    taken: &mut Taken<'t>,
    found: &mut Vec<FileFaults>,
) -> Result<(), AllocError>
    ensures found { OnOk result (found.new.items ≡ found.old.items ++ faults_of_unit heads.now (aims_at all.now place) library place taken.old (slice_get files.now place)) }
    ensures taken { OnOk result (taken.new ≡ taken_by_unit taken.old (slice_get files.now place)) }
{
    match file_at(files, place) {
        None => Ok(()),
        Some(file) => {
            let aims = aims_at(all, place);
            add_unit(alloc, file, heads, aims, library, place, taken, found)
        }
    }
}

/// What is wrong with the directives and the declared names of the library at a place: for each of its
/// files, its own and then its parts in the order in which it first lists them. Ambiguous exports
/// aside. The error is want of memory.
pub fn library_faults(
    alloc: Global,
    files: &[SourceFile],
    heads: &[Head],
    all: &[Aims],
    library: usize,
) -> Result<Vec<FileFaults>, AllocError>
    ensures { IfOk result (λ found. found.items ≡ library_faults files.now heads.now all.now library) }
{
    let mut taken = no_names(alloc);
    take_prefixes(&mut taken, directives_at(files, library))?;
    let units = units_of(alloc, heads, library, aims_at(all, library))?;
    let places = units.as_slice();
    let mut found = Vec::new(alloc);
    for place in places {
        add_unit_at(
            alloc, files, heads, all, library, *place, &mut taken, &mut found,
        )?;
    }
    Ok(found)
}

/// Adds what is wrong with the file at a place, from what is wrong with the files of its library.
fn add_those_of(
    place: usize,
    found: &[FileFaults],
    faults: &mut Vec<LibraryFault>,
) -> Result<(), AllocError>
    ensures { OnOk result (faults.new.items ≡ faults.old.items ++ faults_for place found.now) }
{
    for one in found {
        if one.file == place {
            faults.extend_from_slice(one.faults.as_slice())?;
        }
    }
    Ok(())
}

/// What is wrong with the directives of the file at a place, if that is a part of no library.
fn homeless_at(
    alloc: Global,
    files: &[SourceFile],
    place: usize,
) -> Result<Vec<LibraryFault>, AllocError>
    ensures { IfOk result (λ faults. faults.items ≡ homeless_at (slice_get files.now place)) }
{
    match file_at(files, place) {
        None => Ok(Vec::new(alloc)),
        Some(file) => homeless_faults(alloc, &file.outline),
    }
}

/// What is wrong with the directives and the declared names of the file at a place, ambiguous exports
/// aside. The error is want of memory.
pub fn file_faults(
    alloc: Global,
    files: &[SourceFile],
    heads: &[Head],
    all: &[Aims],
    place: usize,
) -> Result<Vec<LibraryFault>, AllocError>
    ensures { IfOk result (λ faults. faults.items ≡ file_faults files.now heads.now all.now place) }
{
    let library = match home_of(heads, all, place) {
        Home::Homeless => return homeless_at(alloc, files, place),
        Home::Library => place,
        Home::PartOf { library } => library,
    };
    let found = library_faults(alloc, files, heads, all, library)?;
    let mut faults = Vec::new(alloc);
    add_those_of(place, &found, &mut faults)?;
    Ok(faults)
}
