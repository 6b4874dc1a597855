//! Classes by library. Rows of many libraries share those of each.

ghost use Rattle.std.specs.Prelude.{◌≡◌, ◌≤◌, ◌<◌, ◌++◌, ◌∷◌, [], true, false, nat_eq, nat_lt, find, length, AllPairs, IfOk, OnOk};
ghost use Rattle.std.specs.List.Sorted.{IsPartitionPoint};
ghost use Rattle.std.specs.Option.{option_copied};
ghost use Rattle.dart_types.specs.WellFormed.{class_before};
ghost use Rattle.dart_types.specs.Groups.{Rise, PutsIn, PutsAll};
ghost use Rattle.dart_types.specs.Libraries.{entries_in, AreClassesApart, AppendsClass, AddsClassAlone};

use crate::entries::ClassEntry;
use crate::ids::LibId;
use std::alloc::{AllocError, Global};
use std::marker::Model;
use std::rc::Rc;

/// The classes of one library, in the order of their ids.
#[derive(Drop)]
pub(crate) struct LibraryClasses {
    pub(crate) lib: LibId,
    pub(crate) entries: Vec<ClassEntry>,
}

/// The classes of one library, which copies share. Contracts see it as them.
#[derive(Drop)]
pub(crate) struct SharedClasses {
    shared: Rc<LibraryClasses>,
}

impl Model for SharedClasses {
    ghost use Rattle.dart_types.specs.declared.class_libraries.LibraryClasses.{LibraryClasses};

    ghost Value = { LibraryClasses };

    ghost use Rattle.dart_types.specs.contracts.class_libraries.LibraryClasses as library_row;

    ghost coded = { library_row.the_row.coded };

    ghost view = { λ a. a.shared.value };
}

impl SharedClasses {
    /// The classes of a library, to be shared.
    pub(crate) fn new(alloc: Global, library: LibraryClasses) -> Result<SharedClasses, AllocError>
        ensures { IfOk result (λ shared. shared ≡ library) }
    {
        Ok(SharedClasses {
            shared: Rc::new(alloc, library)?,
        })
    }

    /// The same classes once more. It copies a pointer.
    pub(crate) fn share(&self) -> Result<SharedClasses, AllocError>
        ensures { IfOk result (λ shared. shared ≡ self.now) }
    {
        Ok(SharedClasses {
            shared: self.shared.clone()?,
        })
    }

    /// The classes.
    pub(crate) fn library(&self) -> &LibraryClasses
        ensures { result.now ≡ self.now }
    {
        &self.shared
    }
}

/// The classes of a library, if it has some. It takes no memory.
pub(crate) fn find_classes(libraries: &[SharedClasses], lib: LibId) -> Option<&LibraryClasses>
    requires { Rise (λ l. l.lib.0) libraries.now }
    ensures { option_copied result ≡ find (λ l. nat_eq l.lib.0 lib.0) libraries.now }
{
    let at = place_of_library(libraries, lib);
    if at >= libraries.len() {
        return None;
    }
    let library = libraries[at].library();
    if library.lib.0 == lib.0 {
        Some(library)
    } else {
        None
    }
}

// How many libraries have smaller numbers.
fn place_of_library(libraries: &[SharedClasses], lib: LibId) -> usize
    requires { Rise (λ l. l.lib.0) libraries.now }
    ensures bound { result ≤ length libraries.now }
    ensures parts { IsPartitionPoint (λ l. nat_lt l.lib.0 lib.0 ≡ true) (λ l. nat_lt l.lib.0 lib.0 ≡ false) libraries.now result }
{
    libraries.partition_point(|library| library.library().lib.0 < lib.0)
}

/// Second pointers to all.
pub(crate) fn copy_classes(
    alloc: Global,
    libraries: &[SharedClasses],
) -> Result<Vec<SharedClasses>, AllocError>
    ensures { IfOk result (λ copies. copies.items ≡ libraries.now) }
{
    let mut copies = Vec::new(alloc);
    for library in libraries {
        copies.push(library.share()?)?;
    }
    Ok(copies)
}

// Puts the classes of a library in the order of the libraries, unless classes of it stand there.
fn put_classes(libraries: &mut Vec<SharedClasses>, library: SharedClasses) -> Result<(), AllocError>
    requires { Rise (λ l. l.lib.0) libraries.old.items }
    ensures { OnOk result (PutsIn (λ l. l.lib.0) libraries.old.items library libraries.new.items) }
{
    let lib = library.library().lib;
    let at = place_of_library(libraries, lib);
    if at < libraries.len() && libraries[at].library().lib.0 == lib.0 {
        return Ok(());
    }
    libraries.insert(at, library)?;
    Ok(())
}

/// Puts the classes of other libraries in the order of the libraries, unless classes of them stand
/// there.
pub(crate) fn put_all_classes(
    libraries: &mut Vec<SharedClasses>,
    others: &[SharedClasses],
) -> Result<(), AllocError>
    requires { Rise (λ l. l.lib.0) libraries.old.items }
    ensures { OnOk result (PutsAll (λ l. l.lib.0) libraries.old.items others.now libraries.new.items) }
{
    for other in others {
        put_classes(libraries, other.share()?)?;
    }
    Ok(())
}

/// Classes by library, to be shared.
pub(crate) fn classes_by_library(
    alloc: Global,
    entries: Vec<ClassEntry>,
) -> Result<Vec<SharedClasses>, AllocError>
    requires { AllPairs (λ a b. class_before a.row.id b.row.id ≡ true) entries.items }
    ensures same { IfOk result (λ libraries. entries_in libraries.items ≡ entries.items) }
    ensures apart { IfOk result (λ libraries. AreClassesApart libraries.items) }
{
    let mut libraries = Vec::new(alloc);
    for entry in entries {
        push_class(alloc, &mut libraries, entry)?;
    }
    share_all(alloc, libraries)
}

// Shares the classes of all libraries.
fn share_all(
    alloc: Global,
    libraries: Vec<LibraryClasses>,
) -> Result<Vec<SharedClasses>, AllocError>
    ensures { IfOk result (λ shared. shared.items ≡ libraries.items) }
{
    let mut shared = Vec::new(alloc);
    for library in libraries {
        shared.push(SharedClasses::new(alloc, library)?)?;
    }
    Ok(shared)
}

// Puts a class at the end: to the last library, where it is of that.
fn push_class(
    alloc: Global,
    libraries: &mut Vec<LibraryClasses>,
    entry: ClassEntry,
) -> Result<(), AllocError>
    ensures { OnOk result (AppendsClass libraries.old.items entry libraries.new.items) }
{
    let lib = entry.row.id.lib;
    match libraries.pop() {
        None => push_library(alloc, libraries, lib, entry),
        Some(last) => push_behind(alloc, libraries, last, entry),
    }
}

// Puts a class behind the last library, or to it.
fn push_behind(
    alloc: Global,
    libraries: &mut Vec<LibraryClasses>,
    last: LibraryClasses,
    entry: ClassEntry,
) -> Result<(), AllocError>
    ensures { OnOk result (AppendsClass (libraries.old.items ++ last ∷ []) entry libraries.new.items) }
{
    let lib = entry.row.id.lib;
    let mut last = last;
    if last.lib.0 == lib.0 {
        last.entries.push(entry)?;
        libraries.push(last)?;
        return Ok(());
    }
    libraries.push(last)?;
    push_library(alloc, libraries, lib, entry)
}

// Puts a class of another library at the end.
fn push_library(
    alloc: Global,
    libraries: &mut Vec<LibraryClasses>,
    lib: LibId,
    entry: ClassEntry,
) -> Result<(), AllocError>
    requires of_lib { lib ≡ entry.row.id.lib }
    ensures { OnOk result (AddsClassAlone libraries.old.items entry libraries.new.items) }
{
    let mut entries = Vec::new(alloc);
    entries.push(entry)?;
    libraries.push(LibraryClasses { lib, entries })?;
    Ok(())
}
