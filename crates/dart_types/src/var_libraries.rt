//! Type variables by library. Rows of many libraries share those of each.

ghost use Rattle.std.specs.Prelude.{◌≡◌, ◌≤◌, ◌<◌, ◌++◌, ◌∷◌, [], true, false, nat_eq, nat_lt, find, length, AllPairs, IfOk, OnOk};
ghost use Rattle.std.specs.List.Sorted.{IsPartitionPoint};
ghost use Rattle.std.specs.Option.{option_copied};
ghost use Rattle.dart_types.specs.WellFormed.{var_before};
ghost use Rattle.dart_types.specs.Groups.{Rise, PutsIn, PutsAll};
ghost use Rattle.dart_types.specs.Libraries.{vars_in, AreVarsApart, AppendsVar, AddsVarAlone};

use crate::class_rows::VarRow;
use crate::ids::LibId;
use std::alloc::{AllocError, Global};
use std::marker::Model;
use std::rc::Rc;

/// The type variables of one library, in the order of their ids.
#[derive(Drop)]
pub(crate) struct LibraryVars {
    pub(crate) lib: LibId,
    pub(crate) rows: Vec<VarRow>,
}

/// The type variables of one library, which copies share. Contracts see it as them.
#[derive(Drop)]
pub(crate) struct SharedVars {
    shared: Rc<LibraryVars>,
}

impl Model for SharedVars {
    ghost use Rattle.dart_types.specs.declared.var_libraries.LibraryVars.{LibraryVars};

    ghost Value = { LibraryVars };

    ghost use Rattle.dart_types.specs.contracts.var_libraries.LibraryVars as library_row;

    ghost coded = { library_row.the_row.coded };

    ghost view = { λ a. a.shared.value };
}

impl SharedVars {
    /// The type variables of a library, to be shared.
    pub(crate) fn new(alloc: Global, library: LibraryVars) -> Result<SharedVars, AllocError>
        ensures { IfOk result (λ shared. shared ≡ library) }
    {
        Ok(SharedVars {
            shared: Rc::new(alloc, library)?,
        })
    }

    /// The same type variables once more. It copies a pointer.
    pub(crate) fn share(&self) -> Result<SharedVars, AllocError>
        ensures { IfOk result (λ shared. shared ≡ self.now) }
    {
        Ok(SharedVars {
            shared: self.shared.clone()?,
        })
    }

    /// The type variables.
    pub(crate) fn library(&self) -> &LibraryVars
        ensures { result.now ≡ self.now }
    {
        &self.shared
    }
}

/// The type variables of a library, if it has some. It takes no memory.
pub(crate) fn find_vars(libraries: &[SharedVars], lib: LibId) -> Option<&LibraryVars>
    requires { Rise (λ l. l.lib.0) libraries.now }
    ensures { option_copied result ≡ find (λ l. nat_eq l.lib.0 lib.0) libraries.now }
{
    let at = place_of_library(libraries, lib);
    if at >= libraries.len() {
        return None;
    }
    let library = libraries[at].library();
    if library.lib.0 == lib.0 {
        Some(library)
    } else {
        None
    }
}

// How many libraries have smaller numbers.
fn place_of_library(libraries: &[SharedVars], lib: LibId) -> usize
    requires { Rise (λ l. l.lib.0) libraries.now }
    ensures bound { result ≤ length libraries.now }
    ensures parts { IsPartitionPoint (λ l. nat_lt l.lib.0 lib.0 ≡ true) (λ l. nat_lt l.lib.0 lib.0 ≡ false) libraries.now result }
{
    libraries.partition_point(|library| library.library().lib.0 < lib.0)
}

/// Second pointers to all.
pub(crate) fn copy_vars(
    alloc: Global,
    libraries: &[SharedVars],
) -> Result<Vec<SharedVars>, AllocError>
    ensures { IfOk result (λ copies. copies.items ≡ libraries.now) }
{
    let mut copies = Vec::new(alloc);
    for library in libraries {
        copies.push(library.share()?)?;
    }
    Ok(copies)
}

// Puts the type variables of a library in the order of the libraries, unless type variables of it stand there.
fn put_vars(libraries: &mut Vec<SharedVars>, library: SharedVars) -> Result<(), AllocError>
    requires { Rise (λ l. l.lib.0) libraries.old.items }
    ensures { OnOk result (PutsIn (λ l. l.lib.0) libraries.old.items library libraries.new.items) }
{
    let lib = library.library().lib;
    let at = place_of_library(libraries, lib);
    if at < libraries.len() && libraries[at].library().lib.0 == lib.0 {
        return Ok(());
    }
    libraries.insert(at, library)?;
    Ok(())
}

/// Puts the type variables of other libraries in the order of the libraries, unless type variables of them stand
/// there.
pub(crate) fn put_all_vars(
    libraries: &mut Vec<SharedVars>,
    others: &[SharedVars],
) -> Result<(), AllocError>
    requires { Rise (λ l. l.lib.0) libraries.old.items }
    ensures { OnOk result (PutsAll (λ l. l.lib.0) libraries.old.items others.now libraries.new.items) }
{
    for other in others {
        put_vars(libraries, other.share()?)?;
    }
    Ok(())
}

/// Type variables by library, to be shared.
pub(crate) fn vars_by_library(
    alloc: Global,
    rows: Vec<VarRow>,
) -> Result<Vec<SharedVars>, AllocError>
    requires { AllPairs (λ a b. var_before a.var b.var ≡ true) rows.items }
    ensures same { IfOk result (λ libraries. vars_in libraries.items ≡ rows.items) }
    ensures apart { IfOk result (λ libraries. AreVarsApart libraries.items) }
{
    let mut libraries = Vec::new(alloc);
    for row in rows {
        push_var(alloc, &mut libraries, row)?;
    }
    share_all(alloc, libraries)
}

// Shares the type variables of all libraries.
fn share_all(alloc: Global, libraries: Vec<LibraryVars>) -> Result<Vec<SharedVars>, AllocError>
    ensures { IfOk result (λ shared. shared.items ≡ libraries.items) }
{
    let mut shared = Vec::new(alloc);
    for library in libraries {
        shared.push(SharedVars::new(alloc, library)?)?;
    }
    Ok(shared)
}

// Puts a type variable at the end: to the last library, where it is of that.
fn push_var(alloc: Global, libraries: &mut Vec<LibraryVars>, row: VarRow) -> Result<(), AllocError>
    ensures { OnOk result (AppendsVar libraries.old.items row libraries.new.items) }
{
    let lib = row.var.lib;
    match libraries.pop() {
        None => push_library(alloc, libraries, lib, row),
        Some(last) => push_behind(alloc, libraries, last, row),
    }
}

// Puts a type variable behind the last library, or to it.
fn push_behind(
    alloc: Global,
    libraries: &mut Vec<LibraryVars>,
    last: LibraryVars,
    row: VarRow,
) -> Result<(), AllocError>
    ensures { OnOk result (AppendsVar (libraries.old.items ++ last ∷ []) row libraries.new.items) }
{
    let lib = row.var.lib;
    let mut last = last;
    if last.lib.0 == lib.0 {
        last.rows.push(row)?;
        libraries.push(last)?;
        return Ok(());
    }
    libraries.push(last)?;
    push_library(alloc, libraries, lib, row)
}

// Puts a type variable of another library at the end.
fn push_library(
    alloc: Global,
    libraries: &mut Vec<LibraryVars>,
    lib: LibId,
    row: VarRow,
) -> Result<(), AllocError>
    requires of_lib { lib ≡ row.var.lib }
    ensures { OnOk result (AddsVarAlone libraries.old.items row libraries.new.items) }
{
    let mut rows = Vec::new(alloc);
    rows.push(row)?;
    libraries.push(LibraryVars { lib, rows })?;
    Ok(())
}
