//! The check and the run of the library of a file, among the files that a store has.

ghost use Rattle.std.specs.Prelude.{◌≡◌, ◌≢◌, ◌+◌, ◌<◌, ◌^◌, [], Ok, Err, IfOk, length, option_map, slice_get};
ghost use Rattle.std.specs.Option.{ForSome};
ghost use Rattle.fault_io.specs.Faults.{Rose};
ghost use Rattle.load_files.specs.Counts.{IsWithinLimits};
ghost use Rattle.load_files.specs.Loads.{Loads, loaded};
ghost use Rattle.check_files.specs.Lent.{table_view};
ghost use Rattle.check_files.specs.Lines.{lines_of};
ghost use Rattle.check_files.specs.Links.{AreLinked};
ghost use Rattle.check_library.specs.Diagnostics.{diagnostics};
ghost use Rattle.dart_server.specs.Libraries.{ClearGives, LibraryGives, LibraryOutput, MayEndIn, OverPackages, TableGives, folder_for, has_main, packages_for, roots_for, text_in};
ghost use Rattle.dart_server.specs.Run.{RunGives};
ghost use Rattle.dart_server.specs.Writes.{Counts, Says, Writes};

use crate::output::{LIMIT, NO_LIBRARY, PACKAGES_REFUSED, say, status_after};
use crate::run::run_library;
use crate::status::Status;
use crate::task::Task;
use check_files::{
    Finding, LentFile, Linked, empty_text, findings_from, lent_files, library_in, lines_of, link,
    path_at, text_held,
};
use dart_uri::resolved;
use element_terms::{LibraryElement, declared};
use fault_io::{Files, FilesRefusal, Sink, WriteRefusal};
use load_files::{LoadRefusal, Packages, Paths, Roots, Snapshot, snapshot};
use packages_file::packages_at;
use plain_text::PlainText;
use std::alloc::{AllocError, Global};

/// Prints what is found.
fn print<K: Sink>(
    alloc: Global,
    sink: &mut K,
    files: &[LentFile<'_>],
    findings: &[Finding],
) -> Result<Status, WriteRefusal>
    ensures writes { Writes (Says (lines_of (table_view files.now) findings.now) Status.Errors) (K.written sink.old) (K.written sink.new) result }
    ensures counts { Counts result (K.faults sink.old) (K.faults sink.new) }
{
    let lines = lines_of(alloc, files, findings)?;
    say(alloc, sink, lines.as_slice(), Status::Errors)
}

/// Whether the library at a place declares `main`, in its own file or in a part.
fn has_main(elements: &[LibraryElement], place: usize) -> bool
    ensures { result ≡ has_main (slice_get elements.now place) }
{
    match elements.get(place) {
        Some(element) => declared(element, "main").is_some(),
        None => false,
    }
}

/// Runs the library at a place, where nothing is wrong with it and with those that it reaches.
fn run_at<K: Sink>(
    alloc: Global,
    sink: &mut K,
    files: &[LentFile<'_>],
    place: usize,
    has_main: bool,
    steps: u64,
) -> Result<Status, WriteRefusal>
    ensures writes { Writes (RunGives (text_in (table_view files.now) place) has_main steps (diagnostics (text_in (table_view files.now) place))) (K.written sink.old) (K.written sink.new) result }
    ensures counts { Counts result (K.faults sink.old) (K.faults sink.new) }
{
    let path = path_at(files, place);
    match text_held(files, place) {
        Some(text) => run_library(alloc, sink, path, text, has_main, steps),
        None => {
            let empty = empty_text(alloc)?;
            run_library(alloc, sink, path, &empty, has_main, steps)
        }
    }
}

/// Does what is asked where nothing is wrong with the library at a place and with those that it reaches.
fn go_on<K: Sink>(
    alloc: Global,
    sink: &mut K,
    task: Task,
    packages: &Packages,
    files: &[LentFile<'_>],
    linked: &Linked,
    place: usize,
) -> Result<Status, WriteRefusal>
    requires linked { AreLinked packages.now (table_view files.now) linked.now }
    ensures writes { Writes (ClearGives (diagnostics (text_in (table_view files.now) place)) task packages.now (table_view files.now) place) (K.written sink.old) (K.written sink.new) result }
    ensures counts { Counts result (K.faults sink.old) (K.faults sink.new) }
{
    match task {
        Task::Check => Ok(Status::Done),
        Task::Run { steps } => {
            let elements = linked.elements.as_slice();
            run_at(alloc, sink, files, place, has_main(elements, place), steps)
        }
    }
}

/// Checks or runs the library at a place.
fn fulfil<K: Sink>(
    alloc: Global,
    sink: &mut K,
    task: Task,
    packages: &Packages,
    files: &[LentFile<'_>],
    linked: &Linked,
    place: usize,
) -> Result<Status, WriteRefusal>
    requires few { length files.now + 1 < 2 ^ 32 }
    requires file { 0 < place }
    requires place { place < length linked.now.heads.items }
    requires linked { AreLinked packages.now (table_view files.now) linked.now }
    ensures writes { Writes (LibraryGives task packages.now (table_view files.now) place) (K.written sink.old) (K.written sink.new) result }
    ensures counts { Counts result (K.faults sink.old) (K.faults sink.new) }
{
    let found = findings_from(alloc, linked, place)?;
    let findings = found.as_slice();
    if findings.is_empty() {
        go_on(alloc, sink, task, packages, files, linked, place)
    } else {
        print(alloc, sink, files, findings)
    }
}

/// Checks or runs the library of a file in a folder, if there is one.
fn fulfil_in<K: Sink>(
    alloc: Global,
    sink: &mut K,
    task: Task,
    packages: &Packages,
    files: &Snapshot,
    folder: &str,
    file: &str,
) -> Result<Status, WriteRefusal>
    requires within { IsWithinLimits [] files.now }
    ensures writes { Writes (TableGives task file.now folder.now packages.now files.now) (K.written sink.old) (K.written sink.new) result }
    ensures counts { Counts result (K.faults sink.old) (K.faults sink.new) }
{
    let lent = lent_files(alloc, files)?;
    let lent = lent.as_slice();
    let linked = link(alloc, packages, lent)?;
    match library_in(folder, file, lent, linked.heads.as_slice()) {
        Some(place) => fulfil(alloc, sink, task, packages, lent, &linked, place),
        None => say(alloc, sink, NO_LIBRARY, Status::Refused),
    }
}

/// The roots of a check or a run.
fn roots_for(alloc: Global, folder: &str, packages: &Packages) -> Result<Roots, AllocError>
    ensures { IfOk result (λ roots. roots ≡ roots_for folder.now packages.now) }
{
    let mut included = Vec::new(alloc);
    included.push(PlainText::new(alloc, folder)?)?;
    let packages = packages.copy()?;
    Ok(Roots {
        included: Paths::from_vec(included),
        excluded: Paths::from_vec(Vec::new(alloc)),
        packages,
    })
}

/// What the store has in a folder and in the folders of packages.
fn files_of<F: Files>(
    alloc: Global,
    files: &mut F,
    folder: &str,
    packages: &Packages,
) -> Result<Snapshot, LoadRefusal>
    ensures exact { ForSome (F.told files.old) (λ stored. Loads result (loaded stored (roots_for folder.now packages.now) [])) }
    ensures told { F.told files.new ≡ F.told files.old }
    ensures fault { result ≡ Err LoadRefusal.FilesFault → Rose (F.faults files.old) (F.faults files.new) }
    ensures no_fault { result ≢ Err LoadRefusal.FilesFault → F.faults files.new ≡ F.faults files.old }
    ensures within { IfOk result (IsWithinLimits []) }
{
    let roots = roots_for(alloc, folder, packages)?;
    snapshot(alloc, files, &roots, &[])
}

/// Checks or runs the library of a file in a folder, over packages.
fn fulfil_over<K: Sink, F: Files>(
    alloc: Global,
    sink: &mut K,
    files: &mut F,
    task: Task,
    packages: &Packages,
    folder: &str,
    file: &str,
) -> Status
    ensures output { OverPackages task file.now folder.now packages.now (F.told files.old) (K.written sink.old) (K.written sink.new) result }
    ensures told { F.told files.new ≡ F.told files.old }
    ensures statuses { MayEndIn task result }
    ensures write_fault { result ≡ Status.WriteFault → Rose (K.faults sink.old) (K.faults sink.new) }
    ensures no_write_fault { result ≢ Status.WriteFault → K.faults sink.new ≡ K.faults sink.old }
    ensures files_fault { result ≡ Status.FilesFault → Rose (F.faults files.old) (F.faults files.new) }
    ensures no_files_fault { result ≢ Status.FilesFault → F.faults files.new ≡ F.faults files.old }
{
    match files_of(alloc, files, folder, packages) {
        Ok(found) => { status_after(fulfil_in(alloc, sink, task, packages, &found, folder, file)) }
        Err(LoadRefusal::FilesFault) => Status::FilesFault,
        Err(LoadRefusal::Memory) => Status::Memory,
        Err(LoadRefusal::TooManyFiles { .. }) => status_after(say(
            alloc,
            sink,
            LIMIT,
            Status::Refused,
        )),
        Err(LoadRefusal::TooDeep { .. }) => status_after(say(alloc, sink, LIMIT, Status::Refused)),
        Err(LoadRefusal::TooMuch { .. }) => status_after(say(alloc, sink, LIMIT, Status::Refused)),
    }
}

/// No packages.
pub fn no_packages(alloc: Global) -> Packages
    ensures { result ≡ [] }
{
    Packages::from_vec(Vec::new(alloc))
}

/// The packages: None where their file is refused.
fn packages_for<F: Files>(
    alloc: Global,
    files: &mut F,
    packages: Option<&str>,
) -> Result<Option<Packages>, FilesRefusal>
    ensures listed { IfOk result (λ listed. ForSome (F.told files.old) (λ stored. listed ≡ packages_for (option_map (λ file. file.now) packages.entry) stored)) }
    ensures fault { result ≡ Err FilesRefusal.Failed → Rose (F.faults files.old) (F.faults files.new) }
    ensures no_fault { result ≢ Err FilesRefusal.Failed → F.faults files.new ≡ F.faults files.old }
    ensures told { F.told files.new ≡ F.told files.old }
{
    match packages {
        None => Ok(Some(no_packages(alloc))),
        Some(file) => packages_at(alloc, files, file),
    }
}

/// The folder whose files are read: the one that is named, or else the one in which the file stands.
fn folder_for(alloc: Global, file: &str, named: Option<&str>) -> Result<PlainText, AllocError>
    ensures { IfOk result (λ folder. folder ≡ folder_for file.now (option_map (λ folder. folder.now) named.entry)) }
{
    if let Some(folder) = named {
        return PlainText::new(alloc, folder);
    }
    match resolved(alloc, file, "..")? {
        Some(folder) => Ok(folder),
        None => PlainText::new(alloc, "/"),
    }
}

/// Checks or runs the library of a file. The store is asked for the packages file, if one is named, and
/// then for what stands in the folder and in the folders of the packages.
pub fn over_libraries<K: Sink, F: Files>(
    alloc: Global,
    sink: &mut K,
    files: &mut F,
    task: Task,
    file: &str,
    root: Option<&str>,
    packages: Option<&str>,
) -> Status
    ensures output { LibraryOutput task file.now (option_map (λ folder. folder.now) root.entry) (option_map (λ file. file.now) packages.entry) (F.told files.old) (K.written sink.old) (K.written sink.new) result }
    ensures statuses { MayEndIn task result }
    ensures write_fault { result ≡ Status.WriteFault → Rose (K.faults sink.old) (K.faults sink.new) }
    ensures no_write_fault { result ≢ Status.WriteFault → K.faults sink.new ≡ K.faults sink.old }
    ensures files_fault { result ≡ Status.FilesFault → Rose (F.faults files.old) (F.faults files.new) }
    ensures no_files_fault { result ≢ Status.FilesFault → F.faults files.new ≡ F.faults files.old }
    ensures told { F.told files.new ≡ F.told files.old }
{
    let Ok(folder) = folder_for(alloc, file, root) else {
        return Status::Memory;
    };
    match packages_for(alloc, files, packages) {
        Ok(Some(packages)) => {
            fulfil_over(alloc, sink, files, task, &packages, folder.as_str(), file)
        }
        Ok(None) => status_after(say(alloc, sink, PACKAGES_REFUSED, Status::Refused)),
        Err(FilesRefusal::Failed) => Status::FilesFault,
        Err(FilesRefusal::Memory) => Status::Memory,
    }
}
