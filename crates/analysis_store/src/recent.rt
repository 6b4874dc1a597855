//! The checker that keeps the files as it linked them last.

ghost use Rattle.std.specs.Prelude.{◌≡◌, [], None, IfOk};
ghost use Rattle.check_files.specs.Links.{AreLinked};
ghost use Rattle.protocol_rules.specs.Files.{AreDiagnosticsOf, analyzed_count, files_of};
ghost use Rattle.protocol_rules.specs.State.{State, at_start};
ghost use Rattle.analysis_store.specs.Keeping.{IsCurrent};

use crate::linked::{faults_of, link_contents};
use check_files::{Linked, link_again};
use load_files::Packages;
use protocol_rules::{Contents, analyzed_count};
use request_core::{Checker, Faults};
use std::alloc::{AllocError, Global};
use std::marker::Model;
use std::mem::replace;
use work_counts::{Work, WorkKind};

/// The files of contents as they were linked. Contracts see the contents.
#[derive(Drop)]
pub struct Reading {
    contents: Contents,
    linked: Linked,
}

impl Model for Reading {
    ghost use Rattle.check_files.specs.Links.{AreLinked};
    ghost use Rattle.protocol_rules.specs.Files.{files_of};
    ghost use Rattle.protocol_rules.specs.State.{State};

    ghost Value = { State };

    ghost view = { λ r. r.contents };

    ghost invariant = { λ r. AreLinked r.contents.roots.packages (files_of r.contents) r.linked };
}

/// What a checker keeps.
#[derive(Drop)]
pub enum Kept {
    /// Nothing.
    Nothing,
    /// The files of the contents that it holds.
    Current(Reading),
    /// The files of contents that it held before.
    Earlier(Reading),
}

/// The checker that keeps the files as it linked them last: a question reads the texts that have changed
/// since, and links all files where contents were handed to it.
#[derive(Drop)]
pub struct Recent {
    contents: Contents,
    kept: Kept,
}

impl Model for Recent {
    ghost use Rattle.analysis_store.specs.Keeping.{IsCurrent};
    ghost use Rattle.protocol_rules.specs.State.{State};

    ghost Value = { State };

    ghost view = { λ r. r.contents };

    ghost invariant = { λ r. IsCurrent r.contents r.kept };
}

impl Recent {
    /// A checker that holds no file.
    pub fn new(alloc: Global) -> Recent
        ensures { result ≡ at_start [] }
    {
        let packages = Packages::from_vec(Vec::new(alloc));
        Recent {
            contents: Contents::new(alloc, packages),
            kept: Kept::Nothing,
        }
    }
}

/// The files of contents, linked where others were linked before.
fn link_changed(
    alloc: Global,
    contents: &Contents,
    old: &Contents,
    linked: Linked,
) -> Result<Linked, AllocError>
    requires { AreLinked old.now.roots.packages (files_of old.now) linked }
    ensures { IfOk result (AreLinked contents.now.roots.packages (files_of contents.now)) }
{
    let files = contents.files(alloc)?;
    let earlier = old.files(alloc)?;
    let packages = &contents.roots().packages;
    link_again(
        alloc,
        packages,
        files.as_slice(),
        earlier.as_slice(),
        linked,
    )
}

/// The files of contents, which were read for none.
fn read_contents(alloc: Global, contents: &Contents) -> Result<Reading, AllocError>
    ensures { IfOk result (λ reading. reading ≡ contents.now) }
{
    let linked = link_contents(alloc, contents)?;
    let contents = contents.copy()?;
    Ok(Reading { contents, linked })
}

/// The files of contents, which were read for others before.
fn read_changed(alloc: Global, contents: &Contents, earlier: Reading) -> Result<Reading, AllocError>
    ensures { IfOk result (λ reading. reading ≡ contents.now) }
{
    let Reading {
        contents: old,
        linked,
    } = earlier;
    let linked = link_changed(alloc, contents, &old, linked)?;
    let contents = contents.copy()?;
    Ok(Reading { contents, linked })
}

/// The files of contents, from what is kept.
fn reading_of(alloc: Global, contents: &Contents, kept: Kept) -> Result<Reading, AllocError>
    requires { IsCurrent contents.now kept }
    ensures { IfOk result (λ reading. reading ≡ contents.now) }
{
    match kept {
        Kept::Nothing => read_contents(alloc, contents),
        Kept::Current(reading) => Ok(reading),
        Kept::Earlier(reading) => read_changed(alloc, contents, reading),
    }
}

/// The diagnostics of a path over the files that were read.
fn faults_in(alloc: Global, reading: &Reading, path: &str) -> Result<Faults, AllocError>
    ensures { IfOk result (λ faults. AreDiagnosticsOf reading.now path.now faults) }
{
    faults_of(alloc, &reading.contents, &reading.linked, path)
}

/// What is kept where other contents come.
fn earlier(kept: Kept) -> Kept
    ensures { (contents : State) → IsCurrent contents result }
{
    match kept {
        Kept::Nothing => Kept::Nothing,
        Kept::Current(reading) => Kept::Earlier(reading),
        Kept::Earlier(reading) => Kept::Earlier(reading),
    }
}

impl Checker for Recent {
    ghost holds = { λ s. s };

    ghost kept = { λ s. None };

    // all of them: it keeps what it has read, and not for which files it has answered
    ghost due = { λ s. analyzed_count s };

    fn set_contents(&mut self, _alloc: Global, contents: &Contents) -> Result<(), AllocError> {
        let contents = contents.copy()?;
        self.kept = earlier(replace(&mut self.kept, Kept::Nothing));
        self.contents = contents;
        Ok(())
    }

    #[tactic(auto, using(work_counts::specs::Counts::no_less_same, work_counts::specs::Counts::no_less_after))]
    fn errors_of(
        &mut self,
        alloc: Global,
        path: &str,
        work: &mut Work,
    ) -> Result<Faults, AllocError> {
        let kept = replace(&mut self.kept, Kept::Nothing);
        let reading = reading_of(alloc, &self.contents, kept)?;
        let faults = faults_in(alloc, &reading, path)?;
        self.kept = Kept::Current(reading);
        work.raise(WorkKind::Check);
        Ok(faults)
    }

    fn work(&self) -> u64 {
        analyzed_count(&self.contents) as u64
    }
}
