//! The state of a session.

ghost use Rattle.std.specs.Prelude.{◌≡◌, ◌≢◌, ◌≤◌, ◌++◌, ◌*◌, Bool, true, false, Err, IfOk, IfErr, IsTrue, MatchOption, OnOk, length, map, option_map};
ghost use Rattle.std.specs.List.{filter};
ghost use Rattle.load_files.specs.Kept.{are_kept};
ghost use Rattle.load_files.specs.declared.loading.TheConstants.{MAX_PATHS};
ghost use Rattle.check_files.specs.Lent.{contents_view, table_view};
ghost use Rattle.load_files.specs.Tables.{IsInOrder, contents_at};
ghost use Rattle.serve_loop.specs.Marks.{Tells};
ghost use Rattle.protocol_rules.specs.Files.{current, files_of, given_file, is_analyzed, is_included, is_new, overlaid};
ghost use Rattle.protocol_rules.specs.Limits.{AreWithin, kept_in, passes_limit};
ghost use Rattle.protocol_rules.specs.Reading.{IsReading, snapshot_in};
ghost use Rattle.protocol_rules.specs.State.{State, at_start};

use crate::files::is_library;
use crate::limits::passes_limit;
use check_files::{LentContents, LentFile, lent_contents};
use fault_io::{Files, is_under};
use load_files::{KeptFile, LoadRefusal, Packages, Paths, Roots, Snapshot, snapshot};
use overlays::Overlays;
use std::alloc::{AllocError, Global};
use std::marker::Model;

/// All that replies depend on: the roots, what the store of files had there when they were last
/// read, and the texts that the client has given. The files and the texts keep within the limits
/// together.
#[derive(Drop)]
pub struct Contents {
    roots: Roots,
    snapshot: Snapshot,
    overlays: Overlays,
}

impl Model for Contents {
    ghost use Rattle.protocol_rules.specs.Limits.{AreWithin};
    ghost use Rattle.protocol_rules.specs.State.{State};

    ghost Value = { State };

    ghost view = { λ c. record { roots = c.roots; snapshot = c.snapshot; overlays = c.overlays } };

    ghost invariant = { λ c. AreWithin c.snapshot c.overlays };
}

/// Whether a path is, or lies under, one of the included paths.
fn is_included(roots: &Roots, path: &str) -> bool
    ensures { result ≡ is_included roots.now path.now }
{
    roots.included.as_slice().iter().any(|root| path == root.as_str()
        || is_under(root.as_str(), path))
}

/// The overlays as they count in the limits.
fn kept_in(alloc: Global, overlays: &Overlays) -> Result<Vec<KeptFile>, AllocError>
    ensures { IfOk result (λ kept. kept.items ≡ kept_in overlays.now) }
{
    let mut kept = Vec::new(alloc);
    for entry in overlays.entries() {
        let path = entry.path().copy()?;
        let bytes = entry.text().as_str().len() as u64;
        kept.push(KeptFile { path, bytes })?;
    }
    Ok(kept)
}

/// Adds the files of the store, each with the text that the client has given of it.
fn add_stored<'c>(
    overlays: &'c Overlays,
    snapshot: &'c Snapshot,
    files: &mut Vec<LentFile<'c>>,
) -> Result<(), AllocError>
    ensures { OnOk result (table_view files.new.items ≡ table_view files.old.items ++ map (overlaid overlays.now) snapshot.now) }
{
    for file in snapshot.files() {
        let path = file.path().as_str();
        let contents = match overlays.text(path) {
            Some(text) => LentContents::Text(text),
            None => lent_contents(file.contents()),
        };
        files.push(LentFile { path, contents })?;
    }
    Ok(())
}

/// Adds the texts that the client has given of files that the store hadn't.
fn add_new<'c>(
    overlays: &'c Overlays,
    snapshot: &Snapshot,
    files: &mut Vec<LentFile<'c>>,
) -> Result<(), AllocError>
    ensures { OnOk result (table_view files.new.items ≡ table_view files.old.items ++ map given_file (filter (is_new snapshot.now) overlays.now)) }
{
    for entry in overlays.entries() {
        let path = entry.path().as_str();
        if snapshot.contents(path).is_none() {
            files.push(LentFile {
                path,
                contents: LentContents::Text(entry.text()),
            })?;
        }
    }
    Ok(())
}

impl Contents {
    /// The contents of a session to which nothing was given yet.
    #[tactic(auto, using(crate::proofs::WithinLemmas::none_within))]
    pub fn new(alloc: Global, packages: Packages) -> Contents
        ensures { result ≡ at_start packages }
    {
        let roots = Roots {
            included: Paths::from_vec(Vec::new(alloc)),
            excluded: Paths::from_vec(Vec::new(alloc)),
            packages,
        };
        Contents {
            roots,
            snapshot: Snapshot::new(alloc),
            overlays: Overlays::new(alloc),
        }
    }

    /// The roots.
    pub fn roots(&self) -> &Roots
        ensures { result.now ≡ self.now.roots }
    {
        &self.roots
    }

    /// What the store had when the roots were last read.
    pub fn snapshot(&self) -> &Snapshot
        ensures { result.now ≡ self.now.snapshot }
    {
        &self.snapshot
    }

    /// The texts that the client has given.
    pub fn overlays(&self) -> &Overlays
        ensures { result.now ≡ self.now.overlays }
    {
        &self.overlays
    }

    /// Equal contents, which share the files and the texts.
    pub fn copy(&self) -> Result<Contents, AllocError>
        ensures { IfOk result (λ copied. copied ≡ self.now) }
    {
        let roots = self.roots.copy()?;
        let snapshot = self.snapshot.copy()?;
        let overlays = self.overlays.copy()?;
        Ok(Contents {
            roots,
            snapshot,
            overlays,
        })
    }

    /// A law of all contents: the files and the texts keep within the limits together, and the paths
    /// of the files stand in order.
    pub fn are_within_limits(&self)
        ensures within { AreWithin self.now.snapshot self.now.overlays }
        ensures order { IsInOrder self.now.snapshot }
    {
        self.snapshot.paths_are_in_order();
    }

    /// These contents with other overlays, None where they pass a limit.
    pub fn with_overlays(&self, overlays: Overlays) -> Result<Option<Contents>, AllocError>
        ensures { IfOk result (λ taken. MatchOption taken (passes_limit self.now.snapshot overlays ≡ true)
            (λ contents. (passes_limit self.now.snapshot overlays ≡ false) × (contents ≡ record self.now { overlays = overlays }))) }
    {
        if passes_limit(&self.snapshot, &overlays) {
            return Ok(None);
        }
        let roots = self.roots.copy()?;
        let snapshot = self.snapshot.copy()?;
        Ok(Some(Contents {
            roots,
            snapshot,
            overlays,
        }))
    }

    /// These contents with other roots, and with what the store has there now.
    pub fn read<F: Files>(
        &self,
        alloc: Global,
        files: &mut F,
        roots: Roots,
    ) -> Result<Contents, LoadRefusal>
        ensures taken { IfOk result (λ contents. contents ≡ record self.now { roots = roots; snapshot = contents.snapshot }) }
        ensures reading { result ≢ Err LoadRefusal.Memory → (mark : Bool) × Tells true mark (F.faults files.old) (F.faults files.new)
            × IsReading (F.told files.old) mark roots self.now.overlays (snapshot_in result) }
        ensures told { F.told files.new ≡ F.told files.old }
        ensures no_less { F.faults files.old ≤ F.faults files.new }
    {
        self.overlays.paths_are_in_order();
        let kept = kept_in(alloc, &self.overlays)?;
        let snapshot = snapshot(alloc, files, &roots, kept.as_slice())?;
        let overlays = self.overlays.copy()?;
        Ok(Contents {
            roots,
            snapshot,
            overlays,
        })
    }

    /// What the store had at a path when the roots were last read.
    fn stored(&self, path: &str) -> Option<LentContents<'_>>
        ensures { option_map contents_view result ≡ contents_at path.now self.now.snapshot }
    {
        match self.snapshot.contents(path) {
            Some(contents) => Some(lent_contents(contents)),
            None => None,
        }
    }

    /// What a path has now: its overlay, or else what the store had there.
    pub fn current(&self, path: &str) -> Option<LentContents<'_>>
        ensures { option_map contents_view result ≡ current self.now path.now }
    {
        match self.overlays.text(path) {
            Some(text) => Some(LentContents::Text(text)),
            None => self.stored(path),
        }
    }

    /// All files as they now are: those of the store, in the order of their paths, each with the text that
    /// the client has given of it, and behind them the others that the client has given, in theirs. The
    /// error is want of memory.
    pub fn files(&self, alloc: Global) -> Result<Vec<LentFile<'_>>, AllocError>
        ensures files { IfOk result (λ files. table_view files.items ≡ files_of self.now) }
        ensures few { IfOk result (λ files. length files.items ≤ 2 * MAX_PATHS) }
    {
        self.snapshot.paths_are_in_order();
        let mut files = Vec::new(alloc);
        add_stored(&self.overlays, &self.snapshot, &mut files)?;
        add_new(&self.overlays, &self.snapshot, &mut files)?;
        Ok(files)
    }

    /// Whether errors may be asked of a file.
    pub fn is_analyzed(&self, path: &str) -> bool
        ensures { result ≡ is_analyzed self.now path.now }
    {
        (is_library(path) && self.overlays.text(path).is_some())
            || (self.snapshot.contents(path).is_some() && is_included(&self.roots, path))
    }
}
