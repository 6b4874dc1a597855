//! A snapshot while it is made.

ghost use Rattle.std.specs.Prelude.{◌≡◌, ◌≢◌, ◌≤◌, [], Err, IfErr, IsTrue};
ghost use Rattle.load_files.specs.Causes.{PassesItsLimit};
ghost use Rattle.load_files.specs.Kept.{are_kept};
ghost use Rattle.load_files.specs.Loads.{with_file, Gives};

use crate::kept::{KeptFile, bytes_of, is_kept};
use crate::refusal::LoadRefusal;
use crate::table::Snapshot;
use std::alloc::Global;
use std::marker::Model;

/// The most distinct paths that a snapshot and the overlays have together.
pub const MAX_PATHS: usize = 10_000;

/// The most bytes that the files of a snapshot and the overlays have together: 64 MiB.
pub const MAX_BYTES: u64 = 67_108_864;

/// The files that were read so far, within the limits, beside the overlays that count too.
#[derive(Drop)]
pub struct Loading<'k> {
    kept: &'k [KeptFile],
    snapshot: Snapshot,
    paths: usize,
    bytes: u64,
}

impl<'k> Model for Loading<'k> {
    ghost use Rattle.load_files.specs.Loads.{Loaded};
    ghost use Rattle.load_files.specs.Counts.{IsCounted};

    ghost Value = { Loaded };

    ghost view = { λ l. record { kept = l.kept.now; files = l.snapshot } };

    ghost invariant = { λ l. IsCounted l.kept.now l.snapshot l.paths l.bytes };
}

impl<'k> Loading<'k> {
    /// No files, beside these overlays.
    #[tactic(auto, using(crate::proofs::Counting::counted_none))]
    pub fn new(alloc: Global, kept: &'k [KeptFile]) -> Loading<'k>
        requires { IsTrue (are_kept kept.now) }
        ensures { result ≡ record { kept = kept.now; files = [] } }
    {
        Loading {
            kept,
            snapshot: Snapshot::new(alloc),
            paths: kept.len(),
            bytes: bytes_of(kept),
        }
    }

    /// One more file, unless its path was read before; it counts in the limits.
    pub fn add(&mut self, alloc: Global, path: &str, bytes: &[u8]) -> Result<(), LoadRefusal>
        ensures added { Gives result self.new.files (with_file self.old.kept path.now bytes.now self.old.files) }
        ensures kept { self.new.kept ≡ self.old.kept }
        ensures no_fault { result ≢ Err LoadRefusal.FilesFault }
        ensures passed { IfErr result PassesItsLimit }
    {
        let Err(place) = self.snapshot.search(path) else {
            return Ok(());
        };
        let paths = self.paths + usize::from(!is_kept(self.kept, path));
        if paths > MAX_PATHS {
            let count = paths as u64;
            return Err(LoadRefusal::TooManyFiles { count });
        }
        let sum = self.bytes + bytes.len() as u64;
        if sum > MAX_BYTES {
            return Err(LoadRefusal::TooMuch { bytes: sum });
        }
        self.snapshot.insert(alloc, place, path, bytes)?;
        self.paths = paths;
        self.bytes = sum;
        Ok(())
    }

    /// The files that were read.
    pub fn into_snapshot(self) -> Snapshot
        ensures { result ≡ self.entry.files }
    {
        self.snapshot
    }
}
