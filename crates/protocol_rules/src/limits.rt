//! The limits on the snapshot and the overlays together.

ghost use Rattle.std.specs.Prelude.{◌≡◌, ◌<◌, ◌+◌, not, count_by, sum_by, nat_lt, MatchOption};
ghost use Rattle.load_files.specs.Contents.{size_of};
ghost use Rattle.load_files.specs.Counts.{path_count, byte_count};
ghost use Rattle.load_files.specs.Kept.{is_kept};
ghost use Rattle.protocol_rules.specs.Limits.{bytes_in, kept_in, passes_limit};

use load_files::{MAX_BYTES, MAX_PATHS, Snapshot};
use overlays::Overlays;

/// Whether a path has an overlay.
#[tactic(auto, using(crate::proofs::KeptLemmas::is_kept_in))]
fn is_overlaid(overlays: &Overlays, path: &str) -> bool
    ensures { result ≡ is_kept path.now (kept_in overlays.now) }
{
    overlays.text(path).is_some()
}

/// How many files have no overlay.
fn count_files(snapshot: &Snapshot, overlays: &Overlays) -> usize
    ensures { result ≡ count_by (λ file. not (is_kept file.0 (kept_in overlays.now))) snapshot.now }
{
    let mut count = 0;
    for file in snapshot.files() {
        if !is_overlaid(overlays, file.path().as_str()) {
            count += 1;
        }
    }
    count
}

/// Whether a snapshot and overlays have more than `MAX_PATHS` distinct paths together.
fn are_many(snapshot: &Snapshot, overlays: &Overlays) -> bool
    ensures { result ≡ nat_lt MAX_PATHS (path_count (kept_in overlays.now) snapshot.now) }
{
    let paths = overlays.entries().len();
    paths > MAX_PATHS || count_files(snapshot, overlays) > MAX_PATHS - paths
}

/// What the texts of the overlays leave of `MAX_BYTES`, None where they are more.
fn left_by_texts(overlays: &Overlays) -> Option<u64>
    ensures { MatchOption result (MAX_BYTES < bytes_in overlays.now) (λ left. left + bytes_in overlays.now ≡ MAX_BYTES) }
{
    let mut left = MAX_BYTES;
    for entry in overlays.entries() {
        let bytes = entry.text().as_str().len() as u64;
        if bytes > left {
            return None;
        }
        left -= bytes;
    }
    Some(left)
}

/// Whether the files of a snapshot have more bytes than so many.
fn are_more(snapshot: &Snapshot, most: u64) -> bool
    ensures { result ≡ nat_lt most (sum_by (λ file. size_of file.1) snapshot.now) }
{
    let mut left = most;
    for file in snapshot.files() {
        let bytes = file.contents().size();
        if bytes > left {
            return true;
        }
        left -= bytes;
    }
    false
}

/// Whether a snapshot and overlays have more than `MAX_BYTES` bytes together.
#[tactic(auto, using(crate::proofs::KeptLemmas::bytes_kept))]
fn are_large(snapshot: &Snapshot, overlays: &Overlays) -> bool
    ensures { result ≡ nat_lt MAX_BYTES (byte_count (kept_in overlays.now) snapshot.now) }
{
    match left_by_texts(overlays) {
        Some(left) => are_more(snapshot, left),
        None => true,
    }
}

/// Whether a snapshot and overlays have more than `MAX_PATHS` distinct paths together, or more than
/// `MAX_BYTES` bytes.
#[tactic(auto, unfolding(crate::specs::Limits::passes_limit))]
pub fn passes_limit(snapshot: &Snapshot, overlays: &Overlays) -> bool
    ensures { result ≡ passes_limit snapshot.now overlays.now }
{
    are_many(snapshot, overlays) || are_large(snapshot, overlays)
}
