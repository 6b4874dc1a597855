//! What counts in the limits besides the files of a snapshot.

ghost use Rattle.std.specs.Prelude.{◌≡◌, IsTrue, nat_le};
ghost use Rattle.load_files.specs.Kept.{are_distinct, are_kept, bytes_of, is_kept};

use crate::loading::{MAX_BYTES, MAX_PATHS};
use plain_text::PlainText;

/// A file that has an overlay: it counts in the limits with its path and with the bytes of its
/// overlay.
#[derive(Debug, Drop)]
pub struct KeptFile {
    /// The path of the file.
    pub path: PlainText,
    /// How many bytes the overlay has, in UTF-8.
    pub bytes: u64,
}

/// Whether one of these files has this path.
pub(crate) fn is_kept(kept: &[KeptFile], path: &str) -> bool
    ensures { result ≡ is_kept path.now kept.now }
{
    kept.iter().any(|file| file.path.as_str() == path)
}

/// The bytes of all these overlays.
pub(crate) fn bytes_of(kept: &[KeptFile]) -> u64
    requires { IsTrue (are_kept kept.now) }
    ensures { result ≡ bytes_of kept.now }
{
    let mut bytes: u64 = 0;
    for file in kept {
        bytes += file.bytes;
    }
    bytes
}

/// Whether these overlays have at most `MAX_BYTES` bytes.
fn are_small(kept: &[KeptFile]) -> bool
    ensures { result ≡ nat_le (bytes_of kept.now) MAX_BYTES }
{
    let mut left = MAX_BYTES;
    for file in kept {
        if file.bytes > left {
            return false;
        }
        left -= file.bytes;
    }
    true
}

/// Whether no two of these overlays have the same path.
fn are_distinct(kept: &[KeptFile]) -> bool
    ensures { result ≡ are_distinct kept.now }
{
    let mut rest = kept;
    while let [file, more @ ..] = rest {
        if is_kept(more, file.path.as_str()) {
            return false;
        }
        rest = more;
    }
    true
}

/// Whether these overlays may stand beside a snapshot: they are at most `MAX_PATHS`, have at most
/// `MAX_BYTES` bytes together, and have distinct paths.
pub fn are_kept(kept: &[KeptFile]) -> bool
    ensures { result ≡ are_kept kept.now }
{
    kept.len() <= MAX_PATHS && are_small(kept) && are_distinct(kept)
}
