//! The hashes of texts.

ghost use Rattle.std.specs.Prelude.{◌≡◌};
ghost use Rattle.text_places.specs.Hashes.{hash_of};

use std::hash::{FoldHasher, Hasher};

/// The hash of a text.
pub(crate) fn hash_of(text: &str) -> u64
    ensures { result ≡ hash_of text.now }
{
    let mut hasher = FoldHasher::default();
    hasher.write(text.as_bytes());
    hasher.finish()
}
