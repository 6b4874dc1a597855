//! Why the files of a request are refused.

ghost use Rattle.std.specs.Prelude.{◌≡◌, IfOk};
ghost use Rattle.overlays.specs.declared.refusal.OverlayRefusal.TheVariants.{BadChange, TooLong, Memory};

use plain_text::PlainText;
use std::alloc::AllocError;
use thiserror::Error;

/// Why the files of a request are refused: the first of them that is.
#[derive(Debug, Drop, Error)]
pub enum OverlayRefusal {
    /// A change of this file doesn't fit: the file has no overlay, or an edit reaches past the end
    /// of its text or splits a surrogate pair.
    #[error("the change does not fit the overlay")]
    BadChange { path: PlainText },
    /// The text of this file would have so many bytes, more than a file may have.
    #[error("the text would have {bytes} bytes")]
    TooLong { path: PlainText, bytes: u64 },
    /// Want of memory.
    #[error("out of memory")]
    Memory,
}

impl From<AllocError> for OverlayRefusal {
    ghost from_gives = { λ _ refusal. refusal ≡ Memory };

    fn from(_error: AllocError) -> OverlayRefusal {
        OverlayRefusal::Memory
    }
}

impl OverlayRefusal {
    // A change of the file at the path doesn't fit.
    pub(crate) fn bad_change(path: &PlainText) -> Result<OverlayRefusal, AllocError>
        ensures { IfOk result (λ refusal. refusal ≡ BadChange path.now) }
    {
        let path = path.copy()?;
        Ok(OverlayRefusal::BadChange { path })
    }

    // The text of the file at the path would have so many bytes.
    pub(crate) fn too_long(path: &PlainText, bytes: u64) -> Result<OverlayRefusal, AllocError>
        ensures { IfOk result (λ refusal. refusal ≡ TooLong path.now bytes) }
    {
        let path = path.copy()?;
        Ok(OverlayRefusal::TooLong { path, bytes })
    }
}
