//! One overlay.

ghost use Rattle.std.specs.Prelude.{◌≡◌, IfOk};

use dart_text::Text;
use plain_text::PlainText;
use std::alloc::{AllocError, Global};
use std::marker::Model;
use std::rc::Rc;

// The text that a client has given of the file at a path.
#[derive(Debug, Drop)]
struct Overlaid {
    path: PlainText,
    text: Text,
}

/// The text that a client has given of the file at a path, which its copies share. Contracts see
/// the pair of both.
#[derive(Debug, Drop)]
pub struct Entry {
    shared: Rc<Overlaid>,
}

impl Model for Entry {
    ghost use Rattle.std.specs.Prelude.{ℕ, List};

    ghost Value = { List ℕ × List ℕ };

    ghost view = { λ e. (e.shared.value.path, e.shared.value.text) };
}

impl Entry {
    /// The path with this text.
    pub(crate) fn new(alloc: Global, path: &PlainText, text: Text) -> Result<Entry, AllocError>
        ensures { IfOk result (λ entry. entry ≡ (path.now, text)) }
    {
        let path = path.copy()?;
        Ok(Entry {
            shared: Rc::new(alloc, Overlaid { path, text })?,
        })
    }

    /// The path of the file.
    pub fn path(&self) -> &PlainText
        ensures { result.now ≡ self.now.0 }
    {
        &self.shared.path
    }

    /// The text that the file has.
    pub fn text(&self) -> &Text
        ensures { result.now ≡ self.now.1 }
    {
        &self.shared.text
    }

    /// The same path and text once more, which takes a pointer.
    pub fn share(&self) -> Result<Entry, AllocError>
        ensures { IfOk result (λ shared. shared ≡ self.now) }
    {
        Ok(Entry {
            shared: self.shared.clone()?,
        })
    }
}
