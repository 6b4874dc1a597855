//! Texts, each once.

ghost use Rattle.std.specs.Prelude.{◌≡◌, [], bytes_eq, position, OnOk};
ghost use Rattle.std.specs.List.{list_any};
ghost use Rattle.libraries.specs.Files.{with_text};

use std::alloc::{AllocError, Global};
use std::marker::Model;
use text_places::TextPlaces;

/// Texts, each once, that others lend.
#[derive(Drop)]
pub struct Texts<'t> {
    texts: TextPlaces<'t>,
}

impl<'t> Model for Texts<'t> {
    ghost use Rattle.std.specs.Prelude.{ℕ, List};

    ghost Value = { List (List ℕ) };

    ghost view = { λ t. t.texts };
}

impl<'t> Texts<'t> {
    /// No text.
    pub(crate) fn new(alloc: Global) -> Texts<'t>
        ensures { result ≡ [] }
    {
        Texts {
            texts: TextPlaces::new(alloc),
        }
    }

    /// Puts a text behind the others, unless it is among them.
    pub(crate) fn add(&mut self, text: &'t str) -> Result<(), AllocError>
        ensures { OnOk result (self.new ≡ with_text self.old text.now) }
    {
        self.texts.add(text)?;
        Ok(())
    }

    /// Whether a text is among them.
    pub(crate) fn has(&self, text: &str) -> bool
        ensures { result ≡ list_any (bytes_eq text.now) self.now }
    {
        self.texts.place_of(text).is_some()
    }

    /// The place of a text.
    pub fn place(&self, text: &str) -> Option<usize>
        ensures { result ≡ position (bytes_eq text.now) self.now }
    {
        self.texts.place_of(text)
    }
}
