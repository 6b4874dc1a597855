//! The words of a text, each once.

ghost use Rattle.std.specs.Prelude.{◌≡◌, ◌+◌, ◌≤◌, [], length, IfOk, OnOk, bytes_eq};
ghost use Rattle.std.specs.List.{position_or_len};
ghost use Rattle.dart_scan.specs.Scanned.{with_word};

use dart_tokens::Words;
use plain_text::PlainText;
use std::alloc::{AllocError, Global};
use std::marker::Model;
use text_places::TextPlaces;

/// Words in the order of their first places, which the text lends.
#[derive(Drop)]
pub struct Places<'t> {
    texts: TextPlaces<'t>,
}

impl<'t> Model for Places<'t> {
    ghost use Rattle.std.specs.Prelude.{ℕ, List};

    ghost Value = { List (List ℕ) };

    ghost view = { λ w. w.texts };
}

impl<'t> Places<'t> {
    /// No word.
    pub fn new(alloc: Global) -> Places<'t>
        ensures { result ≡ [] }
    {
        Places {
            texts: TextPlaces::new(alloc),
        }
    }

    /// The place of the word, which comes last if it is new.
    pub fn place(&mut self, word: &'t str) -> Result<usize, AllocError>
        ensures words { OnOk result (self.new ≡ with_word self.old word.now) }
        ensures few { OnOk result (length self.new ≤ length self.old + 1) }
        ensures within { IfOk result (λ place. place ≤ length self.old) }
        ensures place { IfOk result (λ place. place ≡ position_or_len (bytes_eq word.now) self.old) }
    {
        self.texts.add(word)
    }

    /// The words, each in memory of its own.
    pub fn copied(&self, alloc: Global) -> Result<Words, AllocError>
        ensures { IfOk result (λ words. words ≡ self.now) }
    {
        let mut words = Vec::new(alloc);
        let lent = self.texts.as_slice();
        for word in lent {
            words.push(PlainText::new(alloc, *word)?)?;
        }
        Ok(Words::from_vec(words))
    }
}
