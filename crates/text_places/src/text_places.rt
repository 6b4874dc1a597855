//! Texts, each once.

ghost use Rattle.std.specs.Prelude.{◌≡◌, [], ◌∷◌, ◌++◌, false, bytes_eq, map, position, Some, IfSome, OnOk, OnErr, IfOk};
ghost use Rattle.std.specs.List.{list_any, position_or_len};
ghost use Rattle.text_places.specs.Tables.{with_text};

use crate::hints::Hints;
use crate::text_index::{TextIndex, is_at};
use std::alloc::{AllocError, Global};
use std::marker::Model;

/// Texts, each once, in the order in which they came, that others lend.
#[derive(Drop)]
pub struct TextPlaces<'t> {
    texts: Vec<&'t str>,
    index: TextIndex<'t>,
    hints: Hints,
}

impl<'t> Model for TextPlaces<'t> {
    ghost use Rattle.std.specs.Prelude.{ℕ, List, map};

    ghost Value = { List (List ℕ) };

    ghost use Rattle.text_places.specs.Tables.{IsTable};

    ghost view = { λ t. map (λ text. text.now) t.texts.items };

    ghost invariant = { λ t. IsTable (map (λ text. text.now) t.texts.items) t.index };
}

impl<'t> TextPlaces<'t> {
    /// No text.
    pub fn new(alloc: Global) -> TextPlaces<'t>
        ensures { result ≡ [] }
    {
        TextPlaces {
            texts: Vec::new(alloc),
            index: TextIndex::new(alloc),
            hints: Hints::new(alloc),
        }
    }

    /// The texts.
    pub fn as_slice(&self) -> &[&'t str]
        ensures { map (λ text. text.now) result.now ≡ self.now }
    {
        self.texts.as_slice()
    }

    /// The place of a text.
    pub fn place_of(&self, text: &str) -> Option<usize>
        ensures { result ≡ position (bytes_eq text.now) self.now }
    {
        self.index.place_of(self.texts.as_slice(), text)
    }

    /// Puts a text behind the others, among which it isn't.
    fn put(&mut self, text: &'t str) -> Result<(), AllocError>
        requires { list_any (bytes_eq text.now) self.old ≡ false }
        ensures put { OnOk result (self.new ≡ self.old ++ text.now ∷ []) }
        ensures kept { OnErr result (self.new ≡ self.old) }
    {
        self.index.put(text, self.texts.len())?;
        self.texts.push(text)?;
        Ok(())
    }

    /// The same texts, with more slots.
    fn widened(&self) -> Result<TextPlaces<'t>, AllocError>
        ensures { IfOk result (λ widened. widened ≡ self.now) }
    {
        let texts = self.texts.as_slice();
        let mut widened = TextPlaces {
            texts: Vec::with_capacity(*self.texts.allocator(), texts.len())?,
            index: self.index.wider()?,
            hints: self.hints.wider()?,
        };
        for text in texts {
            widened.put(*text)?;
        }
        Ok(widened)
    }

    /// The place of a text, where a hint tells it.
    fn hinted(&self, text: &str) -> Option<usize>
        ensures { IfSome result (λ place. position (bytes_eq text.now) self.now ≡ Some place) }
    {
        let place = self.hints.get(text)?;
        if is_at(self.texts.as_slice(), place, text) {
            Some(place)
        } else {
            None
        }
    }

    /// The text is hinted at a place.
    fn hint(&mut self, text: &str, place: usize)
        ensures { self.new ≡ self.old }
    {
        self.hints.set(text, place);
    }

    /// The place of a text that no hint tells, which comes last if it is new.
    fn add_unhinted(&mut self, text: &'t str) -> Result<usize, AllocError>
        ensures texts { OnOk result (self.new ≡ with_text self.old text.now) }
        ensures place { IfOk result (λ place. place ≡ position_or_len (bytes_eq text.now) self.old) }
        ensures kept { OnErr result (self.new ≡ self.old) }
    {
        if let Some(place) = self.place_of(text) {
            return Ok(place);
        }
        let place = self.texts.len();
        if self.index.is_full_of(place) {
            *self = self.widened()?;
        }
        self.put(text)?;
        Ok(place)
    }

    /// The place of a text, which comes last if it is new.
    pub fn add(&mut self, text: &'t str) -> Result<usize, AllocError>
        ensures texts { OnOk result (self.new ≡ with_text self.old text.now) }
        ensures place { IfOk result (λ place. place ≡ position_or_len (bytes_eq text.now) self.old) }
        ensures kept { OnErr result (self.new ≡ self.old) }
    {
        if let Some(place) = self.hinted(text) {
            return Ok(place);
        }
        let place = self.add_unhinted(text)?;
        self.hint(text, place);
        Ok(place)
    }
}
