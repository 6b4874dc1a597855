//! The overlays of a session.

ghost use Rattle.std.specs.Prelude.{◌≡◌, ◌∷◌, [], IfOk, IfErr, OnOk, OnErr};
ghost use Rattle.std.specs.Option.{option_copied};
ghost use Rattle.overlays.specs.Tables.{IsInOrder, text_in, put_text, drop_text};
ghost use Rattle.overlays.specs.Places.{StandsAt, WouldStandAt};
ghost use Rattle.overlays.specs.Applied.{applied};
ghost use Rattle.overlays.specs.Results.{Applies};

use crate::change::text_after;
use crate::entry::Entry;
use crate::refusal::OverlayRefusal;
use dart_text::Text;
use plain_text::PlainText;
use proto_json::FileOverlay;
use std::alloc::{AllocError, Global};
use std::marker::Model;

/// The texts that a client has given, in the order of their paths.
///
/// A copy shares the texts, until one of the two changes them.
#[derive(Drop)]
pub struct Overlays {
    entries: Vec<Entry>,
}

impl Model for Overlays {
    ghost use Rattle.overlays.specs.Tables.{PathsAndTexts, IsInOrder};

    ghost Value = { PathsAndTexts };

    ghost view = { λ o. o.entries.items };

    ghost invariant = { λ o. IsInOrder o.entries.items };
}

impl Overlays {
    /// No overlays.
    pub fn new(alloc: Global) -> Overlays
        ensures { result ≡ [] }
    {
        Overlays {
            entries: Vec::new(alloc),
        }
    }

    /// The files of a request change, gain or lose their texts, all of them or none: after a refusal
    /// the overlays are as before. It costs a copy of the pointers to all texts, for each file a
    /// search and a move of the pointers behind it, for a changed one two copies of its text, and for
    /// each edit a walk over the pieces of that text.
    pub fn apply(&mut self, files: &[FileOverlay]) -> Result<(), OverlayRefusal>
        ensures { Applies result self.old self.new (applied files.now self.old) }
    {
        let mut changed = self.copy()?;
        for file in files {
            changed.apply_file(file)?;
        }
        *self = changed;
        Ok(())
    }

    /// The text of a file: None exactly where it has no overlay.
    pub fn text(&self, path: &str) -> Option<&Text>
        ensures { option_copied result ≡ text_in path.now self.now }
    {
        match self.search(path) {
            Ok(place) => Some(self.entries[place].text()),
            Err(_) => None,
        }
    }

    /// All overlays, in the order of their paths.
    pub fn entries(&self) -> &[Entry]
        ensures { result.now ≡ self.now }
    {
        &self.entries
    }

    /// Equal overlays, which share the texts.
    pub fn copy(&self) -> Result<Overlays, AllocError>
        ensures { IfOk result (λ copied. copied ≡ self.now) }
    {
        let count = self.entries.len().saturating_add(1);
        let mut entries = Vec::with_capacity(*self.entries.allocator(), count)?;
        for entry in &self.entries {
            entries.push(entry.share()?)?;
        }
        Ok(Overlays { entries })
    }

    /// A law of all overlays: they stand in the order of their paths, each path once.
    pub fn paths_are_in_order(&self)
        ensures { IsInOrder self.now }
    {
        // Opens the invariant for the contract.
        let _ = &self.entries;
    }

    // One file of a request changes, gains or loses its text.
    fn apply_file(&mut self, file: &FileOverlay) -> Result<(), OverlayRefusal>
        ensures { Applies result self.old self.new (applied (file.now ∷ []) self.old) }
    {
        let alloc = *self.entries.allocator();
        match text_after(alloc, file, self.text(file.path.as_str()))? {
            Some(text) => {
                self.put(&file.path, text)?;
                Ok(())
            }
            None => {
                self.remove(file.path.as_str());
                Ok(())
            }
        }
    }

    // The file at the path has this text from now on.
    fn put(&mut self, path: &PlainText, text: Text) -> Result<(), AllocError>
        ensures ok { OnOk result (self.new ≡ put_text path.now text self.old) }
        ensures err { OnErr result (self.new ≡ self.old) }
    {
        let entry = Entry::new(*self.entries.allocator(), path, text)?;
        match self.search(path.as_str()) {
            Ok(place) => {
                self.entries[place] = entry;
                Ok(())
            }
            Err(place) => {
                self.entries.insert(place, entry)?;
                Ok(())
            }
        }
    }

    // The file at the path has no overlay from now on.
    fn remove(&mut self, path: &str)
        ensures { self.new ≡ drop_text path.now self.old }
    {
        if let Ok(place) = self.search(path) {
            self.entries.remove(place);
        }
    }

    // Where the overlay of the path stands, or else where it would.
    fn search(&self, path: &str) -> Result<usize, usize>
        ensures found { IfOk result (StandsAt self.now path.now) }
        ensures absent { IfErr result (WouldStandAt self.now path.now) }
    {
        self.entries
            .binary_search_by(|entry| entry.path().as_str().cmp(path))
    }
}
