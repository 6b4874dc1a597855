//! By what the place of a text is found.

ghost use Rattle.std.specs.Prelude.{◌≡◌, ◌<◌, ◌+◌, ◌^◌, ℕ, List, ◌↔◌, true, false, bytes_eq, map, position, slice_get, Some, OnOk, IfSome, IfNone};
ghost use Rattle.std.specs.Option.{option_copied};
ghost use Rattle.text_places.specs.Tables.{AreTaken, IsFoundAt, IsFree, IsTable, kept_for};

use crate::hashes::hash_of;
use crate::slots::{SLOTS_OF_A_HASH, Slot, first_of, free_slot, tag_of, wider};
use std::alloc::{AllocError, Global};
use std::collections::BTreeMap;

/// The places of texts, by their hashes and in their order.
#[derive(Drop)]
pub struct TextIndex<'t> {
    /// Slots, of which each hash names some that lie together.
    pub slots: Vec<Slot>,
    /// Which bits of a hash say where its slots begin.
    pub mask: u32,
    /// The places of texts that found no slot.
    pub crowded: BTreeMap<&'t str, usize>,
}

/// The text at a place.
fn text_at<'a, 't>(texts: &'a [&'t str], place: usize) -> Option<&'a &'t str>
    ensures { option_copied result ≡ slice_get texts.now place }
{
    texts.get(place)
}

/// Whether a text stands at a place.
pub(crate) fn is_at(texts: &[&str], place: usize, text: &str) -> bool
    ensures { (result ≡ true) ↔ (slice_get (map (λ t. t.now) texts.now) place ≡ Some text.now) }
{
    match text_at(texts, place) {
        Some(held) => *held == text,
        None => false,
    }
}

impl<'t> TextIndex<'t> {
    /// No slot.
    pub(crate) fn new(alloc: Global) -> TextIndex<'t> {
        TextIndex {
            slots: Vec::new(alloc),
            mask: 0,
            crowded: BTreeMap::new(alloc),
        }
    }

    /// Free slots, twice as many as these.
    pub(crate) fn wider(&self) -> Result<TextIndex<'t>, AllocError> {
        let alloc = *self.slots.allocator();
        let mask = wider(self.mask);
        let slots = Vec::from_elem(alloc, free_slot(), mask as usize + SLOTS_OF_A_HASH)?;
        Ok(TextIndex {
            slots,
            mask,
            crowded: BTreeMap::new(alloc),
        })
    }

    /// Whether half of the slots, or more, are those of so many texts.
    pub(crate) fn is_full_of(&self, count: usize) -> bool {
        count >= self.slots.len() / 2
    }

    /// The place of a text that found no slot.
    fn place_in_crowd(&self, texts: &[&str], text: &str) -> Option<usize>
        ensures some { IfSome result (λ place. slice_get (map (λ t. t.now) texts.now) place ≡ Some text.now) }
        ensures none { IfNone result ((place : ℕ) → slice_get (map (λ t. t.now) texts.now) place ≡ Some text.now → kept_for text.now self.now.crowded ≡ Some place → ⊥) }
    {
        let place = self.crowded.get(text).copied()?;
        if is_at(texts, place, text) {
            Some(place)
        } else {
            None
        }
    }

    /// The slot at a place.
    fn slot_at(&self, place: usize) -> Option<Slot>
        ensures { result ≡ slice_get self.now.slots.items place }
    {
        self.slots.get(place).copied()
    }

    /// The place of a text.
    pub(crate) fn place_of(&self, texts: &[&str], text: &str) -> Option<usize>
        requires { IsTable (map (λ t. t.now) texts.now) self.now }
        ensures { result ≡ position (bytes_eq text.now) (map (λ t. t.now) texts.now) }
    {
        let hash = hash_of(text);
        let tag = tag_of(hash);
        let first = first_of(hash, self.mask);
        for step in 0..SLOTS_OF_A_HASH {
            let Some(slot) = self.slot_at(first + step) else {
                continue;
            };
            let place = slot.place as usize;
            if place >= texts.len() {
                return None;
            }
            if slot.tag == tag && is_at(texts, place, text) {
                return Some(place);
            }
        }
        self.place_in_crowd(texts, text)
    }

    /// The first slot of a hash that tells none of so many places.
    fn free_place(&self, hash: u64, count: usize) -> Option<usize>
        ensures some { IfSome result (λ place. IsFree self.now.slots.items self.now.mask hash count place) }
        ensures few { IfSome result (λ _. count < 2 ^ 32) }
        ensures none { IfNone result (AreTaken self.now.slots.items self.now.mask hash count 8) }
    {
        let first = first_of(hash, self.mask);
        for step in 0..SLOTS_OF_A_HASH {
            let Some(slot) = self.slot_at(first + step) else {
                continue;
            };
            if slot.place as usize >= count {
                return Some(first + step);
            }
        }
        None
    }

    /// Puts a text at the place behind others, among which it isn't.
    pub(crate) fn put(&mut self, text: &'t str, place: usize) -> Result<(), AllocError>
        ensures found { OnOk result (IsFoundAt self.new (place + 1) text.now place) }
        ensures others { (other : List ℕ) (at : ℕ) → at < place → bytes_eq text.now other ≡ false → IsFoundAt self.old place other at → IsFoundAt self.new place other at }
    {
        let hash = hash_of(text);
        match self.free_place(hash, place) {
            Some(free) => {
                self.slots[free] = Slot {
                    tag: tag_of(hash),
                    place: place as u32,
                };
            }
            None => {
                self.crowded.insert(text, place)?;
            }
        }
        Ok(())
    }
}
