//! What the rules said of the nodes of a body, found by the numbers of the nodes.

ghost use Rattle.std.specs.Prelude.{◌≡◌, IfOk, map, slice_get};
ghost use Rattle.std.specs.List.{range_with_len};
ghost use Rattle.std.specs.Option.{option_copied};
ghost use Rattle.elaborate.specs.Sources as sources;
ghost use Rattle.elaborate.specs.Lookups.{HasNumbers, Indexes};

use core_ir::SlotId;
use dart_tree::Place;
use flow_model::{Flow, LocalId};
use judgement::{Meaning, TypedNode};
use plain_text::PlainText;
use std::alloc::{AllocError, Global};
use std::marker::Model;

/// What code is made from: the lexemes of words, and what the rules said of the nodes of a body, each of
/// which is found at once by its number. Contracts see it as its value `Sources`.
#[derive(Drop)]
pub(crate) struct Said<'a> {
    words: &'a [PlainText],
    first: u32,
    typed: &'a [TypedNode],
    entries: Vec<usize>,
    nowhere: Flow,
}

impl<'a> Model for Said<'a> {
    ghost use Rattle.elaborate.specs.Sources.{Sources};
    ghost use Rattle.elaborate.specs.Lookups.{IsIndexed, sources_code};

    ghost Value = { Sources };

    ghost coded = { sources_code };

    ghost view = { λ s. record { words = s.words.now; first = s.first; typed = s.typed.now } };

    ghost invariant = { λ s. IsIndexed s.first s.typed.now s.entries.items s.nowhere };
}

impl<'a> Said<'a> {
    /// Puts what was said of the nodes of a body in the order of their numbers, which are so many from
    /// the first on.
    pub(crate) fn new(
        alloc: Global,
        words: &'a [PlainText],
        typed: &'a [TypedNode],
        first: u32,
        count: usize,
    ) -> Result<Said<'a>, AllocError>
        requires { HasNumbers first count typed.now }
        ensures { IfOk result (λ said. said ≡ record { words = words.now; first = first; typed = typed.now }) }
    {
        let entries = index(alloc, typed, first, count)?;
        let nowhere = unreached(alloc)?;
        Ok(Said {
            words,
            first,
            typed,
            entries,
            nowhere,
        })
    }

    /// What was said of all nodes.
    pub(crate) fn typed(&self) -> &[TypedNode]
        ensures { result.now ≡ self.now.typed }
    {
        self.typed
    }

    /// The number of the first node.
    pub(crate) fn first(&self) -> u32
        ensures { result ≡ self.now.first }
    {
        self.first
    }

    /// What was said of the node at a place.
    pub(crate) fn said_at(&self, at: Place) -> Option<&TypedNode>
        ensures { option_copied result ≡ sources.said_at self.now at }
    {
        if at.node.0 < self.first {
            return None;
        }
        let place = (at.node.0 - self.first) as usize;
        if place >= self.entries.len() {
            return None;
        }
        self.typed.get(self.entries[place])
    }

    /// What is known before the node at a place.
    pub(crate) fn known_before(&self, at: Place) -> &Flow
        ensures { result.now ≡ sources.known_before self.now at }
    {
        match self.said_at(at) {
            Some(said) => &said.before,
            None => &self.nowhere,
        }
    }

    /// What is known behind the node at a place.
    pub(crate) fn known_behind(&self, at: Place) -> &Flow
        ensures { result.now ≡ sources.known_behind self.now at }
    {
        match self.said_at(at) {
            Some(said) => &said.after,
            None => &self.nowhere,
        }
    }

    /// What the node at a place names.
    pub(crate) fn named_at(&self, at: Place) -> Option<Meaning>
        ensures { result ≡ sources.named_at self.now at }
    {
        match self.said_at(at) {
            Some(said) => said.element,
            None => None,
        }
    }

    /// The local that the node at a place names, if it names one.
    pub(crate) fn local_at(&self, at: Place) -> Option<LocalId>
        ensures { result ≡ sources.local_meant (sources.named_at self.now at) }
    {
        local_meant(self.named_at(at))
    }

    /// The slot of the node at a place.
    pub(crate) fn slot_at(&self, at: Place) -> SlotId
        ensures { result ≡ sources.slot_at self.now at }
    {
        SlotId(at.node.0.saturating_sub(self.first))
    }

    /// The slot of a local.
    pub(crate) fn slot_of_local(&self, var: LocalId) -> SlotId
        ensures { result ≡ sources.slot_of_local self.now var }
    {
        SlotId(var.0.saturating_sub(self.first))
    }

    /// The text of a word, if there is one.
    pub(crate) fn word(&self, word: u32) -> Option<&PlainText>
        ensures { option_copied result ≡ slice_get self.now.words word }
    {
        self.words.get(word as usize)
    }
}

/// The local that a meaning is, if it is one.
pub(crate) fn local_meant(meaning: Option<Meaning>) -> Option<LocalId>
    ensures { result ≡ sources.local_meant meaning }
{
    match meaning {
        Some(Meaning::Local(var)) => Some(var),
        Some(Meaning::Nothing) => None,
        Some(Meaning::Print) => None,
        Some(Meaning::Class(_)) => None,
        Some(Meaning::Other) => None,
        None => None,
    }
}

/// Whether a node that names this names `print`.
pub(crate) fn is_print(meaning: Option<Meaning>) -> bool
    ensures { result ≡ sources.is_print meaning }
{
    match meaning {
        Some(Meaning::Print) => true,
        Some(Meaning::Nothing) => false,
        Some(Meaning::Local(_)) => false,
        Some(Meaning::Class(_)) => false,
        Some(Meaning::Other) => false,
        None => false,
    }
}

// Where the first thing stands that was said of each node; past all of them where nothing was.
fn index(
    alloc: Global,
    typed: &[TypedNode],
    first: u32,
    count: usize,
) -> Result<Vec<usize>, AllocError>
    requires { HasNumbers first count typed.now }
    ensures { IfOk result (λ entries. Indexes first count typed.now typed.now entries.items) }
{
    let mut entries = repeated(alloc, typed.len(), count)?;
    for i in (0..typed.len()).rev() {
        let said = &typed[i];
        let place = (said.node.0 - first) as usize;
        entries[place] = i;
    }
    Ok(entries)
}

// So many times the same number.
fn repeated(alloc: Global, number: usize, count: usize) -> Result<Vec<usize>, AllocError>
    ensures { IfOk result (λ numbers. numbers.items ≡ map (λ k. number) (range_with_len 0 count)) }
{
    (0..count).map(|_| number).collect(alloc)
}

// What is known at a point that isn't reached, at which no local is in scope.
fn unreached(alloc: Global) -> Result<Flow, AllocError>
    ensures { IfOk result (λ flow. flow ≡ sources.nowhere) }
{
    let mut flow = Flow::start(alloc, &[])?;
    flow.exit();
    Ok(flow)
}
