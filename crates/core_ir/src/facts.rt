//! What is known at a point.

ghost use Rattle.std.specs.Prelude.{◌≡◌, ◌<◌, ◌≤◌, ◌++◌, ◌∷◌, [], ◌↔◌, ℕ, All, IfOk, OnOk, OnErr, IsTrue, length, slice_index_or};
ghost use Rattle.core_ir.specs.PointFacts.{AreInOrder, put};
ghost use Rattle.core_ir.specs.declared.facts.SlotFact.{SlotFact as Fact};

use crate::pages::{Page, Pages, page_of};
use crate::points::SlotId;
use dart_types::DartType;
use std::alloc::{AllocError, Global};
use std::marker::Model;
use std::rc::Rc;

/// What type the value of a slot has, and who may write it.
#[derive(Drop)]
pub enum Held {
    /// Only terms of the slot's own function write it, and its value has the declared type.
    Declared,
    /// Only terms of the slot's own function write it, and its value has this type.
    Own(DartType),
    /// Others may write it too, so its value has the declared type and no type that is known to be
    /// narrower.
    Shared,
}

/// What is known of a slot.
#[derive(Drop)]
pub struct Known {
    /// Whether the slot has a value for certain.
    pub assigned: bool,
    /// What type that value has.
    pub held: Held,
}

/// A slot with what is known of it.
#[derive(Drop)]
pub struct SlotFact {
    /// The slot.
    pub slot: SlotId,
    /// What is known of it.
    pub known: Known,
}

/// What is known of one slot, shared by the points at which it is the same. Contracts see it as the
/// fact.
#[derive(Drop)]
pub struct SharedFact {
    fact: Rc<SlotFact>,
}

impl Model for SharedFact {
    ghost use Rattle.core_ir.specs.declared.facts.SlotFact.{SlotFact};
    ghost use Rattle.core_ir.specs.contracts.facts.SlotFact as slot_fact;

    ghost Value = { SlotFact };

    ghost coded = { slot_fact.the_row.coded };

    ghost view = { λ a. a.fact.value };
}

impl SharedFact {
    /// A fact, to be shared.
    pub fn new(alloc: Global, fact: SlotFact) -> Result<SharedFact, AllocError>
        ensures { IfOk result (λ shared. shared ≡ fact) }
    {
        Ok(SharedFact {
            fact: Rc::new(alloc, fact)?,
        })
    }

    /// The same fact once more. It copies a pointer.
    pub fn share(&self) -> Result<SharedFact, AllocError>
        ensures { IfOk result (λ shared. shared ≡ self.now) }
    {
        Ok(SharedFact {
            fact: self.fact.clone()?,
        })
    }

    /// The fact.
    pub fn fact(&self) -> &SlotFact
        ensures { result.now ≡ self.now }
    {
        &self.fact
    }
}

/// The most facts that are kept in pages.
const MOST_PAGED: usize = 1 << 32;

// Whether what is known of a slot is the same.
fn is_same_held(first: &Held, second: &Held) -> bool
    ensures { IsTrue result → first.now ≡ second.now }
{
    match (first, second) {
        (Held::Declared, Held::Declared) => true,
        (Held::Own(first), Held::Own(second)) => first.is_same(second),
        (Held::Shared, Held::Shared) => true,
        _ => false,
    }
}

// Whether two facts are the same.
fn is_same_fact(first: &SlotFact, second: &SlotFact) -> bool
    ensures { IsTrue result → first.now ≡ second.now }
{
    first.slot == second.slot
        && first.known.assigned == second.known.assigned
        && is_same_held(&first.known.held, &second.known.held)
}

/// Whether two lists of facts are the same.
pub(crate) fn are_same(first: &[SharedFact], second: &[SharedFact]) -> bool
    ensures { IsTrue result → first.now ≡ second.now }
{
    if first.len() != second.len() {
        return false;
    }
    for (place, fact) in first.iter().enumerate() {
        if !is_same_fact(fact.fact(), second[place].fact()) {
            return false;
        }
    }
    true
}

/// The same facts once more. It copies pointers.
pub(crate) fn shared_again(
    alloc: Global,
    listed: &[SharedFact],
) -> Result<Vec<SharedFact>, AllocError>
    ensures { IfOk result (λ copied. copied.items ≡ listed.now) }
{
    let mut copied = Vec::new(alloc);
    for fact in listed {
        copied.push(fact.share()?)?;
    }
    Ok(copied)
}

/// What is known at a point: whether a run may come here, and what is known of slots, in their order. A
/// slot that isn't listed has no value for certain, its declared type, and isn't shared. The first facts
/// lie in pages that points share. Contracts see it as its value `PointFacts`, so that facts with equal
/// parts are equal.
#[derive(Drop)]
pub struct Facts {
    alloc: Global,
    reachable: bool,
    pages: Rc<Vec<Page>>,
    paged: usize,
    own: Vec<SharedFact>,
}

impl Model for Facts {
    ghost use Rattle.std.specs.Prelude.{◌≡◌, ◌≤◌, ◌^◌, ◌++◌, flat_map, length};
    ghost use Rattle.core_ir.specs.PointFacts.{PointFacts, facts_code, AreInOrder, AreCounted};

    ghost Value = { PointFacts };

    ghost coded = { facts_code };

    ghost view = { λ f. record { reachable = f.reachable; listed = flat_map (λ page. page.facts.value.items) f.pages.value.items ++ f.own.items } };

    ghost invariant = { λ f. AreInOrder (flat_map (λ page. page.facts.value.items) f.pages.value.items ++ f.own.items)
        × AreCounted (λ page. page.before) (λ page. page.facts.value.items) f.pages.value.items
        × (f.paged ≡ length (flat_map (λ page. page.facts.value.items) f.pages.value.items))
        × (f.paged ≤ 2 ^ 32) };
}

impl Facts {
    /// A point of whose slots nothing is known.
    pub fn new(alloc: Global, reachable: bool) -> Result<Facts, AllocError>
        ensures { IfOk result (λ facts. facts ≡ record { reachable = reachable; listed = [] }) }
    {
        Ok(Facts {
            alloc,
            reachable,
            pages: Rc::new(alloc, Vec::new(alloc))?,
            paged: 0,
            own: Vec::new(alloc),
        })
    }

    /// A point at which the same is known of slots. It copies a pointer for all pages, and one for each
    /// fact behind them.
    pub fn share(&self, reachable: bool) -> Result<Facts, AllocError>
        ensures { IfOk result (λ facts. facts ≡ record { reachable = reachable; listed = self.now.listed }) }
    {
        let own = shared_again(self.alloc, &self.own)?;
        Ok(Facts {
            alloc: self.alloc,
            reachable,
            pages: self.pages.clone()?,
            paged: self.paged,
            own,
        })
    }

    /// Whether a run may come here.
    pub fn is_reachable(&self) -> bool
        ensures { result ≡ self.now.reachable }
    {
        self.reachable
    }

    /// How many slots are listed.
    pub fn len(&self) -> usize
        ensures { result ≡ length self.now.listed }
    {
        self.paged + self.own.len()
    }

    /// Slots are listed in their order.
    pub fn are_in_order(&self)
        ensures { AreInOrder self.now.listed }
    {
        // Opens the invariant for the contract.
        let _ = &self.own;
    }

    /// What is known of a slot that is listed.
    pub fn at(&self, place: usize) -> &SlotFact
        requires { place < length self.now.listed }
        ensures { result.now ≡ slice_index_or self.now.listed place result.now }
    {
        self.shared_at(place).fact()
    }

    // The same, to be shared.
    fn shared_at(&self, place: usize) -> &SharedFact
        requires { place < length self.now.listed }
        ensures { result.now ≡ slice_index_or self.now.listed place result.now }
    {
        if place < self.paged {
            let page = &self.pages[page_of(&self.pages, place)];
            &page.facts[place - page.before]
        } else {
            &self.own[place - self.paged]
        }
    }

    /// Whether what is known of a slot may be put at the end: it comes behind those that are listed.
    pub fn takes(&self, slot: SlotId) -> bool
        ensures { IsTrue result ↔ All (λ fact. fact.slot.0 < slot.0) self.now.listed }
    {
        self.are_in_order();
        let count = self.len();
        if count == 0 {
            return true;
        }
        self.at(count - 1).slot.0 < slot.0
    }

    /// Puts what is known of a slot at the end. After an `Err` the facts are as before.
    pub fn push(&mut self, fact: SharedFact) -> Result<(), AllocError>
        requires { All (λ before. before.slot.0 < fact.slot.0) self.old.listed }
        ensures ok { OnOk result (self.new ≡ record self.old { listed = self.old.listed ++ fact ∷ [] }) }
        ensures err { OnErr result (self.new ≡ self.old) }
    {
        self.own.push(fact)?;
        Ok(())
    }

    /// Puts what is known of a slot at its place, instead of what was known of it. Behind all that are
    /// listed this takes the time of `push`. After an `Err` the facts are as before.
    pub fn put(&mut self, fact: SharedFact) -> Result<(), AllocError>
        ensures ok { OnOk result (self.new ≡ record self.old { listed = put self.old.listed fact }) }
        ensures err { OnErr result (self.new ≡ self.old) }
    {
        if self.takes(fact.fact().slot) {
            self.push(fact)
        } else {
            self.put_before(fact)
        }
    }

    // Puts what is known of a slot at its place in a list of its own.
    fn put_before(&mut self, fact: SharedFact) -> Result<(), AllocError>
        ensures ok { OnOk result (self.new ≡ record self.old { listed = put self.old.listed fact }) }
        ensures err { OnErr result (self.new ≡ self.old) }
    {
        let mut listed = self.listed()?;
        put_in(&mut listed, fact)?;
        self.pages = Rc::new(self.alloc, Vec::new(self.alloc))?;
        self.paged = 0;
        self.own = listed;
        Ok(())
    }

    // All that is listed, in a list of its own.
    fn listed(&self) -> Result<Vec<SharedFact>, AllocError>
        ensures { IfOk result (λ listed. listed.items ≡ self.now.listed) }
    {
        let mut listed = Vec::new(self.alloc);
        for place in 0..self.len() {
            listed.push(self.shared_at(place).share()?)?;
        }
        Ok(listed)
    }

    /// Lets other points share what was put, of each range of slots the page that was last made of it, if
    /// that says the same. What is known stays as it is.
    pub fn settle(&mut self, pages: &mut Pages) -> Result<(), AllocError>
        ensures { self.new ≡ self.old }
    {
        let count = self.own.len();
        if self.paged == 0 && count <= MOST_PAGED {
            self.pages = Rc::new(self.alloc, pages.list(&self.own)?)?;
            self.paged = count;
            self.own = Vec::new(self.alloc);
        }
        Ok(())
    }
}

// How many slots are listed that come before a slot.
fn place_of(listed: &[SharedFact], slot: SlotId) -> usize
    ensures within { result ≤ length listed.now }
    ensures before { (k : ℕ) (none : Fact) → k < result → (slice_index_or listed.now k none).slot.0 < slot.0 }
    ensures behind { (none : Fact) → result < length listed.now → slot.0 ≤ (slice_index_or listed.now result none).slot.0 }
{
    for (place, fact) in listed.iter().enumerate() {
        if slot.0 <= fact.fact().slot.0 {
            return place;
        }
    }
    listed.len()
}

// Puts what is known of a slot at its place, instead of what was known of it.
fn put_in(listed: &mut Vec<SharedFact>, fact: SharedFact) -> Result<(), AllocError>
    ensures { OnOk result (listed.new.items ≡ put listed.old.items fact) }
{
    let slot = fact.fact().slot;
    let place = place_of(listed, slot);
    if place == listed.len() {
        listed.push(fact)?;
    } else if listed[place].fact().slot == slot {
        listed[place] = fact;
    } else {
        listed.insert(place, fact)?;
    }
    Ok(())
}
