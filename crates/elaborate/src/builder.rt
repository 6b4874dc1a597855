//! What is known at the points of code that is made.

ghost use Rattle.std.specs.Prelude.{◌≡◌, [], true, IfOk, IsTrue, OnOk, fold, if◌then◌else◌, map};
ghost use Rattle.core_ir.specs.PointFacts.{put};
ghost use Rattle.core_ir.specs.declared.facts.Held.TheVariants.{Declared, Shared};
ghost use Rattle.elaborate.specs.Known as known;
ghost use Rattle.elaborate.specs.Rows.{site_of, step_at};

use crate::said::Said;
use core_emit::{Code, Step};
use core_ir::{Facts, Held, Known, Pages, SharedFact, SlotFact, SlotId, Span, put_lists_in_order};
use dart_tree::Place;
use flow_model::{Facts as LocalFacts, Flow};
use std::alloc::{AllocError, Global};

/// What was last known of the locals, of each slot and of many in a row, which points at which the same is
/// known share.
#[derive(Drop)]
pub(crate) struct Builder {
    alloc: Global,
    shared: Vec<Option<SharedFact>>,
    pages: Pages,
    last: Option<Facts>,
}

impl Builder {
    /// Nothing is known yet, for a function with so many slots.
    pub(crate) fn new(alloc: Global, slots: usize) -> Result<Builder, AllocError> {
        let mut shared = Vec::new(alloc);
        for _ in 0..slots {
            shared.push(None)?;
        }
        Ok(Builder {
            alloc,
            shared,
            pages: Pages::new(alloc),
            last: None,
        })
    }

    /// The allocator that it is built with.
    pub(crate) fn alloc(&self) -> Global {
        self.alloc
    }

    /// The code of a step that is done where a node stands, where this is known of the locals and these
    /// values are held.
    pub(crate) fn step_at(
        &mut self,
        said: &Said,
        at: Place,
        flow: &Flow,
        values: &[SlotId],
        step: Step,
    ) -> Result<Code, AllocError>
        ensures { IfOk result (λ code. code ≡ step_at said.now at flow.now values.now step) }
    {
        let facts = self.facts(said, flow, values)?;
        Ok(Code::leaf(site_of(at), facts, step))
    }

    /// What is known at a point, where this is known of the locals and these values are held.
    pub(crate) fn facts(
        &mut self,
        said: &Said,
        flow: &Flow,
        values: &[SlotId],
    ) -> Result<Facts, AllocError>
        ensures { IfOk result (λ facts. facts ≡ known.facts said.now flow.now values.now) }
    {
        let mut facts = self.facts_of_locals(said, flow)?;
        self.put_values(values, &mut facts)?;
        Ok(facts)
    }

    // What is known at a point, where this is known of the locals and no value is held. Where the same was
    // known of the locals where facts were made last, it is shared.
    fn facts_of_locals(&mut self, said: &Said, flow: &Flow) -> Result<Facts, AllocError>
        ensures { IfOk result (λ facts. facts ≡ known.facts said.now flow.now []) }
    {
        if let Some(last) = &self.last {
            if lists_locals(said, flow, last) {
                return last.share(flow.reachable());
            }
        }
        let mut facts = Facts::new(self.alloc, flow.reachable())?;
        self.put_locals(said, flow, &mut facts)?;
        facts.settle(&mut self.pages)?;
        self.last = Some(facts.share(true)?);
        Ok(facts)
    }

    // Puts what is known of the slots of locals.
    fn put_locals(&mut self, said: &Said, flow: &Flow, facts: &mut Facts) -> Result<(), AllocError>
        ensures { OnOk result (facts.new ≡ record facts.old { listed = fold put facts.old.listed (known.facts_of_locals said.now flow.now.locals) }) }
    {
        for place in 0..flow.len() {
            let local = flow.local(place).facts();
            if says_something(local) {
                let fact = self.local_fact(said.slot_of_local(local.var), local)?;
                facts.put(fact)?;
            }
        }
        Ok(())
    }

    // Puts what is known of the slots of values that are held.
    fn put_values(&mut self, values: &[SlotId], facts: &mut Facts) -> Result<(), AllocError>
        ensures { OnOk result (facts.new ≡ record facts.old { listed = fold put facts.old.listed (map known.fact_of_value values.now) }) }
    {
        for slot in values {
            let fact = self.value_fact(*slot)?;
            facts.put(fact)?;
        }
        Ok(())
    }

    // What is known of the slot of a local.
    fn local_fact(&mut self, slot: SlotId, local: &LocalFacts) -> Result<SharedFact, AllocError>
        ensures { IfOk result (λ fact. fact ≡ record { slot = slot; known = known.known_of_local local.now }) }
    {
        if let Some(last) = self.last_fact(slot) {
            if is_of_local(last.fact(), slot, local) {
                return last.share();
            }
        }
        let held = held_of(self.alloc, local)?;
        self.share(
            slot,
            Known {
                assigned: local.assigned,
                held,
            },
        )
    }

    // What is known of the slot of a value that is held.
    fn value_fact(&mut self, slot: SlotId) -> Result<SharedFact, AllocError>
        ensures { IfOk result (λ fact. fact ≡ known.fact_of_value slot) }
    {
        if let Some(last) = self.last_fact(slot) {
            if last.fact().slot == slot && is_of_value(&last.fact().known) {
                return last.share();
            }
        }
        let held = Held::Declared;
        self.share(
            slot,
            Known {
                assigned: true,
                held,
            },
        )
    }

    // What was last known of a slot.
    fn last_fact(&self, slot: SlotId) -> Option<&SharedFact> {
        match self.shared.get(slot.0 as usize) {
            Some(Some(last)) => Some(last),
            Some(None) => None,
            None => None,
        }
    }

    // A fact, which is kept for the code that is made next.
    fn share(&mut self, slot: SlotId, known: Known) -> Result<SharedFact, AllocError>
        ensures { IfOk result (λ fact. fact ≡ record { slot = slot; known = known }) }
    {
        let fact = SharedFact::new(self.alloc, SlotFact { slot, known })?;
        let place = slot.0 as usize;
        if place < self.shared.len() {
            self.shared[place] = Some(fact.share()?);
        }
        Ok(fact)
    }
}

/// Where a node stands.
pub(crate) fn site_of(at: Place) -> Option<Span>
    ensures { result ≡ site_of at }
{
    Some(Span {
        start: at.span.start,
        end: at.span.end,
    })
}

// Whether a local is promoted to some type.
fn is_promoted(local: &LocalFacts) -> bool
    ensures { result ≡ known.is_promoted local.now.chain }
{
    !local.chain.as_slice().is_empty()
}

// Whether anything is known of a local.
fn says_something(local: &LocalFacts) -> bool
    ensures { result ≡ known.says_something local.now }
{
    local.assigned || is_promoted(local) || local.captured
}

// What type the value of a local has, and whether its slot is shared.
fn held_of(alloc: Global, local: &LocalFacts) -> Result<Held, AllocError>
    ensures { IfOk result (λ held. held ≡ (if local.now.captured then Shared else known.own_held local.now)) }
{
    if local.captured {
        return Ok(Held::Shared);
    }
    if is_promoted(local) {
        return Ok(Held::Own(local.current().copy(alloc)?));
    }
    Ok(Held::Declared)
}

// Whether this is known of the slot with a number, as of that of a local.
fn is_of_local(fact: &SlotFact, slot: SlotId, local: &LocalFacts) -> bool
    ensures { IsTrue result → fact.now ≡ record { slot = slot; known = known.known_of_local local.now } }
{
    if fact.slot != slot || fact.known.assigned != local.assigned {
        return false;
    }
    match &fact.known.held {
        Held::Shared => local.captured,
        Held::Declared => !local.captured && !is_promoted(local),
        Held::Own(own) => !local.captured && is_promoted(local) && own.is_same(local.current()),
    }
}

// Whether facts list what is known of the locals, and nothing else.
fn lists_locals(said: &Said, flow: &Flow, facts: &Facts) -> bool
    ensures { IsTrue result → facts.now.listed ≡ fold put [] (known.facts_of_locals said.now flow.now.locals) }
{
    facts.are_in_order();
    put_lists_in_order();
    let mut count = 0;
    for place in 0..flow.len() {
        let local = flow.local(place).facts();
        if says_something(local) {
            if count >= facts.len() {
                return false;
            }
            if !is_of_local(facts.at(count), said.slot_of_local(local.var), local) {
                return false;
            }
            count += 1;
        }
    }
    count == facts.len()
}

// Whether this is known of a slot as of that of a value that is held.
fn is_of_value(known: &Known) -> bool
    ensures { IsTrue result → known.now ≡ record { assigned = true; held = Declared } }
{
    match &known.held {
        Held::Declared => known.assigned,
        Held::Shared => false,
        Held::Own(_) => false,
    }
}
