//! Whether facts imply others, by one walk through both lists.

ghost use Rattle.std.specs.Prelude.{◌≡◌, ◌<◌, ◌||◌, not, All, IfOk, IsTrue, IsFalse, drop, length};
ghost use Rattle.dart_types.specs.SubTest.{sub};
ghost use Rattle.core_ir.specs.Values.{declared_at};
ghost use Rattle.core_check.specs.WellFormed.{IsSlot};
ghost use Rattle.core_check.specs.Named.{IsChange, AreChanges};
ghost use Rattle.core_check.specs.Known.{facts_at, held_type, known_of};
ghost use Rattle.core_check.specs.Types.{is_changed, known_on};
ghost use Rattle.core_check.specs.Accepted.{SlotImplies, Leads};
ghost use Rattle.core_check.specs.Merge.{least_slot, first_known, rest_behind, HasDeclared, AreImplied, AreChangedImplied};

use crate::context::{Context, know_rows};
use crate::known::{declared, is_shared, known_by, type_held};
use crate::parts::Change;
use crate::shapes::Way;
use crate::types::{is_changed, known_on};
use core_ir::{Facts, Held, Known, SlotId};
use dart_types::{DartType, is_subtype};
use std::alloc::AllocError;

// Whether the second holds if the first does.
fn is_kept(first: bool, second: bool) -> bool
    ensures { result ≡ (not first || second) }
{
    !first || second
}

// Whether the type of a slot is its declared one.
fn has_declared(held: &Held) -> bool
    ensures { IsTrue result → HasDeclared held.now }
{
    match held {
        Held::Declared => true,
        Held::Own(_) => false,
        Held::Shared => true,
    }
}

// Whether the type that a slot of this declared type has before is a subtype of the one after.
fn is_narrower(context: Context<'_>, declared: &DartType, before: &Held, after: &Held) -> bool
    ensures { IsTrue result → IsTrue (sub context.entry.program.now.rows.table (held_type declared.now before.now) (held_type declared.now after.now)) }
{
    know_rows(context.program);
    let program = context.program;
    if has_declared(before) {
        if has_declared(after) {
            return true;
        }
    }
    is_subtype(
        &program.rows,
        type_held(declared, before),
        type_held(declared, after),
    )
}

// Whether what is known of a slot surely implies what is known of it after.
fn implies(context: Context<'_>, slot: usize, before: &Known, after: &Known) -> bool
    requires { slot < length context.function.now.slots }
    ensures { IsTrue result → SlotImplies context.entry.program.now.rows.table (declared_at context.entry.function.now slot) before.now after.now }
{
    if !is_kept(after.assigned, before.assigned) {
        return false;
    }
    if !is_kept(is_shared(&before.held), is_shared(&after.held)) {
        return false;
    }
    is_narrower(
        context,
        declared(context.function, slot),
        &before.held,
        &after.held,
    )
}

// The first slot that either list speaks of, each from a place on.
fn least_slot(before: &Facts, place: usize, after: &Facts, place_after: usize) -> Option<u32>
    ensures { result ≡ least_slot (drop place before.now.listed) (drop place_after after.now.listed) }
{
    if place >= before.len() {
        if place_after >= after.len() {
            return None;
        }
        return Some(after.at(place_after).slot.0);
    }
    let first = before.at(place).slot.0;
    if place_after >= after.len() {
        return Some(first);
    }
    let second = after.at(place_after).slot.0;
    if first <= second {
        return Some(first);
    }
    Some(second)
}

// What facts say of a slot, if the one at a place is of it.
fn first_known<'a>(context: Context<'a>, facts: &'a Facts, place: usize, slot: u32) -> &'a Known
    ensures { result.now ≡ first_known (drop place facts.now.listed) slot }
{
    if place >= facts.len() {
        return context.core.unlisted();
    }
    let fact = facts.at(place);
    if fact.slot.0 == slot {
        return &fact.known;
    }
    context.core.unlisted()
}

// The place behind a fact, if that is of the slot, or the fact's place.
fn rest_behind(facts: &Facts, place: usize, slot: u32) -> usize
    ensures { drop result facts.now.listed ≡ rest_behind (drop place facts.now.listed) slot }
{
    if place >= facts.len() {
        return place;
    }
    if facts.at(place).slot.0 == slot {
        return place + 1;
    }
    place
}

// Whether a slot is changed, or what the fact at the one place says of it surely implies what that at
// the other says.
fn is_shown(
    context: Context<'_>,
    changes: &[Change],
    slot: u32,
    before: &Facts,
    place: usize,
    after: &Facts,
    place_after: usize,
) -> bool
    requires { slot < length context.function.now.slots }
    ensures { IsTrue result → IsFalse (is_changed changes.now slot)
        → SlotImplies context.entry.program.now.rows.table (declared_at context.entry.function.now slot) (first_known (drop place before.now.listed) slot) (first_known (drop place_after after.now.listed) slot) }
{
    let number = slot as usize;
    if is_changed(changes, number) {
        return true;
    }
    let known = first_known(context, before, place, slot);
    implies(
        context,
        number,
        known,
        first_known(context, after, place_after, slot),
    )
}

// Whether what the one list says of each slot surely implies what the other says, but for the slots
// that are changed.
fn lists_imply(context: Context<'_>, changes: &[Change], before: &Facts, after: &Facts) -> bool
    requires before_in { All (λ fact. IsSlot context.function.now fact.slot) before.now.listed }
    requires after_in { All (λ fact. IsSlot context.function.now fact.slot) after.now.listed }
    ensures { IsTrue result → AreImplied context.entry.program.now context.entry.function.now changes.now before.now.listed after.now.listed }
{
    know_rows(context.program);
    before.are_in_order();
    after.are_in_order();
    let mut place = 0;
    let mut place_after = 0;
    while let Some(slot) = least_slot(before, place, after, place_after) {
        if !is_shown(context, changes, slot, before, place, after, place_after) {
            return false;
        }
        place = rest_behind(before, place, slot);
        place_after = rest_behind(after, place_after, slot);
    }
    true
}

// Whether what is known of a slot on a way surely implies what is known of it behind the way.
fn slot_implies(
    context: Context<'_>,
    facts: &Facts,
    changes: &[Change],
    after: &Facts,
    slot: SlotId,
) -> Result<bool, AllocError>
    requires changes_in { All (IsChange context.function.now) changes.now }
    requires slot_in { IsSlot context.function.now slot }
    ensures { IfOk result (λ sure. IsTrue sure → SlotImplies context.entry.program.now.rows.table (declared_at context.entry.function.now slot.0)
        (known_on context.entry.program.now context.entry.function.now facts.now changes.now slot.0) (known_of after.now slot.0)) }
{
    let number = slot.0 as usize;
    let known = known_on(context, facts, changes, number)?;
    let sure = implies(context, number, &known, known_by(context, after, number));
    Ok(sure)
}

// Whether what is known on a way of each slot that is changed surely implies what is known behind it.
fn changes_imply(
    context: Context<'_>,
    facts: &Facts,
    changes: &[Change],
    after: &Facts,
) -> Result<bool, AllocError>
    requires { All (IsChange context.function.now) changes.now }
    ensures { IfOk result (λ sure. IsTrue sure → AreChangedImplied context.entry.program.now context.entry.function.now facts.now changes.now after.now) }
{
    for change in changes {
        let sure = slot_implies(context, facts, changes, after, change.slot)?;
        if !sure {
            return Ok(false);
        }
    }
    Ok(true)
}

/// Whether what is known on a way surely implies the facts of the point that it leads to. It takes one
/// walk through both lists of facts.
pub(crate) fn surely_leads(
    context: Context<'_>,
    facts: &Facts,
    way: &Way,
    after: &Facts,
) -> Result<bool, AllocError>
    requires listed_in { All (λ fact. IsSlot context.function.now fact.slot) facts.now.listed }
    requires after_in { All (λ fact. IsSlot context.function.now fact.slot) after.now.listed }
    requires changes_in { AreChanges context.function.now way.now }
    requires after_is { after.now ≡ facts_at context.program.now way.now.next.0 }
    ensures { IfOk result (λ sure. IsTrue sure → Leads context.entry.program.now context.entry.function.now facts.now way.now) }
{
    if !after.is_reachable() {
        return Ok(false);
    }
    let changes = &way.changes;
    if !lists_imply(context, changes, facts, after) {
        return Ok(false);
    }
    let sure = changes_imply(context, facts, changes, after)?;
    Ok(sure)
}
