//! What is known where a run goes on, and whether it implies the facts of the next point.

ghost use Rattle.std.specs.Prelude.{◌≡◌, ◌<◌, flat_map, All, IfOk, IsTrue, length};
ghost use Rattle.core_check.specs.WellFormed.{IsSlot, IsWay, IsWellFormed};
ghost use Rattle.core_check.specs.Named.{AreChanges};
ghost use Rattle.core_check.specs.Known.{facts_at, function_at};
ghost use Rattle.core_check.specs.Accepted.{Leads};
ghost use Rattle.core_check.specs.Faults.{slot_on, way_faults, reach_faults, next_faults};
ghost use Rattle.core_check.specs.Checks.{Tells, part_of};

use crate::context::Context;
use crate::known::{declared, is_shared, known_by, type_held};
use crate::merge::surely_leads;
use crate::misses::{Miss, ask, ask_subtype};
use crate::shapes::Way;
use crate::types::known_on;
use core_ir::Facts;
use std::alloc::AllocError;

/// A part of what the facts of a next point ask of a slot.
#[derive(Clone, Copy)]
pub(crate) enum Part {
    /// That it is assigned, where they say so.
    Assigned,
    /// That it has a subtype of its type there.
    Narrower,
    /// That it is shared there if it was.
    Shared,
}

// The facts of the point that a way leads to.
fn facts_behind<'a>(context: Context<'a>, way: &Way) -> &'a Facts
    requires well_formed { IsWellFormed context.program.now }
    requires function { context.function.now ≡ function_at context.program.now context.number.0 }
    requires way_in { IsWay context.program.now context.number.0 way.now }
    ensures facts { result.now ≡ facts_at context.entry.program.now way.now.next.0 }
    ensures listed_in { All (λ fact. IsSlot context.entry.function.now fact.slot) result.now.listed }
{
    let program = context.program;
    let point = &program.points[way.next.0 as usize];
    &point.facts
}

// Whether what is known of a slot on a way implies a part of what the facts behind it ask.
fn check_slot(
    context: Context<'_>,
    facts: &Facts,
    way: &Way,
    after: &Facts,
    part: Part,
    slot: usize,
) -> Result<(), Miss>
    requires slot_in { slot < length context.function.now.slots }
    requires changes_in { AreChanges context.function.now way.now }
    requires after_is { after.now ≡ facts_at context.program.now way.now.next.0 }
    ensures { Tells result (slot_on context.entry.program.now context.entry.function.now facts.now (part_of part) way.now slot) }
{
    let before = known_on(context, facts, &way.changes, slot)?;
    let after = known_by(context, after, slot);
    let declared = declared(context.function, slot);
    match part {
        Part::Assigned => {
            let told = ask(!after.assigned || before.assigned);
            told
        }
        Part::Narrower => {
            let found = type_held(declared, &before.held);
            let told = ask_subtype(context, found, type_held(declared, &after.held));
            told
        }
        Part::Shared => {
            let told = ask(!is_shared(&before.held) || is_shared(&after.held));
            told
        }
    }
}

// Whether what is known on a way implies a part of what the facts behind it ask of each slot.
fn check_way(context: Context<'_>, facts: &Facts, way: &Way, part: Part) -> Result<(), Miss>
    requires well_formed { IsWellFormed context.program.now }
    requires function { context.function.now ≡ function_at context.program.now context.number.0 }
    requires way_in { IsWay context.program.now context.number.0 way.now }
    requires changes_in { AreChanges context.function.now way.now }
    ensures { Tells result (way_faults context.entry.program.now context.entry.function.now facts.now (part_of part) way.now) }
{
    let function = context.function;
    let after = facts_behind(context, way);
    for slot in 0..function.slots.len() {
        check_slot(context, facts, way, after, part, slot)?;
    }
    Ok(())
}

// Whether a run may come to each of the next points.
fn check_reachable(context: Context<'_>, ways: &[Way]) -> Result<(), Miss>
    requires well_formed { IsWellFormed context.program.now }
    requires function { context.function.now ≡ function_at context.program.now context.number.0 }
    requires ways_in { All (IsWay context.program.now context.number.0) ways.now }
    ensures { Tells result (flat_map (reach_faults context.entry.program.now) ways.now) }
{
    for way in ways {
        ask(facts_behind(context, way).is_reachable())?;
    }
    Ok(())
}

// Whether what is known on each way implies a part of what is asked behind it.
fn check_part(context: Context<'_>, facts: &Facts, ways: &[Way], part: Part) -> Result<(), Miss>
    requires well_formed { IsWellFormed context.program.now }
    requires function { context.function.now ≡ function_at context.program.now context.number.0 }
    requires ways_in { All (IsWay context.program.now context.number.0) ways.now }
    requires changes_in { All (AreChanges context.function.now) ways.now }
    ensures { Tells result (flat_map (way_faults context.entry.program.now context.entry.function.now facts.now (part_of part)) ways.now) }
{
    for way in ways {
        check_way(context, facts, way, part)?;
    }
    Ok(())
}

// Whether what is known on a way surely implies the facts of the point that it leads to.
fn way_leads(context: Context<'_>, facts: &Facts, way: &Way) -> Result<bool, AllocError>
    requires well_formed { IsWellFormed context.program.now }
    requires function { context.function.now ≡ function_at context.program.now context.number.0 }
    requires listed_in { All (λ fact. IsSlot context.function.now fact.slot) facts.now.listed }
    requires way_in { IsWay context.program.now context.number.0 way.now }
    requires changes_in { AreChanges context.function.now way.now }
    ensures { IfOk result (λ sure. IsTrue sure → Leads context.entry.program.now context.entry.function.now facts.now way.now) }
{
    let after = facts_behind(context, way);
    let sure = surely_leads(context, facts, way, after)?;
    Ok(sure)
}

// Whether what is known on each way surely implies the facts of the point that it leads to.
fn all_lead(context: Context<'_>, facts: &Facts, ways: &[Way]) -> Result<bool, AllocError>
    requires well_formed { IsWellFormed context.program.now }
    requires function { context.function.now ≡ function_at context.program.now context.number.0 }
    requires listed_in { All (λ fact. IsSlot context.function.now fact.slot) facts.now.listed }
    requires ways_in { All (IsWay context.program.now context.number.0) ways.now }
    requires changes_in { All (AreChanges context.function.now) ways.now }
    ensures { IfOk result (λ sure. IsTrue sure → All (Leads context.entry.program.now context.entry.function.now facts.now) ways.now) }
{
    for way in ways {
        let sure = way_leads(context, facts, way)?;
        if !sure {
            return Ok(false);
        }
    }
    Ok(true)
}

// What fails first where what is known on some way may not imply what is asked behind it.
fn find_fault(context: Context<'_>, facts: &Facts, ways: &[Way]) -> Result<(), Miss>
    requires well_formed { IsWellFormed context.program.now }
    requires function { context.function.now ≡ function_at context.program.now context.number.0 }
    requires ways_in { All (IsWay context.program.now context.number.0) ways.now }
    requires changes_in { All (AreChanges context.function.now) ways.now }
    ensures { Tells result (next_faults context.entry.program.now context.entry.function.now facts.now ways.now) }
{
    check_reachable(context, ways)?;
    check_part(context, facts, ways, Part::Assigned)?;
    check_part(context, facts, ways, Part::Narrower)?;
    check_part(context, facts, ways, Part::Shared)
}

/// Whether what is known on each of the ways implies the facts of the point that it leads to. Where that
/// is sure after one walk through both lists of facts, slots are not gone through one by one.
pub(crate) fn check_ways(context: Context<'_>, facts: &Facts, ways: &[Way]) -> Result<(), Miss>
    requires well_formed { IsWellFormed context.program.now }
    requires function { context.function.now ≡ function_at context.program.now context.number.0 }
    requires listed_in { All (λ fact. IsSlot context.function.now fact.slot) facts.now.listed }
    requires ways_in { All (IsWay context.program.now context.number.0) ways.now }
    requires changes_in { All (AreChanges context.function.now) ways.now }
    ensures { Tells result (next_faults context.entry.program.now context.entry.function.now facts.now ways.now) }
{
    if all_lead(context, facts, ways)? {
        return Ok(());
    }
    find_fault(context, facts, ways)
}
