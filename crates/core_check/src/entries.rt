//! What is known where a function begins.

ghost use Rattle.std.specs.Prelude.{flat_map, All};
ghost use Rattle.core_check.specs.WellFormed.{IsSlot};
ghost use Rattle.core_check.specs.Faults.{entry_fact_faults, entry_faults};
ghost use Rattle.core_check.specs.Checks.{Tells, part_of};

use crate::context::Context;
use crate::known::{declared, is_shared, type_held};
use crate::misses::{Miss, ask};
use crate::ways::Part;
use core_ir::{Facts, SlotFact};

// Whether what a fact says of its slot holds where the function begins, in one part.
fn check_entry_fact(context: Context<'_>, fact: &SlotFact, part: Part) -> Result<(), Miss>
    requires slot_in { IsSlot context.function.now fact.now.slot }
    ensures { Tells result (entry_fact_faults context.entry.function.now (part_of part) fact.now) }
{
    let declared = declared(context.function, fact.slot.0 as usize);
    let held = &fact.known.held;
    match part {
        Part::Assigned => {
            let told = ask(!fact.known.assigned);
            told
        }
        Part::Narrower => {
            let told = ask(type_held(declared, held).is_same(declared));
            told
        }
        Part::Shared => {
            let told = ask(!is_shared(held));
            told
        }
    }
}

// Whether what the facts say of each slot holds where the function begins, in one part.
fn check_entry_part(context: Context<'_>, facts: &Facts, part: Part) -> Result<(), Miss>
    requires listed_in { All (λ fact. IsSlot context.function.now fact.slot) facts.now.listed }
    ensures { Tells result (flat_map (entry_fact_faults context.entry.function.now (part_of part)) facts.now.listed) }
{
    for place in 0..facts.len() {
        check_entry_fact(context, facts.at(place), part)?;
    }
    Ok(())
}

/// Whether the facts are those of an entry: a run may come there, and what they say holds where the
/// function begins.
pub(crate) fn check_entry(context: Context<'_>, facts: &Facts) -> Result<(), Miss>
    requires listed_in { All (λ fact. IsSlot context.function.now fact.slot) facts.now.listed }
    ensures { Tells result (entry_faults context.entry.function.now facts.now) }
{
    ask(facts.is_reachable())?;
    check_entry_part(context, facts, Part::Assigned)?;
    check_entry_part(context, facts, Part::Narrower)?;
    check_entry_part(context, facts, Part::Shared)
}
