//! The way up from a class whose depth is looked for, step by step.

ghost use Rattle.std.specs.Prelude.{◌≡◌, ◌<◌, ◌+◌, ◌∷◌, ◌++◌, [], true, length, max, set, AllPairs, IfOk, IfErr, OnOk};
ghost use Rattle.dart_types.specs.WellFormed.{class_before};
ghost use Rattle.class_depths.specs.Marked.{AreMarked, class_at};
ghost use Rattle.class_depths.specs.Climbing.{Climbing, IsPartly, IsRefusal, Steps, Turns, first_step};
ghost use Rattle.class_depths.specs.declared.marks.Mark.TheVariants.{Open};
ghost use Rattle.class_depths.specs.declared.unsettled.Unsettled.TheVariants.{Memory};

use crate::classes::DeclaredClass;
use crate::marks::{Above, Mark, Step, Turn};
use crate::places::above;
use crate::unsettled::Unsettled;
use dart_types::{DartType, Rows};
use std::alloc::AllocError;

// The longer of two ways, the second with a step more.
fn longer(depth: u64, above: u64) -> Result<u64, Unsettled>
    ensures ok { IfOk result (λ n. n ≡ max depth (above + 1)) }
    ensures err { IfErr result (λ e. e ≡ Memory) }
{
    match above.checked_add(1) {
        None => Err(Unsettled::Memory),
        Some(way) => Ok(depth.max(way)),
    }
}

// The direct supertypes of the class at a place.
fn supers_at(declared: &[DeclaredClass], place: usize) -> &[DartType]
    requires { place < length declared.now }
    ensures { result.now ≡ (class_at declared.now place).supers }
{
    declared[place].supers.as_slice()
}

// Goes through the direct supertypes that are left, as far as their depths are known.
fn go_on(
    below: &Rows,
    declared: &[DeclaredClass],
    marks: &[Mark],
    step: Step,
) -> Result<Turn, Unsettled>
    requires in_order { AllPairs (λ a b. class_before a.id b.id ≡ true) declared.now }
    requires marked { AreMarked below.now.table declared.now marks.now }
    requires place { step.place < length declared.now }
    requires partly { IsPartly below.now.table declared.now step }
    ensures ok { IfOk result (Turns below.now.table declared.now marks.now step) }
    ensures err { IfErr result (λ e. e ≡ Memory) }
{
    let supers = supers_at(declared, step.place);
    let mut depth = step.depth;
    for i in step.gone..supers.len() {
        match above(below, declared, marks, &supers[i]) {
            Above::Known(known) => depth = longer(depth, known)?,
            Above::Ahead(place) => {
                let back = Step {
                    place: step.place,
                    gone: i,
                    depth,
                };
                return Ok(Turn::On { step: back, place });
            }
            Above::Behind(place) => return Ok(Turn::Round { place }),
        }
    }
    Ok(Turn::Done(depth))
}

/// Comes to a class, which is on the way up from then on.
pub(crate) fn come_to(
    place: usize,
    marks: &mut Vec<Mark>,
    path: &mut Vec<Step>,
) -> Result<(), AllocError>
    requires { place < length marks.old.items }
    ensures marks { OnOk result (marks.new.items ≡ set marks.old.items place Open) }
    ensures path { OnOk result (path.new.items ≡ path.old.items ++ first_step place ∷ []) }
{
    marks[place] = Mark::Open;
    path.push(Step {
        place,
        gone: 0,
        depth: 0,
    })?;
    Ok(())
}

// Comes to a class from another, to which the way leads back.
fn lead_on(
    step: Step,
    place: usize,
    marks: &mut Vec<Mark>,
    path: &mut Vec<Step>,
) -> Result<(), AllocError>
    requires { place < length marks.old.items }
    ensures marks { OnOk result (marks.new.items ≡ set marks.old.items place Open) }
    ensures path { OnOk result (path.new.items ≡ (path.old.items ++ step ∷ []) ++ first_step place ∷ []) }
{
    path.push(step)?;
    come_to(place, marks, path)
}

/// Takes the last step of the way up: it settles its class, leads on to another, or finds a class that
/// lies over itself.
pub(crate) fn take_step(
    below: &Rows,
    declared: &[DeclaredClass],
    step: Step,
    marks: &mut Vec<Mark>,
    path: &mut Vec<Step>,
) -> Result<(), Unsettled>
    requires in_order { AllPairs (λ a b. class_before a.id b.id ≡ true) declared.now }
    requires climbing { Climbing below.now.table declared.now marks.old.items (path.old.items ++ step ∷ []) }
    ensures ok { OnOk result (Steps below.now.table declared.now marks.old.items marks.new.items (path.old.items ++ step ∷ []) path.new.items) }
    ensures err { IfErr result (IsRefusal declared.now) }
{
    match go_on(below, declared, marks, step)? {
        Turn::Done(depth) => {
            marks[step.place] = Mark::Settled(depth);
            Ok(())
        }
        Turn::On { step, place } => {
            lead_on(step, place, marks, path)?;
            Ok(())
        }
        Turn::Round { place } => Err(Unsettled::Cycle {
            class: declared[place].id,
        }),
    }
}
