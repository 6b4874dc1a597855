//! Laws above the definitions.

ghost use Rattle.std.specs.Prelude.{◌≡◌, ◌↔◌, ◌==◌, ℕ, All, List, [], if◌then◌else◌};
ghost use Rattle.dart_types.specs.Superinterfaces.{LeavesNothingOut};
ghost use Rattle.core_ir.specs.PointFacts.{put};
ghost use Rattle.core_ir.specs.Program.{Function};
ghost use Rattle.core_ir.specs.declared.facts.SlotFact.{SlotFact};
ghost use Rattle.core_ir.specs.declared.points.Term.{Term as CoreTerm};
ghost use Rattle.core_check.specs.Accepted.{IsFineAt};
ghost use Rattle.core_check.specs.Faults.{faults_at};
ghost use Rattle.core_check.specs.Known.{known_in};
ghost use Rattle.core_check.specs.Named.{IsNamed};
ghost use Rattle.core_check.specs.Shapes.{shape};
ghost use Rattle.core_check.specs.WellFormed.{IsSlot};

use core_ir::CoreProgram;
use dart_types::{Rows, equality_laws};

/// A law of acceptance: a point has no faults exactly where no clause fails there.
pub fn faults_are_clauses_that_fail(_program: &CoreProgram)
    ensures { (k : ℕ) → IsFineAt _program.now k ↔ (faults_at _program.now k ≡ []) }
{
    equality_laws();
}

/// Rows of no class leave no superinterface out.
pub fn rows_of_no_class_leave_nothing_out(_rows: &Rows)
    requires { _rows.now.table.classes ≡ [] }
    ensures { LeavesNothingOut _rows.now.table }
{}

/// Facts with one more say of its slot what it says, and of another slot what they said.
pub fn put_tells()
    ensures { (facts : List SlotFact) (fact : SlotFact) (i : ℕ)
        → known_in (put facts fact) i ≡ (if fact.slot.0 == i then fact.known else known_in facts i) }
{}

/// The parts of a term's shape name slots that the shape lists, and no others: a function has what they
/// name exactly where it has the slots of the list.
pub fn parts_name_the_slots_of_a_shape()
    ensures { (g : Function) (t : CoreTerm) → All (IsSlot g) (shape t).slots ↔ IsNamed g (shape t) }
{}
