//! Laws of runs. Each is the contract of a function that does no work.

ghost use Rattle.std.specs.Prelude.{◌≡◌, ◌≢◌, ℕ, ◌+◌, IsTrue, IsFalse, IsSome, List, Some};
ghost use Rattle.dart_types.specs.SubTest.{sub};
ghost use Rattle.core_ir.specs.Program.{Function};
ghost use Rattle.core_ir.specs.Values.{int, bool, declared_at};
ghost use Rattle.core_ir.specs.declared.points.PointId.{PointId};
ghost use Rattle.core_ir.specs.declared.points.SlotId.{SlotId};
ghost use Rattle.core_ir.specs.declared.points.Term.{Term};
ghost use Rattle.core_ir.specs.declared.values.Value.{Value};
ghost use Rattle.core_machine.specs.Steps.{BadArgument, Kind, NotBool, ReadUnassignedLocal, Slots, Does, has_type, row, store_fault};
ghost use Rattle.core_machine.specs.GoingWrong.{Decides, Operates, ReadsNothing, StoresMisfit, bad_program, bad_steps, is_boolean, is_integer, receiver_fault};
ghost use Rattle.core_machine.specs.declared.effect.Effect.TheVariants.{Write};
ghost use Rattle.core_machine.specs.State.{State, Reaches, Wrong, step_of, run_of, preceded_by, leads_preceded_by};

use core_check::Accepted;
use core_ir::CoreProgram;
use dart_types::{Rows, row_laws};

/// No number of steps of an accepted program goes wrong.
pub fn never_wrong(program: &Accepted)
    ensures { (n : ℕ) (k : Kind) → run_of program.now n ≢ Wrong k }
{
    // Opens what is known of an accepted program for the contract.
    let _ = program.program();
}

/// For each way to go wrong there is a program whose run takes it, over any rows by which `int` isn't a
/// subtype of `bool`: those of `dart:core`, and rows of no class.
pub fn each_way_to_go_wrong_is_taken(rows: &Rows)
    requires { IsFalse (sub rows.now.table int bool) }
    ensures { (k : Kind) → run_of (bad_program rows.now k) (bad_steps k) ≡ Wrong k }
{
    row_laws(rows);
}

/// Whatever the program: a step that reads a slot without a value goes wrong, and so does one that
/// stores a value which hasn't the declared type of its slot, one by an operator of `int` whose receiver
/// or argument is no integer, and one that goes by a condition which is no truth value. No row writes a
/// value that hasn't the declared type of its slot.
pub fn misuse_goes_wrong(_program: &CoreProgram)
    ensures read { (s : State) → ReadsNothing _program.now s → step_of _program.now s ≡ Wrong ReadUnassignedLocal }
    ensures stored { (s : State) (v : Value) → StoresMisfit _program.now s v → step_of _program.now s ≡ Wrong (store_fault v) }
    ensures receiver { (s : State) (a b : Value) → Operates _program.now s a b → IsFalse (is_integer a) → step_of _program.now s ≡ Wrong (receiver_fault a) }
    ensures argument { (s : State) (a b : Value) → Operates _program.now s a b → IsTrue (is_integer a) → IsFalse (is_integer b) → step_of _program.now s ≡ Wrong BadArgument }
    ensures condition { (s : State) (v : Value) → Decides _program.now s v → IsFalse (is_boolean v) → step_of _program.now s ≡ Wrong NotBool }
    ensures written { (g : Function) (slots : Slots) (term : Term) (to : SlotId) (v : Value) (next : PointId)
        → row _program.now g slots term ≡ Does (Write to (Some v) next) → IsTrue (has_type _program.now v (declared_at g to.0)) }
{}

/// A run of any program that is over stays as it is, whatever number of steps follows.
pub fn a_run_that_is_over_stays(_program: &CoreProgram)
    ensures step { (s t : State) → step_of _program.now s ≡ Reaches t → IsSome t.end → step_of _program.now t ≡ Reaches t }
    ensures run { (n more : ℕ) (s : State) → run_of _program.now n ≡ Reaches s → IsSome s.end → run_of _program.now (n + more) ≡ Reaches s }
{}

/// What was printed before changes no step, and no step changes it. So what is taken out of a
/// machine, piece by piece, is in the end what the run printed.
pub fn steps_add_to_what_was_printed(_program: &CoreProgram)
    ensures { (before : List ℕ) (s : State) → step_of _program.now (preceded_by before s) ≡ leads_preceded_by before (step_of _program.now s) }
{}
