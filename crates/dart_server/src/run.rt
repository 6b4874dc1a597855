//! The run of a library.

ghost use Rattle.std.specs.Prelude.{◌≡◌, ◌≢◌, ℕ, ◌<◌, List, ◌++◌, [], Some, IfOk, OnOk, OnErr, length, take, option_map};
ghost use Rattle.fault_io.specs.Bytes.{and_then};
ghost use Rattle.fault_io.specs.Faults.{Rose};
ghost use Rattle.check_library.specs.Checked.{IsFaultless, main_of_checked};
ghost use Rattle.check_library.specs.Diagnostics.{diagnostics};
ghost use Rattle.elaborate.specs.Elaborated.{elaborated};
ghost use Rattle.core_machine.specs.Steps.{Kind};
ghost use Rattle.core_machine.specs.State.{Reaches, Wrong, run_of, step_of, turn_of};
ghost use Rattle.dart_server.specs.Run.{Prints, RunGives, UnbuiltGives};
ghost use Rattle.dart_server.specs.Writes.{Counts, Writes};

use crate::output::{NO_MAIN, NOT_BUILT, STEPS_SPENT, say};
use crate::status::Status;
use check_library::{Checked, check};
use core_check::{AcceptRefusal, Accepted, accept, faults_are_clauses_that_fail};
use core_machine::{
    Machine, Turn, a_run_that_is_over_stays, never_wrong, steps_add_to_what_was_printed,
};
use core_rows::core_row_laws;
use dart_text::Text;
use dart_tree::Body;
use elaborate::elaborate;
use fault_io::{Sink, WriteRefusal, write_all_of};
use std::alloc::{AllocError, Global};

/// What a run prints is written where it has come to so many bytes, and at its end.
const PIECE: usize = 65_536;

/// The core program of what is run of a library in whose text nothing is wrong, the body of its
/// function `main`. It is accepted, and no number of its steps goes wrong.
fn program_of(alloc: Global, checked: &Checked, body: &Body) -> Result<Accepted, AllocError>
    requires faultless { IsFaultless checked.now }
    requires body { option_map (λ main. main.1) (main_of_checked checked.now) ≡ Some body.now }
    ensures program { IfOk result (λ program. program ≡ elaborated checked.now.rows checked.now.unit.words checked.now.forms.outside.items body.now) }
    ensures sound { IfOk result (λ program. (n : ℕ) (kind : Kind) → run_of program n ≢ Wrong kind) }
{
    let program = elaborate(alloc, checked, body)?;
    faults_are_clauses_that_fail(&program);
    core_row_laws(&checked.rows);
    match accept(alloc, program) {
        Ok(accepted) => {
            never_wrong(&accepted);
            Ok(accepted)
        }
        Err(AcceptRefusal::Rejected { .. }) => unreachable!(),
        Err(AcceptRefusal::Memory) => Err(AllocError),
    }
}

/// Takes a step, and puts what it prints behind what was printed before.
fn step_into(machine: &mut Machine, printed: &mut Vec<u8>) -> Result<Turn, AllocError>
    ensures program { machine.new.0 ≡ machine.old.0 }
    ensures taken { OnOk result (machine.new.1.output ≡ []) }
    ensures step { IfOk result (λ turn. (more : List ℕ) × (printed.new.items ≡ printed.old.items ++ more)
        × (step_of machine.old.0 machine.old.1 ≡ Reaches (record machine.new.1 { output = more }))
        × (turn ≡ turn_of machine.new.1.end)) }
{
    let turn = machine.step()?;
    let more = machine.take_output();
    printed.extend_from_slice(more.as_slice())?;
    Ok(turn)
}

/// Writes what was printed, if it is a piece.
fn write_piece<K: Sink>(
    alloc: Global,
    sink: &mut K,
    printed: &mut Vec<u8>,
) -> Result<(), WriteRefusal>
    ensures piece { OnOk result ((piece : List ℕ) × (printed.old.items ≡ piece ++ printed.new.items)
        × (K.written sink.new ≡ and_then (K.written sink.old) piece)) }
    ensures part { OnErr result ((n : ℕ) × (n < length printed.old.items)
        × (K.written sink.new ≡ and_then (K.written sink.old) (take n printed.old.items))) }
    ensures ok { OnOk result (K.faults sink.new ≡ K.faults sink.old) }
    ensures failed { result ≡ Err WriteRefusal.Failed → Rose (K.faults sink.old) (K.faults sink.new) }
    ensures memory { result ≡ Err WriteRefusal.Memory → K.faults sink.new ≡ K.faults sink.old }
{
    if printed.len() < PIECE {
        return Ok(());
    }
    write_all_of(alloc, sink, printed.as_slice())?;
    printed.clear();
    Ok(())
}

/// Runs a program for at most so many steps, and writes what it prints as it goes on.
fn run_program<K: Sink>(
    alloc: Global,
    sink: &mut K,
    program: Accepted,
    steps: u64,
) -> Result<Status, WriteRefusal>
    requires { (n : ℕ) (kind : Kind) → run_of program n ≢ Wrong kind }
    ensures writes { Writes (Prints (run_of program steps)) (K.written sink.old) (K.written sink.new) result }
    ensures counts { Counts result (K.faults sink.old) (K.faults sink.new) }
{
    a_run_that_is_over_stays(program.program());
    steps_add_to_what_was_printed(program.program());
    let mut machine = Machine::new(alloc, program)?;
    let mut printed = Vec::new(alloc);
    for _ in 0..steps {
        match step_into(&mut machine, &mut printed)? {
            Turn::Went => write_piece(alloc, sink, &mut printed)?,
            Turn::Done => return say(alloc, sink, printed.as_slice(), Status::Done),
        }
    }
    printed.extend_from_slice(STEPS_SPENT)?;
    say(alloc, sink, printed.as_slice(), Status::StepsSpent)
}

/// Refuses to run a library whose directives aren't built in runs yet.
fn refuse_unbuilt<K: Sink>(
    alloc: Global,
    sink: &mut K,
    has_main: bool,
) -> Result<Status, WriteRefusal>
    ensures writes { Writes (UnbuiltGives has_main) (K.written sink.old) (K.written sink.new) result }
    ensures counts { Counts result (K.faults sink.old) (K.faults sink.new) }
{
    if has_main {
        say(alloc, sink, NOT_BUILT, Status::Rejected)
    } else {
        say(alloc, sink, NO_MAIN, Status::Refused)
    }
}

/// Runs a library in which nothing is wrong, which may declare `main`, by the path of its file and its text.
pub fn run_library<K: Sink>(
    alloc: Global,
    sink: &mut K,
    file: &str,
    text: &Text,
    has_main: bool,
    steps: u64,
) -> Result<Status, WriteRefusal>
    ensures writes { Writes (RunGives text.now has_main steps (diagnostics text.now)) (K.written sink.old) (K.written sink.new) result }
    ensures counts { Counts result (K.faults sink.old) (K.faults sink.new) }
{
    let checked = check(alloc, file, text)?;
    if !checked.diagnostics.as_slice().is_empty() {
        return refuse_unbuilt(alloc, sink, has_main);
    }
    match checked.main() {
        Some(body) => {
            let program = program_of(alloc, &checked, body)?;
            run_program(alloc, sink, program, steps)
        }
        None => say(alloc, sink, NO_MAIN, Status::Refused),
    }
}
