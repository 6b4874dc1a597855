//! The machine.

ghost use Rattle.std.specs.Prelude.{◌≡◌, IfOk, OnErr, [], Option, ◌<◌, length};
ghost use Rattle.core_machine.specs.State.{Reaches, start, step_of, turn_of, main_of};

use crate::decide::decide;
use crate::effect::{Effect, RunEnd};
use crate::frame::Frame;
use crate::print::print;
use core_check::Accepted;
use core_ir::{CoreFunction, CoreProgram};
use std::alloc::{AllocError, Global};
use std::marker::Model;
use std::mem;

/// What a step tells.
#[derive(Clone, Copy, Debug, PartialEq, Eq)]
pub enum Turn {
    /// The run went on.
    Went,
    /// The run is over: the program was done.
    Done,
}

/// A run of an accepted program.
///
/// Contracts see it as the program and the state of the run. No test of the machine is one for a way
/// to go wrong.
#[derive(Drop)]
pub struct Machine {
    alloc: Global,
    program: Accepted,
    running: Frame,
    waiting: Vec<Frame>,
    output: Vec<u8>,
    end: Option<RunEnd>,
}

impl Model for Machine {
    ghost use Rattle.std.specs.Coded.{coded×};
    ghost use Rattle.core_ir.specs.Program.{Program, program_code};
    ghost use Rattle.core_machine.specs.State.{State, state_code};

    ghost Value = { Program × State };

    ghost coded = { coded× program_code state_code };

    ghost view = { λ m. (m.program, record { running = m.running; waiting = m.waiting.items; output = m.output.items; end = m.end }) };

    ghost use Rattle.core_machine.specs.Sound.{FramesFit};

    ghost invariant = { λ m. FramesFit m.program m.running m.waiting.items };
}

// The function with which a run begins.
fn main_function(program: &CoreProgram) -> &CoreFunction
    requires { program.now.main.0 < length program.now.functions }
    ensures { result.now ≡ main_of program.now }
{
    &program.functions[program.main.0 as usize]
}

impl Machine {
    /// A run that stands at the entry of `main`.
    pub fn new(alloc: Global, program: Accepted) -> Result<Machine, AllocError>
        ensures { IfOk result (λ m. m ≡ (program, start program)) }
    {
        let core = program.program();
        let running = Frame::enter(alloc, core.main, main_function(core))?;
        Ok(Machine {
            alloc,
            program,
            running,
            waiting: Vec::new(alloc),
            output: Vec::new(alloc),
            end: None,
        })
    }

    /// One step: the row of the term at which the running frame stands. Once it answers `Done`, each
    /// further call answers the same and changes nothing. After an `Err` the run is as before.
    pub fn step(&mut self) -> Result<Turn, AllocError>
        ensures program { self.new.0 ≡ self.old.0 }
        ensures ok { IfOk result (λ turn. (step_of self.old.0 self.old.1 ≡ Reaches self.new.1) × (turn ≡ turn_of self.new.1.end)) }
        ensures err { OnErr result (self.new ≡ self.old) }
    {
        if let Some(RunEnd::Done) = self.end {
            return Ok(Turn::Done);
        }
        match decide(self.program.program(), &self.running) {
            Effect::Write { to, value, next } => {
                self.running.write(to, value, next);
                Ok(Turn::Went)
            }
            Effect::Go { next } => {
                self.running.go(next);
                Ok(Turn::Went)
            }
            Effect::Print { value, next } => {
                print(&mut self.output, value)?;
                self.running.go(next);
                Ok(Turn::Went)
            }
            Effect::Stop { end } => {
                self.end = Some(end);
                Ok(Turn::Done)
            }
        }
    }

    /// What was printed since it was last taken: for each value its text and a line feed.
    pub fn take_output(&mut self) -> Vec<u8>
        ensures taken { result.items ≡ self.old.1.output }
        ensures rest { self.new ≡ (self.old.0, record self.old.1 { output = [] }) }
    {
        mem::replace(&mut self.output, Vec::new(self.alloc))
    }
}
