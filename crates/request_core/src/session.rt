//! A session: what a client has given, and the replies to its requests.

ghost use Rattle.std.specs.Prelude.{◌≡◌, ◌≤◌, false, Some, IfOk, OnOk, option_map, unwrap_or};
ghost use Rattle.serve_loop.specs.Event.{event_of, line as line_event};
ghost use Rattle.protocol_rules.specs.Answers.{uses_store};
ghost use Rattle.protocol_rules.specs.State.{at_start};
ghost use Rattle.protocol_rules.specs.Turns.{bytes_of, invalid_turn};
ghost use Rattle.request_core.specs.Said.{IsAnswered};

use crate::checker::Checker;
use crate::rows::said_to_line;
use crate::said::{invalid, written};
use fault_io::Files;
use load_files::Packages;
use protocol_rules::{Contents, is_skipped};
use serve_loop::{Answerer, Heard};
use std::alloc::{AllocError, Global};
use std::marker::Model;
use work_counts::Work;

/// A session: the contents that its client has given and its roots have, and a checker that holds
/// them, with the work that it has done so far. Contracts see the contents. After want of memory it
/// isn't used.
#[derive(Drop)]
pub struct Session<C: Checker> {
    contents: Contents,
    checker: C,
    work: Work,
}

impl<C: Checker> Model for Session<C> {
    ghost use Rattle.protocol_rules.specs.State.{State};
    ghost use Rattle.request_core.specs.Holding.{Holds};

    ghost Value = { State };

    ghost view = { λ s. s.contents };

    ghost invariant = { λ s. Holds (C.holds s.checker) s.contents };
}

impl<C: Checker> Session<C> {
    /// A session over these packages to which nothing was given yet.
    pub fn new(alloc: Global, packages: Packages, checker: C) -> Session<C>
        ensures { result ≡ at_start packages }
    {
        Session {
            contents: Contents::new(alloc, packages),
            checker,
            work: Work::new(),
        }
    }

    /// Other contents, if there are some, take the place of these, and the checker holds them.
    fn take(&mut self, alloc: Global, after: Option<Contents>) -> Result<(), AllocError>
        ensures { OnOk result (self.new ≡ unwrap_or after self.old) }
    {
        if let Some(contents) = after {
            self.checker.set_contents(alloc, &contents)?;
            self.contents = contents;
        }
        Ok(())
    }

    /// The reply to a line, and None where it is skipped.
    fn reply_to_line<F: Files>(
        &mut self,
        alloc: Global,
        line: &[u8],
        files: &mut F,
    ) -> Result<Option<Vec<u8>>, AllocError>
        ensures answered { IfOk result (λ bytes. IsAnswered (F.told files.old) (F.faults files.old) (F.faults files.new)
            self.old (line_event line.now) (option_map (λ v. v.items) bytes) self.new) }
        ensures unused { uses_store (line_event line.now) ≡ false → F.faults files.new ≡ F.faults files.old }
        ensures uncalled { uses_store (line_event line.now) ≡ false → (F.lists files.new ≡ F.lists files.old) × (F.reads files.new ≡ F.reads files.old) }
        ensures told { F.told files.new ≡ F.told files.old }
        ensures no_less { F.faults files.old ≤ F.faults files.new }
    {
        if is_skipped(line) {
            return Ok(None);
        }
        let said = said_to_line(
            alloc,
            &self.contents,
            &mut self.checker,
            &mut self.work,
            files,
            line,
        )?;
        let bytes = written(alloc, &said)?;
        self.take(alloc, said.after)?;
        Ok(bytes)
    }

    /// The reply to a line that is too long.
    fn reply_to_too_long(&self, alloc: Global) -> Result<Option<Vec<u8>>, AllocError>
        ensures { IfOk result (λ bytes. option_map (λ v. v.items) bytes ≡ Some (bytes_of (invalid_turn self.now))) }
    {
        let said = invalid(alloc, &self.contents)?;
        let bytes = written(alloc, &said)?;
        Ok(bytes)
    }
}

impl<C: Checker> Answerer for Session<C> {
    type State = Contents;

    ghost use Rattle.protocol_rules.specs.Answers.{MayAnswer, uses_store};

    ghost state = { λ s. s };

    ghost gives = { MayAnswer };

    ghost uses = { uses_store };

    fn answer<F: Files>(
        &mut self,
        alloc: Global,
        heard: Heard<'_>,
        files: &mut F,
    ) -> Result<Option<Vec<u8>>, AllocError> {
        match heard {
            Heard::Line(line) => self.reply_to_line(alloc, line, files),
            Heard::TooLong => self.reply_to_too_long(alloc),
        }
    }
}
