//! What answers the lines of a server.

ghost use Rattle.std.specs.Prelude.{◌≤◌, ◌≡◌, false, ℕ, List, Bool, IfOk, option_map, Option};

use crate::heard::Heard;
use fault_io::Files;
use std::alloc::{AllocError, Global};

/// Answers events, one after another.
///
/// What it may answer is a relation between its state before an event, what the store of files tells,
/// the reply and the state after: an answer that rests on what a store has, which doesn't tell it, is
/// no function of the rest.
pub trait Answerer {
    ghost use Rattle.fault_io.specs.Stored.{Stored};
    ghost use Rattle.serve_loop.specs.Event.{Event, event_of};
    ghost use Rattle.serve_loop.specs.Marks.{Tells};

    /// What the answerer knows, as far as replies depend on it.
    type State;

    ghost state: { Self → Self.State };

    // over what the store tells, in a state, to an event, and by a mark that says whether the store failed: a reply that may be given, and the state after it
    ghost gives: { Option Stored → Self.State → Event → Bool → Option (List ℕ) → Self.State → Type 0 };

    // whether the store may be used in the answer to an event
    ghost uses: { Event → Bool };

    /// The bytes that answer an event, `None` where it has no reply.
    fn answer<F: Files>(
        &mut self,
        alloc: Global,
        heard: Heard<'_>,
        files: &mut F,
    ) -> Result<Option<Vec<u8>>, AllocError>
        ensures answered { IfOk result (λ bytes. (mark : Bool) × Tells (uses (event_of heard.entry)) mark (F.faults files.old) (F.faults files.new)
            × gives (F.told files.old) (state self.old) (event_of heard.entry) mark (option_map (λ v. v.items) bytes) (state self.new)) }
        ensures unused { uses (event_of heard.entry) ≡ false → F.faults files.new ≡ F.faults files.old }
        ensures uncalled { uses (event_of heard.entry) ≡ false → (F.lists files.new ≡ F.lists files.old) × (F.reads files.new ≡ F.reads files.old) }
        ensures told { F.told files.new ≡ F.told files.old }
        ensures no_less { F.faults files.old ≤ F.faults files.new };
}
