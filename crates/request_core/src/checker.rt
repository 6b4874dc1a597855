//! What checks the files of a session.

ghost use Rattle.std.specs.Prelude.{◌≡◌, ◌≤◌, IfOk, IsTrue, OnOk, OnErr};

use crate::faults::Faults;
use protocol_rules::Contents;
use std::alloc::{AllocError, Global};
use work_counts::Work;

/// Checks the files of the contents that it holds.
///
/// A checker may keep what it made, and may tell of it: what it parsed, linked and checked last of each
/// path. What it answers doesn't depend on that, and is what the rules say from nothing; how much it
/// does for an answer then follows from what it told. One that keeps nothing has nothing to tell.
pub trait Checker {
    ghost use Rattle.std.specs.Prelude.{ℕ, Option};
    ghost use Rattle.work_counts.specs.Counts.{NoLess};
    ghost use Rattle.protocol_rules.specs.Files.{analyzed_count, is_analyzed, AreDiagnosticsOf};
    ghost use Rattle.protocol_rules.specs.State.{State};
    ghost use Rattle.request_core.specs.Kept.{Kept, Handed, Asked};

    // the contents that it holds
    ghost holds: { Self → State };

    // what it tells of its earlier work, None where it doesn't tell
    ghost kept: { Self → Option Kept };

    // how many analyzed files it counts as not answered for since a text or a path has changed
    ghost due: { Self → ℕ };

    /// It holds these contents from now on, and drops what it kept of the paths that have nothing any
    /// more. Want of memory leaves what it holds as it was.
    fn set_contents(&mut self, alloc: Global, contents: &Contents) -> Result<(), AllocError>
        ensures ok { OnOk result (holds self.new ≡ contents.now) }
        ensures err { OnErr result (holds self.new ≡ holds self.old) }
        ensures handed { OnOk result (Handed contents.now (kept self.old) (kept self.new)) };

    /// The diagnostics of a file that is analyzed, over the contents that it holds: what the rules of
    /// the language say of them, from nothing. `work` is raised by what is done for it: where the
    /// checker tells what it keeps, by exactly what has changed since. Want of memory leaves `work`.
    fn errors_of(
        &mut self,
        alloc: Global,
        path: &str,
        work: &mut Work,
    ) -> Result<Faults, AllocError>
        requires { IsTrue (is_analyzed (holds self.old) path.now) }
        ensures exact { IfOk result (λ faults. AreDiagnosticsOf (holds self.old) path.now faults) }
        ensures held { holds self.new ≡ holds self.old }
        ensures asked { OnOk result (Asked (holds self.old) path.now (kept self.old) (kept self.new) work.old work.new) }
        ensures no_less { NoLess work.old work.new }
        ensures unraised { OnErr result (work.new ≡ work.old) };

    /// How many analyzed files it counts as not answered for since a text or a path has changed: at
    /// most all of them. It takes no memory.
    fn work(&self) -> u64
        ensures exact { result ≡ due self.now }
        ensures few { result ≤ analyzed_count (holds self.now) };
}
