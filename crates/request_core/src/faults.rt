//! The diagnostics of one file.

ghost use Rattle.std.specs.Prelude.{◌≡◌};

use judgement::Fault;
use std::marker::Model;

/// The diagnostics of a file, by offset, then length, then code, without repeats.
#[derive(Drop)]
pub struct Faults {
    faults: Vec<Fault>,
}

impl Model for Faults {
    ghost use Rattle.std.specs.Prelude.{List};
    ghost use Rattle.judgement.specs.declared.fault.Fault.{Fault};

    ghost Value = { List Fault };

    ghost view = { λ f. f.faults.items };
}

impl Faults {
    /// The diagnostics that the vector holds, which takes no memory.
    pub fn from_vec(faults: Vec<Fault>) -> Faults
        ensures { result ≡ faults.items }
    {
        Faults { faults }
    }

    /// The diagnostics themselves.
    pub fn as_slice(&self) -> &[Fault]
        ensures { result.now ≡ self.now }
    {
        self.faults.as_slice()
    }
}
