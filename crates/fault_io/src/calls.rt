//! How often a store of files was called.

ghost use Rattle.std.specs.Prelude.{◌≡◌};
ghost use Rattle.fault_io.specs.Faults.{one_more};

use crate::plan::raise;

/// How often a store was asked for a folder, and how often for a file.
#[derive(Drop)]
pub struct Calls {
    pub lists: u64,
    pub reads: u64,
}

impl Calls {
    /// Before the first call.
    pub fn none() -> Calls
        ensures { result ≡ record { lists = 0; reads = 0 } }
    {
        Calls { lists: 0, reads: 0 }
    }

    /// One more call of `list`.
    pub fn count_list(&mut self)
        ensures { self.new ≡ record self.old { lists = one_more self.old.lists } }
    {
        self.lists = raise(self.lists);
    }

    /// One more call of `read`.
    pub fn count_read(&mut self)
        ensures { self.new ≡ record self.old { reads = one_more self.old.reads } }
    {
        self.reads = raise(self.reads);
    }
}
