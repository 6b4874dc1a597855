//! Stores of files in memory.

ghost use Rattle.std.specs.Prelude.{◌≡◌, ℕ, ◌+◌, ◌≤◌, ◌^◌, ◌↔◌, Contains, min, IsTrue, Ok, Err, IfOk, OnOk, OnErr, Some, option_map};
ghost use Rattle.fault_io.specs.Faults.{one_more, last_count};
ghost use Rattle.fault_io.specs.Stored.{are_files, IsListing, bytes_at};

use crate::calls::Calls;
use crate::plan::Schedule;
use crate::stored::{bytes_at, listing};
use crate::traits::{Entry, Files, FilesRefusal};
use plain_text::{PlainBytes, PlainText};
use std::alloc::Global;
use std::marker::Model;

/// A store in memory that never fails.
#[derive(Drop)]
pub struct SteadyFiles {
    files: Vec<(PlainText, PlainBytes)>,
    calls: Calls,
}

impl Model for SteadyFiles {
    ghost use Rattle.std.specs.Prelude.{IsTrue};
    ghost use Rattle.fault_io.specs.Plan.{SteadyStore};
    ghost use Rattle.fault_io.specs.Stored.{are_files};

    ghost Value = { SteadyStore };

    ghost view = { λ s. record { files = s.files.items; calls = s.calls } };

    ghost invariant = { λ s. IsTrue (are_files s.files.items) };
}

impl SteadyFiles {
    /// A store of these files, each a path and its bytes. `are_files` is the test.
    pub fn new(files: Vec<(PlainText, PlainBytes)>) -> SteadyFiles
        requires { IsTrue (are_files files.items) }
        ensures { result ≡ record { files = files.items; calls = record { lists = 0; reads = 0 } } }
    {
        SteadyFiles {
            files,
            calls: Calls::none(),
        }
    }
}

impl Files for SteadyFiles {
    ghost told = { λ s. Some s.files };

    ghost faults = { λ _. 0 };

    ghost lists = { λ s. s.calls.lists };

    ghost reads = { λ s. s.calls.reads };

    fn list(&mut self, alloc: Global, path: &str) -> Result<Option<Vec<Entry>>, FilesRefusal> {
        self.calls.count_list();
        let found = listing(alloc, self.files.as_slice(), path)?;
        Ok(found)
    }

    fn read(&mut self, alloc: Global, path: &str) -> Result<Option<Vec<u8>>, FilesRefusal> {
        self.calls.count_read();
        let found = bytes_at(alloc, self.files.as_slice(), path)?;
        Ok(found)
    }
}

/// A store in memory that fails at stated calls, where `list` and `read` are numbered together
/// from 0.
#[derive(Drop)]
pub struct MemoryFiles {
    files: Vec<(PlainText, PlainBytes)>,
    schedule: Schedule,
    calls: Calls,
}

impl Model for MemoryFiles {
    ghost use Rattle.std.specs.Prelude.{IsTrue};
    ghost use Rattle.fault_io.specs.Plan.{StoreInMemory};
    ghost use Rattle.fault_io.specs.Stored.{are_files};

    ghost Value = { StoreInMemory };

    ghost view = { λ s. record { files = s.files.items; plan = s.schedule; calls = s.calls } };

    ghost invariant = { λ s. IsTrue (are_files s.files.items) };
}

impl MemoryFiles {
    /// A store of these files, each a path and its bytes, of which the calls with these numbers
    /// fail. `are_files` is the test.
    pub fn new(files: Vec<(PlainText, PlainBytes)>, fails: Vec<u64>) -> MemoryFiles
        requires { IsTrue (are_files files.items) }
        ensures { result ≡ record { files = files.items; plan = record { fails = fails.items; calls = 0; faults = 0 }; calls = record { lists = 0; reads = 0 } } }
    {
        MemoryFiles {
            files,
            schedule: Schedule::new(fails),
            calls: Calls::none(),
        }
    }

    /// One call of `list`, as `Files` has it: it is `Failed` exactly where its number is listed.
    pub fn list_entries(
        &mut self,
        alloc: Global,
        path: &str,
    ) -> Result<Option<Vec<Entry>>, FilesRefusal>
        ensures fails { (result ≡ Err FilesRefusal.Failed) ↔ Contains self.old.plan.fails self.old.plan.calls }
        ensures listed { IfOk result (λ found. IsListing self.old.files path.now (option_map (λ v. v.items) found)) }
        ensures files { self.new.files ≡ self.old.files }
        ensures sound { IsTrue (are_files self.old.files) }
        ensures plan { self.new.plan.fails ≡ self.old.plan.fails }
        ensures calls { self.new.plan.calls ≡ min (self.old.plan.calls + 1) (2 ^ 64) }
        ensures bounded { self.old.plan.faults ≤ last_count }
        ensures ok { OnOk result (self.new.plan.faults ≡ self.old.plan.faults) }
        ensures failed { result ≡ Err FilesRefusal.Failed → self.new.plan.faults ≡ one_more self.old.plan.faults }
        ensures memory { result ≡ Err FilesRefusal.Memory → self.new.plan.faults ≡ self.old.plan.faults }
        ensures counted { self.new.calls ≡ record self.old.calls { lists = one_more self.old.calls.lists } }
    {
        self.calls.count_list();
        if self.schedule.begin() {
            return Err(FilesRefusal::Failed);
        }
        match listing(alloc, self.files.as_slice(), path) {
            Ok(found) => Ok(found),
            Err(_) => Err(FilesRefusal::Memory),
        }
    }

    /// One call of `read`, as `Files` has it: it is `Failed` exactly where its number is listed.
    pub fn read_bytes(&mut self, alloc: Global, path: &str) -> Result<Option<Vec<u8>>, FilesRefusal>
        ensures fails { (result ≡ Err FilesRefusal.Failed) ↔ Contains self.old.plan.fails self.old.plan.calls }
        ensures read { IfOk result (λ found. option_map (λ v. v.items) found ≡ bytes_at self.old.files path.now) }
        ensures files { self.new.files ≡ self.old.files }
        ensures sound { IsTrue (are_files self.old.files) }
        ensures plan { self.new.plan.fails ≡ self.old.plan.fails }
        ensures calls { self.new.plan.calls ≡ min (self.old.plan.calls + 1) (2 ^ 64) }
        ensures bounded { self.old.plan.faults ≤ last_count }
        ensures ok { OnOk result (self.new.plan.faults ≡ self.old.plan.faults) }
        ensures failed { result ≡ Err FilesRefusal.Failed → self.new.plan.faults ≡ one_more self.old.plan.faults }
        ensures memory { result ≡ Err FilesRefusal.Memory → self.new.plan.faults ≡ self.old.plan.faults }
        ensures counted { self.new.calls ≡ record self.old.calls { reads = one_more self.old.calls.reads } }
    {
        self.calls.count_read();
        if self.schedule.begin() {
            return Err(FilesRefusal::Failed);
        }
        match bytes_at(alloc, self.files.as_slice(), path) {
            Ok(found) => Ok(found),
            Err(_) => Err(FilesRefusal::Memory),
        }
    }
}

impl Files for MemoryFiles {
    ghost told = { λ s. Some s.files };

    ghost faults = { λ s. s.plan.faults };

    ghost lists = { λ s. s.calls.lists };

    ghost reads = { λ s. s.calls.reads };

    fn list(&mut self, alloc: Global, path: &str) -> Result<Option<Vec<Entry>>, FilesRefusal> {
        self.list_entries(alloc, path)
    }

    fn read(&mut self, alloc: Global, path: &str) -> Result<Option<Vec<u8>>, FilesRefusal> {
        self.read_bytes(alloc, path)
    }
}
