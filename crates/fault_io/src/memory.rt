//! Sources and sinks in memory.

ghost use Rattle.std.specs.Prelude.{◌≡◌, ◌≢◌, ℕ, ◌+◌, ◌-◌, ◌<◌, ◌≤◌, ◌^◌, ◌↔◌, List, [], ◌++◌, length, take, drop, min, IsTrue, Contains, Some, Ok, Err, IfOk, OnOk, OnErr, IsErr};
ghost use Rattle.fault_io.specs.Faults.{one_more, last_count};

use crate::plan::{Schedule, raise};
use crate::traits::{Failed, Sink, Source, WriteRefusal};
use std::alloc::Global;
use std::marker::Model;

/// Copies what fits, at most `piece` bytes.
fn copy_front(from: &[u8], to: &mut [u8], piece: usize) -> usize
    ensures count { result ≡ min piece (min (length from.now) (length to.old)) }
    ensures copied { to.new ≡ take result from.now ++ drop result to.old }
{
    let n = piece.min(from.len().min(to.len()));
    to[..n].copy_from_slice(&from[..n]);
    n
}

/// A source in memory that never fails and gives all that fits. Contracts see it as the bytes that
/// are left.
#[derive(Drop)]
pub struct SteadySource {
    bytes: Vec<u8>,
    at: usize,
}

impl Model for SteadySource {
    ghost use Rattle.std.specs.Prelude.{ℕ, List, drop, ◌≤◌, vec_len};

    ghost Value = { List ℕ };

    ghost view = { λ s. drop s.at s.bytes.items };

    ghost invariant = { λ s. s.at ≤ vec_len s.bytes };
}

impl SteadySource {
    /// A source of these bytes.
    pub fn new(bytes: Vec<u8>) -> SteadySource
        ensures { result ≡ bytes.items }
    {
        SteadySource { bytes, at: 0 }
    }

    /// The bytes that are left.
    pub fn left(&self) -> &[u8]
        ensures { result.now ≡ self.now }
    {
        &self.bytes[self.at..]
    }
}

impl Source for SteadySource {
    ghost left = { λ s. Some s };

    ghost faults = { λ _. 0 };

    fn read(&mut self, buf: &mut [u8]) -> Result<usize, Failed> {
        let n = copy_front(&self.bytes[self.at..], buf, usize::MAX);
        self.at += n;
        Ok(n)
    }
}

/// A sink in memory that never fails and takes all.
#[derive(Drop)]
pub struct SteadySink {
    bytes: Vec<u8>,
    shortages: u64,
}

impl Model for SteadySink {
    ghost use Rattle.fault_io.specs.Plan.{SteadyWritten};

    ghost Value = { SteadyWritten };

    ghost view = { λ s. record { bytes = s.bytes.items; shortages = s.shortages } };
}

impl SteadySink {
    /// A sink to which nothing was written.
    pub fn new(alloc: Global) -> SteadySink
        ensures { result ≡ record { bytes = []; shortages = 0 } }
    {
        SteadySink {
            bytes: Vec::new(alloc),
            shortages: 0,
        }
    }

    /// The bytes that were written.
    pub fn written(&self) -> &[u8]
        ensures { result.now ≡ self.now.bytes }
    {
        self.bytes.as_slice()
    }
}

impl Sink for SteadySink {
    ghost written = { λ s. Some s.bytes };

    ghost faults = { λ _. 0 };

    ghost shortages = { λ s. s.shortages };

    fn write(&mut self, _alloc: Global, bytes: &[u8]) -> Result<usize, WriteRefusal> {
        match self.bytes.extend_from_slice(bytes) {
            Ok(()) => Ok(bytes.len()),
            Err(_) => {
                self.shortages = raise(self.shortages);
                Err(WriteRefusal::Memory)
            }
        }
    }
}

/// A source in memory that gives at most `piece` bytes a call, and fails at stated calls.
#[derive(Drop)]
pub struct MemorySource {
    bytes: Vec<u8>,
    at: usize,
    piece: usize,
    schedule: Schedule,
}

impl Model for MemorySource {
    ghost use Rattle.std.specs.Prelude.{ℕ, List, drop, ◌≤◌, vec_len};
    ghost use Rattle.fault_io.specs.Plan.{SourceInMemory};

    ghost Value = { SourceInMemory };

    ghost view = { λ s. record { bytes = drop s.at s.bytes.items; piece = s.piece; plan = s.schedule } };

    ghost invariant = { λ s. (s.at ≤ vec_len s.bytes) × (1 ≤ s.piece) };
}

impl MemorySource {
    /// A source of these bytes, of which the calls with these numbers, from 0, fail.
    pub fn new(bytes: Vec<u8>, piece: usize, fails: Vec<u64>) -> MemorySource
        requires { 1 ≤ piece }
        ensures { result ≡ record { bytes = bytes.items; piece = piece; plan = record { fails = fails.items; calls = 0; faults = 0 } } }
    {
        MemorySource {
            bytes,
            at: 0,
            piece,
            schedule: Schedule::new(fails),
        }
    }

    /// The bytes that are left.
    pub fn left(&self) -> &[u8]
        ensures { result.now ≡ self.now.bytes }
    {
        &self.bytes[self.at..]
    }

    /// One read, as `Source` has it: it fails exactly where its number is listed.
    pub fn read_piece(&mut self, buf: &mut [u8]) -> Result<usize, Failed>
        ensures fails { IsErr result ↔ Contains self.old.plan.fails self.old.plan.calls }
        ensures count { IfOk result (λ n. n ≡ min self.old.piece (min (length self.old.bytes) (length buf.old))) }
        ensures copied { IfOk result (λ n. buf.new ≡ take n self.old.bytes ++ drop n buf.old) }
        ensures left { IfOk result (λ n. self.new.bytes ≡ drop n self.old.bytes) }
        ensures kept { OnErr result (self.new.bytes ≡ self.old.bytes) }
        ensures piece { (self.new.piece ≡ self.old.piece) × (self.new.plan.fails ≡ self.old.plan.fails) }
        ensures some { 1 ≤ self.old.piece }
        ensures calls { self.new.plan.calls ≡ min (self.old.plan.calls + 1) (2 ^ 64) }
        ensures bounded { self.old.plan.faults ≤ last_count }
        ensures ok { OnOk result (self.new.plan.faults ≡ self.old.plan.faults) }
        ensures failed { OnErr result (self.new.plan.faults ≡ one_more self.old.plan.faults) }
    {
        if self.schedule.begin() {
            return Err(Failed);
        }
        let n = copy_front(&self.bytes[self.at..], buf, self.piece);
        self.at += n;
        Ok(n)
    }
}

impl Source for MemorySource {
    ghost left = { λ s. Some s.bytes };

    ghost faults = { λ s. s.plan.faults };

    fn read(&mut self, buf: &mut [u8]) -> Result<usize, Failed> {
        self.read_piece(buf)
    }
}

/// A sink in memory that takes at most `piece` bytes a call, and fails at stated calls.
#[derive(Drop)]
pub struct MemorySink {
    bytes: Vec<u8>,
    piece: usize,
    schedule: Schedule,
    shortages: u64,
}

impl Model for MemorySink {
    ghost use Rattle.std.specs.Prelude.{ℕ, List, drop, ◌≤◌, vec_len};
    ghost use Rattle.fault_io.specs.Plan.{SinkInMemory};

    ghost Value = { SinkInMemory };

    ghost view = { λ s. record { bytes = s.bytes.items; piece = s.piece; plan = s.schedule; shortages = s.shortages } };

    ghost invariant = { λ s. 1 ≤ s.piece };
}

impl MemorySink {
    /// A sink to which nothing was written, of which the calls with these numbers, from 0, fail.
    pub fn new(alloc: Global, piece: usize, fails: Vec<u64>) -> MemorySink
        requires { 1 ≤ piece }
        ensures { result ≡ record { bytes = []; piece = piece; plan = record { fails = fails.items; calls = 0; faults = 0 }; shortages = 0 } }
    {
        MemorySink {
            bytes: Vec::new(alloc),
            piece,
            schedule: Schedule::new(fails),
            shortages: 0,
        }
    }

    /// The bytes that were written.
    pub fn written(&self) -> &[u8]
        ensures { result.now ≡ self.now.bytes }
    {
        self.bytes.as_slice()
    }

    /// One write, as `Sink` has it: it is `Failed` exactly where its number is listed.
    pub fn write_piece(&mut self, bytes: &[u8]) -> Result<usize, WriteRefusal>
        ensures fails { (result ≡ Err WriteRefusal.Failed) ↔ Contains self.old.plan.fails self.old.plan.calls }
        ensures count { IfOk result (λ n. n ≡ min self.old.piece (length bytes.now)) }
        ensures taken { IfOk result (λ n. self.new.bytes ≡ self.old.bytes ++ take n bytes.now) }
        ensures kept { OnErr result (self.new.bytes ≡ self.old.bytes) }
        ensures piece { (self.new.piece ≡ self.old.piece) × (self.new.plan.fails ≡ self.old.plan.fails) }
        ensures some { 1 ≤ self.old.piece }
        ensures calls { self.new.plan.calls ≡ min (self.old.plan.calls + 1) (2 ^ 64) }
        ensures bounded { self.old.plan.faults ≤ last_count }
        ensures ok { OnOk result (self.new.plan.faults ≡ self.old.plan.faults) }
        ensures failed { result ≡ Err WriteRefusal.Failed → self.new.plan.faults ≡ one_more self.old.plan.faults }
        ensures memory { result ≡ Err WriteRefusal.Memory → self.new.plan.faults ≡ self.old.plan.faults }
        ensures countable { self.old.shortages ≤ last_count }
        ensures short { result ≡ Err WriteRefusal.Memory → self.new.shortages ≡ one_more self.old.shortages }
        ensures not_short { result ≢ Err WriteRefusal.Memory → self.new.shortages ≡ self.old.shortages }
    {
        if self.schedule.begin() {
            return Err(WriteRefusal::Failed);
        }
        let n = self.piece.min(bytes.len());
        match self.bytes.extend_from_slice(&bytes[..n]) {
            Ok(()) => Ok(n),
            Err(_) => {
                self.shortages = raise(self.shortages);
                Err(WriteRefusal::Memory)
            }
        }
    }
}

impl Sink for MemorySink {
    ghost written = { λ s. Some s.bytes };

    ghost faults = { λ s. s.plan.faults };

    ghost shortages = { λ s. s.shortages };

    fn write(&mut self, _alloc: Global, bytes: &[u8]) -> Result<usize, WriteRefusal> {
        self.write_piece(bytes)
    }
}
