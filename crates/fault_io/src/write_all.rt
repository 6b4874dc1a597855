//! Writing all of a text.

ghost use Rattle.std.specs.Prelude.{◌≡◌, ◌≢◌, ℕ, ◌<◌, ◌≤◌, List, [], ◌++◌, length, take, None, Ok, Err, IfOk, OnOk, OnErr, IfErr};
ghost use Rattle.fault_io.specs.Faults.{Rose};
ghost use Rattle.fault_io.specs.Bytes.{and_then};

use crate::traits::{Sink, WriteRefusal};
use std::alloc::Global;

/// Writes all of `bytes`. After a refusal only a part of them, from their front, is written. Each
/// call of the sink is handed all bytes that are left, of which the contract doesn't speak.
pub fn write_all_of<K: Sink>(alloc: Global, sink: &mut K, bytes: &[u8]) -> Result<(), WriteRefusal>
    ensures all { OnOk result (K.written sink.new ≡ and_then (K.written sink.old) bytes.now) }
    ensures part { OnErr result ((n : ℕ) × (n < length bytes.now) × (K.written sink.new ≡ and_then (K.written sink.old) (take n bytes.now))) }
    ensures ok { OnOk result (K.faults sink.new ≡ K.faults sink.old) }
    ensures failed { result ≡ Err WriteRefusal.Failed → Rose (K.faults sink.old) (K.faults sink.new) }
    ensures memory { result ≡ Err WriteRefusal.Memory → K.faults sink.new ≡ K.faults sink.old }
    ensures short { result ≡ Err WriteRefusal.Memory → Rose (K.shortages sink.old) (K.shortages sink.new) }
    ensures not_short { result ≢ Err WriteRefusal.Memory → K.shortages sink.new ≡ K.shortages sink.old }
{
    let mut at = 0;
    while at < bytes.len() {
        let taken = sink.write(alloc, &bytes[at..])?;
        at += taken;
    }
    Ok(())
}
