//! Where two paths meet: what is known of the locals on both.

ghost use Rattle.std.specs.Prelude.{◌≡◌, ◌<◌, IfOk, IsTrue, OnOk, length, set, slice_index_or};
ghost use Rattle.std.specs.List.{list_all};
ghost use Rattle.flow_model.specs.TypeTests.{is_in, union_of};
ghost use Rattle.flow_model.specs.Join.{join_facts, join_locals};
ghost use Rattle.flow_model.specs.Meeting.{on_path, HaveSameFlags, JoinTo};

use crate::local::Local;
use crate::locals::Facts;
use crate::pages::Locals;
use crate::types::{common, is_in, union};
use dart_types::{DartType, TypeList};
use std::alloc::{AllocError, Global};

/// One of two paths that meet.
#[derive(Clone, Copy)]
pub(crate) enum Path {
    First,
    Second,
}

/// What is known of each local on both paths, where the lists pair them by their places. What one
/// has beyond the other's end is passed over. Pages of which the first path knows all that both know
/// are shared with it.
pub(crate) fn join_locals(alloc: Global, a: &Locals, b: &Locals) -> Result<Locals, AllocError>
    ensures { IfOk result (λ joined. joined ≡ join_locals a.now b.now) }
{
    let mut joined = a.front(alloc, b.len())?;
    for i in 0..joined.len() {
        let local = a.at(i).facts();
        let other = b.at(i).facts();
        write_joined(alloc, &mut joined, i, local, other)?;
    }
    Ok(joined)
}

// Writes what is known of a local on both paths over what the first path knows, unless that is seen
// to be the same.
fn write_joined(
    alloc: Global,
    joined: &mut Locals,
    place: usize,
    a: &Facts,
    b: &Facts,
) -> Result<(), AllocError>
    requires in_range { place < length joined.old }
    requires first_stands { a.now ≡ slice_index_or joined.old place a.now }
    ensures { OnOk result (joined.new ≡ set joined.old place (join_facts a.now b.now)) }
{
    if join_to_first(a, b) {
        return Ok(());
    }
    let met = join_facts(alloc, a, b)?;
    joined.put(alloc, place, met)
}

/// What is known of a local on both paths.
pub(crate) fn join_facts(alloc: Global, a: &Facts, b: &Facts) -> Result<Facts, AllocError>
    ensures { IfOk result (λ joined. joined ≡ join_facts a.now b.now) }
{
    let captured = a.captured || b.captured;
    let chain = if captured {
        TypeList::new(alloc)
    } else {
        common(alloc, &a.chain, &b.chain)?
    };
    Ok(Facts {
        var: a.var,
        ty: a.ty.copy(alloc)?,
        chain,
        tested: union(alloc, &a.tested, b.tested.as_slice())?,
        assigned: a.assigned && b.assigned,
        unassigned: a.unassigned && b.unassigned,
        captured,
    })
}

/// Whether it is seen without a join that locals, which are paired by their places, meet in what is
/// known of them on one of the paths. It takes no memory.
pub(crate) fn all_join_to(path: Path, a: &[Local], b: &[Local]) -> bool
    ensures { IsTrue result → JoinTo path a.now b.now }
{
    if a.len() != b.len() {
        return false;
    }
    for i in 0..a.len() {
        if !join_to(path, a[i].facts(), b[i].facts()) {
            return false;
        }
    }
    true
}

// Whether it is seen that both know of a local what is known of it on one of the paths.
fn join_to(path: Path, a: &Facts, b: &Facts) -> bool
    ensures { IsTrue result → join_facts a.now b.now ≡ on_path path a.now b.now }
{
    match path {
        Path::First => join_to_first(a, b),
        Path::Second => join_to_second(a, b),
    }
}

// Whether it is seen that both know of a local what the first path knows.
#[tactic(auto, using(crate::proofs::Meetings::joined_to_first))]
fn join_to_first(a: &Facts, b: &Facts) -> bool
    ensures { IsTrue result → join_facts a.now b.now ≡ a.now }
{
    flags_join_to(a, b, a)
        && chains_join_to_first(a, b)
        && are_in(b.tested.as_slice(), a.tested.as_slice())
}

// Whether it is seen that both know of a local what the second path knows.
#[tactic(auto, using(crate::proofs::Meetings::joined_to_second))]
fn join_to_second(a: &Facts, b: &Facts) -> bool
    ensures { IsTrue result → join_facts a.now b.now ≡ b.now }
{
    a.var == b.var
        && flags_join_to(a, b, b)
        && chains_join_to_second(a, b)
        && tests_join_to_second(a, b)
        && a.ty.is_same(&b.ty)
}

// Whether the flags of a local on both paths are these.
fn flags_join_to(a: &Facts, b: &Facts, joined: &Facts) -> bool
    ensures { IsTrue result → HaveSameFlags (join_facts a.now b.now) joined.now }
{
    joined.assigned == (a.assigned && b.assigned)
        && joined.unassigned == (a.unassigned && b.unassigned)
        && joined.captured == (a.captured || b.captured)
}

// Whether both promote a local to what the first path does.
#[tactic(auto, using(crate::proofs::Meetings::chain_of_captured, crate::proofs::Meetings::chain_of_free))]
fn chains_join_to_first(a: &Facts, b: &Facts) -> bool
    ensures { IsTrue result → (join_facts a.now b.now).chain ≡ a.now.chain }
{
    if a.captured || b.captured {
        return a.chain.as_slice().is_empty();
    }
    are_in(a.chain.as_slice(), b.chain.as_slice())
}

// Whether it is seen that both promote a local to what the second path does.
#[tactic(auto, using(crate::proofs::Meetings::chain_of_none, crate::proofs::Meetings::chain_of_same))]
fn chains_join_to_second(a: &Facts, b: &Facts) -> bool
    ensures { IsTrue result → (join_facts a.now b.now).chain ≡ b.now.chain }
{
    if b.chain.as_slice().is_empty() {
        return true;
    }
    if a.captured || b.captured {
        return false;
    }
    a.chain.is_same(&b.chain)
}

// Whether it is seen that what both were tested for is what the second path was.
#[tactic(auto, using(crate::proofs::Meetings::tested_of_none, crate::proofs::Meetings::tested_of_same))]
fn tests_join_to_second(a: &Facts, b: &Facts) -> bool
    ensures { IsTrue result → union_of a.now.tested b.now.tested ≡ b.now.tested }
{
    if a.tested.as_slice().is_empty() {
        return true;
    }
    a.tested.is_same(&b.tested)
}

// Whether each of the types is in a list.
fn are_in(types: &[DartType], list: &[DartType]) -> bool
    ensures { result ≡ list_all (is_in list.now) types.now }
{
    for t in types {
        if !is_in(list, t) {
            return false;
        }
    }
    true
}
