//! The order of diagnostics.

ghost use Rattle.std.specs.Prelude.{◌≡◌, ◌≤◌, IfOk, AllPairs, Contains, ◌↔◌};
ghost use Rattle.judgement.specs.declared.fault.Fault.{Fault};
ghost use Rattle.check_library.specs.Order.{IsBefore, code_cmp, sorted_faults, span_length};
ghost use Rattle.std.specs.declared.cmp.Ordering.TheVariants.{Less};

use judgement::Fault;
use std::alloc::{AllocError, Global};
use std::collections::BTreeSet;

/// Diagnostics in the order in which they are reported, each once: by where they start, then by
/// where they end, then by the names of their codes. It takes n log n steps for n of them.
pub fn sorted(alloc: Global, mut faults: Vec<Fault>) -> Result<Vec<Fault>, AllocError>
    ensures { IfOk result (λ sorted. sorted.items ≡ sorted_faults faults.items) }
{
    let mut reported = BTreeSet::new(alloc);
    while let Some(fault) = faults.pop() {
        reported.insert(fault)?;
    }
    reported.into_iter().collect(alloc)
}

/// A law of the order: each diagnostic of a report stands before those behind it, and the report has
/// just the diagnostics that were found.
pub fn reports_are_in_order(_faults: &[Fault])
    ensures rising { AllPairs IsBefore (sorted_faults _faults.now) }
    ensures same { (fault : Fault) → Contains (sorted_faults _faults.now) fault ↔ Contains _faults.now fault }
{}

/// A law of the order: of two diagnostics the one that starts first is reported first, of two that
/// start together the one that isn't longer, and of two at one place the one whose code's name is
/// first.
pub fn earlier_and_shorter_come_first(_first: Fault, _second: Fault)
    ensures start { IsBefore _first _second → _first.span.start ≤ _second.span.start }
    ensures length { IsBefore _first _second → _first.span.start ≡ _second.span.start → span_length _first.span ≤ span_length _second.span }
    ensures code { IsBefore _first _second → _first.span ≡ _second.span → code_cmp _first.code _second.code ≡ Less }
{}
