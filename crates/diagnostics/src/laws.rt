//! A law of the names of codes, over their definitions alone.

ghost use Rattle.std.specs.Prelude.{◌≡◌};
ghost use Rattle.diagnostics.specs.Codes.{name_cmp};

use judgement::DiagnosticCode;

/// Codes are ordered as the bytes of their names are: `cmp` of two codes, which decides the order of
/// the faults of one place, answers what `cmp` answers of the names that a client reads.
pub fn codes_are_ordered_by_name(_a: DiagnosticCode, _b: DiagnosticCode)
    ensures { ⟦<DiagnosticCode as Ord>⟧.cmp _a _b ≡ name_cmp _a _b }
{}
