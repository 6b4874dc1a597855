//! Laws of what is found in files, over their definitions alone. `specs/Settled.antt` has them for proofs.

ghost use Rattle.check_files.specs.Laws.{DiagnosticsAreSettled, FindingsAreSettled};

/// A file has one list of diagnostics among the same files, in whatever order exported names are listed.
pub fn diagnostics_are_settled()
    ensures { DiagnosticsAreSettled }
{}

/// What is found in the libraries that a library reaches, itself too, is one list among the same files,
/// in whatever order exported names are listed.
pub fn findings_are_settled()
    ensures { FindingsAreSettled }
{}
