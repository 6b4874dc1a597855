//! What is said of places in files, and its order.

ghost use Rattle.std.specs.Prelude.{◌≡◌, ◌++◌, ◌==◌, map, IfOk, OnOk};
ghost use Rattle.std.specs.List.{filter};
ghost use Rattle.check_files.specs.Findings.{code_of, fault_of, faults_in, found_in, sorted_findings};

use directives::{LibraryFault, LibraryFaultKind};
use judgement::{DiagnosticCode, Fault};
use std::alloc::{AllocError, Global};
use std::collections::BTreeSet;

/// Something wrong in a file.
///
/// Findings are ordered by the places of their files, then by where they stand, and those of one part
/// by the names of their codes.
#[derive(Clone, Copy, Debug, PartialEq, Eq, PartialOrd, Ord)]
pub struct Finding {
    /// The place of the file among all files.
    pub file: usize,
    /// What is wrong, and where.
    pub fault: Fault,
}

/// What is said of a directive or a declared name.
fn code_of(kind: LibraryFaultKind) -> DiagnosticCode
    ensures { result ≡ code_of kind }
{
    match kind {
        LibraryFaultKind::DirectiveOrder => DiagnosticCode::DirectiveOrder,
        LibraryFaultKind::PartOfName => DiagnosticCode::ProfilePartOfName,
        LibraryFaultKind::UriDoesNotExist => DiagnosticCode::UriDoesNotExist,
        LibraryFaultKind::ImportOfPart => DiagnosticCode::ImportOfPart,
        LibraryFaultKind::PartMismatch => DiagnosticCode::PartMismatch,
        LibraryFaultKind::AmbiguousExport => DiagnosticCode::AmbiguousExport,
        LibraryFaultKind::DuplicateDefinition => DiagnosticCode::DuplicateDefinition,
    }
}

/// What is wrong with a directive or a declared name, as a fault of the text.
pub fn fault_of(fault: LibraryFault) -> Fault
    ensures { result ≡ fault_of fault }
{
    Fault {
        span: fault.span,
        code: code_of(fault.kind),
    }
}

/// Adds what is wrong with the text of the file at a place.
pub fn add_faults(
    file: usize,
    faults: &[Fault],
    findings: &mut Vec<Finding>,
) -> Result<(), AllocError>
    ensures { OnOk result (findings.new.items ≡ findings.old.items ++ map (found_in file) faults.now) }
{
    for fault in faults {
        findings.push(Finding {
            file,
            fault: *fault,
        })?;
    }
    Ok(())
}

/// Adds what is wrong with the directives and the declared names of the file at a place.
pub fn add_library_faults(
    file: usize,
    faults: &[LibraryFault],
    findings: &mut Vec<Finding>,
) -> Result<(), AllocError>
    ensures { OnOk result (findings.new.items ≡ findings.old.items ++ map (found_in file) (map fault_of faults.now)) }
{
    for fault in faults {
        findings.push(Finding {
            file,
            fault: fault_of(*fault),
        })?;
    }
    Ok(())
}

/// Findings in the order in which they are reported, each once. It takes n log n steps for n of them.
pub fn sorted(alloc: Global, mut findings: Vec<Finding>) -> Result<Vec<Finding>, AllocError>
    ensures { IfOk result (λ sorted. sorted.items ≡ sorted_findings findings.items) }
{
    let mut reported = BTreeSet::new(alloc);
    while let Some(finding) = findings.pop() {
        reported.insert(finding)?;
    }
    reported.into_iter().collect(alloc)
}

/// What of these findings is wrong with the file at a place.
pub fn faults_in(alloc: Global, file: usize, findings: &[Finding]) -> Result<Vec<Fault>, AllocError>
    ensures { IfOk result (λ faults. faults.items ≡ faults_in file findings.now) }
{
    let mut faults = Vec::new(alloc);
    for finding in findings {
        if finding.file == file {
            faults.push(finding.fault)?;
        }
    }
    Ok(faults)
}
