//! What is wrong with the directives of a unit.

ghost use Rattle.std.specs.Prelude.{◌≡◌, ◌++◌, find, map, IfOk, OnOk};
ghost use Rattle.std.specs.Option.{option_copied};
ghost use Rattle.directives.specs.UnitFaults.{homeless_faults, is_part_of, misplaced_fault, name_fault, name_faults, unit_faults, unnamed};

use crate::directive::{Directive, DirectiveForm};
use crate::outline::Outline;
use dart_tree::Span;
use std::alloc::{AllocError, Global};

/// The kinds of what may be wrong with the directives and the declared names of a library.
#[derive(Clone, Copy, Debug, PartialEq, Eq)]
pub enum LibraryFaultKind {
    /// A directive stands where it may not.
    DirectiveOrder,
    /// A `part of` has a name and no URI.
    PartOfName,
    /// A URI names no file.
    UriDoesNotExist,
    /// An import or an export names a file that has a `part of`.
    ImportOfPart,
    /// A `part` names a file that isn't a part of the library.
    PartMismatch,
    /// An export brings a name for which an earlier one brings another element.
    AmbiguousExport,
    /// A name has a second declaration.
    DuplicateDefinition,
}

/// What is wrong with a directive or a declared name, and where.
#[derive(Clone, Copy, Debug, PartialEq, Eq)]
pub struct LibraryFault {
    /// Where it stands.
    pub span: Span,
    /// What is wrong.
    pub kind: LibraryFaultKind,
}

/// A directive that stands there may not stand there.
fn misplaced_fault(span: Span) -> LibraryFault
    ensures { result ≡ misplaced_fault span }
{
    LibraryFault {
        span,
        kind: LibraryFaultKind::DirectiveOrder,
    }
}

/// Where the name of a `part of` stands that has no URI.
fn unnamed(directive: &Directive) -> Option<Span>
    ensures { result ≡ unnamed directive.now }
{
    match &directive.form {
        DirectiveForm::PartOfName { name } => Some(*name),
        DirectiveForm::Library => None,
        DirectiveForm::Import { .. } => None,
        DirectiveForm::Export { .. } => None,
        DirectiveForm::Part { .. } => None,
        DirectiveForm::PartOf { .. } => None,
    }
}

/// Whether a directive is a `part of`.
fn is_part_of(directive: &Directive) -> bool
    ensures { result ≡ is_part_of directive.now }
{
    match &directive.form {
        DirectiveForm::PartOfName { .. } => true,
        DirectiveForm::PartOf { .. } => true,
        DirectiveForm::Library => false,
        DirectiveForm::Import { .. } => false,
        DirectiveForm::Export { .. } => false,
        DirectiveForm::Part { .. } => false,
    }
}

/// Adds that a `part of` has a name, if this is one.
fn add_name(directive: &Directive, faults: &mut Vec<LibraryFault>) -> Result<(), AllocError>
    ensures { OnOk result (faults.new.items ≡ faults.old.items ++ name_fault directive.now) }
{
    if let Some(span) = unnamed(directive) {
        faults.push(LibraryFault {
            span,
            kind: LibraryFaultKind::PartOfName,
        })?;
    }
    Ok(())
}

/// Adds that directives stand there that may not.
fn add_misplaced(spans: &[Span], faults: &mut Vec<LibraryFault>) -> Result<(), AllocError>
    ensures { OnOk result (faults.new.items ≡ faults.old.items ++ map misplaced_fault spans.now) }
{
    for span in spans {
        faults.push(misplaced_fault(*span))?;
    }
    Ok(())
}

/// Adds that these of the directives that are a `part of` have a name.
fn add_names(directives: &[Directive], faults: &mut Vec<LibraryFault>) -> Result<(), AllocError>
    ensures { OnOk result (faults.new.items ≡ faults.old.items ++ name_faults directives.now) }
{
    for directive in directives {
        add_name(directive, faults)?;
    }
    Ok(())
}

/// What is wrong with the directives of a unit of a library, whatever other files hold: those that
/// stand where they may not, and each `part of` with a name. The error is want of memory.
pub fn unit_faults(alloc: Global, outline: &Outline) -> Result<Vec<LibraryFault>, AllocError>
    ensures { IfOk result (λ faults. faults.items ≡ unit_faults outline.now) }
{
    let mut faults = Vec::new(alloc);
    add_misplaced(outline.misplaced.as_slice(), &mut faults)?;
    add_names(outline.directives.as_slice(), &mut faults)?;
    Ok(faults)
}

/// The first `part of`, if there is one.
pub(crate) fn first_part_of(directives: &[Directive]) -> Option<&Directive>
    ensures { option_copied result ≡ find is_part_of directives.now }
{
    directives.iter().find(|directive| is_part_of(directive))
}

/// What is wrong with the directives of a part that belongs to no library: its `part of` has a name.
/// The error is want of memory.
pub fn homeless_faults(alloc: Global, outline: &Outline) -> Result<Vec<LibraryFault>, AllocError>
    ensures { IfOk result (λ faults. faults.items ≡ homeless_faults outline.now) }
{
    let mut faults = Vec::new(alloc);
    if let Some(directive) = first_part_of(outline.directives.as_slice()) {
        add_name(directive, &mut faults)?;
    }
    Ok(faults)
}
