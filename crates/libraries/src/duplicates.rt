//! Names that a library declares more than once.

ghost use Rattle.std.specs.Prelude.{◌≡◌, ◌++◌, IfOk, OnOk};
ghost use Rattle.libraries.specs.Duplicates.{duplicate_fault, duplicates_in, is_duplicate, no_names, taken_after, takes_name, takes_setter, with_declared, with_prefix, with_prefixes};

use crate::texts::Texts;
use directives::{DeclaredName, Directive, DirectiveForm, LibraryFault, LibraryFaultKind};
use element_terms::DeclaredKind;
use std::alloc::{AllocError, Global};

/// The names that are declared.
#[derive(Drop)]
pub struct Taken<'t> {
    /// Those that are read.
    pub names: Texts<'t>,
    /// Those that are written.
    pub setters: Texts<'t>,
}

/// No name.
pub(crate) fn no_names<'t>(alloc: Global) -> Taken<'t>
    ensures { result ≡ no_names }
{
    Taken {
        names: Texts::new(alloc),
        setters: Texts::new(alloc),
    }
}

/// Whether a declaration of this kind takes the name that is read: all but setters do.
fn takes_name(kind: DeclaredKind) -> bool
    ensures { result ≡ takes_name kind }
{
    match kind {
        DeclaredKind::Function => true,
        DeclaredKind::Getter => true,
        DeclaredKind::Setter => false,
        DeclaredKind::Variable => true,
        DeclaredKind::FinalVariable => true,
        DeclaredKind::Class => true,
        DeclaredKind::Mixin => true,
        DeclaredKind::Typedef => true,
    }
}

/// Whether a declaration of this kind takes the name that is written: all but getters and final
/// variables do.
fn takes_setter(kind: DeclaredKind) -> bool
    ensures { result ≡ takes_setter kind }
{
    match kind {
        DeclaredKind::Function => true,
        DeclaredKind::Getter => false,
        DeclaredKind::Setter => true,
        DeclaredKind::Variable => true,
        DeclaredKind::FinalVariable => false,
        DeclaredKind::Class => true,
        DeclaredKind::Mixin => true,
        DeclaredKind::Typedef => true,
    }
}

/// Whether a declaration takes a name that is taken.
fn is_duplicate(taken: &Taken, declared: &DeclaredName) -> bool
    ensures { result ≡ is_duplicate taken.now declared.now }
{
    let name = declared.name.as_str();
    if takes_name(declared.kind) && taken.names.has(name) {
        return true;
    }
    takes_setter(declared.kind) && taken.setters.has(name)
}

/// Takes the names of a declaration.
fn take_declared<'t>(taken: &mut Taken<'t>, declared: &'t DeclaredName) -> Result<(), AllocError>
    ensures { OnOk result (taken.new ≡ with_declared taken.old declared.now) }
{
    if takes_name(declared.kind) {
        taken.names.add(declared.name.as_str())?;
    }
    if takes_setter(declared.kind) {
        taken.setters.add(declared.name.as_str())?;
    }
    Ok(())
}

/// Takes the prefix of a directive, if it has one: both names.
fn take_prefix<'t>(taken: &mut Taken<'t>, directive: &'t Directive) -> Result<(), AllocError>
    ensures { OnOk result (taken.new ≡ with_prefix taken.old directive.now.form) }
{
    match &directive.form {
        DirectiveForm::Import { prefix, .. } => {
            if let Some(prefix) = prefix {
                taken.names.add(prefix.as_str())?;
                taken.setters.add(prefix.as_str())?;
            }
        }
        DirectiveForm::Library => {}
        DirectiveForm::Export { .. } => {}
        DirectiveForm::Part { .. } => {}
        DirectiveForm::PartOf { .. } => {}
        DirectiveForm::PartOfName { .. } => {}
    }
    Ok(())
}

/// Takes the prefixes of directives.
pub(crate) fn take_prefixes<'t>(
    taken: &mut Taken<'t>,
    directives: &'t [Directive],
) -> Result<(), AllocError>
    ensures { OnOk result (taken.new ≡ with_prefixes taken.old directives.now) }
{
    for directive in directives {
        take_prefix(taken, directive)?;
    }
    Ok(())
}

/// Adds that a declaration takes a name that is taken, if it does.
fn add_duplicate(
    taken: &Taken,
    declared: &DeclaredName,
    faults: &mut Vec<LibraryFault>,
) -> Result<(), AllocError>
    ensures { OnOk result (faults.new.items ≡ faults.old.items ++ duplicate_fault taken.now declared.now) }
{
    if is_duplicate(taken, declared) {
        faults.push(LibraryFault {
            span: declared.span,
            kind: LibraryFaultKind::DuplicateDefinition,
        })?;
    }
    Ok(())
}

/// Adds which of these declarations take names that are taken, and takes those of all.
pub(crate) fn add_duplicates<'t>(
    taken: &mut Taken<'t>,
    declared: &'t [DeclaredName],
    faults: &mut Vec<LibraryFault>,
) -> Result<(), AllocError>
    ensures faults { OnOk result (faults.new.items ≡ faults.old.items ++ duplicates_in taken.old declared.now) }
    ensures taken { OnOk result (taken.new ≡ taken_after taken.old declared.now) }
{
    for one in declared {
        add_duplicate(taken, one, faults)?;
        take_declared(taken, one)?;
    }
    Ok(())
}
