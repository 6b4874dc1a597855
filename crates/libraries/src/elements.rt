//! Libraries as elements, by the names that they declare and export.

ghost use Rattle.std.specs.Prelude.{◌≡◌, ◌++◌, [], drop, map, slice_get, IfOk, OnOk};
ghost use Rattle.std.specs.Option.{option_copied};
ghost use Rattle.libraries.specs.Elements.{declarations_of, declared_of, edge_of, edges_in, element_of, elements_from, exported, library_named, name_of, names_at};

use crate::aims::{Aim, Aims};
use crate::check::aims_at;
use crate::files::{SourceFile, file_at};
use crate::heads::{Head, is_library_at};
use crate::parts::units_of;
use dart_types::LibId;
use directives::{DeclaredName, Directive, DirectiveForm};
use element_terms::{
    Combinators, Declarations, Declared, DeclaredKind, ExportEdge, Exports, LibraryElement,
    setter_of,
};
use plain_text::PlainText;
use std::alloc::{AllocError, Global};

/// The name that a declaration has among those of its library.
fn name_of(alloc: Global, kind: DeclaredKind, name: &str) -> Result<PlainText, AllocError>
    ensures { IfOk result (λ text. text ≡ name_of kind name.now) }
{
    match kind {
        DeclaredKind::Setter => {
            let setter = setter_of(alloc, name)?;
            Ok(PlainText::from_string(setter))
        }
        DeclaredKind::Function => PlainText::new(alloc, name),
        DeclaredKind::Getter => PlainText::new(alloc, name),
        DeclaredKind::Variable => PlainText::new(alloc, name),
        DeclaredKind::FinalVariable => PlainText::new(alloc, name),
        DeclaredKind::Class => PlainText::new(alloc, name),
        DeclaredKind::Mixin => PlainText::new(alloc, name),
        DeclaredKind::Typedef => PlainText::new(alloc, name),
    }
}

/// A declared name as a declaration of its library.
fn declared_of(alloc: Global, declared: &DeclaredName) -> Result<Declared, AllocError>
    ensures { IfOk result (λ one. one ≡ declared_of declared.now) }
{
    let name = name_of(alloc, declared.kind, declared.name.as_str())?;
    Ok(Declared {
        name,
        kind: declared.kind,
    })
}

/// Adds declared names as declarations of their library.
fn add_declared(
    alloc: Global,
    declared: &[DeclaredName],
    all: &mut Vec<Declared>,
) -> Result<(), AllocError>
    ensures { OnOk result (all.new.items ≡ all.old.items ++ map declared_of declared.now) }
{
    for one in declared {
        all.push(declared_of(alloc, one)?)?;
    }
    Ok(())
}

/// The names that the file at a place declares.
fn names_at(files: &[SourceFile], place: usize) -> &[DeclaredName]
    ensures { result.now ≡ names_at (slice_get files.now place) }
{
    match file_at(files, place) {
        Some(file) => file.outline.declared.as_slice(),
        None => &[],
    }
}

/// What the files at these places declare.
fn declarations_of(
    alloc: Global,
    files: &[SourceFile],
    places: &[usize],
) -> Result<Declarations, AllocError>
    ensures { IfOk result (λ declared. declared ≡ declarations_of files.now places.now) }
{
    let mut all = Vec::new(alloc);
    for place in places {
        add_declared(alloc, names_at(files, *place), &mut all)?;
    }
    Declarations::from_vec(alloc, all)
}

/// The combinators of an export.
fn exported(form: &DirectiveForm) -> Option<&Combinators>
    ensures { option_copied result ≡ exported form.now }
{
    match form {
        DirectiveForm::Export { combinators, .. } => Some(combinators),
        DirectiveForm::Library => None,
        DirectiveForm::Import { .. } => None,
        DirectiveForm::Part { .. } => None,
        DirectiveForm::PartOf { .. } => None,
        DirectiveForm::PartOfName { .. } => None,
    }
}

/// The library that a directive names, if it names one.
pub(crate) fn library_named(heads: &[Head], aim: Option<&Aim>) -> Option<usize>
    ensures { result ≡ library_named heads.now (option_copied aim.entry) }
{
    let place = aim?.target?;
    if is_library_at(heads, place) {
        Some(place)
    } else {
        None
    }
}

/// Adds the export that a directive is, if it is one of a library.
fn add_edge(
    heads: &[Head],
    form: &DirectiveForm,
    aim: Option<&Aim>,
    edges: &mut Vec<ExportEdge>,
) -> Result<(), AllocError>
    ensures { OnOk result (edges.new.items ≡ edges.old.items ++ edge_of heads.now form.now (option_copied aim.entry)) }
{
    let Some(combinators) = exported(form) else {
        return Ok(());
    };
    let Some(place) = library_named(heads, aim) else {
        return Ok(());
    };
    edges.push(ExportEdge {
        library: LibId(place as u64),
        combinators: combinators.share()?,
    })?;
    Ok(())
}

/// What stands behind the first.
pub(crate) fn behind_first(aims: &[Aim]) -> &[Aim]
    ensures { result.now ≡ drop 1 aims.now }
{
    match aims {
        [] => aims,
        [_, rest @ ..] => rest,
    }
}

/// The exports among directives, of which it is known what each is about.
fn edges_in(
    alloc: Global,
    heads: &[Head],
    directives: &[Directive],
    aims: &[Aim],
) -> Result<Exports, AllocError>
    ensures { IfOk result (λ exports. exports ≡ edges_in heads.now directives.now aims.now) }
{
    let mut edges = Vec::new(alloc);
    let mut rest = aims;
    for directive in directives {
        add_edge(heads, &directive.form, rest.first(), &mut edges)?;
        rest = behind_first(rest);
    }
    Ok(Exports::from_vec(edges))
}

/// The element of the file at a place; a part is an element without names.
fn element_of(
    alloc: Global,
    files: &[SourceFile],
    heads: &[Head],
    aims: &[Aim],
    place: usize,
    file: &SourceFile,
) -> Result<LibraryElement, AllocError>
    ensures { IfOk result (λ element. element ≡ element_of files.now heads.now aims.now place file.now) }
{
    let path = file.path.copy()?;
    let id = LibId(place as u64);
    if !is_library_at(heads, place) {
        return Ok(LibraryElement {
            id,
            path,
            declared: Declarations::from_vec(alloc, Vec::new(alloc))?,
            exports: Exports::from_vec(Vec::new(alloc)),
        });
    }
    let units = units_of(alloc, heads, place, aims)?;
    let declared = declarations_of(alloc, files, units.as_slice())?;
    let directives = file.outline.directives.as_slice();
    let exports = edges_in(alloc, heads, directives, aims)?;
    Ok(LibraryElement {
        id,
        path,
        declared,
        exports,
    })
}

/// The elements of all files, each at the place of its file, which is its number too. A part is an
/// element without names. The error is want of memory.
pub fn elements_of(
    alloc: Global,
    files: &[SourceFile],
    heads: &[Head],
    all: &[Aims],
) -> Result<Vec<LibraryElement>, AllocError>
    ensures { IfOk result (λ elements. elements.items ≡ elements_from files.now heads.now all.now 0 files.now) }
{
    let mut elements = Vec::new(alloc);
    for (place, file) in files.iter().enumerate() {
        let aims = aims_at(all, place);
        elements.push(element_of(alloc, files, heads, aims, place, file)?)?;
    }
    Ok(elements)
}
