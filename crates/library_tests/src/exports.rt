//! Exports and names of small sets of libraries, and a large cycle.

use dart_types::LibId;
use element_terms::{
    Combinator, Combinators, Declarations, Declared, DeclaredKind, ExportEdge, Exports,
    LibraryElement, NameList,
};
use namespaces::{
    Found, Import, Namespace, Scope, ambiguous_exports, exports, lookup, lookup_behind, place_table,
};
use plain_text::PlainText;
use std::alloc::{AllocError, Global};
use std::rc::Rc;
use std::test::Fail;

/// Combinators that hide a name, or none where the name is empty.
fn all_but(alloc: Global, name: &str) -> Result<Combinators, AllocError> {
    let mut all = Vec::new(alloc);
    if !name.is_empty() {
        let mut names = Vec::new(alloc);
        names.push(PlainText::new(alloc, name)?)?;
        all.push(Combinator::Hide(NameList::from_vec(names)))?;
    }
    Combinators::from_vec(alloc, all)
}

/// Exports of libraries, each but for a name.
fn exported(alloc: Global, ids: &[(u64, &str)]) -> Result<Exports, AllocError> {
    let mut all = Vec::new(alloc);
    for (id, hidden) in ids {
        all.push(ExportEdge {
            library: LibId(*id),
            combinators: all_but(alloc, hidden)?,
        })?;
    }
    Ok(Exports::from_vec(all))
}

/// Declarations of final variables.
fn finals(alloc: Global, names: &[&str]) -> Result<Declarations, AllocError> {
    let mut all = Vec::new(alloc);
    for name in names {
        all.push(Declared {
            name: PlainText::new(alloc, name)?,
            kind: DeclaredKind::FinalVariable,
        })?;
    }
    Declarations::from_vec(alloc, all)
}

/// A library that declares final variables, and exports libraries.
fn library(
    alloc: Global,
    id: u64,
    names: &[&str],
    ids: &[(u64, &str)],
) -> Result<LibraryElement, AllocError> {
    Ok(LibraryElement {
        id: LibId(id),
        path: PlainText::new(alloc, "/a.dart")?,
        declared: finals(alloc, names)?,
        exports: exported(alloc, ids)?,
    })
}

/// The names that a library exports, each with the number of its element's library.
fn shown(alloc: Global, namespace: &Namespace) -> Result<String, AllocError> {
    let mut text = String::new(alloc);
    for pair in namespace.as_slice() {
        let library = pair.element.library.0;
        let name = pair.name.as_str();
        let one = format!(in alloc; "{name}@{library} ")?;
        text.push_str(one.as_str())?;
    }
    Ok(text)
}

/// Three libraries: 1 exports 2 but for w, and 3; 2 exports both; 3 declares a name of 1 too.
fn three(alloc: Global) -> Result<Vec<LibraryElement>, AllocError> {
    let mut libraries = Vec::new(alloc);
    libraries.push(library(alloc, 1, &["v", "_u"], &[(2, "w"), (3, "")])?)?;
    libraries.push(library(alloc, 2, &["w", "x"], &[(1, ""), (3, "")])?)?;
    libraries.push(library(alloc, 3, &["v", "y", "y"], &[])?)?;
    Ok(libraries)
}

#[test]
fn names_are_exported(rt: HostRuntime) -> Result<(), Fail> {
    let alloc = rt.alloc();
    let libraries = three(alloc)?;
    assert_eq!(rt; libraries.len(), 3);
    let all = exports(alloc, libraries.as_slice())?;
    let mut text = String::new(alloc);
    for namespace in &all {
        text.push_str(shown(alloc, namespace)?.as_str())?;
        text.push_str("| ")?;
    }
    assert_eq!(rt;
        text.as_str(),
        "v@1 x@2 y@3 | v@1 w@2 x@2 v@3 y@3 | v@3 y@3 | "
    );
    Ok(())
}

/// The first library exports two with the same names, one without these, the first once more, and one
/// that isn't there.
fn four(alloc: Global) -> Result<Vec<LibraryElement>, AllocError> {
    let ids = [(2, ""), (3, ""), (4, "v"), (2, ""), (9, "")];
    let mut libraries = Vec::new(alloc);
    libraries.push(library(alloc, 1, &["w"], &ids)?)?;
    libraries.push(library(alloc, 2, &["v", "w"], &[])?)?;
    libraries.push(library(alloc, 3, &["v", "w"], &[])?)?;
    libraries.push(library(alloc, 4, &["v", "x"], &[])?)?;
    Ok(libraries)
}

#[test]
fn later_exports_are_ambiguous(rt: HostRuntime) -> Result<(), Fail> {
    let alloc = rt.alloc();
    let libraries = four(alloc)?;
    assert_eq!(rt; libraries.len(), 4);
    let all = exports(alloc, libraries.as_slice())?;
    let first = &libraries[0];
    let expected = [false, true, false, true, false];
    let places = place_table(alloc, libraries.as_slice())?;
    let told = ambiguous_exports(alloc, libraries.as_slice(), &places, all.as_slice(), first)?;
    assert_eq!(rt; told.as_slice(), expected.as_slice());
    Ok(())
}

/// A ring of libraries, each of which declares a name and exports the next.
fn ring(alloc: Global, count: u64) -> Result<Vec<LibraryElement>, AllocError> {
    let mut libraries = Vec::new(alloc);
    for id in 0..count {
        let name = format!(in alloc; "v{id}")?;
        let next = if id + 1 < count { id + 1 } else { 0 };
        libraries.push(library(alloc, id, &[name.as_str()], &[(next, "")])?)?;
    }
    Ok(libraries)
}

#[test]
fn a_large_cycle_exports_all_names(rt: HostRuntime) -> Result<(), Fail> {
    let alloc = rt.alloc();
    let libraries = ring(alloc, 1_000)?;
    assert_eq!(rt; libraries.len(), 1_000);
    let all = exports(alloc, libraries.as_slice())?;
    for namespace in &all {
        assert_eq!(rt; namespace.as_slice().len(), 1_000);
    }
    Ok(())
}

/// What a library exports that declares final variables of these names.
fn names_of(alloc: Global, id: u64, names: &[&str]) -> Result<Rc<Namespace>, AllocError> {
    let mut one = Vec::new(alloc);
    one.push(library(alloc, id, names, &[])?)?;
    let mut all = exports(alloc, one.as_slice())?;
    let namespace = match all.pop() {
        Some(namespace) => namespace,
        None => Namespace::from_vec(Vec::new(alloc)),
    };
    Ok(Rc::new(alloc, namespace)?)
}

/// An import of such a library.
fn import(
    alloc: Global,
    id: u64,
    prefix: Option<PlainText>,
    names: &[&str],
) -> Result<Import, AllocError> {
    Ok(Import {
        library: LibId(id),
        prefix,
        combinators: all_but(alloc, "")?,
        exported: names_of(alloc, id, names)?,
    })
}

/// Library 1 with three imports, of which the last has a prefix.
fn scope(alloc: Global) -> Result<Scope, AllocError> {
    let mut imports = Vec::new(alloc);
    imports.push(import(alloc, 2, None, &["v", "w", "o"])?)?;
    imports.push(import(alloc, 3, None, &["w", "o"])?)?;
    let prefix = Some(PlainText::new(alloc, "p")?);
    imports.push(import(alloc, 4, prefix, &["v", "q"])?)?;
    Ok(Scope {
        library: Rc::new(alloc, library(alloc, 1, &["o"], &[])?)?,
        imports,
        core: names_of(alloc, 0, &["print", "v", "_c", "p"])?,
    })
}

/// The number of the library of what is found; 8 for several and 9 for nothing.
fn number_of(found: Found) -> u64 {
    match found {
        Found::One(element) => element.library.0,
        Found::Ambiguous => 8,
        Found::Nothing => 9,
    }
}

#[test]
fn names_are_looked_up(rt: HostRuntime) -> Result<(), Fail> {
    let alloc = rt.alloc();
    let scope = scope(alloc)?;
    let rows = [
        ("o", 1),
        ("v", 2),
        ("w", 8),
        ("print", 0),
        ("_c", 9),
        ("p", 9),
        ("q", 9),
    ];
    for (name, expected) in &rows {
        assert_eq!(rt; number_of(lookup(&scope, name)), *expected);
    }
    let rows = [("v", 4), ("q", 4), ("w", 9), ("print", 9)];
    for (name, expected) in &rows {
        assert_eq!(rt; number_of(lookup_behind(&scope, "p", name)), *expected);
    }
    Ok(())
}
