//! Names, combinators and declarations.

use dart_types::LibId;
use element_terms::{
    Combinator, Combinators, Declarations, Declared, DeclaredKind, Exports, LibraryElement,
    NameList, declared, declared_place,
};
use plain_text::PlainText;
use std::alloc::{AllocError, Global};
use std::test::Fail;

/// A declaration.
fn declaration(alloc: Global, name: &str, kind: DeclaredKind) -> Result<Declared, AllocError> {
    let name = PlainText::new(alloc, name)?;
    Ok(Declared { name, kind })
}

/// A library that declares a variable, a final one, a setter and the variable's name once more.
fn library(alloc: Global) -> Result<LibraryElement, AllocError> {
    let mut all = Vec::new(alloc);
    all.push(declaration(alloc, "v", DeclaredKind::Variable)?)?;
    all.push(declaration(alloc, "w", DeclaredKind::FinalVariable)?)?;
    all.push(declaration(alloc, "x=", DeclaredKind::Setter)?)?;
    all.push(declaration(alloc, "v", DeclaredKind::Class)?)?;
    Ok(LibraryElement {
        id: LibId(1),
        path: PlainText::new(alloc, "/a.dart")?,
        declared: Declarations::from_vec(alloc, all)?,
        exports: Exports::from_vec(Vec::new(alloc)),
    })
}

#[test]
fn names_are_declared(rt: HostRuntime) -> Result<(), Fail> {
    let library = library(rt.alloc())?;
    assert_eq!(rt; declared_place(&library, "v"), Some(0));
    assert_eq!(rt; declared_place(&library, "v="), Some(0));
    assert_eq!(rt; declared_place(&library, "w"), Some(1));
    assert_eq!(rt; declared_place(&library, "w="), None);
    assert_eq!(rt; declared_place(&library, "x"), None);
    assert_eq!(rt; declared_place(&library, "x="), Some(2));
    let found = declared(&library, "v=").ok_or("v= is declared")?;
    assert_eq!(rt; found.kind, DeclaredKind::Variable);
    Ok(())
}

#[test]
fn combinators_bring_names(rt: HostRuntime) -> Result<(), Fail> {
    let alloc = rt.alloc();
    let shown = vec![in alloc;
        PlainText::new(alloc, "v")?,
        PlainText::new(alloc, "_u")?,
        PlainText::new(alloc, "w")?,
    ]?;
    let hidden = vec![in alloc; PlainText::new(alloc, "w")?]?;
    let mut both = Vec::new(alloc);
    both.push(Combinator::Show(NameList::from_vec(shown)))?;
    both.push(Combinator::Hide(NameList::from_vec(hidden)))?;
    let both = Combinators::from_vec(alloc, both)?;
    assert!(rt; both.brings("v"));
    assert!(rt; both.brings("v="));
    assert!(rt; !both.brings("w"));
    assert!(rt; !both.brings("x"));
    assert!(rt; !both.brings("_u"));
    let none = Combinators::from_vec(alloc, Vec::new(alloc))?;
    assert!(rt; none.brings("x"));
    assert!(rt; !none.brings("_u"));
    Ok(())
}
