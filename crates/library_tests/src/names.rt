//! What names mean in a library with imports.

use crate::project::{aims_of, file_of};
use libraries::{SourceFile, Spaces, aims_at, elements_of, heads_of, imports_of};
use namespaces::{Found, Scope, exports, lookup, lookup_behind};
use std::alloc::Global;
use std::rc::Rc;
use std::test::Fail;

// The library at the first place behind `dart:core`, by what it imports.
fn project(alloc: Global) -> Result<Vec<SourceFile>, Fail> {
    let mut files = Vec::new(alloc);
    files.push(file_of(alloc, "dart:core", "class int{} void print(){}")?)?;
    let text =
        "import 'b.dart' show v,int;import 'c.dart' as p hide w;import 'd.dart';import 'e.dart';part 'f.dart';int? o;";
    files.push(file_of(alloc, "/a.dart", text)?)?;
    files.push(file_of(
        alloc,
        "/b.dart",
        "int? v;int? o;class int{}int? hidden;int? _v;",
    )?)?;
    files.push(file_of(alloc, "/c.dart", "int? v;int? w;export 'd.dart';")?)?;
    files.push(file_of(alloc, "/d.dart", "export 'b.dart' show v;int? x;int? y;")?)?;
    files.push(file_of(alloc, "/e.dart", "final int x=1;set y(int v){}")?)?;
    files.push(file_of(alloc, "/f.dart", "part of 'a.dart';set q(int v){}")?)?;
    Ok(files)
}

// The number of the library of what is found; 8 for several and 9 for nothing.
fn number_of(found: Found) -> u64 {
    match found {
        Found::One(element) => element.library.0,
        Found::Ambiguous => 8,
        Found::Nothing => 9,
    }
}

// The scope of the library at a place.
fn scope_at(alloc: Global, files: &[SourceFile], place: usize) -> Result<Scope, Fail> {
    let all = aims_of(alloc, files)?;
    let heads = heads_of(alloc, &all)?;
    let mut elements = elements_of(alloc, files, &heads, &all)?;
    if elements.len() > 100 || place >= files.len() || place >= elements.len() {
        return Err("no such place".into());
    }
    let mut spaces = Spaces::new(alloc);
    for space in exports(alloc, &elements)? {
        spaces.push(alloc, space)?;
    }
    let directives = files[place].outline.directives.as_slice();
    let imports = imports_of(alloc, &heads, &spaces, directives, aims_at(&all, place))?;
    let core = spaces.get(0).ok_or("there is a first place")?.clone()?;
    let library = elements.remove(place);
    let library = Rc::new(alloc, library)?;
    Ok(Scope {
        library,
        imports,
        core,
    })
}

#[test]
fn names_mean_what_is_declared_or_imported(rt: HostRuntime) -> Result<(), Fail> {
    let alloc = rt.alloc();
    let files = project(alloc)?;
    let scope = scope_at(alloc, &files, 1)?;
    let rows = [
        ("o", 1),
        ("q=", 1),
        ("q", 9),
        ("v", 2),
        ("v=", 2),
        ("hidden", 9),
        ("_v", 9),
        ("x", 8),
        ("x=", 4),
        ("y", 4),
        ("y=", 8),
        ("p", 9),
        ("int", 2),
        ("print", 0),
        ("w", 9),
    ];
    for (name, expected) in &rows {
        assert_eq!(rt; number_of(lookup(&scope, name)), *expected, "{name}");
    }
    let rows = [("v", 3), ("w", 9), ("x", 4), ("print", 9)];
    for (name, expected) in &rows {
        assert_eq!(rt;
            number_of(lookup_behind(&scope, "p", name)),
            *expected,
            "{name}"
        );
    }
    Ok(())
}
