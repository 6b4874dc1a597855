//! What libraries export.

ghost use Rattle.std.specs.Prelude.{◌≡◌, ◌^◌, ◌<◌, [], All, IfOk, length, map, replicate};
ghost use Rattle.namespaces.specs.Links.{AreLinks, is_idle};
ghost use Rattle.namespaces.specs.Namespaces.{AddsPair, AreNamespaces, Covers, CoversAll, CoversLibrary, Gains, IsDeclaredAt};

use crate::elements::{ElementId, Exported, Namespace};
use crate::links::{LinkList, links};
use crate::search::{exporting, idle};
use element_terms::{LibraryElement, declared_place, is_private, setter_of};
use plain_text::PlainText;
use std::alloc::{AllocError, Global};

/// What each of the libraries exports: the names that are not its own alone, with their elements. An
/// export of a library that isn't among them brings nothing.
pub fn exports(alloc: Global, libraries: &[LibraryElement]) -> Result<Vec<Namespace>, AllocError>
    requires { length libraries.now < 2 ^ 32 }
    ensures { IfOk result (λ all. AreNamespaces libraries.now all.items) }
{
    let count = libraries.len() as u32;
    let found = links(alloc, libraries, count)?;
    let idle = idle(alloc, libraries)?;
    let mut all = no_pairs(alloc, count)?;
    for place in 0..count {
        add_library(
            alloc,
            libraries,
            found.as_slice(),
            idle.as_slice(),
            place,
            &mut all,
        )?;
    }
    Ok(all)
}

/// No pairs for each library.
fn no_pairs(alloc: Global, count: u32) -> Result<Vec<Namespace>, AllocError>
    ensures { IfOk result (λ all. all.items ≡ replicate count []) }
{
    let mut all = Vec::new(alloc);
    for _ in 0..count {
        all.push(Namespace::from_vec(Vec::new(alloc)))?;
    }
    Ok(all)
}

/// Adds the pairs of all declarations of one library.
fn add_library(
    alloc: Global,
    libraries: &[LibraryElement],
    links: &[LinkList],
    idle: &[bool],
    place: u32,
    all: &mut Vec<Namespace>,
) -> Result<(), AllocError>
    requires few { length libraries.now < 2 ^ 32 }
    requires links { AreLinks libraries.now (length libraries.now) 0 links.now }
    requires idle { idle.now ≡ map is_idle libraries.now }
    requires within { place < length libraries.now }
    requires size { length all.old.items ≡ length libraries.now }
    ensures gains { IfOk result (λ _. Gains libraries.now all.old.items all.new.items) }
    ensures covers { IfOk result (λ _. CoversLibrary libraries.now place all.new.items) }
{
    let library = &libraries[place as usize];
    let declarations = library.declared.as_slice();
    for at in 0..declarations.len() {
        add_declared(alloc, libraries, links, idle, place, at, all)?;
    }
    Ok(())
}

/// Adds the pairs of one declaration, under its name and that of the setter that comes with it.
fn add_declared(
    alloc: Global,
    libraries: &[LibraryElement],
    links: &[LinkList],
    idle: &[bool],
    place: u32,
    at: usize,
    all: &mut Vec<Namespace>,
) -> Result<(), AllocError>
    requires few { length libraries.now < 2 ^ 32 }
    requires links { AreLinks libraries.now (length libraries.now) 0 links.now }
    requires idle { idle.now ≡ map is_idle libraries.now }
    requires within { place < length libraries.now }
    requires declared { IsDeclaredAt libraries.now place at }
    requires size { length all.old.items ≡ length libraries.now }
    ensures gains { IfOk result (λ _. Gains libraries.now all.old.items all.new.items) }
    ensures covers { IfOk result (λ _. CoversAll libraries.now place at all.new.items) }
{
    let library = &libraries[place as usize];
    let declarations = library.declared.as_slice();
    let declared = &declarations[at];
    let name = declared.name.as_str();
    add_name(alloc, libraries, links, idle, place, at, name, all)?;
    if !declared.kind.has_setter() {
        return Ok(());
    }
    let setter = setter_of(alloc, name)?;
    let setter_name = setter.as_str();
    add_name(alloc, libraries, links, idle, place, at, setter_name, all)?;
    Ok(())
}

/// Adds the pairs of one declaration under one of its names, if it gives the name its meaning.
fn add_name(
    alloc: Global,
    libraries: &[LibraryElement],
    links: &[LinkList],
    idle: &[bool],
    place: u32,
    at: usize,
    name: &str,
    all: &mut Vec<Namespace>,
) -> Result<(), AllocError>
    requires few { length libraries.now < 2 ^ 32 }
    requires links { AreLinks libraries.now (length libraries.now) 0 links.now }
    requires idle { idle.now ≡ map is_idle libraries.now }
    requires within { place < length libraries.now }
    requires size { length all.old.items ≡ length libraries.now }
    ensures gains { IfOk result (λ _. Gains libraries.now all.old.items all.new.items) }
    ensures covers { IfOk result (λ _. Covers libraries.now place at name.now all.new.items) }
{
    if is_private(name) {
        return Ok(());
    }
    let library = &libraries[place as usize];
    let Some(found) = declared_place(library, name) else {
        return Ok(());
    };
    if found != at {
        return Ok(());
    }
    let count = libraries.len() as u32;
    let places = exporting(alloc, libraries, count, links, idle, name, place)?;
    let element = ElementId {
        library: library.id,
        place: at,
    };
    add_pairs(alloc, places.as_slice(), name, element, all)?;
    Ok(())
}

/// Adds a pair to each of the libraries at these places.
fn add_pairs(
    alloc: Global,
    places: &[u32],
    name: &str,
    element: ElementId,
    all: &mut Vec<Namespace>,
) -> Result<(), AllocError>
    requires { All (λ l. l < length all.old.items) places.now }
    ensures { IfOk result (λ _. AddsPair places.now
        (record { name = name.now; element = element }) all.old.items all.new.items) }
{
    for place in places {
        let name = PlainText::new(alloc, name)?;
        all[*place as usize].push(Exported { name, element })?;
    }
    Ok(())
}
