//! The libraries from which exports lead to one, along which a name goes.

ghost use Rattle.std.specs.Prelude.{◌≡◌, ◌∷◌, [], ◌<◌, All, IfOk, filter, length, map, not};
ghost use Rattle.namespaces.specs.Links.{AnswersPass, AreExporting, AreLinks, Finds, IsLink, Notes, StartsAt, is_idle, unmarked};

use crate::links::{Link, LinkList};
use element_terms::{LibraryElement, declared_place};
use std::alloc::{AllocError, Global};

/// What a search has found.
#[derive(Debug, Drop)]
pub struct Search {
    /// Which libraries needn't be looked for: those that are found, and those without exports.
    pub marks: Vec<bool>,
    /// How many others there are.
    pub left: usize,
    /// The places that are found.
    pub places: Vec<u32>,
}

/// The places of the libraries from which links lead to a place along which a name goes. It looks at
/// the links of a place once, and at none where all libraries with exports are found.
pub fn exporting(
    alloc: Global,
    libraries: &[LibraryElement],
    count: u32,
    links: &[LinkList],
    idle: &[bool],
    name: &str,
    to: u32,
) -> Result<Vec<u32>, AllocError>
    requires size { length libraries.now ≡ count }
    requires idle { idle.now ≡ map is_idle libraries.now }
    requires links { AreLinks libraries.now count 0 links.now }
    requires within { to < count }
    ensures { IfOk result (λ places. AreExporting libraries.now name.now to places.items) }
{
    if links[to as usize].as_slice().is_empty() {
        let places = alone(alloc, to)?;
        return Ok(places);
    }
    let mut search = start(alloc, idle, to)?;
    let mut at: usize = 0;
    while at < search.places.len() && search.left > 0 {
        let place = search.places[at] as usize;
        find_from(libraries, links[place].as_slice(), name, &mut search)?;
        at += 1;
    }
    Ok(search.places)
}

/// A place alone.
fn alone(alloc: Global, to: u32) -> Result<Vec<u32>, AllocError>
    ensures { IfOk result (λ places. places.items ≡ to ∷ []) }
{
    let mut places = Vec::new(alloc);
    places.push(to)?;
    Ok(places)
}

/// A search that has found a place, where the marks are those of libraries that export nothing.
fn start(alloc: Global, idle: &[bool], to: u32) -> Result<Search, AllocError>
    requires { to < length idle.now }
    ensures { IfOk result (λ s. StartsAt idle.now to s) }
{
    let mut marks = idle.to_vec(alloc)?;
    marks[to as usize] = true;
    let left = unmarked(marks.as_slice());
    let places = alone(alloc, to)?;
    Ok(Search {
        marks,
        left,
        places,
    })
}

/// Whether a library exports nothing.
fn is_idle(library: &LibraryElement) -> bool
    ensures { result ≡ is_idle library.now }
{
    library.exports.as_slice().is_empty()
}

/// Which libraries export nothing.
pub fn idle(alloc: Global, libraries: &[LibraryElement]) -> Result<Vec<bool>, AllocError>
    ensures { IfOk result (λ marks. marks.items ≡ map is_idle libraries.now) }
{
    let mut marks = Vec::new(alloc);
    for library in libraries {
        marks.push(is_idle(library))?;
    }
    Ok(marks)
}

/// How many places are not marked.
fn unmarked(marks: &[bool]) -> usize
    ensures { result ≡ length (filter not marks.now) }
{
    marks.iter().filter(|mark| !**mark).count()
}

/// Finds the places from which a name goes along these links.
fn find_from(
    libraries: &[LibraryElement],
    links: &[Link],
    name: &str,
    search: &mut Search,
) -> Result<(), AllocError>
    requires links { All (IsLink libraries.now) links.now }
    requires size { length search.old.marks.items ≡ length libraries.now }
    requires left { search.old.left ≡ unmarked search.old.marks.items }
    ensures { IfOk result (λ _. Finds libraries.now name.now links.now search.old search.new) }
{
    for link in links {
        find(libraries, link, name, search)?;
    }
    Ok(())
}

/// Finds the place from which a name goes along a link.
fn find(
    libraries: &[LibraryElement],
    link: &Link,
    name: &str,
    search: &mut Search,
) -> Result<(), AllocError>
    requires link { IsLink libraries.now link.now }
    requires size { length search.old.marks.items ≡ length libraries.now }
    requires left { search.old.left ≡ unmarked search.old.marks.items }
    ensures { IfOk result (λ _. Finds libraries.now name.now (link.now ∷ []) search.old search.new) }
{
    if search.marks[link.from as usize] {
        return Ok(());
    }
    if !passes(libraries, link, name) {
        return Ok(());
    }
    note(link.from, search)?;
    Ok(())
}

/// Puts a place behind those that are found.
fn note(place: u32, search: &mut Search) -> Result<(), AllocError>
    requires within { place < length search.old.marks.items }
    requires left { 0 < search.old.left }
    ensures { IfOk result (λ _. Notes place search.old search.new) }
{
    search.marks[place as usize] = true;
    search.left -= 1;
    search.places.push(place)?;
    Ok(())
}

/// Whether a name goes along a link.
fn passes(libraries: &[LibraryElement], link: &Link, name: &str) -> bool
    requires { IsLink libraries.now link.now }
    ensures { AnswersPass result libraries.now name.now link.now }
{
    let exporter = &libraries[link.from as usize];
    let export = &exporter.exports.as_slice()[link.export];
    if export.combinators.brings(name) {
        return declared_place(exporter, name).is_none();
    }
    false
}
