//! The exports among libraries, as links between their places.

ghost use Rattle.std.specs.Prelude.{◌≡◌, ◌++◌, ◌∷◌, [], ◌+◌, ◌^◌, ◌<◌, IfOk, length, replicate};
ghost use Rattle.namespaces.specs.Exports.{place_of};
ghost use Rattle.namespaces.specs.Links.{AreLinks, IsPlaceTable, PutsLink};

use crate::place_tables::{PlaceTable, place_table};
use dart_types::LibId;
use element_terms::LibraryElement;
use std::alloc::{AllocError, Global};
use std::marker::Model;

/// An export of a library that is among the libraries, by the places of both.
#[derive(Clone, Copy, Debug)]
pub struct Link {
    /// The place of the library that exports.
    pub from: u32,
    /// The place of the export among those of that library.
    pub export: usize,
    /// The place of the library that is exported.
    pub to: u32,
}

/// The links that lead to one library.
#[derive(Debug, Drop)]
pub struct LinkList {
    links: Vec<Link>,
}

impl Model for LinkList {
    ghost use Rattle.std.specs.Prelude.{List};
    ghost use Rattle.namespaces.specs.declared.links.Link.{Link};

    ghost Value = { List Link };

    ghost view = { λ l. l.links.items };
}

impl LinkList {
    /// No link, which takes no memory.
    fn new(alloc: Global) -> LinkList
        ensures { result ≡ [] }
    {
        LinkList {
            links: Vec::new(alloc),
        }
    }

    /// Puts a link behind the others.
    fn push(&mut self, link: Link) -> Result<(), AllocError>
        ensures { IfOk result (λ _. self.new ≡ self.old ++ link ∷ []) }
    {
        self.links.push(link)?;
        Ok(())
    }

    /// The links.
    pub fn as_slice(&self) -> &[Link]
        ensures { result.now ≡ self.now }
    {
        self.links.as_slice()
    }
}

/// The links of the libraries, a list for each library to which they lead.
pub fn links(
    alloc: Global,
    libraries: &[LibraryElement],
    count: u32,
) -> Result<Vec<LinkList>, AllocError>
    requires { length libraries.now ≡ count }
    ensures { IfOk result (λ links. AreLinks libraries.now count 0 links.items) }
{
    let places = place_table(alloc, libraries)?;
    let mut links = no_links(alloc, count)?;
    for from in 0..count {
        add_links(libraries, &places, from, &mut links)?;
    }
    Ok(links)
}

/// No links to each library.
fn no_links(alloc: Global, count: u32) -> Result<Vec<LinkList>, AllocError>
    ensures { IfOk result (λ links. links.items ≡ replicate count []) }
{
    let mut links = Vec::new(alloc);
    for _ in 0..count {
        links.push(LinkList::new(alloc))?;
    }
    Ok(links)
}

/// Puts the links of one library behind those of the libraries before it.
fn add_links(
    libraries: &[LibraryElement],
    places: &PlaceTable,
    from: u32,
    links: &mut Vec<LinkList>,
) -> Result<(), AllocError>
    requires few { length libraries.now < 2 ^ 32 }
    requires places { IsPlaceTable libraries.now places.now.places }
    requires within { from < length libraries.now }
    requires before { AreLinks libraries.now from 0 links.old.items }
    ensures { IfOk result (λ _. AreLinks libraries.now (from + 1) 0 links.new.items) }
{
    let exporter = &libraries[from as usize];
    let exports = exporter.exports.as_slice();
    for export in 0..exports.len() {
        add_link(
            libraries,
            places,
            from,
            export,
            exports[export].library,
            links,
        )?;
    }
    Ok(())
}

/// Puts the link of one export behind others, if the exported library is among the libraries.
fn add_link(
    libraries: &[LibraryElement],
    places: &PlaceTable,
    from: u32,
    export: usize,
    library: LibId,
    links: &mut Vec<LinkList>,
) -> Result<(), AllocError>
    requires few { length libraries.now < 2 ^ 32 }
    requires places { IsPlaceTable libraries.now places.now.places }
    requires size { length links.old.items ≡ length libraries.now }
    ensures { IfOk result (λ _.
        PutsLink from export (place_of libraries.now library) links.old.items links.new.items) }
{
    match places.place(libraries, library) {
        None => Ok(()),
        Some(to) => {
            links[to].push(Link {
                from,
                export,
                to: to as u32,
            })?;
            Ok(())
        }
    }
}
