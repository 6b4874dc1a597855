//! Exports that bring a name for which an earlier export of the library brings another element.

ghost use Rattle.std.specs.Prelude.{◌≡◌, ◌&&◌, length, IfOk, OnOk};
ghost use Rattle.std.specs.List.{list_any};
ghost use Rattle.namespaces.specs.Ambiguities.{clash, is_brought, pairs_of};
ghost use Rattle.namespaces.specs.BroughtNames.{AddsClashes, TellsAmbiguous, clashes};
ghost use Rattle.namespaces.specs.Links.{IsPlaceTable};

use crate::brought::BroughtNames;
use crate::elements::{Exported, Namespace};
use crate::place_tables::PlaceTable;
use element_terms::{Combinators, ExportEdge, LibraryElement, declared_place};
use std::alloc::{AllocError, Global};

/// Which exports of a library are ambiguous, in their order: those that bring a name that the library
/// doesn't declare and for which an export that is written before brings another element. What the
/// libraries export is given in their order, and their places by their numbers. For n names that the
/// exports bring it takes the time of n log n.
pub fn ambiguous_exports(
    alloc: Global,
    libraries: &[LibraryElement],
    places: &PlaceTable,
    all: &[Namespace],
    library: &LibraryElement,
) -> Result<Vec<bool>, AllocError>
    requires places { IsPlaceTable libraries.now places.now.places }
    requires size { length all.now ≡ length libraries.now }
    ensures { IfOk result (λ told. TellsAmbiguous libraries.now all.now library.now told.items) }
{
    let mut told = Vec::new(alloc);
    let mut before = BroughtNames::new(alloc);
    let exports = library.exports.as_slice();
    for edge in exports {
        let pairs = pairs_of(libraries, places, all, edge);
        told.push(has_clash(library, &edge.combinators, pairs, &before))?;
        add_brought(library, &edge.combinators, pairs, &mut before)?;
    }
    Ok(told)
}

/// What the library that an export names exports, if it is among the libraries.
fn pairs_of<'a>(
    libraries: &[LibraryElement],
    places: &PlaceTable,
    all: &'a [Namespace],
    edge: &ExportEdge,
) -> &'a [Exported]
    requires places { IsPlaceTable libraries.now places.now.places }
    requires size { length all.now ≡ length libraries.now }
    ensures { result.now ≡ pairs_of libraries.now all.now edge.now.library }
{
    match places.place(libraries, edge.library) {
        None => &[],
        Some(place) => all[place].as_slice(),
    }
}

/// Whether a pair that is brought has a name that means another element among names.
fn has_clash(
    library: &LibraryElement,
    combinators: &Combinators,
    pairs: &[Exported],
    names: &BroughtNames,
) -> bool
    ensures { result ≡ list_any (λ p. is_brought library.now combinators.now p
        && clashes names.now.names p) pairs.now }
{
    pairs
        .iter()
        .any(|pair| is_clash(library, combinators, pair, names))
}

/// Whether a pair is brought, and its name means another element among names.
fn is_clash(
    library: &LibraryElement,
    combinators: &Combinators,
    pair: &Exported,
    names: &BroughtNames,
) -> bool
    ensures { result ≡ (is_brought library.now combinators.now pair.now && clashes names.now.names pair.now) }
{
    if !names.clashes(pair) {
        return false;
    }
    is_brought(library, combinators, pair)
}

/// Adds the pairs that are brought to names.
fn add_brought<'a>(
    library: &LibraryElement,
    combinators: &Combinators,
    pairs: &'a [Exported],
    names: &mut BroughtNames<'a>,
) -> Result<(), AllocError>
    ensures { OnOk result (AddsClashes (λ p. list_any (λ q. is_brought library.now combinators.now q && clash p q)
        pairs.now) names.old.names names.new.names) }
{
    for pair in pairs {
        add_if_brought(library, combinators, pair, names)?;
    }
    Ok(())
}

/// Adds a pair to names, if it is brought.
fn add_if_brought<'a>(
    library: &LibraryElement,
    combinators: &Combinators,
    pair: &'a Exported,
    names: &mut BroughtNames<'a>,
) -> Result<(), AllocError>
    ensures { OnOk result (AddsClashes (λ p. is_brought library.now combinators.now pair.now && clash p pair.now)
        names.old.names names.new.names) }
{
    if !is_brought(library, combinators, pair) {
        return Ok(());
    }
    names.add(pair)?;
    Ok(())
}

/// Whether an export with these combinators brings its library a pair.
fn is_brought(library: &LibraryElement, combinators: &Combinators, pair: &Exported) -> bool
    ensures { result ≡ is_brought library.now combinators.now pair.now }
{
    let name = pair.name.as_str();
    if !combinators.brings(name) {
        return false;
    }
    declared_place(library, name).is_none()
}
