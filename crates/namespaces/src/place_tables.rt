//! The places of libraries, by their numbers.

ghost use Rattle.std.specs.Prelude.{◌≡◌, IfOk};
ghost use Rattle.namespaces.specs.Exports.{place_of};
ghost use Rattle.namespaces.specs.Links.{IsPlaceTable};

use dart_types::LibId;
use element_terms::LibraryElement;
use std::alloc::{AllocError, Global};
use std::collections::HashMap;

/// The place of each library by its number.
#[derive(Drop)]
pub struct PlaceTable {
    /// The places by the numbers.
    pub places: HashMap<u64, usize>,
}

impl PlaceTable {
    /// The place of the library of this number.
    pub fn place(&self, libraries: &[LibraryElement], library: LibId) -> Option<usize>
        requires { IsPlaceTable libraries.now self.now.places }
        ensures { result ≡ place_of libraries.now library }
    {
        self.places.get(&library.0).copied()
    }
}

/// The places of these libraries.
pub fn place_table(alloc: Global, libraries: &[LibraryElement]) -> Result<PlaceTable, AllocError>
    ensures { IfOk result (λ table. IsPlaceTable libraries.now table.places) }
{
    let mut places = HashMap::new(alloc);
    for place in 0..libraries.len() {
        let number = libraries[place].id.0;
        if places.get(&number).is_none() {
            places.insert(number, place)?;
        }
    }
    Ok(PlaceTable { places })
}
