//! The names that exports of a library bring.

ghost use Rattle.std.specs.Prelude.{◌≡◌, ℕ, List, OnOk};
ghost use Rattle.namespaces.specs.Ambiguities.{clash};
ghost use Rattle.namespaces.specs.BroughtNames.{AddsClashes, clashes, differs, found_of};
ghost use Rattle.namespaces.specs.declared.found.Found.TheVariants.{Nothing};

use crate::elements::{ElementId, Exported};
use crate::found::Found;
use std::alloc::{AllocError, Global};
use std::collections::BTreeMap;

/// What names mean among the pairs that exports bring.
#[derive(Drop)]
pub struct BroughtNames<'a> {
    /// What each name means.
    pub names: BTreeMap<&'a str, Found>,
}

impl<'a> BroughtNames<'a> {
    /// No name means anything.
    pub fn new(alloc: Global) -> BroughtNames<'a>
        ensures { (name : List ℕ) → found_of result.names name ≡ Nothing }
    {
        BroughtNames {
            names: BTreeMap::new(alloc),
        }
    }

    /// What a name means.
    fn found(&self, name: &str) -> Found
        ensures { result ≡ found_of self.now.names name.now }
    {
        self.names.get(name).copied().unwrap_or(Found::Nothing)
    }

    /// Whether the name of a pair means another element.
    pub fn clashes(&self, pair: &Exported) -> bool
        ensures { result ≡ clashes self.now.names pair.now }
    {
        differs(self.found(pair.name.as_str()), pair.element)
    }

    /// The name of a pair means its element too.
    pub fn add(&mut self, pair: &'a Exported) -> Result<(), AllocError>
        ensures { OnOk result (AddsClashes (λ p. clash p pair.now) self.old.names self.new.names) }
    {
        let name = pair.name.as_str();
        let found = self.found(name).or_also(pair.element);
        self.names.insert(name, found)?;
        Ok(())
    }
}

/// Whether another element than this one is found.
fn differs(found: Found, element: ElementId) -> bool
    ensures { result ≡ differs found element }
{
    match found {
        Found::Nothing => false,
        Found::One(one) => !one.is(element),
        Found::Ambiguous => true,
    }
}
