//! What a name is found to mean.

ghost use Rattle.std.specs.Prelude.{◌≡◌};
ghost use Rattle.namespaces.specs.Meanings.{chosen, is_of_core, no_meanings, or_also, same_element, with_element};

use crate::elements::ElementId;

/// What a name means.
#[derive(Clone, Copy, Debug, PartialEq, Eq)]
pub enum Found {
    /// One element.
    One(ElementId),
    /// Two or more elements.
    Ambiguous,
    /// None.
    Nothing,
}

/// What a name may mean: among the elements of `dart:core`, and among all others.
#[derive(Clone, Copy, Debug)]
pub struct Meanings {
    /// Among the elements of `dart:core`.
    pub of_core: Found,
    /// Among the elements of all other libraries.
    pub of_others: Found,
}

impl ElementId {
    /// Whether both are one element.
    pub fn is(self, other: ElementId) -> bool
        ensures { result ≡ same_element self other }
    {
        self.library.0 == other.library.0 && self.place == other.place
    }

    /// Whether `dart:core` declares the element.
    pub fn is_of_core(self) -> bool
        ensures { result ≡ is_of_core self }
    {
        self.library.0 == 0
    }
}

impl Found {
    /// What a name means that may mean this element too.
    pub(crate) fn or_also(self, element: ElementId) -> Found
        ensures { result ≡ or_also self element }
    {
        match self {
            Found::Nothing => Found::One(element),
            Found::One(first) => {
                if first.is(element) {
                    Found::One(first)
                } else {
                    Found::Ambiguous
                }
            }
            Found::Ambiguous => Found::Ambiguous,
        }
    }
}

impl Meanings {
    /// Nothing yet.
    pub fn none() -> Meanings
        ensures { result ≡ no_meanings }
    {
        Meanings {
            of_core: Found::Nothing,
            of_others: Found::Nothing,
        }
    }

    /// One more element.
    pub fn with_element(self, element: ElementId) -> Meanings
        ensures { result ≡ with_element self element }
    {
        if element.is_of_core() {
            let of_core = self.of_core.or_also(element);
            return Meanings {
                of_core,
                of_others: self.of_others,
            };
        }
        let of_others = self.of_others.or_also(element);
        Meanings {
            of_core: self.of_core,
            of_others,
        }
    }

    /// An element of another library comes before one of `dart:core`.
    pub fn chosen(self) -> Found
        ensures { result ≡ chosen self }
    {
        match self.of_others {
            Found::Nothing => self.of_core,
            Found::One(element) => Found::One(element),
            Found::Ambiguous => Found::Ambiguous,
        }
    }
}
