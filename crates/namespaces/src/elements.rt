//! Elements, and the names under which libraries export them.

ghost use Rattle.std.specs.Prelude.{◌≡◌, ◌++◌, ◌∷◌, [], IfOk};

use dart_types::LibId;
use plain_text::PlainText;
use std::alloc::AllocError;
use std::marker::Model;

/// A declaration, by its library and its place among the declarations of that.
#[derive(Clone, Copy, Debug, PartialEq, Eq)]
pub struct ElementId {
    /// The library that declares it.
    pub library: LibId,
    /// Its place among those that the library declares.
    pub place: usize,
}

/// A name that a library exports, and an element that it means.
#[derive(Debug, Drop)]
pub struct Exported {
    /// The name; that of a setter ends in `=`.
    pub name: PlainText,
    /// The element.
    pub element: ElementId,
}

/// The names that a library exports. One that means several elements has a pair for each.
#[derive(Debug, Drop)]
pub struct Namespace {
    exported: Vec<Exported>,
}

impl Model for Namespace {
    ghost use Rattle.std.specs.Prelude.{List};
    ghost use Rattle.namespaces.specs.declared.elements.Exported.{Exported};

    ghost Value = { List Exported };

    ghost view = { λ n. n.exported.items };
}

impl Namespace {
    /// The pairs that the vector holds, which takes no memory.
    pub fn from_vec(exported: Vec<Exported>) -> Namespace
        ensures { result ≡ exported.items }
    {
        Namespace { exported }
    }

    /// Puts a pair behind the others.
    pub fn push(&mut self, pair: Exported) -> Result<(), AllocError>
        ensures { IfOk result (λ _. self.new ≡ self.old ++ pair ∷ []) }
    {
        self.exported.push(pair)?;
        Ok(())
    }

    /// The pairs.
    pub fn as_slice(&self) -> &[Exported]
        ensures { result.now ≡ self.now }
    {
        self.exported.as_slice()
    }
}
