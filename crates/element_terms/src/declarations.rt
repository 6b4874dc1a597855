//! What the top level of a library declares.

ghost use Rattle.std.specs.Prelude.{◌≡◌, position, IfOk};
ghost use Rattle.element_terms.specs.Declarations.{declares, has_setter};

use crate::name_tables::name_table;
use crate::names::is_setter_of;
use plain_text::PlainText;
use std::alloc::{AllocError, Global};
use std::collections::BTreeMap;
use std::marker::Model;

/// The kinds of declarations at the top level.
#[derive(Clone, Copy, Debug, PartialEq, Eq)]
pub enum DeclaredKind {
    /// A function.
    Function,
    /// A getter.
    Getter,
    /// A setter.
    Setter,
    /// A variable that can be written.
    Variable,
    /// A variable that is final.
    FinalVariable,
    /// A class.
    Class,
    /// A mixin.
    Mixin,
    /// A name of a type.
    Typedef,
}

/// A declaration at the top level of a library or of one of its parts.
#[derive(Debug, Drop)]
pub struct Declared {
    /// Its name; that of a setter ends in `=`.
    pub name: PlainText,
    /// Its kind.
    pub kind: DeclaredKind,
}

impl DeclaredKind {
    /// Whether a setter comes with a declaration of this kind.
    pub fn has_setter(self) -> bool
        ensures { result ≡ has_setter self }
    {
        match self {
            DeclaredKind::Variable => true,
            DeclaredKind::Function => false,
            DeclaredKind::Getter => false,
            DeclaredKind::Setter => false,
            DeclaredKind::FinalVariable => false,
            DeclaredKind::Class => false,
            DeclaredKind::Mixin => false,
            DeclaredKind::Typedef => false,
        }
    }
}

impl Declared {
    /// Whether the declaration has this name: its own, or that of the setter that comes with it.
    pub fn declares(&self, name: &str) -> bool
        ensures { result ≡ declares self.now name.now }
    {
        if self.name.as_str() == name {
            return true;
        }
        self.kind.has_setter() && is_setter_of(self.name.as_str(), name)
    }
}

/// Declarations, those of the library first and then those of its parts, each in the order of its
/// text, with a table of their names.
#[derive(Debug, Drop)]
pub struct Declarations {
    declared: Vec<Declared>,
    table: BTreeMap<String, usize>,
}

impl Model for Declarations {
    ghost use Rattle.std.specs.Prelude.{List};
    ghost use Rattle.element_terms.specs.declared.declarations.Declared.{Declared};
    ghost use Rattle.element_terms.specs.NameTables.{IsNameTable};

    ghost Value = { List Declared };

    ghost view = { λ d. d.declared.items };

    ghost invariant = { λ d. IsNameTable d.declared.items d.table };
}

impl Declarations {
    /// The declarations that the vector holds. The table of n names takes memory for these, and the
    /// time of n log n of them.
    pub fn from_vec(alloc: Global, declared: Vec<Declared>) -> Result<Declarations, AllocError>
        ensures { IfOk result (λ all. all ≡ declared.items) }
    {
        let table = name_table(alloc, declared.as_slice())?;
        Ok(Declarations { declared, table })
    }

    /// The declarations.
    pub fn as_slice(&self) -> &[Declared]
        ensures { result.now ≡ self.now }
    {
        self.declared.as_slice()
    }

    /// The place of the first declaration that has this name, in the time of log n of n names.
    pub fn place(&self, name: &str) -> Option<usize>
        ensures { result ≡ position (λ d. declares d name.now) self.now }
    {
        self.table.get(name).copied()
    }
}
