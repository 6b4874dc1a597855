//! The combinators of imports and exports.

ghost use Rattle.std.specs.Prelude.{◌≡◌, IfOk};
ghost use Rattle.element_terms.specs.Combinators.{brings};

use crate::names::{NameList, is_private};
use crate::pass_tables::{PassTable, pass_table};
use std::alloc::{AllocError, Global};
use std::marker::Model;
use std::rc::Rc;

/// A combinator of an import or an export.
#[derive(Debug, Drop)]
pub enum Combinator {
    /// `show a, b`.
    Show(NameList),
    /// `hide a, b`.
    Hide(NameList),
}

/// Combinators with a table of the names that they let pass.
#[derive(Debug, Drop)]
struct TabledCombinators {
    combinators: Vec<Combinator>,
    table: PassTable,
}

/// Combinators in the order in which they are written, which copies share.
#[derive(Debug, Drop)]
pub struct Combinators {
    shared: Rc<TabledCombinators>,
}

impl Model for Combinators {
    ghost use Rattle.std.specs.Prelude.{List};
    ghost use Rattle.element_terms.specs.declared.combinators.Combinator.{Combinator};
    ghost use Rattle.element_terms.specs.PassTables.{IsPassTable};

    ghost Value = { List Combinator };

    ghost view = { λ c. c.shared.value.combinators.items };

    ghost invariant = { λ c. IsPassTable c.shared.value.combinators.items c.shared.value.table.stages c.shared.value.table.last };
}

impl Combinators {
    /// The combinators that the vector holds. The table of n names that they list takes memory for
    /// these, and the time of n log n of them.
    pub fn from_vec(alloc: Global, combinators: Vec<Combinator>) -> Result<Combinators, AllocError>
        ensures { IfOk result (λ all. all ≡ combinators.items) }
    {
        let table = pass_table(alloc, combinators.as_slice())?;
        let shared = Rc::new(alloc, TabledCombinators { combinators, table })?;
        Ok(Combinators { shared })
    }

    /// The same combinators once more. It copies a pointer.
    pub fn share(&self) -> Result<Combinators, AllocError>
        ensures { IfOk result (λ shared. shared ≡ self.now) }
    {
        let shared = self.shared.clone()?;
        Ok(Combinators { shared })
    }

    /// The combinators.
    pub fn as_slice(&self) -> &[Combinator]
        ensures { result.now ≡ self.now }
    {
        self.shared.combinators.as_slice()
    }

    /// Whether an import or an export with these combinators brings a name, if what it names has one,
    /// in the time of log n of n names that the combinators list.
    pub fn brings(&self, name: &str) -> bool
        ensures { result ≡ brings self.now name.now }
    {
        if is_private(name) {
            return false;
        }
        self.shared.table.passes(name)
    }
}
