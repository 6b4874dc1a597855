//! The outline of a unit.

ghost use Rattle.std.specs.Prelude.{◌≡◌, IfOk};
ghost use Rattle.directives.specs.Outlines.{outline_of};

use crate::declared::{DeclaredNames, declared_in};
use crate::directive::{Directives, directives_in};
use crate::order::{Spans, misplaced_in};
use dart_tree::UnitTree;
use plain_text::PlainText;
use std::alloc::{AllocError, Global};

/// The directives of a unit, and what its top level declares.
#[derive(Drop)]
pub struct Outline {
    /// Its directives.
    pub directives: Directives,
    /// Where those of them stand that may not stand there.
    pub misplaced: Spans,
    /// The names that it declares.
    pub declared: DeclaredNames,
}

/// The outline of a unit with these words. The work is linear in the items of the unit and the
/// letters of their names. The error is want of memory.
pub fn outline_of(
    alloc: Global,
    words: &[PlainText],
    unit: &UnitTree,
) -> Result<Outline, AllocError>
    ensures { IfOk result (λ outline. outline ≡ outline_of words.now unit.now) }
{
    let directives = directives_in(alloc, words, &unit.items)?;
    let misplaced = misplaced_in(alloc, &unit.items)?;
    let declared = declared_in(alloc, words, &unit.items)?;
    Ok(Outline {
        directives,
        misplaced,
        declared,
    })
}
