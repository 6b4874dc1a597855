//! The tree of a text.

ghost use Rattle.std.specs.Prelude.{◌≡◌, ◌≤◌, IfOk};
ghost use Rattle.std.specs.List.Sorted.{IsNonDecreasingBy};
ghost use Rattle.grammar.specs.Descents.{lower};
ghost use Rattle.grammar.specs.DeclarationDescents.{lower_unit};
ghost use Rattle.grammar.specs.Whole.{unit_of, most_nodes, whole};
ghost use Rattle.parse_leaves.specs.Answers.{Gives, IsDeep};
ghost use Rattle.parse_expr.specs.Parts.{tree_of, reads, IsFormOf};

use crate::items::unit_within;
use dart_tree::UnitTree;
use grammar::{Token, unit_laws};
use parse_expr::{Reader, TextLists, part_at};
use read_lists::read_unit;
use std::alloc::{AllocError, Global};

/// The tree of a text, whose lists of statements aren't read yet.
fn unit_at(alloc: Global, in_core: bool, text: &[Token]) -> Result<UnitTree, AllocError>
    ensures { IfOk result (λ unit. unit ≡ lower_unit in_core (lower 199) (lower 198) text.now) }
{
    let below = Reader {
        read: |part, rest|
            ensures reading { Gives (λ x. (tree_of x.0, x.2.now)) result (reads (lower 199) part rest.now) }
            ensures form { IfOk result (λ x. IsFormOf part x.0) }
            ensures deep { IfOk result (λ x. IsDeep 199 (tree_of x.0) x.1) }
        { part_at(alloc, part, 199, rest) },
        room: 199,
    };
    let inner = Reader {
        read: |part, rest|
            ensures reading { Gives (λ x. (tree_of x.0, x.2.now)) result (reads (lower 198) part rest.now) }
            ensures form { IfOk result (λ x. IsFormOf part x.0) }
            ensures deep { IfOk result (λ x. IsDeep 198 (tree_of x.0) x.1) }
        { part_at(alloc, part, 198, rest) },
        room: 198,
    };
    unit_within(&below, &inner, alloc, in_core, text)
}

/// What the tree of a text is, by the way down.
fn unit_law(in_core: bool, text: &[Token])
    ensures { unit_of in_core text.now ≡ whole text.now most_nodes (lower_unit in_core (lower 199) (lower 198) text.now) }
{
    unit_laws();
}

/// The tree of a text: its directives and declarations, with the longest item that can be read at each
/// place, and an error over the next segment wherever there is none. No node lies deeper than 200 below
/// the tree. `in_core` is true for the text of `dart:core` alone, where a body may be `native;`. The
/// tokens are those of the text in their order, each with its group. The error is want of memory.
pub fn parse_items(alloc: Global, in_core: bool, text: &[Token]) -> Result<UnitTree, AllocError>
    requires ordered { IsNonDecreasingBy (λ t. t.start) text.now }
    ensures { IfOk result (λ unit. unit ≡ unit_of in_core text.now) }
{
    let mut unit = unit_at(alloc, in_core, text)?;
    read_unit(&TextLists::new(text), alloc, 201, &mut unit)?;
    unit_law(in_core, text);
    Ok(unit)
}
