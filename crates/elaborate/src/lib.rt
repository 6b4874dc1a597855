//! Elaboration: from a library in whose text nothing is wrong to the core program of its function `main`.
//!
//! Each form of a tree has one row that gives its code (`specs/Rows.antt`), from what the rules said of its
//! nodes, which is looked up by their numbers (`specs/Sources.antt`), and the code of its parts; and one
//! function that makes it. What is known at a point comes from the flow models before and behind nodes
//! (`specs/Known.antt`). `core_emit` makes the points of code, for all forms the same;
//! `specs/Elaborated.antt` puts the program together. That each form's code leads from the model before it
//! to the models behind it is proved by induction over the forms, once (`proofs/`), and so no point of such
//! a program is refused by the second check.
#![tactic(auto)]

mod builder;
mod conditions;
mod declarations;
mod laws;
mod operands;
mod program;
mod said;
mod slots;
mod statements;
mod values;

ghost use Rattle.std.specs.Prelude.{◌≡◌, ◌+◌, ◌*◌, ◌<◌, ◌≤◌, ◌^◌, ℕ, List, Some, IfOk, length, option_map};
ghost use Rattle.dart_scan.specs.Scanned.{tokens_of};
ghost use Rattle.dart_tree.specs.Tree.{block, trees_of};
ghost use Rattle.dart_tree.specs.Numbers.{nodes_in};
ghost use Rattle.check_library.specs.Checked.{IsCheckOf, IsFaultless, main_of_checked};
ghost use Rattle.core_check.specs.Accepted.{IsAccepted};
ghost use Rattle.core_check.specs.WellFormed.{IsWellFormed};
ghost use Rattle.elaborate.specs.Elaborated.{elaborated};

use crate::laws::programs_of_bodies_are_accepted;
use crate::program::build_program;
use built_forms::built_bodies_are_blocks;
use check_library::Checked;
use core_ir::CoreProgram;
use dart_tree::{Body, BodyNode, Place, Stmt};
use rule_laws::each_node_is_spoken_of_once;
use std::alloc::{AllocError, Global};
use tree_numbers::numbering_laws;

/// The core program of the function `main` of a library in whose text nothing is wrong. It takes time
/// linear in the points times the locals in scope, and shares what is known of locals between the points
/// at which it is the same. The error is want of memory.
pub fn elaborate(alloc: Global, checked: &Checked, body: &Body) -> Result<CoreProgram, AllocError>
    requires faultless { IsFaultless checked.now }
    requires body { option_map (λ main. main.1) (main_of_checked checked.now) ≡ Some body.now }
    ensures program { IfOk result (λ program. program ≡ elaborated checked.now.rows checked.now.unit.words checked.now.forms.outside.items body.now) }
    ensures well_formed { IfOk result IsWellFormed }
    ensures accepted { IfOk result IsAccepted }
    ensures few { IfOk result (λ program. (text : List ℕ) → IsCheckOf text checked.now → length program.points ≤ 64 * length (tokens_of text)) }
{
    built_bodies_are_blocks();
    match &body.node {
        BodyNode::Block { at, statements } => elaborate_block(alloc, checked, *at, statements),
        BodyNode::Expression { .. } => unreachable!(),
        BodyNode::Empty { .. } => unreachable!(),
        BodyNode::Native { .. } => unreachable!(),
    }
}

// The core program of a block that is the body of that function.
fn elaborate_block(
    alloc: Global,
    checked: &Checked,
    at: Place,
    statements: &[Stmt],
) -> Result<CoreProgram, AllocError>
    requires faultless { IsFaultless checked.now }
    requires body { option_map (λ main. main.1) (main_of_checked checked.now) ≡ Some (block at (trees_of statements.now)) }
    ensures program { IfOk result (λ program. program ≡ elaborated checked.now.rows checked.now.unit.words checked.now.forms.outside.items (block at (trees_of statements.now))) }
    ensures well_formed { IfOk result IsWellFormed }
    ensures accepted { IfOk result IsAccepted }
    ensures few { IfOk result (λ program. (text : List ℕ) → IsCheckOf text checked.now → length program.points ≤ 64 * length (tokens_of text)) }
{
    numbering_laws();
    built_bodies_are_blocks();
    each_node_is_spoken_of_once();
    let rows = checked.rows.copy(alloc)?;
    let words = checked.unit.words.as_slice();
    let program = build_program(alloc, rows, words, &checked.typed, at, statements)?;
    programs_of_bodies_are_accepted(&checked.rows, &program);
    Ok(program)
}
