//! The law of elaboration.

ghost use Rattle.std.specs.Prelude.{◌≡◌, ℕ, ◌≤◌, ◌^◌, true, List, [], length};
ghost use Rattle.std.specs.FinMap.{empty};
ghost use Rattle.dart_tree.specs.Tree.{Trees, block};
ghost use Rattle.dart_tree.specs.Numbers.{numbered};
ghost use Rattle.dart_tree.specs.declared.places.Place.{Place};
ghost use Rattle.core_rows.specs.CoreTable.{core_table};
ghost use Rattle.flow_model.specs.Flow.{start_of};
ghost use Rattle.judgement.specs.declared.meaning.Meaning.{Meaning};
ghost use Rattle.judgement.specs.Surroundings.{of_body};
ghost use Rattle.judgement.specs.Judgement.{run};
ghost use Rattle.built_forms.specs.Forms.{is_statement};
ghost use Rattle.core_check.specs.Accepted.{IsAccepted};
ghost use Rattle.core_check.specs.WellFormed.{IsWellFormed};
ghost use Rattle.elaborate.specs.Elaborated.{elaborated};

use core_check::put_tells;
use core_emit::{points_of_code_are_fine, points_of_code_are_well_formed};
use core_ir::CoreProgram;
use core_rows::core_row_laws;
use dart_types::{Rows, row_laws};
use flow_model::{
    a_step_changes_one_local, both_ends_imply_their_join, declare_adds_one_local,
    models_are_ordered, steps_keep_the_scope, steps_say_more_or_less, writes_tell,
};
use rule_laws::{
    each_node_is_spoken_of_once, no_form_jumps, rules_step, scopes_hide_nothing,
    what_is_said_is_found_by_number,
};

/// The program of a body of forms that are built, in which the rules find nothing wrong and whose nodes
/// are numbered in reading order, is well formed and accepted.
pub(crate) fn programs_of_bodies_are_accepted(_rows: &Rows, _program: &CoreProgram)
    requires classes { _rows.now.table ≡ core_table }
    requires few { length _program.now.points ≤ 2 ^ 32 }
    ensures accepted { (words : List (List ℕ)) (outside : List Meaning) (at : Place) (statements : Trees)
        → is_statement outside (block at statements) ≡ true → (run (of_body _rows.now.table words outside) (block at statements) (start_of [])).faults ≡ []
        → numbered at.node.0 (block at statements) ≡ block at statements → _program.now ≡ elaborated _rows.now words outside (block at statements)
        → IsAccepted _program.now × IsWellFormed _program.now }
{
    row_laws(_rows);
    core_row_laws(_rows);
    put_tells();
    a_step_changes_one_local();
    declare_adds_one_local();
    writes_tell(_rows);
    models_are_ordered();
    both_ends_imply_their_join();
    steps_say_more_or_less(_rows);
    steps_keep_the_scope(_rows);
    rules_step(_rows);
    scopes_hide_nothing();
    no_form_jumps();
    each_node_is_spoken_of_once();
    what_is_said_is_found_by_number();
    points_of_code_are_fine(_program);
    points_of_code_are_well_formed(_program);
}
