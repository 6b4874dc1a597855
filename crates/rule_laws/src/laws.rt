//! Laws of the rules.

ghost use Rattle.std.specs.Prelude.{◌≡◌, ℕ, true, List, []};
ghost use Rattle.dart_tree.specs.Tree.{Tree, Trees, Part};
ghost use Rattle.dart_tree.specs.declared.places.Place.{Place};
ghost use Rattle.dart_types.specs.Superinterfaces.{LeavesNothingOut};
ghost use Rattle.dart_types.specs.Tables.{Table};
ghost use Rattle.flow_model.specs.Flow.{FlowModel};
ghost use Rattle.judgement.specs.declared.meaning.Meaning.{Meaning};
ghost use Rattle.judgement.specs.NodeFacts.{NodeFacts};
ghost use Rattle.judgement.specs.Judgement.{run, run_all};
ghost use Rattle.judgement.specs.DeclaredNames.{names_declared, names_in, within};
ghost use Rattle.judgement.specs.Surroundings.{Surroundings, of_body};
ghost use Rattle.built_forms.specs.Forms.{are_statements, is_block, is_statement};
ghost use Rattle.rule_laws.specs.Plain.{HidesNothing};
ghost use Rattle.rule_laws.specs.Keys.{AreOnce, IsFoundByNumber, SpeaksOnce, numbers_said};
ghost use Rattle.rule_laws.specs.Steps.{BlockSteps, BranchSteps, ConditionSteps, LoopTurns, StatementSteps, StatementsStep, ValueSteps};

use dart_types::{Rows, row_laws};
use flow_model::{
    both_ends_imply_their_join, chains_descend, conservative_joins_add_up, end_undoes_declare,
    models_are_ordered, steps_keep_the_order, steps_keep_the_scope, steps_say_more_or_less,
};

/// In a body of forms that are built, in which nothing is wrong: what is known behind a form says as much
/// as what is known before it, but of the locals that it writes, and the same locals are in scope, of the
/// same types, once the form's own are out of it. What is known at the head of a loop holds at each turn.
/// Rows leave nothing out, so that subtypes of subtypes are subtypes.
pub fn rules_step(_rows: &Rows)
    ensures values { LeavesNothingOut _rows.now.table → (s : Surroundings) (tree : Tree) → s.table ≡ _rows.now.table → ValueSteps s tree }
    ensures conditions { LeavesNothingOut _rows.now.table → (s : Surroundings) (tree : Tree) → s.table ≡ _rows.now.table → ConditionSteps s tree }
    ensures statements { LeavesNothingOut _rows.now.table → (s : Surroundings) (tree : Tree) → s.table ≡ _rows.now.table → StatementSteps s tree }
    ensures lists { LeavesNothingOut _rows.now.table → (s : Surroundings) (trees : Trees) → s.table ≡ _rows.now.table → StatementsStep s trees }
    ensures blocks { LeavesNothingOut _rows.now.table → (s : Surroundings) (tree : Tree) → s.table ≡ _rows.now.table → BlockSteps s tree }
    ensures branches { LeavesNothingOut _rows.now.table → (s : Surroundings) (part : Part) → s.table ≡ _rows.now.table → BranchSteps s part }
    ensures loops { LeavesNothingOut _rows.now.table → (s : Surroundings) (at : Place) (condition body : Tree) → s.table ≡ _rows.now.table → LoopTurns s at condition body }
{
    row_laws(_rows);
    models_are_ordered();
    steps_keep_the_order();
    steps_say_more_or_less(_rows);
    steps_keep_the_scope(_rows);
    both_ends_imply_their_join();
    conservative_joins_add_up();
    end_undoes_declare();
    chains_descend(_rows);
}

/// At the start of a body no local hides a type, and none does in a scope of the names that statements of
/// forms that are built declare, where none did around it.
pub fn scopes_hide_nothing()
    ensures start { (table : Table) (words : List (List ℕ)) (outside : List Meaning) → HidesNothing (of_body table words outside) }
    ensures statement { (s : Surroundings) (tree : Tree) → is_statement s.outside tree ≡ true → HidesNothing s → HidesNothing (within s (names_declared tree)) }
    ensures block { (s : Surroundings) (tree : Tree) → is_block s.outside tree ≡ true → HidesNothing s → HidesNothing (within s (names_declared tree)) }
    ensures statements { (s : Surroundings) (trees : Trees) → are_statements s.outside trees ≡ true → HidesNothing s → HidesNothing (within s (names_in trees)) }
{}

/// Of a tree whose nodes are numbered in reading order the rules speak of each node at most once, and of
/// the names that it declares.
pub fn each_node_is_spoken_of_once()
    ensures { (s : Surroundings) (tree : Tree) → SpeaksOnce s tree }
{}

/// Where each number is spoken of once, what is said of a node is found by its number.
pub fn what_is_said_is_found_by_number()
    ensures { (nodes : List NodeFacts) (first last : ℕ) → AreOnce first last (numbers_said nodes) → IsFoundByNumber nodes }
{}

/// No form that is judged so far jumps out of itself.
pub fn no_form_jumps()
    ensures statement { (s : Surroundings) (tree : Tree) (m : FlowModel) → (run s tree m).jumps ≡ [] }
    ensures statements { (s : Surroundings) (trees : Trees) (m : FlowModel) → (run_all s trees m).jumps ≡ [] }
{}
