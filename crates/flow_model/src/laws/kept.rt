//! Facts that hold at the start of a body and that every step keeps.

ghost use Rattle.std.specs.Prelude.{List};
ghost use Rattle.dart_types.specs.Superinterfaces.{LeavesNothingOut};
ghost use Rattle.dart_types.specs.Ty.{Ty};
ghost use Rattle.flow_model.specs.Flow.{FlowModel, PromotesNoCaptured, at_local, declare_of, end_of, start_of};
ghost use Rattle.flow_model.specs.Promote.{append_facts, non_null_facts, promote_facts};
ghost use Rattle.flow_model.specs.Assign.{assign_facts};
ghost use Rattle.flow_model.specs.Join.{HaveSameScope, join_of};
ghost use Rattle.flow_model.specs.Restrict.{restrict_of};
ghost use Rattle.flow_model.specs.Steps.{conservative_of, exit_of};
ghost use Rattle.flow_model.specs.Chains.{HasDescendingChains};
ghost use Rattle.flow_model.specs.declared.locals.LocalDecl.{LocalDecl};
ghost use Rattle.flow_model.specs.declared.locals.LocalId.{LocalId};

use dart_types::Rows;
use type_bounds::bound_table_laws;

/// No captured local is promoted at the start of a body, and none is after any step where none was
/// before.
pub fn no_captured_local_is_promoted(_rows: &Rows)
    ensures start { (vars : List LocalDecl) → PromotesNoCaptured (start_of vars) }
    ensures declare { (m : FlowModel) (local : LocalDecl) → PromotesNoCaptured m → PromotesNoCaptured (declare_of m local) }
    ensures end { (m : FlowModel) (vars : List LocalId) → PromotesNoCaptured m → PromotesNoCaptured (end_of m vars) }
    ensures exit { (m : FlowModel) → PromotesNoCaptured m → PromotesNoCaptured (exit_of m) }
    ensures promote { (m : FlowModel) (var : LocalId) (to : Ty) → PromotesNoCaptured m
        → PromotesNoCaptured (at_local m var (promote_facts _rows.now.table to)) }
    ensures non_null { (m : FlowModel) (var : LocalId) → PromotesNoCaptured m → PromotesNoCaptured (at_local m var (non_null_facts _rows.now.table)) }
    ensures append { (m : FlowModel) (var : LocalId) (to : Ty) → PromotesNoCaptured m → PromotesNoCaptured (at_local m var (append_facts _rows.now.table to)) }
    ensures assign { (m : FlowModel) (var : LocalId) (written : Ty) → PromotesNoCaptured m
        → PromotesNoCaptured (at_local m var (assign_facts _rows.now.table written)) }
    ensures conservative_join { (m : FlowModel) (written captured : List LocalId) → PromotesNoCaptured m
        → PromotesNoCaptured (conservative_of m written captured) }
    ensures join { (a b : FlowModel) → PromotesNoCaptured a → PromotesNoCaptured b → PromotesNoCaptured (join_of a b) }
    ensures restrict { (a b : FlowModel) (written captured : List LocalId) → PromotesNoCaptured (restrict_of _rows.now.table a b written captured) }
{}

/// Each type that a local is promoted to is a subtype of the one before it, and the first of the
/// declared type: at the start of a body, and after any step where it was so before. A write, a join and
/// a restrict take types out of the middle, so for these it holds where rows leave nothing out. So the
/// current type is a subtype of all of them there.
///
/// A step appends none but a proper subtype of the current type
/// (`appended_types_are_proper_subtypes`). Where paths meet, a type between two
/// others may be left out, and types that are subtypes of each other, as `void` and `Object?`, then
/// stand behind one another as they didn't before; so no more than this is kept.
pub fn chains_descend(_rows: &Rows)
    ensures start { (vars : List LocalDecl) → HasDescendingChains _rows.now.table (start_of vars) }
    ensures declare { (m : FlowModel) (local : LocalDecl) → HasDescendingChains _rows.now.table m → HasDescendingChains _rows.now.table (declare_of m local) }
    ensures end { (m : FlowModel) (vars : List LocalId) → HasDescendingChains _rows.now.table m → HasDescendingChains _rows.now.table (end_of m vars) }
    ensures exit { (m : FlowModel) → HasDescendingChains _rows.now.table m → HasDescendingChains _rows.now.table (exit_of m) }
    ensures promote { (m : FlowModel) (var : LocalId) (to : Ty) → HasDescendingChains _rows.now.table m
        → HasDescendingChains _rows.now.table (at_local m var (promote_facts _rows.now.table to)) }
    ensures non_null { (m : FlowModel) (var : LocalId) → HasDescendingChains _rows.now.table m
        → HasDescendingChains _rows.now.table (at_local m var (non_null_facts _rows.now.table)) }
    ensures append { (m : FlowModel) (var : LocalId) (to : Ty) → HasDescendingChains _rows.now.table m
        → HasDescendingChains _rows.now.table (at_local m var (append_facts _rows.now.table to)) }
    ensures assign { LeavesNothingOut _rows.now.table → (m : FlowModel) (var : LocalId) (written : Ty) → HasDescendingChains _rows.now.table m
        → HasDescendingChains _rows.now.table (at_local m var (assign_facts _rows.now.table written)) }
    ensures conservative_join { (m : FlowModel) (written captured : List LocalId) → HasDescendingChains _rows.now.table m
        → HasDescendingChains _rows.now.table (conservative_of m written captured) }
    ensures join { LeavesNothingOut _rows.now.table → (a b : FlowModel) → HasDescendingChains _rows.now.table a → HasDescendingChains _rows.now.table b
        → HasDescendingChains _rows.now.table (join_of a b) }
    ensures restrict { LeavesNothingOut _rows.now.table → (a b : FlowModel) (written captured : List LocalId) → HaveSameScope a b
        → HasDescendingChains _rows.now.table a → HasDescendingChains _rows.now.table b
        → HasDescendingChains _rows.now.table (restrict_of _rows.now.table a b written captured) }
{
    bound_table_laws(_rows);
}
