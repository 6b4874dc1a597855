//! What is known of each local after a step.

ghost use Rattle.std.specs.Prelude.{◌≡◌, ◌≢◌, false, List, Option, Some, None, find, IsNone, IsTrue, [], ◌∷◌, ◌++◌, if◌then◌else◌};
ghost use Rattle.std.specs.Option.{option_map};
ghost use Rattle.dart_types.specs.Ty.{Ty};
ghost use Rattle.flow_model.specs.Flow.{AreDistinct, FlowModel, IsInOrder, at_local, current_in, declare_of, declared_in, declares, end_of, facts_of, fresh_facts, is_listed, start_of};
ghost use Rattle.flow_model.specs.Promote.{append_facts, non_null_facts, promote_facts};
ghost use Rattle.flow_model.specs.Assign.{assign_facts};
ghost use Rattle.flow_model.specs.Join.{HaveSameScope, join_of, scope_of};
ghost use Rattle.flow_model.specs.Restrict.{restrict_of};
ghost use Rattle.flow_model.specs.Steps.{conservative_facts, conservative_of, exit_of, is_changed};
ghost use Rattle.flow_model.specs.declared.locals.Facts.{Facts};
ghost use Rattle.flow_model.specs.declared.locals.LocalDecl.{LocalDecl};
ghost use Rattle.flow_model.specs.declared.locals.LocalId.{LocalId};

use dart_types::Rows;

/// At the start of a body what is known of a local is what its declaration says, whatever the order
/// of the declarations, and nothing is known of any other.
pub fn start_knows_its_locals()
    ensures { (vars : List LocalDecl) (var : LocalId) → AreDistinct vars → facts_of (start_of vars) var ≡ option_map fresh_facts (find (declares var) vars) }
{}

/// Of a local that was just declared is known what its declaration says, and what is known of the
/// others stays.
pub fn declare_adds_one_local()
    ensures own { (m : FlowModel) (local : LocalDecl) → facts_of (declare_of m local) local.var ≡ Some (fresh_facts local) }
    ensures others { (m : FlowModel) (local : LocalDecl) (other : LocalId) → other.0 ≢ local.var.0 → facts_of (declare_of m local) other ≡ facts_of m other }
{}

/// Nothing is known of a local that was taken out of scope, and what is known of the others stays.
pub fn end_takes_locals_out()
    ensures { (m : FlowModel) (vars : List LocalId) (var : LocalId) → facts_of (end_of m vars) var ≡ (if is_listed vars var then None else facts_of m var) }
{}

/// A local that is declared and then ended leaves the model as it was.
pub fn end_undoes_declare()
    ensures { (m : FlowModel) (local : LocalDecl) → IsInOrder m.locals → IsNone (facts_of m local.var) → end_of (declare_of m local) (local.var ∷ []) ≡ m }
{}

/// A change of one local, as tests and writes are, changes what is known of it, and of no other.
pub fn a_step_changes_one_local()
    ensures own { (m : FlowModel) (var : LocalId) (change : Facts → Facts) → ((l : Facts) → (change l).var.0 ≡ l.var.0)
        → facts_of (at_local m var change) var ≡ option_map change (facts_of m var) }
    ensures others { (m : FlowModel) (var : LocalId) (change : Facts → Facts) → ((l : Facts) → (change l).var.0 ≡ l.var.0)
        → (other : LocalId) → other.0 ≢ var.0 → facts_of (at_local m var change) other ≡ facts_of m other }
{}

/// What code could change is forgotten of the locals that it writes or captures: each has its
/// declared type. What is known of the others stays.
pub fn code_forgets_what_it_changes()
    ensures each { (m : FlowModel) (written captured : List LocalId) (var : LocalId)
        → facts_of (conservative_of m written captured) var ≡ option_map (conservative_facts written captured) (facts_of m var) }
    ensures forgotten { (m : FlowModel) (written captured : List LocalId) (var : LocalId)
        → IsTrue (is_changed written captured var) → current_in (conservative_of m written captured) var ≡ declared_in m var }
    ensures kept { (m : FlowModel) (written captured : List LocalId) (var : LocalId)
        → is_changed written captured var ≡ false → facts_of (conservative_of m written captured) var ≡ facts_of m var }
{}

/// What two pieces of code could change is forgotten one after the other, or at once: each local
/// that one of them writes or captures.
pub fn conservative_joins_add_up()
    ensures { (m : FlowModel) (written captured more_written more_captured : List LocalId)
        → conservative_of (conservative_of m written captured) more_written more_captured ≡ conservative_of m (written ++ more_written) (captured ++ more_captured) }
{}

/// Only `declare` and `end` change which locals are in scope, or their declared types, and they do
/// it alike in models of the same scope. Where two models of one scope meet, it is that scope.
pub fn steps_keep_the_scope(_rows: &Rows)
    ensures declare { (m n : FlowModel) (local : LocalDecl) → HaveSameScope m n → HaveSameScope (declare_of m local) (declare_of n local) }
    ensures end { (m n : FlowModel) (vars : List LocalId) → HaveSameScope m n → HaveSameScope (end_of m vars) (end_of n vars) }
    ensures exit { (m : FlowModel) → scope_of (exit_of m) ≡ scope_of m }
    ensures promote { (m : FlowModel) (var : LocalId) (to : Ty) → scope_of (at_local m var (promote_facts _rows.now.table to)) ≡ scope_of m }
    ensures non_null { (m : FlowModel) (var : LocalId) → scope_of (at_local m var (non_null_facts _rows.now.table)) ≡ scope_of m }
    ensures append { (m : FlowModel) (var : LocalId) (to : Ty) → scope_of (at_local m var (append_facts _rows.now.table to)) ≡ scope_of m }
    ensures assign { (m : FlowModel) (var : LocalId) (written : Ty) → scope_of (at_local m var (assign_facts _rows.now.table written)) ≡ scope_of m }
    ensures conservative_join { (m : FlowModel) (written captured : List LocalId) → scope_of (conservative_of m written captured) ≡ scope_of m }
    ensures join { (m n : FlowModel) → HaveSameScope m n → scope_of (join_of m n) ≡ scope_of m }
    ensures restrict { (m n : FlowModel) (written captured : List LocalId) → HaveSameScope m n
        → scope_of (restrict_of _rows.now.table m n written captured) ≡ scope_of m }
{}
