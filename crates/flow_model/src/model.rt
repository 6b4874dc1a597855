//! Flow models and the calls that change them.

ghost use Rattle.std.specs.Prelude.{◌≡◌, ◌∷◌, [], false, IfOk, IfErr, OnOk, OnErr, IsNone, IsTrue, ◌↔◌, is_some, ◌<◌, length, slice_index_or};
ghost use Rattle.std.specs.Option.{option_copied, option_map, option_map_or};
ghost use Rattle.dart_types.specs.Superinterfaces.{LeavesNothingOut};
ghost use Rattle.flow_model.specs.Flow.{at_local, current_of, facts_of, declare_of, start_of, end_of, AreDistinct, IsInOrder};
ghost use Rattle.flow_model.specs.Assign.{assign_facts};
ghost use Rattle.flow_model.specs.Chains.{HasDescendingChains};
ghost use Rattle.flow_model.specs.Join.{join_of};
ghost use Rattle.flow_model.specs.Promote.{append_facts, non_null_facts, promote_facts};
ghost use Rattle.flow_model.specs.Steps.{conservative_of, exit_of};
ghost use Rattle.flow_model.specs.Restrict.{restrict_of};
ghost use Rattle.flow_model.specs.Meeting.{on_path};
ghost use Rattle.flow_model.specs.Place.{with_facts, StandsAt, WouldStandAt};
ghost use Rattle.flow_model.specs.declared.locals.Facts.{Facts};

use crate::join::{Path, join_locals};
use crate::laws::chains_descend;
use crate::local::Local;
use crate::locals::{Facts, LocalDecl, LocalId};
use crate::pages::Locals;
use crate::restrict::{Changes, restrict_locals};
use dart_types::{DartType, Rows};
use std::alloc::{AllocError, Global};
use std::marker::Model;

/// What is known of the locals at a point of a body.
///
/// The locals in scope stand in the order of their numbers, so one is found by a binary search. They
/// stand in pages: a copy of a model shares all of them, until one of the two changes a local of it.
#[derive(Drop)]
pub struct Flow {
    reachable: bool,
    locals: Locals,
}

impl Model for Flow {
    ghost use Rattle.flow_model.specs.Flow.{FlowModel, flow_code};

    ghost Value = { FlowModel };

    ghost coded = { flow_code };

    ghost use Rattle.flow_model.specs.Flow.{IsInOrder};

    ghost view = { λ a. record { reachable = a.reachable; locals = a.locals } };

    ghost invariant = { λ a. IsInOrder a.locals };
}

impl Flow {
    /// The model at the start of a body: it is reached, and these locals are in scope. They may
    /// come in any order.
    pub fn start(alloc: Global, vars: &[LocalDecl]) -> Result<Flow, AllocError>
        requires { AreDistinct vars.now }
        ensures { IfOk result (λ flow. flow ≡ start_of vars.now) }
    {
        let mut flow = Flow {
            reachable: true,
            locals: Locals::new(alloc)?,
        };
        for var in vars {
            flow.declare(alloc, var)?;
        }
        Ok(flow)
    }

    /// Puts a local in scope. This costs a search and a move of the locals of greater numbers, of
    /// which a declaration in the order of the text has none. After an `Err` the model is as before.
    pub fn declare(&mut self, alloc: Global, var: &LocalDecl) -> Result<(), AllocError>
        requires { IsNone (facts_of self.old var.now.var) }
        ensures ok { OnOk result (self.new ≡ declare_of self.old var.now) }
        ensures err { OnErr result (self.new ≡ self.old) }
    {
        let local = Local::fresh(alloc, var)?;
        match self.search(var.var) {
            Ok(_) => unreachable!(),
            Err(place) => self.locals.insert(alloc, place, local),
        }
    }

    /// Takes these locals out of scope; one that isn't in scope is passed over. It costs a copy of the
    /// model. Each local costs a search and a move of the locals of greater numbers, the last of the
    /// list first, so that nothing is moved where those declared last are ended in the order of the
    /// text. After an `Err` the model is as before.
    pub fn end(&mut self, alloc: Global, vars: &[LocalId]) -> Result<(), AllocError>
        ensures ok { OnOk result (self.new ≡ end_of self.old vars.now) }
        ensures err { OnErr result (self.new ≡ self.old) }
    {
        let mut ended = self.copy(alloc)?;
        for i in (0..vars.len()).rev() {
            ended.remove(alloc, vars[i])?;
        }
        *self = ended;
        Ok(())
    }

    /// How many locals are in scope.
    pub fn len(&self) -> usize
        ensures { result ≡ length self.now.locals }
    {
        self.locals.len()
    }

    /// The local at a place, in the order of their numbers.
    pub fn local(&self, place: usize) -> &Local
        requires { place < length self.now.locals }
        ensures { result.now ≡ slice_index_or self.now.locals place result.now }
    {
        self.locals.at(place)
    }

    /// A law of every model: its locals stand in the order of their numbers.
    pub fn locals_are_in_order(&self)
        ensures { IsInOrder self.now.locals }
    {
        // Opens the invariant for the contract.
        let _ = &self.locals;
    }

    // Takes one local out of scope.
    fn remove(&mut self, alloc: Global, var: LocalId) -> Result<(), AllocError>
        ensures { OnOk result (self.new ≡ end_of self.old (var ∷ [])) }
    {
        if let Ok(place) = self.search(var) {
            self.locals.remove(alloc, place)?;
        }
        Ok(())
    }

    /// The current type of a local: None exactly where it isn't in scope.
    pub fn current(&self, var: LocalId) -> Option<&DartType>
        ensures { option_copied result ≡ option_map current_of (facts_of self.now var) }
    {
        match self.facts(var) {
            Some(facts) => Some(facts.current()),
            None => None,
        }
    }

    /// The declared type of a local: None exactly where it isn't in scope.
    pub fn declared(&self, var: LocalId) -> Option<&DartType>
        ensures { option_copied result ≡ option_map (λ l. l.ty) (facts_of self.now var) }
    {
        match self.facts(var) {
            Some(facts) => Some(&facts.ty),
            None => None,
        }
    }

    /// Whether a local is in scope.
    pub fn is_in_scope(&self, var: LocalId) -> bool
        ensures { result ≡ is_some (facts_of self.now var) }
    {
        self.facts(var).is_some()
    }

    /// Whether the point can be reached.
    pub fn reachable(&self) -> bool
        ensures { result ≡ self.now.reachable }
    {
        self.reachable
    }

    /// Whether a local has a value for certain; false for one that isn't in scope.
    pub fn is_assigned(&self, var: LocalId) -> bool
        ensures { result ≡ option_map_or (λ l. l.assigned) (facts_of self.now var) false }
    {
        match self.facts(var) {
            Some(facts) => facts.assigned,
            None => false,
        }
    }

    /// Whether a local has no value for certain; false for one that isn't in scope.
    pub fn is_unassigned(&self, var: LocalId) -> bool
        ensures { result ≡ option_map_or (λ l. l.unassigned) (facts_of self.now var) false }
    {
        match self.facts(var) {
            Some(facts) => facts.unassigned,
            None => false,
        }
    }

    /// Whether a function that writes a local may have been made; false for one that isn't in scope.
    pub fn is_captured(&self, var: LocalId) -> bool
        ensures { result ≡ option_map_or (λ l. l.captured) (facts_of self.now var) false }
    {
        match self.facts(var) {
            Some(facts) => facts.captured,
            None => false,
        }
    }

    /// A test has told that a local has the type `to`, which is of interest from now on. Unless the
    /// local is captured, it is promoted to `to` where that is a proper subtype of its current type;
    /// else, where the current type is a type variable X, or an `X & U`, and `to` is a proper subtype
    /// of the bound of X, or of U, to `X & to`, unless more than `NODE_LIMIT` types would stand in it.
    /// One that isn't in scope is passed over. After an `Err` the model is as before.
    pub fn promote(
        &mut self,
        alloc: Global,
        rows: &Rows,
        var: LocalId,
        to: &DartType,
    ) -> Result<(), AllocError>
        ensures ok { OnOk result (self.new ≡ at_local self.old var (promote_facts rows.now.table to.now)) }
        ensures err { OnErr result (self.new ≡ self.old) }
    {
        match self.search(var) {
            Ok(place) => {
                let changed = self.locals.at(place).promote(alloc, rows, to)?;
                self.locals.put(alloc, place, changed)
            }
            Err(_) => Ok(()),
        }
    }

    /// A local isn't null: unless it is captured, it is promoted to its current type without null,
    /// where that is another type and no more than `NODE_LIMIT` types stand in it. One that isn't in
    /// scope is passed over. After an `Err` the model is as before.
    pub fn non_null(&mut self, alloc: Global, rows: &Rows, var: LocalId) -> Result<(), AllocError>
        ensures ok { OnOk result (self.new ≡ at_local self.old var (non_null_facts rows.now.table)) }
        ensures err { OnErr result (self.new ≡ self.old) }
    {
        match self.search(var) {
            Ok(place) => {
                let changed = self.locals.at(place).non_null(alloc, rows)?;
                self.locals.put(alloc, place, changed)
            }
            Err(_) => Ok(()),
        }
    }

    /// A local is known to have the type `to`, as after a test that failed: unless it is captured, it
    /// is promoted to `to` where that is a proper subtype of its current type. The type isn't of
    /// interest thereby. One that isn't in scope is passed over. After an `Err` the model is as before.
    pub fn append(
        &mut self,
        alloc: Global,
        rows: &Rows,
        var: LocalId,
        to: &DartType,
    ) -> Result<(), AllocError>
        ensures ok { OnOk result (self.new ≡ at_local self.old var (append_facts rows.now.table to.now)) }
        ensures err { OnErr result (self.new ≡ self.old) }
    {
        match self.search(var) {
            Ok(place) => {
                let changed = self.locals.at(place).append(alloc, rows, to)?;
                self.locals.put(alloc, place, changed)
            }
            Err(_) => Ok(()),
        }
    }

    /// A local is written with a value of the type `written`. It has a value from now on. It stays
    /// promoted to the types that `written` is a subtype of, and unless it is captured it is promoted
    /// to `written`, where that is of interest and a proper subtype of the current type, else to the
    /// least type of interest between the two, if there is one. One that isn't in scope is passed over.
    /// After an `Err` the model is as before.
    pub fn assign(
        &mut self,
        alloc: Global,
        rows: &Rows,
        var: LocalId,
        written: &DartType,
    ) -> Result<(), AllocError>
        ensures ok { OnOk result (self.new ≡ at_local self.old var (assign_facts rows.now.table written.now)) }
        ensures err { OnErr result (self.new ≡ self.old) }
    {
        match self.search(var) {
            Ok(place) => {
                let changed = self.locals.at(place).assign(alloc, rows, written)?;
                self.locals.put(alloc, place, changed)
            }
            Err(_) => Ok(()),
        }
    }

    /// Makes the point one that isn't reached, as one behind a `return` or `throw`. It takes no
    /// memory.
    pub fn exit(&mut self)
        ensures { self.new ≡ exit_of self.old }
    {
        self.reachable = false;
    }

    /// The model where two paths of one scope meet. A local has or hasn't a value where that is
    /// certain on both, is promoted to the types that it was promoted to on both, in the order of
    /// the first, and is captured where it is on either. A path that isn't reached adds nothing to
    /// the other. Of different scopes it pairs the locals by their places, as far as both go. Where
    /// over the rows each type that a path promotes a local to is a subtype of the one before it, on
    /// both paths, so it is where they meet.
    pub fn join(alloc: Global, rows: &Rows, a: &Flow, b: &Flow) -> Result<Flow, AllocError>
        ensures joined { IfOk result (λ joined. joined ≡ join_of a.now b.now) }
        ensures descends { let table = rows.now.table in
            LeavesNothingOut table → HasDescendingChains table a.now → HasDescendingChains table b.now → IfOk result (HasDescendingChains table) }
    {
        chains_descend(rows);
        Flow::join_paths(alloc, a, b)
    }

    // The model where two paths meet.
    fn join_paths(alloc: Global, a: &Flow, b: &Flow) -> Result<Flow, AllocError>
        ensures { IfOk result (λ joined. joined ≡ join_of a.now b.now) }
    {
        if !b.reachable {
            return a.copy(alloc);
        }
        if !a.reachable {
            return b.copy(alloc);
        }
        let locals = join_locals(alloc, &a.locals, &b.locals)?;
        Ok(Flow {
            reachable: true,
            locals,
        })
    }

    /// Forgets what code that may run any number of times, or at a later time, could change: of
    /// the locals that it writes or captures, what they are promoted to and that they have no
    /// value. Those that it captures are captured from now on. It costs a copy of the model, and a
    /// binary search for each entry of both lists. After an `Err` the model is as before.
    pub fn conservative_join(
        &mut self,
        alloc: Global,
        written: &[LocalId],
        captured: &[LocalId],
    ) -> Result<(), AllocError>
        ensures ok { OnOk result (self.new ≡ conservative_of self.old written.now captured.now) }
        ensures err { OnErr result (self.new ≡ self.old) }
    {
        let mut forgotten = self.copy(alloc)?;
        for var in written {
            forgotten.forget_written(alloc, *var)?;
        }
        for var in captured {
            forgotten.forget_captured(alloc, *var)?;
        }
        *self = forgotten;
        Ok(())
    }

    /// A function that writes these locals has been made, so that they may be written at any time:
    /// each is captured from now on, is promoted to nothing and may have a value. One that isn't in
    /// scope is passed over. After an `Err` the model is as before.
    pub fn capture(&mut self, alloc: Global, vars: &[LocalId]) -> Result<(), AllocError>
        ensures ok { OnOk result (self.new ≡ conservative_of self.old [] vars.now) }
        ensures err { OnErr result (self.new ≡ self.old) }
    {
        self.conservative_join(alloc, &[], vars)
    }

    /// The model behind a `try` with a `finally` block, from the model behind its body and handlers
    /// and the one behind the block, which began with a conservative join. Of the locals that the
    /// block writes or captures the types are those that the block leaves; of each other those that
    /// the body leaves, and what the block adds to them. A local has a value where it has one behind
    /// either. The point is reached where both are. Of different scopes it pairs the locals by their
    /// places, as far as both go.
    pub fn restrict(
        alloc: Global,
        rows: &Rows,
        body: &Flow,
        block: &Flow,
        written: &[LocalId],
        captured: &[LocalId],
    ) -> Result<Flow, AllocError>
        ensures { IfOk result (λ flow. flow ≡ restrict_of rows.now.table body.now block.now written.now captured.now) }
    {
        let changes = Changes { written, captured };
        let locals = restrict_locals(alloc, rows, &body.locals, &block.locals, &changes)?;
        Ok(Flow {
            reachable: body.reachable && block.reachable,
            locals,
        })
    }

    /// A second value of the same model. It shares all that is known of the locals, and copies two
    /// pointers.
    pub fn copy(&self, alloc: Global) -> Result<Flow, AllocError>
        ensures { IfOk result (λ copied. copied ≡ self.now) }
    {
        Ok(Flow {
            reachable: self.reachable,
            locals: self.locals.share()?,
        })
    }

    /// Whether both are the same model. It compares what is known of each local.
    pub fn is_same(&self, other: &Flow) -> bool
        ensures { IsTrue result ↔ (self.now ≡ other.now) }
    {
        self.reachable == other.reachable && self.locals.is_same(&other.locals)
    }

    // Forgets what code that writes the local could change.
    fn forget_written(&mut self, alloc: Global, var: LocalId) -> Result<(), AllocError>
        ensures { OnOk result (self.new ≡ conservative_of self.old (var ∷ []) []) }
    {
        if let Ok(place) = self.search(var) {
            let changed = self.locals.at(place).forget(alloc)?;
            self.locals.put(alloc, place, changed)?;
        }
        Ok(())
    }

    // Forgets what code that captures the local could change; it is captured from now on.
    fn forget_captured(&mut self, alloc: Global, var: LocalId) -> Result<(), AllocError>
        ensures { OnOk result (self.new ≡ conservative_of self.old [] (var ∷ [])) }
    {
        if let Ok(place) = self.search(var) {
            let changed = self.locals.at(place).capture(alloc)?;
            self.locals.put(alloc, place, changed)?;
        }
        Ok(())
    }

    /// The model with other facts of the local at a place. It costs a page and the list of pages.
    pub(crate) fn with(&self, alloc: Global, place: usize, facts: Facts) -> Result<Flow, AllocError>
        requires in_range { place < length self.now.locals }
        requires same_local { (d : Facts) → facts.var.0 ≡ (slice_index_or self.now.locals place d).var.0 }
        ensures { IfOk result (λ flow. flow ≡ with_facts self.now place facts) }
    {
        let local = Local::new(alloc, facts)?;
        let mut locals = self.locals.share()?;
        locals.write(alloc, place, local)?;
        Ok(Flow {
            reachable: self.reachable,
            locals,
        })
    }

    /// Whether it is seen without a join that where this path meets another is known what is known
    /// on one of them. It takes no memory.
    pub(crate) fn joins_to(&self, path: Path, other: &Flow) -> bool
        ensures { IsTrue result → join_of self.now other.now ≡ on_path path self.now other.now }
    {
        if !other.reachable {
            return matches!(path, Path::First);
        }
        if !self.reachable {
            return matches!(path, Path::Second);
        }
        self.locals.join_to(path, &other.locals)
    }

    /// Whether it is seen that code that writes these locals changes nothing that is known: those in
    /// scope are promoted to nothing and may have a value.
    pub(crate) fn is_kept_by_writes(&self, written: &[LocalId]) -> bool
        ensures { IsTrue result → conservative_of self.now written.now [] ≡ self.now }
    {
        for var in written {
            if !self.is_kept_by_write(*var) {
                return false;
            }
        }
        true
    }

    // Whether it is seen that code that writes the local changes nothing that is known.
    fn is_kept_by_write(&self, var: LocalId) -> bool
        ensures { IsTrue result → conservative_of self.now (var ∷ []) [] ≡ self.now }
    {
        match self.search(var) {
            Ok(place) => {
                let facts = self.locals.at(place).facts();
                facts.chain.as_slice().is_empty() && !facts.unassigned
            }
            Err(_) => true,
        }
    }

    /// What is known of a local: None exactly where it isn't in scope.
    pub fn facts(&self, var: LocalId) -> Option<&Facts>
        ensures { option_copied result ≡ facts_of self.now var }
    {
        match self.search(var) {
            Ok(place) => Some(self.locals.at(place).facts()),
            Err(_) => None,
        }
    }

    /// Where the local stands, or else where it would.
    pub(crate) fn search(&self, var: LocalId) -> Result<usize, usize>
        ensures found { IfOk result (StandsAt self.now.locals var) }
        ensures absent { IfErr result (WouldStandAt self.now.locals var) }
    {
        self.locals.search(var)
    }
}
