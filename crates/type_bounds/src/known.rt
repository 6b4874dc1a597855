//! Upper bounds that were found already, by the types that they are of.

ghost use Rattle.std.specs.Prelude.{◌≡◌, ◌++◌, ◌∷◌, [], IfOk, OnOk, OnErr, MatchOption, Contains};
ghost use Rattle.dart_types.specs.Ty.{Ty};
ghost use Rattle.type_bounds.specs.KnownView.{known_bound, leads_to_variable};

use crate::parts::Part;
use dart_types::{DartType, TypeNode};
use std::alloc::{AllocError, Global};

/// Upper bounds of pairs of types, in the order in which they were found.
#[derive(Drop)]
pub(crate) struct KnownBounds {
    bounds: Vec<KnownBound>,
}

/// Two types with their upper bound.
#[derive(Drop)]
struct KnownBound {
    left: DartType,
    right: DartType,
    bound: Part,
}

/// Whether a variable is what is left of the type where each `?` is taken off, and each `X & U` gives
/// way to U. Its bound may hold parts more than once, so that they would be bounded over and over.
pub(crate) fn leads_to_variable(t: &DartType) -> bool
    ensures { result ≡ leads_to_variable t.now }
{
    match &t.node {
        TypeNode::Var(_) => true,
        TypeNode::Promoted { to, .. } => leads_to_variable(to),
        TypeNode::Nullable(bare) => leads_to_variable(bare),
        TypeNode::Invalid => false,
        TypeNode::Never => false,
        TypeNode::Void => false,
        TypeNode::Null => false,
        TypeNode::Interface { .. } => false,
        TypeNode::Function(_) => false,
    }
}

impl KnownBounds {
    /// No bounds. It takes no memory.
    pub(crate) fn new(alloc: Global) -> KnownBounds
        ensures { result.bounds.items ≡ [] }
    {
        KnownBounds {
            bounds: Vec::new(alloc),
        }
    }

    /// The bound that was kept of these two types, if there is one; the last that was found is looked
    /// at first.
    #[inline(never)]
    pub(crate) fn find(
        &self,
        alloc: Global,
        s: &DartType,
        t: &DartType,
    ) -> Result<Option<Part>, AllocError>
        ensures { IfOk result (λ found. MatchOption found (Unit {0}) (λ part. Contains self.now.bounds.items (known_bound s.now t.now part))) }
    {
        for i in 0..self.bounds.len() {
            let known = &self.bounds[self.bounds.len() - 1 - i];
            if known.left.is_same(s) && known.right.is_same(t) {
                let part = known.bound.copy(alloc)?;
                return Ok(Some(part));
            }
        }
        Ok(None)
    }

    /// Keeps the bound of two types. After an `Err` the bounds are as before.
    #[inline(never)]
    pub(crate) fn keep(
        &mut self,
        alloc: Global,
        s: &DartType,
        t: &DartType,
        bound: &Part,
    ) -> Result<(), AllocError>
        ensures ok { OnOk result (self.new.bounds.items ≡ self.old.bounds.items ++ known_bound s.now t.now bound.now ∷ []) }
        ensures err { OnErr result (self.new.bounds.items ≡ self.old.bounds.items) }
    {
        let left = s.copy(alloc)?;
        let right = t.copy(alloc)?;
        let bound = bound.copy(alloc)?;
        self.bounds.push(KnownBound { left, right, bound })?;
        Ok(())
    }
}
