//! What writes of a local do to what is known of it.

ghost use Rattle.std.specs.Prelude.{◌≡◌, ◌++◌, ◌∷◌, [], ◌&&◌, IfOk, IsTrue, OnOk, MatchOption, filter};
ghost use Rattle.std.specs.List.{list_all};
ghost use Rattle.dart_types.specs.SubTest.{sub};
ghost use Rattle.dart_types.specs.Tables.{Table};
ghost use Rattle.type_bounds.specs.NonNull.{non_null_of};
ghost use Rattle.flow_model.specs.TypeTests.{is_formed, is_in, proper_sub};
ghost use Rattle.flow_model.specs.Flow.{last_or};
ghost use Rattle.flow_model.specs.Assign.{appended_of, assign_facts, between_of, chain_after, interest_of, least_of};

use crate::locals::Facts;
use crate::types::{formed_non_null, is_in, is_proper_subtype, last_or};
use dart_types::{DartType, Rows, TypeList, TypeNode, is_subtype};
use std::alloc::{AllocError, Global};

impl Facts {
    /// The facts of the local after a write of a value of the type `written`.
    pub(crate) fn assign(
        &self,
        alloc: Global,
        rows: &Rows,
        written: &DartType,
    ) -> Result<Facts, AllocError>
        ensures { IfOk result (λ facts. facts ≡ assign_facts rows.now.table written.now self.now) }
    {
        Ok(Facts {
            var: self.var,
            ty: self.ty.copy(alloc)?,
            chain: self.chain_after(alloc, rows, written)?,
            tested: self.tested.copy(alloc)?,
            assigned: true,
            unassigned: false,
            captured: self.captured,
        })
    }

    // The types that the local is promoted to after the write.
    fn chain_after(
        &self,
        alloc: Global,
        rows: &Rows,
        written: &DartType,
    ) -> Result<TypeList, AllocError>
        ensures { IfOk result (λ chain. chain ≡ chain_after rows.now.table written.now self.now) }
    {
        if self.stays_unpromoted(written) {
            return Ok(TypeList::new(alloc));
        }
        let mut chain = supertypes(alloc, rows, written, self.chain.as_slice())?;
        if !self.captured {
            let interest = self.interest(alloc, rows)?;
            append(alloc, rows, written, &self.ty, &interest, &mut chain)?;
        }
        Ok(chain)
    }

    // Whether it is seen without the rows that the write promotes the local to nothing: it isn't
    // promoted, and is captured, or has a value of its declared type, beside which no type is of
    // interest.
    #[tactic(auto, using(crate::proofs::Unpromoted::unpromoted, crate::proofs::Unpromoted::unpromoted_captured))]
    fn stays_unpromoted(&self, written: &DartType) -> bool
        ensures { (table : Table) → IsTrue result → chain_after table written.now self.now ≡ [] }
    {
        self.chain.as_slice().is_empty()
            && (self.captured
                || self.tested.as_slice().is_empty()
                    && is_interface(&self.ty)
                    && written.is_same(&self.ty))
    }

    // The types of interest: the declared one, the tested ones, and these without null.
    fn interest(&self, alloc: Global, rows: &Rows) -> Result<TypeList, AllocError>
        ensures { IfOk result (λ types. types ≡ interest_of rows.now.table self.now) }
    {
        let mut types = TypeList::new(alloc);
        types.push(self.ty.copy(alloc)?)?;
        for tested in self.tested.as_slice() {
            types.push(tested.copy(alloc)?)?;
        }
        push_non_null(alloc, rows, &self.ty, &mut types)?;
        for t in self.tested.as_slice() {
            push_non_null(alloc, rows, t, &mut types)?;
        }
        Ok(types)
    }
}

// Whether a type is an interface, which is its own type without null.
#[tactic(auto, using(crate::proofs::Unpromoted::non_null_of_interface))]
fn is_interface(t: &DartType) -> bool
    ensures { (table : Table) → IsTrue result → non_null_of table t.now ≡ t.now }
{
    matches!(&t.node, TypeNode::Interface { .. })
}

// Puts the type without null at the end, where it is formed.
fn push_non_null(
    alloc: Global,
    rows: &Rows,
    t: &DartType,
    types: &mut TypeList,
) -> Result<(), AllocError>
    ensures { OnOk result (types.new ≡ types.old ++ filter is_formed (non_null_of rows.now.table t.now ∷ [])) }
{
    match formed_non_null(alloc, rows, t)? {
        None => Ok(()),
        Some(formed) => {
            types.push(formed)?;
            Ok(())
        }
    }
}

// The types that s is a subtype of.
fn supertypes(
    alloc: Global,
    rows: &Rows,
    s: &DartType,
    types: &[DartType],
) -> Result<TypeList, AllocError>
    ensures { IfOk result (λ kept. kept ≡ filter (sub rows.now.table s.now) types.now) }
{
    let mut kept = TypeList::new(alloc);
    for t in types {
        if is_subtype(rows, s, t) {
            kept.push(t.copy(alloc)?)?;
        }
    }
    Ok(kept)
}

// Puts the type that a write promotes to, if there is one, at the end of the chain.
fn append(
    alloc: Global,
    rows: &Rows,
    written: &DartType,
    declared: &DartType,
    interest: &TypeList,
    chain: &mut TypeList,
) -> Result<(), AllocError>
    ensures { OnOk result (chain.new ≡ chain.old ++ appended_of rows.now.table written.now (last_or declared.now chain.old) interest.now) }
{
    let current = last_or(declared, chain.as_slice()).copy(alloc)?;
    if is_promotion(rows, written, &current, interest) {
        chain.push(written.copy(alloc)?)?;
        return Ok(());
    }
    let candidates = between(alloc, rows, written, &current, interest.as_slice())?;
    match least(rows, candidates.as_slice()) {
        Some(t) => {
            chain.push(t.copy(alloc)?)?;
            Ok(())
        }
        None => Ok(()),
    }
}

// Whether the written type itself is of interest, and a proper subtype of the current one.
fn is_promotion(rows: &Rows, written: &DartType, current: &DartType, interest: &TypeList) -> bool
    ensures { result ≡ (is_in interest.now written.now && proper_sub rows.now.table written.now current.now) }
{
    is_in(interest.as_slice(), written) && is_proper_subtype(rows, written, current)
}

// The types that the written one is a subtype of and that are proper subtypes of the current one.
fn between(
    alloc: Global,
    rows: &Rows,
    written: &DartType,
    current: &DartType,
    types: &[DartType],
) -> Result<TypeList, AllocError>
    ensures { IfOk result (λ kept. kept ≡ between_of rows.now.table written.now current.now types.now) }
{
    let mut kept = TypeList::new(alloc);
    for t in types {
        if is_subtype(rows, written, t) && is_proper_subtype(rows, t, current) {
            kept.push(t.copy(alloc)?)?;
        }
    }
    Ok(kept)
}

// The first of the types that is a subtype of each of them.
fn least<'a>(rows: &Rows, types: &'a [DartType]) -> Option<&'a DartType>
    ensures { MatchOption result (least_of rows.now.table types.now ≡ []) (λ t. least_of rows.now.table types.now ≡ t.now ∷ []) }
{
    for t in types {
        if is_below_all(rows, t, types) {
            return Some(t);
        }
    }
    None
}

// Whether s is a subtype of each of the types.
fn is_below_all(rows: &Rows, s: &DartType, types: &[DartType]) -> bool
    ensures { result ≡ list_all (sub rows.now.table s.now) types.now }
{
    for t in types {
        if !is_subtype(rows, s, t) {
            return false;
        }
    }
    true
}
