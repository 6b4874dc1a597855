//! The types of slots.

ghost use Rattle.std.specs.Prelude.{◌≡◌, ℕ, ◌+◌, ◌-◌, max, [], ◌∷◌, ◌++◌, IfOk, OnOk, List, map};
ghost use Rattle.std.specs.List.{range_with_len};
ghost use Rattle.judgement.specs.NodeFacts.{NodeFacts};
ghost use Rattle.rule_laws.specs.Keys.{declared_number, numbers_said};
ghost use Rattle.elaborate.specs.Elaborated.{past_all, slot_type, types_of_slots};
ghost use Rattle.flow_model.specs.Flow.{declared_in};
ghost use Rattle.elaborate.specs.Lookups.{with_declared, with_type};

use crate::said::{Said, local_meant};
use dart_types::{DartType, TypeNode};
use flow_model::LocalId;
use judgement::TypedNode;
use std::alloc::{AllocError, Global};

/// How many slots a body has, by what was said of its nodes: one for each number from the first to the
/// greatest that is said.
pub(crate) fn slot_count(typed: &[TypedNode], first: u32) -> usize
    ensures { result ≡ past_all (numbers_said typed.now) - first }
{
    let mut past = 0;
    for i in (0..typed.len()).rev() {
        past = past_node(&typed[i], past);
    }
    past.saturating_sub(first as usize)
}

// The number past those that are said of a node, and past others.
fn past_node(said: &TypedNode, past: usize) -> usize
    ensures { (rest : List ℕ) → past ≡ past_all rest → result ≡ past_all ((said.now.node.0 ∷ declared_number said.now) ++ rest) }
{
    past_number(said.node.0, past_declared(said, past))
}

// The number past that of the local that a node declares, if it declares one, and past others.
fn past_declared(said: &TypedNode, past: usize) -> usize
    ensures { (rest : List ℕ) → past ≡ past_all rest → result ≡ past_all (declared_number said.now ++ rest) }
{
    match &said.ty {
        Some(_) => past,
        None => match local_meant(said.element) {
            Some(var) => past_number(var.0, past),
            None => past,
        },
    }
}

// The number past a number and past others.
fn past_number(number: u32, past: usize) -> usize
    ensures { result ≡ max (number + 1) past }
{
    let next = number as usize + 1;
    if next > past { next } else { past }
}

/// The types of the slots of a body, of which there are so many. What was said of the nodes is gone through
/// once.
pub(crate) fn slot_types(
    alloc: Global,
    said: &Said,
    count: usize,
) -> Result<Vec<DartType>, AllocError>
    ensures { IfOk result (λ slots. slots.items ≡ types_of_slots said.now count) }
{
    let mut slots = voids(alloc, said.first(), count)?;
    let typed = said.typed();
    for i in (0..typed.len()).rev() {
        put_types(alloc, said.first(), &typed[i], &mut slots)?;
    }
    Ok(slots)
}

// The types of slots of which nothing is said.
fn voids(alloc: Global, _first: u32, count: usize) -> Result<Vec<DartType>, AllocError>
    ensures { IfOk result (λ slots. slots.items ≡ map (slot_type []) (range_with_len _first count)) }
{
    let mut slots = Vec::new(alloc);
    for _k in 0..count {
        slots.push(DartType {
            node: TypeNode::Void,
        })?;
    }
    Ok(slots)
}

// Puts the type that is said of a node before what was said of others.
fn put_types(
    alloc: Global,
    first: u32,
    said: &TypedNode,
    slots: &mut Vec<DartType>,
) -> Result<(), AllocError>
    ensures { OnOk result ((count : ℕ) (rest : List NodeFacts) → slots.old.items ≡ map (slot_type rest) (range_with_len first count) → slots.new.items ≡ map (slot_type (said.now ∷ rest)) (range_with_len first count)) }
{
    match &said.ty {
        Some(ty) => put_type(alloc, first, said.node.0, ty, slots),
        None => match local_meant(said.element) {
            Some(var) => put_declared(alloc, first, said, var, slots),
            None => Ok(()),
        },
    }
}

// Puts the type that a local is declared with, if it is in scope behind the node.
fn put_declared(
    alloc: Global,
    first: u32,
    said: &TypedNode,
    var: LocalId,
    slots: &mut Vec<DartType>,
) -> Result<(), AllocError>
    ensures { OnOk result (slots.new.items ≡ with_declared first var.0 (declared_in said.now.after var) slots.old.items) }
{
    match said.after.declared(var) {
        Some(ty) => put_type(alloc, first, var.0, ty, slots),
        None => Ok(()),
    }
}

// Puts the type of the slot of the node with a number, if it has one.
fn put_type(
    alloc: Global,
    first: u32,
    number: u32,
    ty: &DartType,
    slots: &mut Vec<DartType>,
) -> Result<(), AllocError>
    ensures { OnOk result (slots.new.items ≡ with_type first number ty.now slots.old.items) }
{
    if number >= first {
        let place = (number - first) as usize;
        if place < slots.len() {
            slots[place] = ty.copy(alloc)?;
        }
    }
    Ok(())
}
