//! The shape of each term.

ghost use Rattle.std.specs.Prelude.{◌≡◌, ◌++◌, ◌∷◌, [], IfOk, OnOk};
ghost use Rattle.core_check.specs.Shapes.{names, shape, on_integers};

use crate::parts::{Asked, Change, How, Stored, TypeSource};
use core_ir::{Operand, PointId, SlotId, Term, Value};
use std::alloc::{AllocError, Global};
use std::marker::Model;

/// A way on from a term. Contracts see it as its value.
#[derive(Drop)]
pub(crate) struct Way {
    pub(crate) next: PointId,
    pub(crate) changes: Vec<Change>,
}

impl Model for Way {
    ghost use Rattle.core_check.specs.Shapes.{WayShape, way_code};

    ghost Value = { WayShape };

    ghost coded = { way_code };

    ghost view = { λ w. record { next = w.next; changes = w.changes.items } };
}

/// The shape of a term. Contracts see it as its value.
#[derive(Drop)]
pub(crate) struct Shape {
    pub(crate) slots: Vec<SlotId>,
    pub(crate) reads: Vec<Operand>,
    pub(crate) stores: Vec<Stored>,
    pub(crate) asks: Vec<Asked>,
    pub(crate) ways: Vec<Way>,
}

impl Model for Shape {
    ghost use Rattle.core_check.specs.Shapes.{TermShape, shape_code};

    ghost Value = { TermShape };

    ghost coded = { shape_code };

    ghost view = { λ s. record { slots = s.slots.items; reads = s.reads.items; stores = s.stores.items; asks = s.asks.items; ways = s.ways.items } };
}

// These slots, and those of operands behind them.
fn names(alloc: Global, slots: &[SlotId], operands: &[Operand]) -> Result<Vec<SlotId>, AllocError>
    ensures { IfOk result (λ named. named.items ≡ names slots.now operands.now) }
{
    let mut named = slots.to_vec(alloc)?;
    for operand in operands {
        match operand {
            Operand::Slot(slot) => named.push(*slot)?,
            Operand::Constant(_) => (),
        }
    }
    Ok(named)
}

impl Shape {
    // A shape of these parts, without a way on: it names these slots and those that it reads.
    fn of(
        alloc: Global,
        slots: &[SlotId],
        reads: &[Operand],
        stores: &[Stored],
        asks: &[Asked],
    ) -> Result<Shape, AllocError>
        ensures { IfOk result (λ s. s ≡ record { slots = names slots.now reads.now; reads = reads.now; stores = stores.now; asks = asks.now; ways = [] }) }
    {
        let slots = names(alloc, slots, reads)?;
        let reads = reads.to_vec(alloc)?;
        let stores = stores.to_vec(alloc)?;
        let asks = asks.to_vec(alloc)?;
        Ok(Shape {
            slots,
            reads,
            stores,
            asks,
            ways: Vec::new(alloc),
        })
    }

    // The shape with one more way on.
    fn with_way(
        mut self,
        alloc: Global,
        next: PointId,
        changes: &[Change],
    ) -> Result<Shape, AllocError>
        ensures { IfOk result (λ s. s ≡ record self { ways = self.ways ++ record { next = next; changes = changes.now } ∷ [] }) }
    {
        let changes = changes.to_vec(alloc)?;
        self.ways.push(Way { next, changes })?;
        Ok(self)
    }
}

// A value of a type is stored to a slot.
fn puts(slot: SlotId, ty: TypeSource) -> Stored
    ensures { result ≡ record { slot = slot; ty = ty } }
{
    Stored { slot, ty }
}

// An operand must have a type.
fn asks_of(operand: Operand, expected: TypeSource) -> Asked
    ensures { result ≡ record { found = TypeSource.OperandType operand; expected = expected } }
{
    Asked {
        found: TypeSource::OperandType(operand),
        expected,
    }
}

// A slot has a fresh cell without a value.
fn is_fresh(slot: SlotId) -> Change
    ensures { result ≡ record { slot = slot; how = How.Fresh } }
{
    Change {
        slot,
        how: How::Fresh,
    }
}

// A slot has a value of a type from now on.
fn holds(slot: SlotId, ty: TypeSource) -> Change
    ensures { result ≡ record { slot = slot; how = How.Holds ty } }
{
    Change {
        slot,
        how: How::Holds(ty),
    }
}

// The value of a slot has a narrower type.
fn narrows(slot: SlotId, ty: TypeSource) -> Change
    ensures { result ≡ record { slot = slot; how = How.Narrows ty } }
{
    Change {
        slot,
        how: How::Narrows(ty),
    }
}

// The shape of an operator on two integers, which stores a value of a type.
fn on_integers(
    alloc: Global,
    to: SlotId,
    left: Operand,
    right: Operand,
    ty: TypeSource,
    next: PointId,
) -> Result<Shape, AllocError>
    ensures { IfOk result (λ s. s ≡ on_integers to left right ty next) }
{
    let int = TypeSource::IntType;
    let asks = [asks_of(left, int), asks_of(right, int)];
    let shape = Shape::of(alloc, &[to], &[left, right], &[puts(to, ty)], &asks)?;
    let shape = shape.with_way(alloc, next, &[holds(to, ty)])?;
    Ok(shape)
}

// The shape of a branch: one on a constant takes one way.
fn on_branch(
    alloc: Global,
    on: Operand,
    when_true: PointId,
    when_false: PointId,
) -> Result<Shape, AllocError>
    ensures { IfOk result (λ s. s ≡ shape (Term.Branch on when_true when_false)) }
{
    let shape = Shape::of(alloc, &[], &[on], &[], &[asks_of(on, TypeSource::BoolType)])?;
    match on {
        Operand::Constant(Value::Boolean(true)) => {
            let shape = shape.with_way(alloc, when_true, &[])?;
            Ok(shape)
        }
        Operand::Constant(Value::Boolean(false)) => {
            let shape = shape.with_way(alloc, when_false, &[])?;
            Ok(shape)
        }
        Operand::Constant(Value::Null) | Operand::Constant(Value::Integer(_)) | Operand::Slot(_) =>
            {
                let shape = shape.with_way(alloc, when_true, &[])?;
                let shape = shape.with_way(alloc, when_false, &[])?;
                Ok(shape)
            }
    }
}

/// The shape of a term.
pub(crate) fn shape_of(alloc: Global, term: Term) -> Result<Shape, AllocError>
    ensures { IfOk result (λ s. s ≡ shape term) }
{
    match term {
        Term::Store { to, from, next } => {
            let ty = TypeSource::OperandType(from);
            let shape = Shape::of(alloc, &[to], &[from], &[puts(to, ty)], &[])?;
            let shape = shape.with_way(alloc, next, &[holds(to, ty)])?;
            Ok(shape)
        }
        Term::Declare { slot, next } => {
            let shape = Shape::of(alloc, &[slot], &[], &[], &[])?;
            let shape = shape.with_way(alloc, next, &[is_fresh(slot)])?;
            Ok(shape)
        }
        Term::Initialize { slot, from, next } => {
            let ty = TypeSource::OperandType(from);
            let shape = Shape::of(alloc, &[slot], &[from], &[puts(slot, ty)], &[])?;
            let shape = shape.with_way(alloc, next, &[is_fresh(slot), holds(slot, ty)])?;
            Ok(shape)
        }
        Term::Add {
            to,
            left,
            right,
            next,
        } => {
            let shape = on_integers(alloc, to, left, right, TypeSource::IntType, next)?;
            Ok(shape)
        }
        Term::Less {
            to,
            left,
            right,
            next,
        } => {
            let shape = on_integers(alloc, to, left, right, TypeSource::BoolType, next)?;
            Ok(shape)
        }
        Term::NotEqual {
            to,
            left,
            right,
            next,
        } => {
            let ty = TypeSource::BoolType;
            let shape = Shape::of(alloc, &[to], &[left, right], &[puts(to, ty)], &[])?;
            let shape = shape.with_way(alloc, next, &[holds(to, ty)])?;
            Ok(shape)
        }
        Term::Branch {
            on,
            when_true,
            when_false,
        } => {
            let shape = on_branch(alloc, on, when_true, when_false)?;
            Ok(shape)
        }
        Term::TestNull { slot, null, other } => {
            let shape = Shape::of(alloc, &[], &[Operand::Slot(slot)], &[], &[])?;
            let shape = shape.with_way(alloc, null, &[])?;
            let bare = TypeSource::NonNullType(slot);
            let shape = shape.with_way(alloc, other, &[narrows(slot, bare)])?;
            Ok(shape)
        }
        Term::Goto { next } => {
            let shape = Shape::of(alloc, &[], &[], &[], &[])?;
            let shape = shape.with_way(alloc, next, &[])?;
            Ok(shape)
        }
        Term::Output { from, next } => {
            let shape = Shape::of(alloc, &[], &[from], &[], &[])?;
            let shape = shape.with_way(alloc, next, &[])?;
            Ok(shape)
        }
        Term::End => {
            let shape = Shape::of(alloc, &[], &[], &[], &[])?;
            Ok(shape)
        }
    }
}
