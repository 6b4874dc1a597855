//! The frames of a run.

ghost use Rattle.std.specs.Prelude.{◌≡◌, ◌<◌, IfOk, length, slice_set};
ghost use Rattle.core_machine.specs.State.{entered};

use core_ir::{CoreFunction, FunctionId, PointId, SlotId, Value};
use std::alloc::{AllocError, Global};
use std::marker::Model;

/// A frame: its function, the point that it stands at, and what its slots hold.
#[derive(Drop)]
pub(crate) struct Frame {
    function: FunctionId,
    point: PointId,
    slots: Vec<Option<Value>>,
}

impl Model for Frame {
    ghost use Rattle.core_machine.specs.State.{FrameState};

    ghost Value = { FrameState };

    ghost view = { λ f. record { function = f.function; point = f.point; slots = f.slots.items } };
}

impl Frame {
    /// A frame at the entry of a function, none of whose slots has a value.
    pub(crate) fn enter(
        alloc: Global,
        id: FunctionId,
        function: &CoreFunction,
    ) -> Result<Frame, AllocError>
        ensures { IfOk result (λ frame. frame ≡ entered id function.now) }
    {
        let mut slots = Vec::new(alloc);
        for _ in 0..function.slots.len() {
            slots.push(None)?;
        }
        Ok(Frame {
            function: id,
            point: function.entry,
            slots,
        })
    }

    /// The point that the frame stands at.
    pub(crate) fn point(&self) -> PointId
        ensures { result ≡ self.now.point }
    {
        self.point
    }

    /// What the slots hold.
    pub(crate) fn slots(&self) -> &[Option<Value>]
        ensures { result.now ≡ self.now.slots }
    {
        &self.slots
    }

    /// Gives a slot a value, or leaves it without one, and goes on.
    pub(crate) fn write(&mut self, to: SlotId, value: Option<Value>, next: PointId)
        requires { to.0 < length self.old.slots }
        ensures { self.new ≡ record self.old { point = next; slots = slice_set self.old.slots to.0 value } }
    {
        self.slots[to.0 as usize] = value;
        self.point = next;
    }

    /// Goes on at a point.
    pub(crate) fn go(&mut self, next: PointId)
        ensures { self.new ≡ record self.old { point = next } }
    {
        self.point = next;
    }
}
