//! The types that rows of the rules name.

ghost use Rattle.std.specs.Prelude.{◌≡◌, IfOk};
ghost use Rattle.dart_types.specs.Ty.{never, null, nullable};
ghost use Rattle.dart_types.specs.Heads.{object};
ghost use Rattle.judgement.specs.ExpressionRows.{bool, int};

use dart_types::{BOOL, DartType, INT, OBJECT, TypeNode};
use std::alloc::{AllocError, Global};
use std::marker::Model;

/// The types that rows name, each formed once.
#[derive(Drop)]
pub(super) struct CoreTypes {
    int: DartType,
    bool: DartType,
    object: DartType,
    any: DartType,
    null: DartType,
    never: DartType,
}

impl Model for CoreTypes {
    ghost use base.Stored.{coded_unit};
    ghost use Rattle.resolve.specs.CoreTypes.{AreThose};

    ghost Value = { Unit {0} };

    ghost coded = { coded_unit };

    ghost view = { λ c. record {} };

    ghost invariant = { λ c. AreThose c };
}

impl CoreTypes {
    /// Forms them.
    pub(super) fn new(alloc: Global) -> Result<CoreTypes, AllocError> {
        let int = DartType::class(alloc, INT)?;
        let bool = DartType::class(alloc, BOOL)?;
        let object = DartType::class(alloc, OBJECT)?;
        let bare = object.copy(alloc)?;
        let any = DartType::nullable(alloc, bare)?;
        let null = DartType {
            node: TypeNode::Null,
        };
        let never = DartType {
            node: TypeNode::Never,
        };
        Ok(CoreTypes {
            int,
            bool,
            object,
            any,
            null,
            never,
        })
    }

    /// `int`
    pub(super) fn int(&self) -> &DartType
        ensures { result.now ≡ int }
    {
        &self.int
    }

    /// `bool`
    pub(super) fn bool(&self) -> &DartType
        ensures { result.now ≡ bool }
    {
        &self.bool
    }

    /// `Object`
    pub(super) fn object(&self) -> &DartType
        ensures { result.now ≡ object }
    {
        &self.object
    }

    /// `Object?`, the type of every value
    pub(super) fn any(&self) -> &DartType
        ensures { result.now ≡ nullable object }
    {
        &self.any
    }

    /// `Null`
    pub(super) fn null(&self) -> &DartType
        ensures { result.now ≡ null }
    {
        &self.null
    }

    /// `Never`, the type of no value
    pub(super) fn never(&self) -> &DartType
        ensures { result.now ≡ never }
    {
        &self.never
    }
}
