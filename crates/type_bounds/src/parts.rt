//! Types that are formed as far as they aren't too large.

ghost use Rattle.std.specs.Prelude.{◌≡◌, ◌≤◌, IfOk};
ghost use Rattle.dart_types.specs.Ty.{Ty, Types, invalid, never, variable, interface, no_more, more, join};
ghost use Rattle.dart_types.specs.Sizes.{size_of};
ghost use Rattle.dart_types.specs.Normal.{nullable_of};
ghost use Rattle.dart_types.specs.Formed.{Forms};
ghost use Rattle.dart_types.specs.declared.refusal.TheConstants.{NODE_LIMIT};
ghost use Rattle.type_bounds.specs.Chains.{marked_by};
ghost use Rattle.type_bounds.specs.PartsView.{IsPart, AreParts, IsInterfaceWithin};

use crate::counts::Count;
use dart_types::{ClassId, DartType, NODE_LIMIT, TypeList, TypeNode, TypeRefusal, VarId};
use std::alloc::{AllocError, Global};

/// A type that a rule gives, with its count. It is formed unless it is too large.
#[derive(Drop)]
pub(crate) struct Part {
    pub(crate) count: Count,
    pub(crate) formed: Option<DartType>,
}

/// Types beside each other in a type that a rule gives. They are formed unless they are too large.
#[derive(Drop)]
pub(crate) struct Parts {
    pub(crate) nodes: u64,
    pub(crate) formed: Option<TypeList>,
}

impl Part {
    /// A type that is at hand.
    #[inline(never)]
    pub(crate) fn of(alloc: Global, t: &DartType) -> Result<Part, AllocError>
        ensures { IfOk result (λ part. IsPart part t.now) }
    {
        let count = Count::of(t);
        if count.nodes > NODE_LIMIT {
            return Ok(Part {
                count,
                formed: None,
            });
        }
        let copied = t.copy(alloc)?;
        Ok(Part {
            count,
            formed: Some(copied),
        })
    }

    /// A second value of the same type and count.
    pub(crate) fn copy(&self, alloc: Global) -> Result<Part, AllocError>
        ensures { IfOk result (λ copied. copied ≡ self.now) }
    {
        let formed = match &self.formed {
            None => None,
            Some(formed) => Some(formed.copy(alloc)?),
        };
        Ok(Part {
            count: self.count,
            formed,
        })
    }

    /// A type that isn't too large.
    pub(crate) fn small(t: DartType) -> Part
        requires { size_of t ≤ NODE_LIMIT }
        ensures { IsPart result t }
    {
        let count = Count::of(&t);
        Part {
            count,
            formed: Some(t),
        }
    }

    /// The invalid type, which is the bound where the table has no row.
    pub(crate) fn invalid() -> Part
        ensures { IsPart result invalid }
    {
        Part::small(DartType {
            node: TypeNode::Invalid,
        })
    }

    /// `Never`.
    pub(crate) fn never() -> Part
        ensures { IsPart result never }
    {
        Part::small(DartType {
            node: TypeNode::Never,
        })
    }

    /// A type variable.
    pub(crate) fn variable(var: VarId) -> Part
        ensures { IsPart result (variable var) }
    {
        Part::small(DartType {
            node: TypeNode::Var(var),
        })
    }

    /// A class without arguments.
    pub(crate) fn class(alloc: Global, class: ClassId) -> Result<Part, AllocError>
        ensures { IfOk result (λ part. IsPart part (interface class no_more)) }
    {
        let formed = DartType::class(alloc, class)?;
        Ok(Part::small(formed))
    }

    /// The normal form of `T?`, from T.
    pub(crate) fn nullable(self, alloc: Global) -> Result<Part, AllocError>
        ensures { IfOk result (λ part. (t : Ty) → IsPart self t → IsPart part (nullable_of t)) }
    {
        let count = self.count.nullable();
        let bare = match self.formed {
            None => {
                return Ok(Part {
                    count,
                    formed: None,
                });
            }
            Some(bare) => bare,
        };
        if count.nodes > NODE_LIMIT {
            return Ok(Part {
                count,
                formed: None,
            });
        }
        let formed = DartType::nullable(alloc, bare)?;
        Ok(Part {
            count,
            formed: Some(formed),
        })
    }

    /// The normal form of `T?`, from T, or T where there is no mark.
    #[inline(never)]
    pub(crate) fn with_mark(self, alloc: Global, marked: bool) -> Result<Part, AllocError>
        ensures { IfOk result (λ part. (t : Ty) → IsPart self t → IsPart part (marked_by marked t)) }
    {
        if marked {
            self.nullable(alloc)
        } else {
            Ok(self)
        }
    }

    /// The type, or how many types stand in it where it is too large.
    pub(crate) fn finish(self) -> Result<DartType, TypeRefusal>
        ensures { (t : Ty) → IsPart self t → Forms result t }
    {
        match self.formed {
            None => Err(TypeRefusal::TooLarge {
                nodes: self.count.nodes,
            }),
            Some(formed) => Ok(formed),
        }
    }

    /// The class with these arguments.
    pub(crate) fn interface(alloc: Global, class: ClassId, args: Parts) -> Result<Part, AllocError>
        ensures { IfOk result (λ part. (ts : Types) → AreParts args ts → IsPart part (interface class ts)) }
    {
        let nodes = args.nodes.saturating_add(1);
        let count = Count {
            nodes,
            takes_mark: true,
        };
        let formed = match args.formed {
            None => None,
            Some(args) => interface_within(alloc, nodes, class, args)?,
        };
        Ok(Part { count, formed })
    }
}

// The class with these arguments, unless it has too many nodes.
fn interface_within(
    alloc: Global,
    nodes: u64,
    class: ClassId,
    args: TypeList,
) -> Result<Option<DartType>, AllocError>
    ensures { IfOk result (IsInterfaceWithin nodes class args) }
{
    if nodes > NODE_LIMIT {
        return Ok(None);
    }
    let formed = DartType::interface(alloc, class, args)?;
    Ok(Some(formed))
}

impl Parts {
    /// No types.
    pub(crate) fn new(alloc: Global) -> Parts
        ensures { AreParts result no_more }
    {
        Parts {
            nodes: 0,
            formed: Some(TypeList::new(alloc)),
        }
    }

    /// One more type at the end.
    pub(crate) fn with(self, part: Part) -> Result<Parts, AllocError>
        ensures { IfOk result (λ parts. (ts : Types) (t : Ty) → AreParts self ts → IsPart part t → AreParts parts (join ts (more t no_more))) }
    {
        let nodes = self.nodes.saturating_add(part.count.nodes);
        let unformed = Parts {
            nodes,
            formed: None,
        };
        let mut types = match self.formed {
            None => return Ok(unformed),
            Some(types) => types,
        };
        let formed = match part.formed {
            None => return Ok(unformed),
            Some(formed) => formed,
        };
        if nodes > NODE_LIMIT {
            return Ok(unformed);
        }
        types.push(formed)?;
        Ok(Parts {
            nodes,
            formed: Some(types),
        })
    }
}
