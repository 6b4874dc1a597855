//! How many types stand in a type that isn't formed yet.

ghost use Rattle.dart_types.specs.Ty.{Ty, never};
ghost use Rattle.dart_types.specs.Normal.{nullable_of};
ghost use Rattle.type_bounds.specs.Counts.{Counts};

use dart_types::{DartType, size};

/// What is known of a type before it is formed.
#[derive(Clone, Copy)]
pub(crate) struct Count {
    /// How many types stand in it, itself among them, or 2^64 - 1 where there are more.
    pub(crate) nodes: u64,
    /// Whether a `?` after it stays in the normal form.
    pub(crate) takes_mark: bool,
}

impl Count {
    /// The count of a type that is at hand.
    pub(crate) fn of(t: &DartType) -> Count
        ensures { Counts result t.now }
    {
        Count {
            nodes: size(t),
            takes_mark: t.takes_mark(),
        }
    }

    /// The count of `Never`.
    pub(crate) fn never() -> Count
        ensures { Counts result never }
    {
        Count {
            nodes: 1,
            takes_mark: false,
        }
    }

    /// The count of the normal form of `T?`, from that of T.
    #[tactic(auto, using(crate::proofs::Counted::marked_nodes, crate::proofs::Counted::unmarked_nodes))]
    pub(crate) fn nullable(self) -> Count
        ensures { (t : Ty) → Counts self t → Counts result (nullable_of t) }
    {
        let nodes = if self.takes_mark {
            self.nodes.saturating_add(1)
        } else {
            self.nodes
        };
        Count {
            nodes,
            takes_mark: false,
        }
    }
}
