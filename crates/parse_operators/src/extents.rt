//! Extents of expressions: what may stand behind them hangs on these alone.

ghost use Rattle.std.specs.Prelude.{◌≡◌, ◌≤◌, [], true};
ghost use Rattle.dart_tree.specs.Heights.{height};
ghost use Rattle.parse_leaves.specs.Parts.{side_of, side_height};
ghost use Rattle.parse_operators.specs.Ends.{extent_of, side_extent, joined, goes_on, rank, comes_next, times_at};

use crate::expressions::times;
use dart_tree::Expr;
use grammar::{Level, Setting, Token};
use parse_leaves::{Side, higher, is_incremented, is_level, is_open};

/// How high an expression is, and what may stand behind it.
#[derive(Clone, Copy, Drop)]
pub struct Extent {
    /// How many nodes that count lie on the longest way down, its own among them.
    pub height: u32,
    /// Nothing may stand behind it.
    pub reads_on: bool,
    /// Its last operand has a `++` or `--` behind it, where no selector can stand.
    pub incremented: bool,
}

/// The extent of an expression of a height.
pub(crate) fn extent_of(reach: u32, expression: &Expr) -> Extent
    requires known { reach ≡ height expression.now }
    ensures { result ≡ extent_of expression.now }
{
    Extent {
        height: reach,
        reads_on: !is_open(reach, reach, expression),
        incremented: is_incremented(expression),
    }
}

/// The extent of what an operator adds.
pub(crate) fn side_extent(reach: u32, side: &Side) -> Extent
    requires known { reach ≡ side_height (side_of side.now) }
    ensures { result ≡ side_extent (side_of side.now) }
{
    match side {
        Side::Operated { right, .. } => extent_of(reach, right),
        Side::Tested { .. } | Side::Cast { .. } => Extent {
            height: reach,
            reads_on: false,
            incremented: false,
        },
        Side::Choices { .. } => Extent {
            height: reach,
            reads_on: true,
            incremented: false,
        },
    }
}

/// The extent of an expression with another behind it.
pub(crate) fn joined(left: Extent, side: Extent) -> Extent
    requires left_limit { left.height ≤ 201 }
    requires side_limit { side.height ≤ 200 }
    ensures { result ≡ joined [] left side }
{
    Extent {
        height: higher(left.height, side.height) + 1,
        reads_on: side.reads_on,
        incremented: side.incremented,
    }
}

/// Something may stand behind, where so many nodes may lie below a node.
pub(crate) fn goes_on(room: u32, extent: Extent) -> bool
    ensures open { result ≡ goes_on room extent }
    ensures within { result ≡ true → extent.height ≤ room }
{
    extent.height <= room && !extent.reads_on
}

/// How many levels bind no more than this one.
pub(crate) fn rank(level: Level) -> usize
    ensures same { result ≡ rank level }
    ensures few { result ≤ 12 }
{
    match level {
        Level::Conditional => 1,
        Level::IfNull => 2,
        Level::Or => 3,
        Level::And => 4,
        Level::Equality => 5,
        Level::Relation => 6,
        Level::BitOr => 7,
        Level::BitXor => 8,
        Level::BitAnd => 9,
        Level::Shift => 10,
        Level::Sum => 11,
        Level::Product => 12,
    }
}

/// The level comes next, or with no level none does.
pub(crate) fn comes_next(level: Option<Level>, next: Option<Level>) -> bool
    ensures { result ≡ comes_next level next }
{
    match level {
        Some(level) => is_level(next, level),
        None => next.is_none(),
    }
}

/// How often a level, or with no level a cascade, may go on behind an operand.
pub(crate) fn times_at(level: Option<Level>, left: Extent, tokens: &[Token]) -> usize
    ensures { result ≡ times_at level left tokens.now }
{
    match level {
        Some(level) => times(Setting::Plain, level, left.incremented, tokens),
        None => tokens.len(),
    }
}
