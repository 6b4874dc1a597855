//! Where a node stands, and its number.

/// The number of a node: how many nodes of its unit stand before it in reading order.
#[derive(Clone, Copy, Debug, PartialEq, Eq, PartialOrd, Ord)]
pub struct NodeId(pub u32);

/// A range of the text, from its first to past its last UTF-16 code unit, counted from 0.
///
/// Ranges are ordered by their start, and those of one start by their end.
#[derive(Clone, Copy, Debug, PartialEq, Eq, PartialOrd, Ord)]
pub struct Span {
    /// The offset of its first code unit.
    pub start: u32,
    /// The offset past its last code unit.
    pub end: u32,
}

/// The number of a node, and the range of the text from its first to its last token.
#[derive(Clone, Copy, Debug, PartialEq, Eq)]
pub struct Place {
    /// The number of the node.
    pub node: NodeId,
    /// Where the node stands in the text.
    pub span: Span,
}
