//! Kinds of work.

/// A piece of work.
#[derive(Clone, Copy, Debug, PartialEq, Eq)]
pub enum WorkKind {
    /// A text is parsed.
    Parse,
    /// A cycle of libraries is linked.
    Link,
    /// A library is checked.
    Check,
}
