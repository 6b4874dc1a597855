//! What a server hears.

/// One event, which an answerer answers.
#[derive(Clone, Copy, Debug)]
pub enum Heard<'a> {
    /// A line within the limit for a line, in bytes and without its line feed.
    Line(&'a [u8]),
    /// A line was longer than the limit.
    TooLong,
}
