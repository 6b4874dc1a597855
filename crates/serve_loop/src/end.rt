//! How serving ends.

/// How serving ended.
#[derive(Clone, Copy, Debug, PartialEq, Eq)]
pub enum ServeEnd {
    /// The source is at its end, and each line is answered.
    Done,
    /// As many bytes as the limit for the input were taken, and each line among them is answered.
    InputSpent,
    /// The source failed; each line that was taken whole is answered.
    ReadFault,
    /// The sink failed; the last reply may be written in part.
    WriteFault,
    /// Want of memory between two replies, which are whole.
    Memory,
    /// Want of memory in the sink, whose count of it rose; the last reply may be written in part.
    SinkMemory,
}
