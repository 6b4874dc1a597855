//! Laws of the output, over its definition alone.

ghost use Rattle.dart_server.specs.Settled.{OutputIsSettled, RepliesAreSettled};

/// Lines have one list of replies at most in a state, over the files that the store tells and by the
/// lines in which it fails.
pub fn replies_are_settled()
    ensures { RepliesAreSettled }
{}

/// There is one output at most, and one status, for the same words, the same input and the same files of
/// the store, in whatever order exported names are listed, but at the statuses of want of memory and of a
/// fault of the source, the sink or the store. Under `serve` that is where the store fails in no line, and
/// its count of faults isn't at its last value.
pub fn the_output_is_settled()
    ensures { OutputIsSettled }
{}
