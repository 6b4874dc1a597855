//! Lines that get no reply.

ghost use Rattle.std.specs.Prelude.{◌≡◌};
ghost use Rattle.protocol_rules.specs.Skipped.{is_skipped};

/// The line has only spaces, tabs and carriage returns.
pub fn is_skipped(line: &[u8]) -> bool
    ensures { result ≡ is_skipped line.now }
{
    line.iter()
        .all(|byte| *byte == b' ' || *byte == b'\t' || *byte == b'\r')
}
