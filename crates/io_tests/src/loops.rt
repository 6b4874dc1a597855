//! Whole runs of the loop over an answerer that echoes.

use crate::outside::{bytes_in, cell};
use fault_io::{Files, MemorySink, MemorySource, SteadyFiles};
use serve_loop::{Answerer, Heard, ServeEnd, serve};
use std::alloc::{AllocError, Global};
use std::test::Fail;

/// Answers a line with itself and a line feed, an empty line with nothing, and a line that is too
/// long with `?`.
#[derive(Drop)]
struct Echo;

impl Answerer for Echo {
    type State = ();

    ghost use Rattle.std.specs.Prelude.{◌≡◌, false};
    ghost use Rattle.io_tests.specs.Echo.{echo_of};

    ghost state = { λ _. tt };

    ghost gives = { λ _ _ event _ reply _. reply ≡ echo_of event };

    ghost uses = { λ _. false };

    fn answer<F: Files>(
        &mut self,
        alloc: Global,
        heard: Heard<'_>,
        _files: &mut F,
    ) -> Result<Option<Vec<u8>>, AllocError> {
        let line = match heard {
            Heard::Line([]) => return Ok(None),
            Heard::Line(line) => line,
            Heard::TooLong => b"?",
        };
        let mut reply = line.to_vec(alloc)?;
        reply.push(b'\n')?;
        Ok(Some(reply))
    }
}

// Runs, `INPUT|READ|WRITE|OUTPUT|END`: the input, the number of the read that fails and that of the
// write, each from 0, what is written, and how serving ends. A `/` is a line feed. A read gives 4 bytes
// at most, and a write takes 3; a line has at most 5, and all lines 20.
const RUNS: &str = "\
|99|99||Done
ab//cd|99|99|ab/cd/|Done
abcde/abcdef/x/|99|99|abcde/?/x/|Done
abc/abc/abc/abc/abc/abc/|99|99|abc/abc/abc/abc/abc/|InputSpent
abc/defg/|1|99|abc/|ReadFault
abc/defg/|99|0||WriteFault
abc/defg/|99|3|abc/def|WriteFault";

/// How serving this input ends, and what the sink holds then.
fn served(
    alloc: Global,
    input: Vec<u8>,
    failing_read: Vec<u64>,
    failing_write: Vec<u64>,
) -> Result<(ServeEnd, Vec<u8>), AllocError> {
    let mut source = MemorySource::new(input, 4, failing_read);
    let mut sink = MemorySink::new(alloc, 3, failing_write);
    let mut files = SteadyFiles::new(Vec::new(alloc));
    let end = serve(alloc, 5, 20, &mut source, &mut sink, &mut Echo, &mut files);
    Ok((end, sink.written().to_vec(alloc)?))
}

/// The one call that fails, by its number in this text.
fn failing(alloc: Global, text: &str) -> Result<Vec<u64>, Fail> {
    let call = text.parse::<u64>()?;
    Ok(vec![in alloc; call]?)
}

/// Whether a run writes and ends as its line says.
fn is_right(alloc: Global, line: &str) -> Result<bool, Fail> {
    let (input, line) = cell(line)?;
    let (read, line) = cell(line)?;
    let (write, line) = cell(line)?;
    let (output, end) = cell(line)?;
    let input = bytes_in(alloc, input)?;
    let output = bytes_in(alloc, output)?;
    let (ended, written) = served(alloc, input, failing(alloc, read)?, failing(alloc, write)?)?;
    let ended = format!(in alloc; "{ended:?}")?;
    Ok(ended.as_str() == end && written.as_slice() == output.as_slice())
}

#[test]
fn each_line_is_answered(rt: HostRuntime) -> Result<(), Fail> {
    for line in RUNS.lines() {
        assert!(rt; is_right(rt.alloc(), line)?, "{line}");
    }
    Ok(())
}
