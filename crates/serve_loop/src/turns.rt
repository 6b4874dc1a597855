//! The loop of a server.

ghost use Rattle.std.specs.Prelude.{◌≡◌, ◌≢◌, Option, false, ℕ, ◌+◌, ◌-◌, ◌<◌, ◌≤◌, Bool, List, [], ◌∷◌, ◌++◌, length, take, drop, Ok, Err, Some, None, IfOk, IfErr, OnOk, OnErr, MatchResult};
ghost use Rattle.std.specs.Option.{ForSome};
ghost use Rattle.fault_io.specs.Faults.{Rose};
ghost use Rattle.fault_io.specs.Lines.{input_lines};
ghost use Rattle.serve_loop.specs.Event.{Event, event_of, event_shown};
ghost use Rattle.serve_loop.specs.Turn.{Stands, Step, StopsAt};
ghost use Rattle.serve_loop.specs.Replies.{UseNothing};
ghost use Rattle.serve_loop.specs.Parts.{IsReplied, PartOfReply};
ghost use Rattle.serve_loop.specs.Served.{Served};

use crate::answerer::Answerer;
use crate::end::ServeEnd;
use crate::heard::Heard;
use fault_io::{
    Files, Line, LineEnd, ReadRefusal, Sink, Source, WriteRefusal, read_line, write_all_of,
};
use std::alloc::Global;

/// Reads the next line, and says whether it is too long. An error is how serving ends.
fn next_line<S: Source>(source: &mut S, line: &mut Line) -> Result<bool, ServeEnd>
    ensures max { line.new.max ≡ line.old.max }
    ensures budget { line.new.budget ≡ line.old.budget }
    ensures less { OnOk result ((line.new.budget - line.new.taken) + length line.new.kept < (line.old.budget - line.old.taken) + length line.old.kept) }
    ensures next { (input : List ℕ) (lines : List (List ℕ)) → S.left source.old ≡ Some (drop line.old.taken input) → Stands input lines line.old →
        MatchResult result (λ is_too_long. Step input lines line.old.max is_too_long line.new) (λ end. StopsAt end input lines line.new) }
    ensures left { (input : List ℕ) → S.left source.old ≡ Some (drop line.old.taken input) → S.left source.new ≡ Some (drop line.new.taken input) }
    ensures fault { result ≡ Err ServeEnd.ReadFault → Rose (S.faults source.old) (S.faults source.new) }
    ensures no_fault { result ≢ Err ServeEnd.ReadFault → S.faults source.new ≡ S.faults source.old }
    ensures no_sink { (result ≢ Err ServeEnd.WriteFault) × (result ≢ Err ServeEnd.SinkMemory) }
{
    match read_line(source, line) {
        Ok(LineEnd::Line) => Ok(false),
        Ok(LineEnd::TooLong) => Ok(true),
        Ok(LineEnd::End) => Err(ServeEnd::Done),
        Ok(LineEnd::InputSpent) => Err(ServeEnd::InputSpent),
        Err(ReadRefusal::Failed) => Err(ServeEnd::ReadFault),
        Err(ReadRefusal::Memory) => Err(ServeEnd::Memory),
    }
}

/// The event of a line that was read.
fn heard_of(line: &[u8], is_too_long: bool) -> Heard<'_>
    ensures { event_of result ≡ event_shown line.now is_too_long }
{
    if is_too_long {
        Heard::TooLong
    } else {
        Heard::Line(line)
    }
}

/// Answers an event, and writes the reply by one call of `write_all_of`.
fn reply_to<K: Sink, A: Answerer, F: Files>(
    alloc: Global,
    sink: &mut K,
    answerer: &mut A,
    heard: Heard<'_>,
    files: &mut F,
) -> Result<(), ServeEnd>
    ensures ok { OnOk result (IsReplied (A.uses (event_of heard.entry)) (A.gives (F.told files.old) (A.state answerer.old) (event_of heard.entry))
        (K.written sink.old) (K.written sink.new) (F.faults files.old) (F.faults files.new) (A.state answerer.new)) }
    ensures err { IfErr result (PartOfReply (A.uses (event_of heard.entry)) (A.gives (F.told files.old) (A.state answerer.old) (event_of heard.entry))
        (K.written sink.old) (K.written sink.new) (F.faults files.old) (F.faults files.new)) }
    ensures told { F.told files.new ≡ F.told files.old }
    ensures unused { A.uses (event_of heard.entry) ≡ false → F.faults files.new ≡ F.faults files.old }
    ensures uncalled { A.uses (event_of heard.entry) ≡ false → (F.lists files.new ≡ F.lists files.old) × (F.reads files.new ≡ F.reads files.old) }
    ensures fault { result ≡ Err ServeEnd.WriteFault → Rose (K.faults sink.old) (K.faults sink.new) }
    ensures no_fault { result ≢ Err ServeEnd.WriteFault → K.faults sink.new ≡ K.faults sink.old }
    ensures short { result ≡ Err ServeEnd.SinkMemory → Rose (K.shortages sink.old) (K.shortages sink.new) }
    ensures not_short { result ≢ Err ServeEnd.SinkMemory → K.shortages sink.new ≡ K.shortages sink.old }
{
    let Ok(reply) = answerer.answer(alloc, heard, files) else {
        return Err(ServeEnd::Memory);
    };
    let Some(bytes) = reply else {
        return Ok(());
    };
    match write_all_of(alloc, sink, &bytes) {
        Ok(()) => Ok(()),
        Err(WriteRefusal::Failed) => Err(ServeEnd::WriteFault),
        Err(WriteRefusal::Memory) => Err(ServeEnd::SinkMemory),
    }
}

/// Answers each line of the source to the sink before it reads the next, until the source ends or
/// something refuses. A line may have `line_limit` bytes without its line feed, and `input_limit`
/// bytes are taken of the source at most, so that an input of fewer bytes is read to its end.
pub fn serve<S: Source, K: Sink, A: Answerer, F: Files>(
    alloc: Global,
    line_limit: u64,
    input_limit: u64,
    source: &mut S,
    sink: &mut K,
    answerer: &mut A,
    files: &mut F,
) -> ServeEnd
    ensures served { ForSome (S.left source.old) (λ input.
        Served A.uses (A.gives (F.told files.old)) line_limit input_limit (A.state answerer.old) input
        (K.written sink.old) (K.written sink.new) (S.left source.new) (F.faults files.old) (F.faults files.new) result) }
    ensures quiet { ForSome (S.left source.old) (λ input. UseNothing A.uses line_limit (input_lines input_limit input)
        → (F.lists files.new ≡ F.lists files.old) × (F.reads files.new ≡ F.reads files.old)) }
    ensures unused { ((event : Event) → A.uses event ≡ false) → F.faults files.new ≡ F.faults files.old }
    ensures uncalled { ((event : Event) → A.uses event ≡ false) → (F.lists files.new ≡ F.lists files.old) × (F.reads files.new ≡ F.reads files.old) }
    ensures told { F.told files.new ≡ F.told files.old }
    ensures read_fault { result ≡ ServeEnd.ReadFault → Rose (S.faults source.old) (S.faults source.new) }
    ensures no_read_fault { result ≢ ServeEnd.ReadFault → S.faults source.new ≡ S.faults source.old }
    ensures write_fault { result ≡ ServeEnd.WriteFault → Rose (K.faults sink.old) (K.faults sink.new) }
    ensures no_write_fault { result ≢ ServeEnd.WriteFault → K.faults sink.new ≡ K.faults sink.old }
    ensures short { result ≡ ServeEnd.SinkMemory → Rose (K.shortages sink.old) (K.shortages sink.new) }
    ensures not_short { result ≢ ServeEnd.SinkMemory → K.shortages sink.new ≡ K.shortages sink.old }
{
    let Ok(mut line) = Line::new(alloc, line_limit, input_limit) else {
        return ServeEnd::Memory;
    };
    loop {
        let is_too_long = match next_line(source, &mut line) {
            Ok(is_too_long) => is_too_long,
            Err(end) => return end,
        };
        let heard = heard_of(line.bytes(), is_too_long);
        if let Err(end) = reply_to(alloc, sink, answerer, heard, files) {
            return end;
        }
    }
}
