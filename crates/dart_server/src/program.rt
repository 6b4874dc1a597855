//! The program over a source, a sink and a store of files.

ghost use Rattle.std.specs.Prelude.{◌≡◌, ◌≢◌, ◌⊎◌, false, None, Some, [], option_map};
ghost use Rattle.std.specs.Option.{ForSome};
ghost use Rattle.fault_io.specs.Faults.{Rose};
ghost use Rattle.command_words.specs.declared.words.Command.TheVariants.{Serve, Refused};
ghost use Rattle.command_words.specs.Words.{lists, serves, command_of};
ghost use Rattle.dart_server.specs.Output.{Output, ServeOutput, ServeFileOutput, RefusedBy, MayEnd, Unstarted};

use crate::output::PACKAGES_REFUSED;
use crate::over_files::{no_packages, over_libraries};
use crate::status::{Status, status_of};
use crate::task::Task;
use analysis_store::Recent;
use command_words::{Command, command_of};
use fault_io::{Files, FilesRefusal, Sink, Source, WriteRefusal, write_all_of};
use load_files::Packages;
use packages_file::packages_at;
use plain_text::PlainText;
use request_core::Session;
use serve_loop::serve;
use std::alloc::Global;

/// The most bytes of a line, its line feed aside: 16 MiB.
const LINE_LIMIT: u64 = 16_777_216;

/// An input has fewer bytes than this.
const INPUT_LIMIT: u64 = 1_099_511_627_776;

/// What is written where the words are no command.
const USAGE: &[u8] = b"usage: dart_serve serve|check FILE|run FILE|make N [options]\n";

/// A text that may be left out, lent.
fn lent(text: &Option<PlainText>) -> Option<&str>
    ensures { option_map (λ text. text.now) result ≡ text.now }
{
    match text {
        Some(text) => Some(text.as_str()),
        None => None,
    }
}

/// Writes the line of a refusal.
fn refuse<K: Sink>(alloc: Global, sink: &mut K, line: &[u8]) -> Status
    ensures output { RefusedBy line.now result (K.written sink.old) (K.written sink.new) }
    ensures fault { result ≡ Status.WriteFault → Rose (K.faults sink.old) (K.faults sink.new) }
    ensures no_fault { result ≢ Status.WriteFault → K.faults sink.new ≡ K.faults sink.old }
    ensures short { result ≡ Status.Memory → Rose (K.shortages sink.old) (K.shortages sink.new) }
    ensures not_short { result ≢ Status.Memory → K.shortages sink.new ≡ K.shortages sink.old }
    ensures statuses { MayEnd Refused result }
{
    match write_all_of(alloc, sink, line) {
        Ok(()) => Status::Refused,
        Err(WriteRefusal::Failed) => Status::WriteFault,
        Err(WriteRefusal::Memory) => Status::Memory,
    }
}

/// Answers the lines of the source over these packages.
fn serve_lines<S: Source, K: Sink, F: Files>(
    alloc: Global,
    packages: Packages,
    source: &mut S,
    sink: &mut K,
    files: &mut F,
) -> Status
    ensures output { ForSome (S.left source.old) (λ input.
        ServeOutput packages (F.told files.old) input (K.written sink.old) (K.written sink.new) (S.left source.new)
        (F.faults files.old) (F.faults files.new) (F.lists files.old) (F.lists files.new) (F.reads files.old) (F.reads files.new)
        (K.shortages sink.old) (K.shortages sink.new) result) }
    ensures statuses { MayEnd (Serve None) result }
    ensures read_fault { result ≡ Status.ReadFault → Rose (S.faults source.old) (S.faults source.new) }
    ensures no_read_fault { result ≢ Status.ReadFault → S.faults source.new ≡ S.faults source.old }
    ensures write_fault { result ≡ Status.WriteFault → Rose (K.faults sink.old) (K.faults sink.new) }
    ensures no_write_fault { result ≢ Status.WriteFault → K.faults sink.new ≡ K.faults sink.old }
    ensures told { F.told files.new ≡ F.told files.old }
{
    let mut session = Session::new(alloc, packages, Recent::new(alloc));
    let end = serve(
        alloc,
        LINE_LIMIT,
        INPUT_LIMIT,
        source,
        sink,
        &mut session,
        files,
    );
    status_of(end)
}

/// Answers the lines of the source over the packages of a file.
fn serve_file<S: Source, K: Sink, F: Files>(
    alloc: Global,
    source: &mut S,
    sink: &mut K,
    files: &mut F,
    file: &str,
) -> Status
    ensures output { ServeFileOutput file.now (F.told files.old)
        (S.left source.old) (K.written sink.old) (K.written sink.new) (S.left source.new)
        (F.faults files.old) (F.faults files.new) (F.lists files.old) (F.lists files.new) (F.reads files.old) (F.reads files.new)
        (K.shortages sink.old) (K.shortages sink.new) result }
    ensures statuses { MayEnd (Serve (Some file.now)) result }
    ensures read_fault { result ≡ Status.ReadFault → Rose (S.faults source.old) (S.faults source.new) }
    ensures no_read_fault { result ≢ Status.ReadFault → S.faults source.new ≡ S.faults source.old }
    ensures write_fault { result ≡ Status.WriteFault → Rose (K.faults sink.old) (K.faults sink.new) }
    ensures no_write_fault { result ≢ Status.WriteFault → K.faults sink.new ≡ K.faults sink.old }
    ensures files_fault { result ≡ Status.FilesFault → Rose (F.faults files.old) (F.faults files.new) }
    ensures unread_refused { result ≡ Status.Refused → source.new ≡ source.old }
    ensures unread_fault { result ≡ Status.FilesFault → source.new ≡ source.old }
    ensures told { F.told files.new ≡ F.told files.old }
{
    match packages_at(alloc, files, file) {
        Ok(Some(packages)) => serve_lines(alloc, packages, source, sink, files),
        Ok(None) => refuse(alloc, sink, PACKAGES_REFUSED),
        Err(FilesRefusal::Failed) => Status::FilesFault,
        Err(FilesRefusal::Memory) => Status::Memory,
    }
}

/// Does what a command asks for.
fn obey<S: Source, K: Sink, F: Files>(
    alloc: Global,
    command: &Command,
    source: &mut S,
    sink: &mut K,
    files: &mut F,
) -> Status
    ensures output { Output command.now (F.told files.old) (S.left source.old) (K.written sink.old) (K.written sink.new) (S.left source.new)
        (F.faults files.old) (F.faults files.new) (F.lists files.old) (F.lists files.new) (F.reads files.old) (F.reads files.new)
        (K.shortages sink.old) (K.shortages sink.new) result }
    ensures statuses { MayEnd command.now result }
    ensures read_fault { result ≡ Status.ReadFault → Rose (S.faults source.old) (S.faults source.new) }
    ensures no_read_fault { result ≢ Status.ReadFault → S.faults source.new ≡ S.faults source.old }
    ensures write_fault { result ≡ Status.WriteFault → Rose (K.faults sink.old) (K.faults sink.new) }
    ensures no_write_fault { result ≢ Status.WriteFault → K.faults sink.new ≡ K.faults sink.old }
    ensures files_fault { result ≡ Status.FilesFault → Rose (F.faults files.old) (F.faults files.new) }
    ensures no_files_fault { serves command.now ≡ false → result ≢ Status.FilesFault → F.faults files.new ≡ F.faults files.old }
    ensures unread { serves command.now ≡ false → source.new ≡ source.old }
    ensures unread_refused { result ≡ Status.Refused → source.new ≡ source.old }
    ensures unread_fault { result ≡ Status.FilesFault → source.new ≡ source.old }
    ensures unlisted { lists command.now ≡ false → F.lists files.new ≡ F.lists files.old }
    ensures told { F.told files.new ≡ F.told files.old }
{
    match command {
        Command::Serve { packages: None } => {
            serve_lines(alloc, no_packages(alloc), source, sink, files)
        }
        Command::Serve {
            packages: Some(file),
        } => serve_file(alloc, source, sink, files, file.as_str()),
        Command::Check {
            file,
            root,
            packages,
        } => over_libraries(
            alloc,
            sink,
            files,
            Task::Check,
            file.as_str(),
            lent(root),
            lent(packages),
        ),
        Command::Run {
            file,
            root,
            packages,
            steps,
        } => over_libraries(
            alloc,
            sink,
            files,
            Task::Run { steps: *steps },
            file.as_str(),
            lent(root),
            lent(packages),
        ),
        Command::Refused => refuse(alloc, sink, USAGE),
    }
}

/// The program: `words` are those behind its name. Under `serve` it answers the lines of the
/// source, one by one, until the source ends; under `check` it prints what is wrong with the libraries
/// that a file reaches; under `run` it runs the program of a file with whose libraries nothing is wrong;
/// other words are refused by the usage line.
///
/// `output` is the theorem of the program, unless memory was wanting for the words: then nothing at all
/// was done. Under `serve`, over no packages or over those that a
/// packages file lists, what was written, for every input in whatever pieces, is the replies that the
/// rules of the protocol allow, and each reply to `analysis.getErrors` lists exactly the diagnostics
/// that the rules of the language define, from nothing, for what all files then had: their overlays, or
/// else what the store had there when the roots were last read. Under `check` it is the lines of what
/// the same rules find in each library that the file reaches, over the files of the store. Under `run` it
/// is these lines, or where there are none, what the program of the file prints, of which no number of
/// steps goes wrong. The other clauses say when each fault comes: the count of faults of the source or
/// the sink rises, or stands at its end, exactly where the status says so; only `serve` reads the source,
/// and not where its packages file is refused or can't be read. Under `serve` a reply is cut at the status
/// of want of memory only where the sink's count of it rose. The store is called under `serve` once for a
/// packages file, by `read`, and no more where no line asks for `analysis.setAnalysisRoots` or
/// `analysis.reanalyze`; where it fails, replies to such lines say so. Under `check` and `run` it is called
/// for a packages file and then for what stands in the folder and in those of the packages, of which no
/// clause says how often; and for other words never.
#[tactic(auto, using(crate::proofs::EndLemmas::memory_may_end))]
pub fn dart_main<S: Source, K: Sink, F: Files>(
    alloc: Global,
    words: &[PlainText],
    source: &mut S,
    sink: &mut K,
    files: &mut F,
) -> Status
    ensures output { Unstarted (S.left source.old) (K.written sink.old) (K.written sink.new) (S.left source.new)
        (F.faults files.old) (F.faults files.new) (F.lists files.old) (F.lists files.new) (F.reads files.old) (F.reads files.new)
        (K.shortages sink.old) (K.shortages sink.new) result
        ⊎ Output (command_of words.now) (F.told files.old) (S.left source.old) (K.written sink.old) (K.written sink.new) (S.left source.new)
        (F.faults files.old) (F.faults files.new) (F.lists files.old) (F.lists files.new) (F.reads files.old) (F.reads files.new)
        (K.shortages sink.old) (K.shortages sink.new) result }
    ensures statuses { MayEnd (command_of words.now) result }
    ensures read_fault { result ≡ Status.ReadFault → Rose (S.faults source.old) (S.faults source.new) }
    ensures no_read_fault { result ≢ Status.ReadFault → S.faults source.new ≡ S.faults source.old }
    ensures write_fault { result ≡ Status.WriteFault → Rose (K.faults sink.old) (K.faults sink.new) }
    ensures no_write_fault { result ≢ Status.WriteFault → K.faults sink.new ≡ K.faults sink.old }
    ensures files_fault { result ≡ Status.FilesFault → Rose (F.faults files.old) (F.faults files.new) }
    ensures no_files_fault { serves (command_of words.now) ≡ false → result ≢ Status.FilesFault → F.faults files.new ≡ F.faults files.old }
    ensures unread { serves (command_of words.now) ≡ false → source.new ≡ source.old }
    ensures unread_refused { result ≡ Status.Refused → source.new ≡ source.old }
    ensures unread_fault { result ≡ Status.FilesFault → source.new ≡ source.old }
    ensures unlisted { lists (command_of words.now) ≡ false → F.lists files.new ≡ F.lists files.old }
    ensures told { F.told files.new ≡ F.told files.old }
{
    match command_of(alloc, words) {
        Ok(command) => obey(alloc, &command, source, sink, files),
        Err(_) => Status::Memory,
    }
}
