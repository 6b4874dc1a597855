//! One function for each row of the protocol's rules.

ghost use Rattle.std.specs.Prelude.{◌≡◌, ◌≤◌, false, IfOk};
ghost use Rattle.diagnostics.specs.Rendering.{rows_of};
ghost use Rattle.proto_json.specs.Requests.{answer};
ghost use Rattle.protocol_rules.specs.Answers.{reads_store, request_uses_store};
ghost use Rattle.protocol_rules.specs.Files.{is_analyzed, text_of};
ghost use Rattle.protocol_rules.specs.Turns.{IsErrorsTurnIf, update_turn, overlays_turn, with_paths};
ghost use Rattle.request_core.specs.Holding.{Holds};
ghost use Rattle.request_core.specs.Said.{turn_of, IsRead, IsAsked, IsHeard};

use crate::checker::Checker;
use crate::said::{Said, refused, reply};
use check_files::{LentContents, empty_text};
use diagnostics::render;
use fault_io::Files;
use judgement::Fault;
use load_files::{LoadRefusal, Paths, Roots};
use overlays::{OverlayRefusal, Overlays};
use plain_text::PlainText;
use proto_json::{
    Asked, Code, ErrorRows, FileOverlay, ReplyBody, Request, RequestRefusal, read_request,
};
use protocol_rules::Contents;
use std::alloc::{AllocError, Global};
use work_counts::Work;

/// The client has given these texts from now on, unless they pass a limit.
fn put_in_place(contents: &Contents, id: PlainText, overlays: Overlays) -> Result<Said, AllocError>
    ensures { IfOk result (λ said. turn_of said contents.now ≡ overlays_turn contents.now id overlays) }
{
    match contents.with_overlays(overlays)? {
        Some(after) => Ok(Said {
            id,
            body: ReplyBody::Plain,
            after: Some(after),
        }),
        None => Ok(refused(id, Code::ProfileLimit)),
    }
}

/// The files change, gain or lose their texts, all of them or none.
fn update(contents: &Contents, id: PlainText, files: &[FileOverlay]) -> Result<Said, AllocError>
    ensures { IfOk result (λ said. turn_of said contents.now ≡ update_turn contents.now id files.now) }
{
    let mut overlays = contents.overlays().copy()?;
    match overlays.apply(files) {
        Ok(()) => put_in_place(contents, id, overlays),
        Err(OverlayRefusal::BadChange { .. }) => Ok(refused(id, Code::InvalidOverlayChange)),
        Err(OverlayRefusal::TooLong { .. }) => Ok(refused(id, Code::ProfileLimit)),
        Err(OverlayRefusal::Memory) => Err(AllocError),
    }
}

/// The rows of these diagnostics of a file, with the lines and columns of its text.
fn rows(
    alloc: Global,
    contents: &Contents,
    file: &str,
    faults: &[Fault],
) -> Result<ErrorRows, AllocError>
    ensures { IfOk result (λ rows. rows ≡ rows_of file.now (text_of contents.now file.now) faults.now) }
{
    if let Some(LentContents::Text(text)) = contents.current(file) {
        return render(alloc, file, text, faults);
    }
    let empty = empty_text(alloc)?;
    render(alloc, file, &empty, faults)
}

/// The errors of a file, over the contents as they now are.
fn errors<C: Checker>(
    alloc: Global,
    contents: &Contents,
    checker: &mut C,
    work: &mut Work,
    id: PlainText,
    file: &str,
) -> Result<Said, AllocError>
    requires { Holds (C.holds checker.old) contents.now }
    ensures turn { IfOk result (λ said. IsErrorsTurnIf (is_analyzed contents.now file.now) contents.now id file.now (turn_of said contents.now)) }
    ensures holds { C.holds checker.new ≡ C.holds checker.old }
{
    if !contents.is_analyzed(file) {
        return Ok(refused(id, Code::GetErrorsInvalidFile));
    }
    let faults = checker.errors_of(alloc, file, work)?;
    let rows = rows(alloc, contents, file, faults.as_slice())?;
    Ok(reply(id, ReplyBody::Errors(rows)))
}

/// The same paths, as roots have them.
fn paths(alloc: Global, listed: &[PlainText]) -> Result<Paths, AllocError>
    ensures { IfOk result (λ paths. paths ≡ listed.now) }
{
    let mut paths = Vec::new(alloc);
    for path in listed {
        paths.push(path.copy()?)?;
    }
    Ok(Paths::from_vec(paths))
}

/// These paths as roots, over the same packages.
fn with_paths(
    alloc: Global,
    roots: &Roots,
    included: &[PlainText],
    excluded: &[PlainText],
) -> Result<Roots, AllocError>
    ensures { IfOk result (λ other. other ≡ with_paths roots.now included.now excluded.now) }
{
    let included = paths(alloc, included)?;
    let excluded = paths(alloc, excluded)?;
    let packages = roots.packages.copy()?;
    Ok(Roots {
        included,
        excluded,
        packages,
    })
}

/// The files of these roots are read.
fn read<F: Files>(
    alloc: Global,
    contents: &Contents,
    files: &mut F,
    id: PlainText,
    roots: Roots,
) -> Result<Said, AllocError>
    ensures turn { IfOk result (IsRead (F.told files.old) (F.faults files.old) (F.faults files.new) contents.now id roots) }
    ensures told { F.told files.new ≡ F.told files.old }
    ensures no_less { F.faults files.old ≤ F.faults files.new }
{
    match contents.read(alloc, files, roots) {
        Ok(after) => Ok(Said {
            id,
            body: ReplyBody::Plain,
            after: Some(after),
        }),
        Err(LoadRefusal::FilesFault) => Ok(refused(id, Code::ServerError)),
        Err(LoadRefusal::TooManyFiles { .. }) => Ok(refused(id, Code::ProfileLimit)),
        Err(LoadRefusal::TooDeep { .. }) => Ok(refused(id, Code::ProfileLimit)),
        Err(LoadRefusal::TooMuch { .. }) => Ok(refused(id, Code::ProfileLimit)),
        Err(LoadRefusal::Memory) => Err(AllocError),
    }
}

/// Other roots are set, and their files are read.
fn set_roots<F: Files>(
    alloc: Global,
    contents: &Contents,
    files: &mut F,
    id: PlainText,
    included: &[PlainText],
    excluded: &[PlainText],
) -> Result<Said, AllocError>
    ensures turn { IfOk result (IsRead (F.told files.old) (F.faults files.old) (F.faults files.new) contents.now id
        (with_paths contents.now.roots included.now excluded.now)) }
    ensures told { F.told files.new ≡ F.told files.old }
    ensures no_less { F.faults files.old ≤ F.faults files.new }
{
    let roots = with_paths(alloc, contents.roots(), included, excluded)?;
    read(alloc, contents, files, id, roots)
}

/// The files of the roots are read again.
fn reanalyze<F: Files>(
    alloc: Global,
    contents: &Contents,
    files: &mut F,
    id: PlainText,
) -> Result<Said, AllocError>
    ensures turn { IfOk result (IsRead (F.told files.old) (F.faults files.old) (F.faults files.new) contents.now id contents.now.roots) }
    ensures told { F.told files.new ≡ F.told files.old }
    ensures no_less { F.faults files.old ≤ F.faults files.new }
{
    let roots = contents.roots().copy()?;
    read(alloc, contents, files, id, roots)
}

/// What is said to a request.
fn said_to_request<C: Checker, F: Files>(
    alloc: Global,
    contents: &Contents,
    checker: &mut C,
    work: &mut Work,
    files: &mut F,
    asked: Asked,
) -> Result<Said, AllocError>
    requires { Holds (C.holds checker.old) contents.now }
    ensures turn { IfOk result (IsAsked (F.told files.old) (F.faults files.old) (F.faults files.new) contents.now asked.id asked.request) }
    ensures holds { C.holds checker.new ≡ C.holds checker.old }
    ensures unused { reads_store asked.request ≡ false → F.faults files.new ≡ F.faults files.old }
    ensures uncalled { reads_store asked.request ≡ false → (F.lists files.new ≡ F.lists files.old) × (F.reads files.new ≡ F.reads files.old) }
    ensures told { F.told files.new ≡ F.told files.old }
    ensures no_less { F.faults files.old ≤ F.faults files.new }
{
    let Asked { id, request } = asked;
    match request {
        Request::SetRoots { included, excluded } => set_roots(
            alloc,
            contents,
            files,
            id,
            included.as_slice(),
            excluded.as_slice(),
        ),
        Request::Reanalyze => reanalyze(alloc, contents, files, id),
        Request::Update { files } => update(contents, id, files.as_slice()),
        Request::GetErrors { file } => { errors(alloc, contents, checker, work, id, file.as_str()) }
        Request::GetWork => Ok(refused(id, Code::UnknownRequest)),
    }
}

/// What is said to a line that isn't skipped.
pub fn said_to_line<C: Checker, F: Files>(
    alloc: Global,
    contents: &Contents,
    checker: &mut C,
    work: &mut Work,
    files: &mut F,
    line: &[u8],
) -> Result<Said, AllocError>
    requires { Holds (C.holds checker.old) contents.now }
    ensures turn { IfOk result (IsHeard (F.told files.old) (F.faults files.old) (F.faults files.new) contents.now (answer line.now)) }
    ensures holds { C.holds checker.new ≡ C.holds checker.old }
    ensures unused { request_uses_store (answer line.now) ≡ false → F.faults files.new ≡ F.faults files.old }
    ensures uncalled { request_uses_store (answer line.now) ≡ false → (F.lists files.new ≡ F.lists files.old) × (F.reads files.new ≡ F.reads files.old) }
    ensures told { F.told files.new ≡ F.told files.old }
    ensures no_less { F.faults files.old ≤ F.faults files.new }
{
    match read_request(alloc, line) {
        Ok(asked) => said_to_request(alloc, contents, checker, work, files, asked),
        Err(RequestRefusal::Refused { id, code }) => Ok(refused(id, code)),
        Err(RequestRefusal::Memory) => Err(AllocError),
    }
}
