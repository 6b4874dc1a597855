//! Files, each by what it says to others and by what is wrong with its own text.

ghost use Rattle.std.specs.Prelude.{◌≡◌, ◌++◌, ◌∷◌, [], nat_eq, IfOk, OnOk, map};
ghost use Rattle.std.specs.List.{filter, list_any};
ghost use Rattle.check_library.specs.Diagnostics.{diagnostics};
ghost use Rattle.check_files.specs.Contents.{bare_faults_of, faults_of, no_text, read_as};
ghost use Rattle.check_files.specs.Lent.{contents_view, file_view, table_view};
ghost use Rattle.check_files.specs.Sources.{AreRead, but_directives, but_those, core_source, is_not_built, is_of_directive, outline_of_text, own_faults, source_of, starts_of, with_start};

use crate::lent::{LentContents, LentFile, empty_text, read_as};
use check_library::{diagnose, text_diagnostics};
use dart_text::Text;
use dart_tree::Span;
use directives::{DeclaredNames, Directive, Directives, Outline, Spans, outline_of};
use indexmap::IndexSet;
use judgement::{DiagnosticCode, Fault};
use libraries::SourceFile;
use plain_text::PlainText;
use std::alloc::{AllocError, Global};
use std::marker::Model;

/// What is wrong with a file by itself.
#[derive(Drop)]
pub struct OwnFaults {
    faults: Vec<Fault>,
}

impl Model for OwnFaults {
    ghost use Rattle.std.specs.Prelude.{List};
    ghost use Rattle.judgement.specs.declared.fault.Fault.{Fault};

    ghost Value = { List Fault };

    ghost view = { λ f. f.faults.items };
}

impl OwnFaults {
    /// The faults.
    pub fn as_slice(&self) -> &[Fault]
        ensures { result.now ≡ self.now }
    {
        self.faults.as_slice()
    }
}

/// Files that were read, `dart:core` before them.
#[derive(Drop)]
pub struct ReadFiles {
    /// The files as others see them.
    pub sources: Vec<SourceFile>,
    /// What is wrong with each by itself.
    pub faults: Vec<OwnFaults>,
}

impl ReadFiles {
    /// None yet.
    pub fn new(alloc: Global) -> ReadFiles
        ensures sources { result.sources.items ≡ [] }
        ensures faults { result.faults.items ≡ [] }
    {
        ReadFiles {
            sources: Vec::new(alloc),
            faults: Vec::new(alloc),
        }
    }
}

/// Where directives start.
#[derive(Drop)]
pub struct Starts {
    set: IndexSet<u32>,
}

impl Model for Starts {
    ghost use Rattle.std.specs.Prelude.{ℕ, List};

    ghost Value = { List ℕ };

    ghost view = { λ s. s.set.keys };
}

impl Starts {
    /// Nowhere.
    fn new(alloc: Global) -> Starts
        ensures { result ≡ [] }
    {
        Starts {
            set: IndexSet::new(alloc),
        }
    }

    /// One directive more.
    fn add(&mut self, directive: &Directive) -> Result<(), AllocError>
        ensures { OnOk result (self.new ≡ with_start self.old directive.now) }
    {
        self.set.insert_full(directive.span.start)?;
        Ok(())
    }

    /// Whether a directive starts there.
    fn has(&self, start: u32) -> bool
        ensures { result ≡ list_any (nat_eq start) self.now }
    {
        self.set.contains(&start)
    }
}

/// Where directives start.
fn starts_of(alloc: Global, directives: &[Directive]) -> Result<Starts, AllocError>
    ensures { IfOk result (λ starts. starts ≡ starts_of directives.now) }
{
    let mut starts = Starts::new(alloc);
    for directive in directives {
        starts.add(directive)?;
    }
    Ok(starts)
}

/// Whether a code says that a form isn't checked.
fn is_not_built(code: DiagnosticCode) -> bool
    ensures { result ≡ is_not_built code }
{
    code == DiagnosticCode::NotBuilt
}

/// Whether that is said of a directive.
fn is_of_directive(starts: &Starts, fault: Fault) -> bool
    ensures { result ≡ is_of_directive starts.now fault }
{
    is_not_built(fault.code) && starts.has(fault.span.start)
}

/// What isn't said of directives that start there.
fn but_those(alloc: Global, starts: &Starts, faults: &[Fault]) -> Result<OwnFaults, AllocError>
    ensures { IfOk result (λ own. own ≡ but_those starts.now faults.now) }
{
    let mut own = Vec::new(alloc);
    for fault in faults {
        if !is_of_directive(starts, *fault) {
            own.push(*fault)?;
        }
    }
    Ok(OwnFaults { faults: own })
}

/// What remains of faults where directives are checked.
fn but_directives(
    alloc: Global,
    directives: &[Directive],
    faults: &[Fault],
) -> Result<OwnFaults, AllocError>
    ensures { IfOk result (λ own. own ≡ but_directives directives.now faults.now) }
{
    let starts = starts_of(alloc, directives)?;
    but_those(alloc, &starts, faults)
}

/// The diagnostic of a file that holds no text.
fn no_text(code: DiagnosticCode) -> Fault
    ensures { result ≡ no_text code }
{
    let span = Span { start: 0, end: 0 };
    Fault { span, code }
}

/// What is wrong with what a file contains, its directives aside, where these are the diagnostics of the
/// text as which it is read.
fn own_faults(
    alloc: Global,
    contents: LentContents<'_>,
    faults: &[Fault],
    outline: &Outline,
) -> Result<OwnFaults, AllocError>
    requires faults { faults.now ≡ diagnostics (read_as (contents_view contents)) }
    requires outline { outline.now ≡ outline_of_text (read_as (contents_view contents)) }
    ensures { IfOk result (λ own. own ≡ own_faults (contents_view contents.entry)) }
{
    let directives = outline.directives.as_slice();
    match contents {
        LentContents::Text(_) => but_directives(alloc, directives, faults),
        LentContents::NotUtf8(_) => {
            but_directives(alloc, directives, &[no_text(DiagnosticCode::FileNotUtf8)])
        }
        LentContents::TooLong(_) => {
            but_directives(
                alloc,
                directives,
                &[no_text(DiagnosticCode::ProfileFileLength)],
            )
        }
    }
}

/// What is wrong with what a file contains where its directives and declarations aren't looked at.
pub fn bare_faults_of(alloc: Global, contents: LentContents<'_>) -> Result<Vec<Fault>, AllocError>
    ensures { IfOk result (λ faults. faults.items ≡ bare_faults_of (contents_view contents.entry)) }
{
    match contents {
        LentContents::Text(text) => text_diagnostics(alloc, text)?.as_slice().to_vec(alloc),
        LentContents::NotUtf8(_) => Ok(vec![in alloc; no_text(DiagnosticCode::FileNotUtf8)]?),
        LentContents::TooLong(_) => Ok(vec![in alloc; no_text(DiagnosticCode::ProfileFileLength)]?),
    }
}

/// Reads a file, and adds it.
pub fn add_source(
    alloc: Global,
    file: LentFile<'_>,
    empty: &Text,
    read: &mut ReadFiles,
) -> Result<(), AllocError>
    requires { empty.now ≡ [] }
    ensures sources { OnOk result (read.new.sources.items ≡ read.old.sources.items ++ source_of (file_view file.entry) ∷ []) }
    ensures faults { OnOk result (read.new.faults.items ≡ read.old.faults.items ++ own_faults (contents_view file.entry.contents) ∷ []) }
{
    let LentFile { path, contents } = file;
    let text = read_as(contents, empty);
    let diagnosed = diagnose(alloc, text)?;
    let unit = &diagnosed.unit;
    let outline = outline_of(alloc, unit.words.as_slice(), &unit.tree)?;
    let own = own_faults(alloc, contents, diagnosed.diagnostics.as_slice(), &outline)?;
    let path = PlainText::new(alloc, path)?;
    read.faults.push(own)?;
    read.sources.push(SourceFile { path, outline })?;
    Ok(())
}

/// `dart:core`, which has no file.
fn core_source(alloc: Global) -> Result<SourceFile, AllocError>
    ensures { IfOk result (λ source. source ≡ core_source) }
{
    let path = PlainText::new(alloc, "dart:core")?;
    Ok(SourceFile {
        path,
        outline: Outline {
            directives: Directives::from_vec(Vec::new(alloc)),
            misplaced: Spans::from_vec(Vec::new(alloc)),
            declared: DeclaredNames::from_vec(Vec::new(alloc)),
        },
    })
}

/// Adds `dart:core`.
pub fn add_core(alloc: Global, read: &mut ReadFiles) -> Result<(), AllocError>
    ensures sources { OnOk result (read.new.sources.items ≡ read.old.sources.items ++ core_source ∷ []) }
    ensures faults { OnOk result (read.new.faults.items ≡ read.old.faults.items ++ [] ∷ []) }
{
    read.sources.push(core_source(alloc)?)?;
    let none = Vec::new(alloc);
    read.faults.push(OwnFaults { faults: none })?;
    Ok(())
}

/// Reads files, behind `dart:core`. The error is want of memory.
pub fn read_files(alloc: Global, files: &[LentFile<'_>]) -> Result<ReadFiles, AllocError>
    ensures { IfOk result (AreRead (table_view files.now)) }
{
    let empty = empty_text(alloc)?;
    let mut read = ReadFiles::new(alloc);
    add_core(alloc, &mut read)?;
    for file in files {
        add_source(alloc, *file, &empty, &mut read)?;
    }
    Ok(read)
}
