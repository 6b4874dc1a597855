//! What the directives of a file are about, and which files they name.

ghost use Rattle.std.specs.Prelude.{◌≡◌, map, IfOk};
ghost use Rattle.std.specs.Option.{option_copied};
ghost use Rattle.libraries.specs.Aims.{aim_kind, aim_of, aim_span, aims_in, target_of, text_in};

use crate::files::SourceFile;
use crate::naming::named_path;
use crate::texts::Texts;
use dart_tree::Span;
use directives::{Directive, DirectiveForm};
use load_files::Packages;
use plain_text::PlainText;
use std::alloc::{AllocError, Global};
use std::marker::Model;

/// What a directive is.
#[derive(Clone, Copy, PartialEq, Eq)]
pub enum AimKind {
    /// `library`.
    Library,
    /// An import.
    Import,
    /// An export.
    Export,
    /// A `part`.
    Part,
    /// A `part of` with a URI.
    PartOf,
    /// A `part of` with a name.
    PartOfName,
}

/// What a directive is about.
#[derive(Clone, Copy)]
pub struct Aim {
    /// What it is.
    pub kind: AimKind,
    /// Where its URI stands; without one, where the directive stands.
    pub span: Span,
    /// The place of the file that its URI names, if there is such a file.
    pub target: Option<usize>,
}

/// What the directives of a file are about, in their order.
#[derive(Drop)]
pub struct Aims {
    aims: Vec<Aim>,
}

impl Model for Aims {
    ghost use Rattle.std.specs.Prelude.{List};
    ghost use Rattle.libraries.specs.declared.aims.Aim.{Aim};

    ghost Value = { List Aim };

    ghost view = { λ a. a.aims.items };
}

impl Aims {
    /// What it is about for each directive.
    pub fn as_slice(&self) -> &[Aim]
        ensures { result.now ≡ self.now }
    {
        self.aims.as_slice()
    }
}

/// What a directive is.
fn aim_kind(form: &DirectiveForm) -> AimKind
    ensures { result ≡ aim_kind form.now }
{
    match form {
        DirectiveForm::Library => AimKind::Library,
        DirectiveForm::Import { .. } => AimKind::Import,
        DirectiveForm::Export { .. } => AimKind::Export,
        DirectiveForm::Part { .. } => AimKind::Part,
        DirectiveForm::PartOf { .. } => AimKind::PartOf,
        DirectiveForm::PartOfName { .. } => AimKind::PartOfName,
    }
}

/// Where the URI of a directive stands; without one, where the directive stands.
fn aim_span(directive: &Directive) -> Span
    ensures { result ≡ aim_span directive.now.span directive.now.form }
{
    match &directive.form {
        DirectiveForm::Library => directive.span,
        DirectiveForm::Import { uri, .. } => uri.span,
        DirectiveForm::Export { uri, .. } => uri.span,
        DirectiveForm::Part { uri } => uri.span,
        DirectiveForm::PartOf { uri } => uri.span,
        DirectiveForm::PartOfName { .. } => directive.span,
    }
}

/// The text of the URI of a directive, if it has one.
fn text_in(form: &DirectiveForm) -> Option<&PlainText>
    ensures { option_copied result ≡ text_in form.now }
{
    match form {
        DirectiveForm::Library => None,
        DirectiveForm::Import { uri, .. } => uri.text.as_ref(),
        DirectiveForm::Export { uri, .. } => uri.text.as_ref(),
        DirectiveForm::Part { uri } => uri.text.as_ref(),
        DirectiveForm::PartOf { uri } => uri.text.as_ref(),
        DirectiveForm::PartOfName { .. } => None,
    }
}

/// The place of the file that the URI of a directive names.
fn target_of(
    alloc: Global,
    packages: &Packages,
    paths: &Texts,
    file: &str,
    form: &DirectiveForm,
) -> Result<Option<usize>, AllocError>
    ensures { IfOk result (λ target. target ≡ target_of packages.now paths.now file.now form.now) }
{
    let Some(text) = text_in(form) else {
        return Ok(None);
    };
    let Some(path) = named_path(alloc, packages, file, text.as_str())? else {
        return Ok(None);
    };
    Ok(paths.place(path.as_str()))
}

/// What a directive is about.
fn aim_of(
    alloc: Global,
    packages: &Packages,
    paths: &Texts,
    file: &str,
    directive: &Directive,
) -> Result<Aim, AllocError>
    ensures { IfOk result (λ aim. aim ≡ aim_of packages.now paths.now file.now directive.now) }
{
    let target = target_of(alloc, packages, paths, file, &directive.form)?;
    Ok(Aim {
        kind: aim_kind(&directive.form),
        span: aim_span(directive),
        target,
    })
}

/// What the directives of a file are about, from the packages and the paths of all files. The error is
/// want of memory.
pub fn aims_in(
    alloc: Global,
    packages: &Packages,
    paths: &Texts,
    file: &SourceFile,
) -> Result<Aims, AllocError>
    ensures { IfOk result (λ aims. aims ≡ aims_in packages.now paths.now file.now) }
{
    let path = file.path.as_str();
    let mut aims = Vec::new(alloc);
    let directives = file.outline.directives.as_slice();
    for directive in directives {
        aims.push(aim_of(alloc, packages, paths, path, directive)?)?;
    }
    Ok(Aims { aims })
}

/// That of each of the files.
pub fn all_aims(
    alloc: Global,
    packages: &Packages,
    paths: &Texts,
    files: &[SourceFile],
) -> Result<Vec<Aims>, AllocError>
    ensures { IfOk result (λ all. all.items ≡ map (aims_in packages.now paths.now) files.now) }
{
    let mut all = Vec::new(alloc);
    for file in files {
        all.push(aims_in(alloc, packages, paths, file)?)?;
    }
    Ok(all)
}
