//! What libraries import, for looking names up in them.

ghost use Rattle.std.specs.Prelude.{◌≡◌, [], ◌∷◌, ◌++◌, map, option_map, slice_get, IfOk, OnOk};
ghost use Rattle.std.specs.Option.{option_copied};
ghost use Rattle.libraries.specs.Elements.{library_named};
ghost use Rattle.libraries.specs.Scopes.{import_from, import_of, imported, imports_in, seen_of};

use crate::aims::Aim;
use crate::elements::{behind_first, library_named};
use crate::heads::Head;
use dart_types::LibId;
use directives::{Directive, DirectiveForm};
use element_terms::Combinators;
use namespaces::{Import, Namespace};
use plain_text::PlainText;
use std::alloc::{AllocError, Global};
use std::marker::Model;
use std::rc::Rc;

/// What the library at each place exports.
#[derive(Drop)]
pub struct Spaces {
    spaces: Vec<Rc<Namespace>>,
}

impl Model for Spaces {
    ghost use Rattle.std.specs.Prelude.{List, map};
    ghost use Rattle.namespaces.specs.declared.elements.Exported.{Exported};

    ghost Value = { List (List Exported) };

    ghost view = { λ s. map (λ space. space.value) s.spaces.items };
}

impl Spaces {
    /// No library yet.
    pub fn new(alloc: Global) -> Spaces
        ensures { result ≡ [] }
    {
        Spaces {
            spaces: Vec::new(alloc),
        }
    }

    /// Puts what the next library exports behind the others.
    pub fn push(&mut self, alloc: Global, space: Namespace) -> Result<(), AllocError>
        ensures { OnOk result (self.new ≡ self.old ++ space ∷ []) }
    {
        let space = Rc::new(alloc, space)?;
        self.spaces.push(space)?;
        Ok(())
    }

    /// What the library at a place exports.
    pub fn get(&self, place: usize) -> Option<&Rc<Namespace>>
        ensures { option_map (λ space. space.now.value) result ≡ slice_get self.now place }
    {
        self.spaces.get(place)
    }
}

/// An equal prefix with memory of its own.
fn copy_prefix(prefix: &Option<PlainText>) -> Result<Option<PlainText>, AllocError>
    ensures { IfOk result (λ copied. copied ≡ prefix.now) }
{
    match prefix {
        None => Ok(None),
        Some(prefix) => {
            let copied = prefix.copy()?;
            Ok(Some(copied))
        }
    }
}

/// The import of the library at a place, which exports these names.
fn import_of(
    place: usize,
    prefix: &Option<PlainText>,
    combinators: &Combinators,
    space: &Rc<Namespace>,
) -> Result<Import, AllocError>
    ensures { IfOk result (λ import. seen_of import ≡ import_of place prefix.now combinators.now space.now.value) }
{
    let prefix = copy_prefix(prefix)?;
    let combinators = combinators.share()?;
    let exported = space.clone()?;
    Ok(Import {
        library: LibId(place as u64),
        prefix,
        combinators,
        exported,
    })
}

/// Adds the import of the library at a place, if it is known what that exports.
fn add_from(
    spaces: &Spaces,
    place: usize,
    prefix: &Option<PlainText>,
    combinators: &Combinators,
    imports: &mut Vec<Import>,
) -> Result<(), AllocError>
    ensures { OnOk result (map seen_of imports.new.items ≡ map seen_of imports.old.items ++ import_from place prefix.now combinators.now (slice_get spaces.now place)) }
{
    match spaces.get(place) {
        None => Ok(()),
        Some(space) => {
            imports.push(import_of(place, prefix, combinators, space)?)?;
            Ok(())
        }
    }
}

/// Adds the import that a directive is, if it is one of a library.
fn add_import(
    heads: &[Head],
    spaces: &Spaces,
    form: &DirectiveForm,
    aim: Option<&Aim>,
    imports: &mut Vec<Import>,
) -> Result<(), AllocError>
    ensures { OnOk result (map seen_of imports.new.items ≡ map seen_of imports.old.items ++ imported spaces.now (library_named heads.now (option_copied aim.entry)) form.now) }
{
    match form {
        DirectiveForm::Import {
            prefix,
            combinators,
            ..
        } => match library_named(heads, aim) {
            None => Ok(()),
            Some(place) => add_from(spaces, place, prefix, combinators, imports),
        },
        DirectiveForm::Library => Ok(()),
        DirectiveForm::Export { .. } => Ok(()),
        DirectiveForm::Part { .. } => Ok(()),
        DirectiveForm::PartOf { .. } => Ok(()),
        DirectiveForm::PartOfName { .. } => Ok(()),
    }
}

/// The imports of a library in the order in which they are written, from its directives and what they
/// are about, and what the library at each place exports. With its element and what `dart:core`
/// exports they are its scope. The error is want of memory.
pub fn imports_of(
    alloc: Global,
    heads: &[Head],
    spaces: &Spaces,
    directives: &[Directive],
    aims: &[Aim],
) -> Result<Vec<Import>, AllocError>
    ensures { IfOk result (λ imports. map seen_of imports.items ≡ imports_in heads.now spaces.now directives.now aims.now) }
{
    let mut imports = Vec::new(alloc);
    let mut rest = aims;
    for directive in directives {
        add_import(heads, spaces, &directive.form, rest.first(), &mut imports)?;
        rest = behind_first(rest);
    }
    Ok(imports)
}
