//! Names, looked up.

ghost use Rattle.std.specs.Prelude.{◌≡◌, ◌==◌, fold};
ghost use Rattle.std.specs.List.{list_any};
ghost use Rattle.std.specs.Option.{option_copied};
ghost use Rattle.namespaces.specs.Lookups.{found_behind, found_in, is_prefix, meanings_of, names_prefix, same_prefix, sees_core, with_core, with_import, with_pair};

use crate::elements::{ElementId, Exported};
use crate::found::{Found, Meanings};
use crate::scopes::{Import, Scope};
use element_terms::{declared_place, is_private, means};
use plain_text::PlainText;

/// What a name means at the top level of a library: what the library declares, else what its imports
/// without a prefix bring. It takes no memory. A prefix is a name of the library's own that means no
/// element. The setter that goes with a name is looked up by its own name, which ends in `=`.
pub fn lookup(scope: &Scope, name: &str) -> Found
    ensures { result ≡ found_in scope.now name.now }
{
    if is_prefix(scope.imports.as_slice(), name) {
        return Found::Nothing;
    }
    match declared_place(&scope.library, name) {
        Some(place) => Found::One(ElementId {
            library: scope.library.id,
            place,
        }),
        None => {
            let imported = meanings_of(scope.imports.as_slice(), None, name);
            with_core(scope, name, imported).chosen()
        }
    }
}

/// What a name behind a prefix means: what the imports with that prefix bring. It takes no memory.
pub fn lookup_behind(scope: &Scope, prefix: &str, name: &str) -> Found
    ensures { result ≡ found_behind scope.now prefix.now name.now }
{
    meanings_of(scope.imports.as_slice(), Some(prefix), name).chosen()
}

/// Whether a name is a prefix of an import, or that of the setter that goes with one.
fn is_prefix(imports: &[Import], name: &str) -> bool
    ensures { result ≡ is_prefix imports.now name.now }
{
    imports
        .iter()
        .any(|import| names_prefix(&import.prefix, name))
}

/// Whether a name is this prefix, or that of the setter that goes with it.
fn names_prefix(prefix: &Option<PlainText>, name: &str) -> bool
    ensures { result ≡ names_prefix prefix.now name.now }
{
    match prefix {
        None => false,
        Some(prefix) => means(prefix.as_str(), name),
    }
}

/// What the imports with this prefix, or without one, bring under a name.
fn meanings_of(imports: &[Import], prefix: Option<&str>, name: &str) -> Meanings
    ensures { result ≡ meanings_of imports.now (option_copied prefix.entry) name.now }
{
    let mut meanings = Meanings::none();
    for import in imports {
        meanings = with_import(meanings, import, prefix, name);
    }
    meanings
}

/// What one import adds, if it has the prefix and its combinators let the name pass.
fn with_import(meanings: Meanings, import: &Import, prefix: Option<&str>, name: &str) -> Meanings
    ensures { result ≡ with_import (option_copied prefix.entry) name.now meanings import.now }
{
    if has_prefix(&import.prefix, prefix) && import.combinators.brings(name) {
        return with_pairs(meanings, import.exported.as_slice(), name);
    }
    meanings
}

/// Whether an import has this prefix, or none.
fn has_prefix(written: &Option<PlainText>, prefix: Option<&str>) -> bool
    ensures { result ≡ same_prefix (option_copied prefix.entry) written.now }
{
    match prefix {
        None => written.is_none(),
        Some(prefix) => match written {
            None => false,
            Some(written) => prefix == written.as_str(),
        },
    }
}

/// What `dart:core` adds, where the library has no import of it written.
fn with_core(scope: &Scope, name: &str, meanings: Meanings) -> Meanings
    ensures { result ≡ with_core scope.now name.now meanings }
{
    if sees_core(scope) || is_private(name) {
        return meanings;
    }
    with_pairs(meanings, scope.core.as_slice(), name)
}

/// Whether a library is `dart:core` or has an import of it written.
fn sees_core(scope: &Scope) -> bool
    ensures { result ≡ sees_core scope.now }
{
    if scope.library.id.0 == 0 {
        return true;
    }
    imports_core(scope.imports.as_slice())
}

/// Whether `dart:core` is among the imports.
fn imports_core(imports: &[Import]) -> bool
    ensures { result ≡ list_any (λ i. i.library.0 == 0) imports.now }
{
    imports.iter().any(|import| import.library.0 == 0)
}

/// What the pairs of this name add.
fn with_pairs(meanings: Meanings, pairs: &[Exported], name: &str) -> Meanings
    ensures { result ≡ fold (with_pair name.now) meanings pairs.now }
{
    let mut all = meanings;
    for pair in pairs {
        all = with_pair(all, pair, name);
    }
    all
}

/// What a pair adds, if it has the name.
fn with_pair(meanings: Meanings, pair: &Exported, name: &str) -> Meanings
    ensures { result ≡ with_pair name.now meanings pair.now }
{
    if pair.name.as_str() == name {
        return meanings.with_element(pair.element);
    }
    meanings
}
