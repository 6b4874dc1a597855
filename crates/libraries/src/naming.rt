//! The paths that URIs name.

ghost use Rattle.std.specs.Prelude.{◌≡◌, ◌==◌, ◌||◌, ◌++◌, codes, find, option_map, string_bytes, IfOk};
ghost use Rattle.std.specs.Option.{option_copied};
ghost use Rattle.fault_io.specs.Paths.{after_front};
ghost use Rattle.dart_uri.specs.References.{has_more_parts};
ghost use Rattle.libraries.specs.Naming.{behind_package, ends_as_folder, folder_of_package, folder_from, is_core, named_path, names_entry, path_beside, path_in_package, split_at_slash};

use dart_uri::resolved;
use load_files::{Package, Packages};
use percent_encoding::percent_decode;
use plain_text::PlainText;
use std::alloc::{AllocError, Global};

/// Whether a text is the path of `dart:core`, which is its URI too.
fn is_core(text: &str) -> bool
    ensures { result ≡ is_core text.now }
{
    text == "dart:core"
}

/// What follows `package:`, in a URI that begins so.
fn behind_package(text: &str) -> Option<&str>
    ensures { option_map (λ rest. rest.now) result ≡ behind_package text.now }
{
    text.strip_prefix("package:")
}

/// What stands before the first slash of a text, and what behind it, if it has one.
fn split_at_slash(text: &str) -> Option<(&str, &str)>
    ensures { option_map (λ parts. (parts.0.now, parts.1.now)) result ≡ split_at_slash text.now }
{
    text.split_once('/')
}

/// Whether a URI has a query or a fragment.
fn has_more_parts(reference: &str) -> bool
    ensures { result ≡ has_more_parts reference.now }
{
    reference
        .as_bytes()
        .iter()
        .any(|byte| *byte == b'?' || *byte == b'#')
}

/// The package of this name.
fn package_named<'p>(packages: &'p [Package], name: &str) -> Option<&'p Package>
    ensures { option_map (λ p. p.now.folder) result ≡ folder_of_package packages.now name.now }
{
    packages
        .iter()
        .find(|package| package.name.as_str() == name)
}

/// A reference that goes on from a folder, whatever it begins with.
fn folder_from(alloc: Global, path: &str) -> Result<String, AllocError>
    ensures { IfOk result (λ reference. string_bytes reference ≡ folder_from path.now) }
{
    let mut reference = String::from_str(alloc, "./")?;
    reference.push_str(path)?;
    Ok(reference)
}

/// The path that the rest of a `package:` URI names.
fn path_in_package(
    alloc: Global,
    packages: &[Package],
    rest: &str,
) -> Result<Option<PlainText>, AllocError>
    ensures { IfOk result (λ path. path ≡ path_in_package packages.now rest.now) }
{
    if has_more_parts(rest) {
        return Ok(None);
    }
    let Some((name, path)) = split_at_slash(rest) else {
        return Ok(None);
    };
    let Some(package) = package_named(packages, name) else {
        return Ok(None);
    };
    let reference = folder_from(alloc, path)?;
    resolved(alloc, package.folder.as_str(), reference.as_str())
}

/// The path that a reference names that stands in the file at a path.
fn path_beside(alloc: Global, file: &str, text: &str) -> Result<Option<PlainText>, AllocError>
    ensures { IfOk result (λ path. path ≡ path_beside file.now text.now) }
{
    let Some(folder) = resolved(alloc, file, "..")? else {
        return Ok(None);
    };
    resolved(alloc, folder.as_str(), text)
}

/// Whether a path ends as that of a folder may: in a slash, or in `.` or `..` behind one.
fn ends_as_folder(path: &[u8]) -> bool
    ensures { result ≡ ends_as_folder path.now }
{
    path.ends_with("/".as_bytes())
        || path.ends_with("/.".as_bytes())
        || path.ends_with("/..".as_bytes())
}

/// Whether the last segment of a URI, with its escapes decoded, is the name of an entry: not empty, `.`
/// or `..`.
fn names_entry(alloc: Global, text: &str) -> Result<bool, AllocError>
    ensures { IfOk result (λ named. named ≡ names_entry text.now) }
{
    let mut path = Vec::new(alloc);
    path.push(b'/')?;
    percent_decode(text.as_bytes()).append_to(&mut path)?;
    Ok(!ends_as_folder(path.as_slice()))
}

/// The path that a URI names that stands in the file at a path: `dart:core` names its own library,
/// `package:` what stands in the folder of a package, and all else what the reference names from the
/// folder of the file. A URI whose last segment is no name, as that of the empty one, names nothing.
/// Whether there is such a file isn't asked.
pub fn named_path(
    alloc: Global,
    packages: &Packages,
    file: &str,
    text: &str,
) -> Result<Option<PlainText>, AllocError>
    ensures { IfOk result (λ path. path ≡ named_path packages.now file.now text.now) }
{
    if !names_entry(alloc, text)? {
        return Ok(None);
    }
    if is_core(text) {
        return Ok(Some(PlainText::new(alloc, text)?));
    }
    match behind_package(text) {
        Some(rest) => path_in_package(alloc, packages.as_slice(), rest),
        None => path_beside(alloc, file, text),
    }
}
