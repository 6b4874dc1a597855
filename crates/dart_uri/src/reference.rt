//! References.

ghost use Rattle.std.specs.Prelude.{◌≡◌, ◌==◌, ◌||◌, [], map, Some, None, option_map, option_and_then, IfOk, if◌then◌else◌};
ghost use Rattle.std.specs.List.{list_any};
ghost use Rattle.fault_io.specs.Paths.{after_front};
ghost use Rattle.dart_uri.specs.References.{before_slash, decoded, has_scheme, has_more_parts, from_of, located, resolved, resolved_from};
ghost use Rattle.dart_uri.specs.Segments.{walked, segments_of};

use crate::segments::{path_of, walk};
use percent_encoding::percent_decode;
use plain_text::PlainText;
use std::alloc::{AllocError, Global};
use std::str;

/// Where the path of a reference begins.
#[derive(Clone, Copy, Debug, PartialEq, Eq)]
pub(crate) enum Start {
    /// At the root.
    Root,
    /// At the folder in which the reference stands.
    Folder,
}

/// What follows this front, in a text that begins with it.
fn after_front<'t>(front: &str, text: &'t str) -> Option<&'t str>
    ensures { option_map (λ rest. rest.now) result ≡ after_front front.now text.now }
{
    text.strip_prefix(front)
}

/// Whether a reference has a query or a fragment.
fn has_more_parts(reference: &str) -> bool
    ensures { result ≡ has_more_parts reference.now }
{
    reference
        .as_bytes()
        .iter()
        .any(|byte| *byte == b'?' || *byte == b'#')
}

/// The text before the first slash.
fn before_slash(reference: &str) -> &str
    ensures { result.now ≡ before_slash reference.now }
{
    match reference.split_once('/') {
        Some((front, _)) => front,
        None => reference,
    }
}

/// Whether a reference has a scheme: a colon stands before its first slash.
fn has_scheme(reference: &str) -> bool
    ensures { result ≡ has_scheme reference.now }
{
    before_slash(reference)
        .as_bytes()
        .iter()
        .any(|byte| *byte == b':')
}

/// Where the path of a reference begins, and the path, with its escapes; nothing for a reference of
/// another form.
fn located(reference: &str) -> Option<(Start, &str)>
    ensures { option_map (λ found. (found.0, found.1.now)) result ≡ located reference.now }
{
    if has_more_parts(reference) {
        return None;
    }
    if let Some(rest) = after_front("file:///", reference) {
        return Some((Start::Root, rest));
    }
    if has_scheme(reference) {
        return None;
    }
    if let Some(rest) = after_front("/", reference) {
        return Some((Start::Root, rest));
    }
    Some((Start::Folder, reference))
}

/// Goes to where the path of a reference begins. It answers whether there is such a path, and leaves
/// nothing to rely on if not.
#[tactic(auto, unfolding(crate::specs::References::from_of))]
fn begin<'t>(path: &mut Vec<&'t str>, folder: &'t str, start: Start) -> Result<bool, AllocError>
    requires { path.old.items ≡ [] }
    ensures { IfOk result (λ there. from_of folder.now start ≡ (if there then Some (map (λ s. s.now) path.new.items) else None)) }
{
    match start {
        Start::Root => Ok(true),
        Start::Folder => match after_front("/", folder) {
            Some(rest) => walk(path, rest),
            None => Ok(false),
        },
    }
}

/// The path that a text leads to from a folder, or from the root.
#[tactic(auto, unfolding(crate::specs::References::resolved_from))]
fn resolved_from(
    alloc: Global,
    folder: &str,
    start: Start,
    text: &str,
) -> Result<Option<PlainText>, AllocError>
    ensures { IfOk result (λ path. path ≡ resolved_from folder.now start text.now) }
{
    let mut segments = Vec::new(alloc);
    if !begin(&mut segments, folder, start)? {
        return Ok(None);
    }
    if !walk(&mut segments, text)? {
        return Ok(None);
    }
    let path = path_of(alloc, &segments)?;
    Ok(Some(path))
}

/// The text that an escaped one stands for, if it is UTF-8.
fn decoded(alloc: Global, escaped: &str) -> Result<Option<PlainText>, AllocError>
    ensures { IfOk result (λ text. text ≡ decoded escaped.now) }
{
    let mut bytes = Vec::new(alloc);
    percent_decode(escaped.as_bytes()).append_to(&mut bytes)?;
    match str::from_utf8(&bytes) {
        Ok(text) => {
            let text = PlainText::new(alloc, text)?;
            Ok(Some(text))
        }
        Err(_) => Ok(None),
    }
}

/// The absolute and normalized path that a URI reference in this folder names: one that begins with
/// `file:///` or `/` from the root, one without a scheme from the folder. It is decoded, and then its
/// dot segments are removed; a slash at the end says nothing. None for a reference with another
/// scheme, a query or a fragment, for bytes that aren't UTF-8, and where a `..` leads past the root
/// or a segment is empty or has a NUL.
pub fn resolved(
    alloc: Global,
    folder: &str,
    reference: &str,
) -> Result<Option<PlainText>, AllocError>
    ensures { IfOk result (λ path. path ≡ resolved folder.now reference.now) }
{
    let Some((start, escaped)) = located(reference) else {
        return Ok(None);
    };
    let Some(text) = decoded(alloc, escaped)? else {
        return Ok(None);
    };
    resolved_from(alloc, folder, start, text.as_str())
}
