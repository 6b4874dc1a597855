//! Segments of paths.

ghost use Rattle.std.specs.Prelude.{◌≡◌, ◌≤◌, length, [], ◌∷◌, ◌==◌, ◌++◌, map, Some, None, option_map, string_bytes, IfOk, OnOk, if◌then◌else◌};
ghost use Rattle.std.specs.List.{slice_split};
ghost use Rattle.fault_io.specs.Paths.{slash, is_segment};
ghost use Rattle.dart_uri.specs.Segments.{segments_of, walked, after_segment, path_of, pieces_after, left_in, without_last_slash};

use plain_text::PlainText;
use std::alloc::{AllocError, Global};

/// The first piece of a text between slashes, and what follows the slash behind it.
fn first_piece(text: &str) -> (&str, Option<&str>)
    ensures pieces { slice_split (λ byte. byte == slash) text.now ≡ result.0.now ∷ pieces_after (option_map (λ rest. rest.now) result.1) }
    ensures shorter { left_in (option_map (λ rest. rest.now) result.1) ≤ length text.now }
{
    match text.split_once('/') {
        Some((piece, rest)) => (piece, Some(rest)),
        None => (text, None),
    }
}

/// Whether a piece between slashes names something in a folder.
fn is_segment(piece: &str) -> bool
    ensures { result ≡ is_segment piece.now }
{
    match piece.as_bytes() {
        [] | [b'.'] | [b'.', b'.'] => false,
        bytes => !bytes.contains(&0),
    }
}

/// Goes from a path, given by its segments, to one more: `.` stays and `..` goes up. It answers
/// whether there is such a path, and leaves nothing to rely on if not.
fn step<'t>(path: &mut Vec<&'t str>, piece: &'t str) -> Result<bool, AllocError>
    ensures { IfOk result (λ there. after_segment (map (λ s. s.now) path.old.items) piece.now
        ≡ (if there then Some (map (λ s. s.now) path.new.items) else None)) }
{
    if piece == "." {
        return Ok(true);
    }
    if piece == ".." {
        return Ok(path.pop().is_some());
    }
    if !is_segment(piece) {
        return Ok(false);
    }
    path.push(piece)?;
    Ok(true)
}

/// Goes from a path, given by its segments, along the segments of a text. It answers whether there
/// is such a path, and leaves nothing to rely on if not.
pub fn walk<'t>(path: &mut Vec<&'t str>, text: &'t str) -> Result<bool, AllocError>
    ensures { IfOk result (λ there. walked (map (λ s. s.now) path.old.items) (segments_of text.now)
        ≡ (if there then Some (map (λ s. s.now) path.new.items) else None)) }
{
    if text.is_empty() {
        return Ok(true);
    }
    let mut rest = Some(without_last_slash(text));
    while let Some(text) = rest {
        let (piece, more) = first_piece(text);
        if !step(path, piece)? {
            return Ok(false);
        }
        rest = more;
    }
    Ok(true)
}

/// A text without the slash that it ends in.
fn without_last_slash(text: &str) -> &str
    ensures { result.now ≡ without_last_slash text.now }
{
    match text.strip_suffix("/") {
        Some(front) => front,
        None => text,
    }
}

/// Adds a slash and a segment to a text.
#[tactic(auto, using(crate::proofs::PathLemmas::slash_first))]
fn add_segment(path: &mut String, segment: &str) -> Result<(), AllocError>
    ensures { OnOk result (string_bytes path.new ≡ string_bytes path.old ++ (slash ∷ segment.now)) }
{
    path.push_str("/")?;
    path.push_str(segment)?;
    Ok(())
}

/// The path of segments.
pub fn path_of(alloc: Global, segments: &[&str]) -> Result<PlainText, AllocError>
    ensures { IfOk result (λ path. path ≡ path_of (map (λ s. s.now) segments.now)) }
{
    if segments.is_empty() {
        return PlainText::new(alloc, "/");
    }
    let mut path = String::new(alloc);
    for segment in segments {
        add_segment(&mut path, segment)?;
    }
    Ok(PlainText::from_string(path))
}
