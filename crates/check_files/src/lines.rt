//! The lines that findings are printed as.

ghost use Rattle.std.specs.Prelude.{◌≡◌, ◌++◌, [], IfOk, OnOk};
ghost use Rattle.std.specs.Option.{option_copied};
ghost use Rattle.dart_text.specs.Lines.{position_of};
ghost use Rattle.diagnostics.specs.Rendering.{line_of_row, row_at};
ghost use Rattle.check_files.specs.Lent.{table_view};
ghost use Rattle.libraries.specs.Naming.{core_path};
ghost use Rattle.check_files.specs.Lines.{HasText, TextIs, lines_of, text_at, texts_of};

use crate::findings::Finding;
use crate::lent::{LentFile, empty_text, text_in};
use dart_text::{Position, Positions, Text};
use diagnostics::{line_of, render_at};
use proto_json::SharedText;
use std::alloc::{AllocError, Global};

/// The path of the file at a place among all files, `dart:core` before these.
pub fn path_at<'f>(files: &[LentFile<'f>], place: usize) -> &'f str
    ensures { result.now ≡ (text_at (texts_of (table_view files.now)) place).0 }
{
    if place == 0 {
        return "dart:core";
    }
    match files.get(place - 1) {
        Some(file) => file.path,
        None => "dart:core",
    }
}

/// The text that the file at a place among all files holds, if it holds one.
pub fn text_held<'f>(files: &[LentFile<'f>], place: usize) -> Option<&'f Text>
    ensures { TextIs (text_at (texts_of (table_view files.now)) place).1 (option_copied result) }
{
    if place == 0 {
        return None;
    }
    match files.get(place - 1) {
        Some(file) => text_in(file.contents),
        None => None,
    }
}

/// The position of an offset in the text of the file at a place, from where one was found before.
fn position_in<'f>(
    files: &[LentFile<'f>],
    empty: &Text,
    place: &mut usize,
    positions: &mut Option<Positions<'f>>,
    found: Finding,
) -> Position
    requires empty { empty.now ≡ [] }
    requires text { HasText (texts_of (table_view files.now)) place.old positions.old }
    ensures position { result ≡ position_of found.fault.span.start (text_at (texts_of (table_view files.now)) found.file).1 }
    ensures text { HasText (texts_of (table_view files.now)) place.new positions.new }
{
    let Some(text) = text_held(files, found.file) else {
        return Positions::of(empty).at(found.fault.span.start);
    };
    if *place != found.file || positions.is_none() {
        *place = found.file;
        *positions = Some(Positions::of(text));
    }
    match positions {
        Some(positions) => positions.at(found.fault.span.start),
        None => unreachable!(),
    }
}

/// Adds the line of a finding, which starts at this position.
fn add_line(
    alloc: Global,
    path: &str,
    position: Position,
    found: Finding,
    lines: &mut Vec<u8>,
) -> Result<(), AllocError>
    ensures { OnOk result (lines.new.items ≡ lines.old.items ++ line_of_row (row_at path.now position found.fault)) }
{
    let path = SharedText::new(alloc, path)?;
    let row = render_at(&path, position, found.fault)?;
    let line = line_of(alloc, &row)?;
    lines.extend_from_slice(line.as_slice())?;
    Ok(())
}

/// The lines that findings among files are printed as. Findings in their order cost one walk over the
/// text of each file.
pub fn lines_of(
    alloc: Global,
    files: &[LentFile<'_>],
    findings: &[Finding],
) -> Result<Vec<u8>, AllocError>
    ensures { IfOk result (λ lines. lines.items ≡ lines_of (table_view files.now) findings.now) }
{
    let empty = empty_text(alloc)?;
    let mut lines = Vec::new(alloc);
    let mut place = 0;
    let mut positions = None;
    for found in findings {
        let position = position_in(files, &empty, &mut place, &mut positions, *found);
        let path = path_at(files, found.file);
        add_line(alloc, path, position, *found, &mut lines)?;
    }
    Ok(lines)
}
