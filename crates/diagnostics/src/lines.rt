//! The lines that rows are printed as.

ghost use Rattle.std.specs.Prelude.{◌≡◌, ◌++◌, IfOk, OnOk, codes, decimal};
ghost use Rattle.diagnostics.specs.Rendering.{line_of_row, lines_of_rows};

use itoa::Buffer;
use proto_json::ErrorRow;
use std::alloc::{AllocError, Global};

// Puts a number and a colon at the end.
fn add_number(line: &mut Vec<u8>, number: u32) -> Result<(), AllocError>
    ensures { OnOk result (line.new.items ≡ line.old.items ++ decimal number ++ codes ":") }
{
    let mut digits = Buffer::new();
    line.extend_from_slice(digits.format(number).as_bytes())?;
    line.push(b':')?;
    Ok(())
}

/// The line that a row is printed as, such as `/a.dart:1:26: unassigned_read: Unassigned read.`,
/// and a line feed.
pub fn line_of(alloc: Global, row: &ErrorRow) -> Result<Vec<u8>, AllocError>
    ensures { IfOk result (λ line. line.items ≡ line_of_row row.now) }
{
    let mut line = Vec::from_slice(alloc, row.location.file.as_str().as_bytes())?;
    line.push(b':')?;
    add_number(&mut line, row.location.start_line)?;
    add_number(&mut line, row.location.start_column)?;
    line.push(b' ')?;
    line.extend_from_slice(row.code.as_str().as_bytes())?;
    line.extend_from_slice(b": ")?;
    line.extend_from_slice(row.message.as_str().as_bytes())?;
    line.push(b'\n')?;
    Ok(line)
}

/// The lines of rows, one after another.
pub fn lines_of(alloc: Global, rows: &[ErrorRow]) -> Result<Vec<u8>, AllocError>
    ensures { IfOk result (λ lines. lines.items ≡ lines_of_rows rows.now) }
{
    let mut lines = Vec::new(alloc);
    for row in rows {
        let line = line_of(alloc, row)?;
        lines.extend_from_slice(line.as_slice())?;
    }
    Ok(lines)
}
