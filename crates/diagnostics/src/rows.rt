//! The rows of faults.

ghost use Rattle.std.specs.Prelude.{◌≡◌, IfOk};
ghost use Rattle.diagnostics.specs.Rendering.{row_at, rows_of};

use crate::code::{code_name, error_kind, message};
use dart_text::{Position, Positions, Text};
use judgement::Fault;
use proto_json::{ErrorRow, ErrorRows, FixedText, Location, Severity, SharedText};
use std::alloc::{AllocError, Global};

/// The row of a fault of a file that starts at the position; it shares the path.
pub fn render_at(
    file: &SharedText,
    position: Position,
    fault: Fault,
) -> Result<ErrorRow, AllocError>
    ensures { IfOk result (λ row. row ≡ row_at file.now position fault) }
{
    let file = file.share()?;
    Ok(ErrorRow {
        code: FixedText::new(code_name(fault.code)),
        location: Location {
            file,
            offset: fault.span.start,
            length: fault.span.end.saturating_sub(fault.span.start),
            start_line: position.line,
            start_column: position.column,
        },
        message: FixedText::new(message(fault.code)),
        severity: Severity::Error,
        kind: error_kind(fault.code),
    })
}

/// The rows of the faults of a file's text, in the order of the faults. Faults in rising order of
/// their starts cost one walk over the text; each that stands before the one ahead of it costs
/// another. The rows share the path, and take as much memory as they have fields.
pub fn render(
    alloc: Global,
    file: &str,
    text: &Text,
    faults: &[Fault],
) -> Result<ErrorRows, AllocError>
    ensures { IfOk result (λ rows. rows ≡ rows_of file.now text.now faults.now) }
{
    let mut positions = Positions::of(text);
    let file = SharedText::new(alloc, file)?;
    let mut rows = Vec::with_capacity(alloc, faults.len())?;
    for fault in faults {
        let position = positions.at(fault.span.start);
        let row = render_at(&file, position, *fault)?;
        rows.push(row)?;
    }
    Ok(ErrorRows::from_vec(rows))
}
