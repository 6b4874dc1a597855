//! What is wrong with a piece.

ghost use Rattle.std.specs.Prelude.{◌≡◌, ◌+◌, ◌*◌, ◌^◌, ◌<◌, ◌++◌, OnOk, length};
ghost use Rattle.plain_text.specs.Units.{units_in};
ghost use Rattle.dart_scan.specs.declared.piece.Class.TheVariants.{StringLiteral};
ghost use Rattle.dart_scan.specs.Faults.{fault_over, string_fault, escape_faults, faults_of_piece};

use crate::escape::push_bad_escapes;
use crate::piece::Class;
use crate::units::units_of;
use dart_tokens::{LexFault, LexFaultKind};
use std::alloc::{AllocError, Global};

/// A fault over a whole piece, behind those that are there.
fn push_over(
    faults: &mut Vec<LexFault>,
    kind: LexFaultKind,
    start: u32,
    end: u32,
    bytes: &[u8],
) -> Result<(), AllocError>
    requires { end ≡ start + units_in bytes.now }
    ensures { OnOk result (faults.new.items ≡ faults.old.items ++ fault_over kind start bytes.now) }
{
    faults.push(LexFault { kind, start, end })?;
    Ok(())
}

/// The fault of a string that never ends, from its quote on, behind those that are there.
fn push_string_fault(
    faults: &mut Vec<LexFault>,
    start: u32,
    end: u32,
    bytes: &[u8],
) -> Result<(), AllocError>
    requires end { end ≡ start + units_in bytes.now }
    requires short { start + 1 < 2 ^ 32 }
    ensures { OnOk result (faults.new.items ≡ faults.old.items ++ string_fault start bytes.now) }
{
    let kind = LexFaultKind::UnterminatedString;
    if bytes.starts_with(b"r") {
        let start = start + 1;
        faults.push(LexFault { kind, start, end })?;
        return Ok(());
    }
    faults.push(LexFault { kind, start, end })?;
    Ok(())
}

/// The faults of the bad escapes in a piece of a string, behind those that are there.
fn push_escape_faults(
    alloc: Global,
    faults: &mut Vec<LexFault>,
    start: u32,
    bytes: &[u8],
) -> Result<(), AllocError>
    requires { start + 2 * length bytes.now < 2 ^ 32 }
    ensures { OnOk result (faults.new.items ≡ faults.old.items ++ escape_faults start bytes.now) }
{
    let units = units_of(alloc, bytes)?;
    push_bad_escapes(faults, start, units.as_slice())
}

/// The faults of a string without interpolations, which has no escapes if it is raw, behind those
/// that are there.
fn push_literal_faults(
    alloc: Global,
    faults: &mut Vec<LexFault>,
    start: u32,
    bytes: &[u8],
) -> Result<(), AllocError>
    requires { start + 2 * length bytes.now < 2 ^ 32 }
    ensures { OnOk result (faults.new.items ≡ faults.old.items ++ faults_of_piece StringLiteral start bytes.now) }
{
    if bytes.starts_with(b"r") {
        return Ok(());
    }
    push_escape_faults(alloc, faults, start, bytes)
}

/// What is wrong with a piece of the class between these offsets, behind what is there.
pub fn push_faults(
    alloc: Global,
    faults: &mut Vec<LexFault>,
    class: Class,
    start: u32,
    end: u32,
    bytes: &[u8],
) -> Result<(), AllocError>
    requires end { end ≡ start + units_in bytes.now }
    requires short { start + 2 * length bytes.now + 1 < 2 ^ 32 }
    ensures { OnOk result (faults.new.items ≡ faults.old.items ++ faults_of_piece class start bytes.now) }
{
    match class {
        Class::UnterminatedComment => {
            push_over(faults, LexFaultKind::UnterminatedComment, start, end, bytes)
        }
        Class::UnterminatedString => push_string_fault(faults, start, end, bytes),
        Class::IllegalCharacter => {
            push_over(faults, LexFaultKind::IllegalCharacter, start, end, bytes)
        }
        Class::BeyondAscii => {
            push_over(faults, LexFaultKind::ProfileIdentifier, start, end, bytes)
        }
        Class::StringLiteral => push_literal_faults(alloc, faults, start, bytes),
        Class::StringOpening | Class::StringPart | Class::StringClosing => {
            push_escape_faults(alloc, faults, start, bytes)
        }
        Class::Gap
        | Class::Word
        | Class::Integer
        | Class::Double
        | Class::Mark
        | Class::InterpolationMark
        | Class::InterpolationOpening
        | Class::InterpolationClosing => Ok(()),
    }
}
