//! The UTF-16 code units of bytes.

ghost use Rattle.std.specs.Prelude.{◌≡◌, ◌+◌, ◌*◌, ◌^◌, ◌<◌, ◌≤◌, ◌++◌, length, true, IfOk, OnOk};
ghost use Rattle.std.specs.List.{flat_map};
ghost use Rattle.std.specs.Str.{IsAscii, continuation_len, lead_bits};
ghost use Rattle.std.specs.Char.Escape.{encode_utf16};
ghost use Rattle.plain_text.specs.Units.{units_in};
ghost use Rattle.dart_text.specs.Units.{units_of};
ghost use Rattle.dart_scan.specs.Decoding.{most_bits, begun_after, ended};

use plain_text::utf16_len;
use std::alloc::{AllocError, Global};

/// How many bytes follow the first byte of a character.
fn continuation_len(lead: u8) -> u32
    ensures value { result ≡ continuation_len lead }
    ensures few { result ≤ 3 }
{
    if lead < 128 {
        return 0;
    }
    if lead < 224 {
        return 1;
    }
    if lead < 240 {
        return 2;
    }
    3
}

/// The bits of a character that its first byte holds.
fn lead_bits(lead: u8) -> u32
    ensures { result ≡ lead_bits lead }
{
    let bits = u32::from(lead);
    if lead < 128 {
        return bits;
    }
    if lead < 224 {
        return bits.saturating_sub(192);
    }
    if lead < 240 {
        return bits - 224;
    }
    bits - 240
}

/// The one or two code units of a code point, behind those that are there.
pub fn push_code(units: &mut Vec<u16>, code: u32) -> Result<(), AllocError>
    requires { code < 2 ^ 23 }
    ensures units { OnOk result (units.new.items ≡ units.old.items ++ encode_utf16 code) }
    ensures few { OnOk result (length units.new.items ≤ length units.old.items + 2) }
{
    if code < 0x1_0000 {
        units.push(code as u16)?;
        return Ok(());
    }
    let above = code - 0x1_0000;
    units.push((0xD800 + above / 0x400) as u16)?;
    units.push((0xDC00 + above % 0x400) as u16)?;
    Ok(())
}

/// A character whose first bytes have been read: its bits so far, and how many bytes are to come.
#[derive(Clone, Copy, Debug, PartialEq, Eq)]
struct Begun {
    code: u32,
    more: u32,
}

impl Begun {
    /// The character after one byte more.
    fn after(self, byte: u8) -> Begun
        requires more { self.more ≤ 3 }
        requires bits { self.code ≤ most_bits self.more }
        ensures begun { result ≡ begun_after self byte }
        ensures more { result.more ≤ 3 }
        ensures bits { result.code ≤ most_bits result.more }
    {
        if self.more == 0 {
            return Begun {
                code: lead_bits(byte),
                more: continuation_len(byte),
            };
        }
        Begun {
            code: self.code * 64 + u32::from(byte.saturating_sub(128)),
            more: self.more - 1,
        }
    }
}

/// The units of the character, if no byte of it is to come, behind those that are there.
fn push_ended(units: &mut Vec<u16>, begun: Begun) -> Result<(), AllocError>
    requires { begun.code ≤ most_bits begun.more }
    ensures units { OnOk result (units.new.items ≡ units.old.items ++ flat_map encode_utf16 (ended begun)) }
    ensures few { OnOk result (length units.new.items ≤ length units.old.items + 2) }
{
    if begun.more == 0 {
        push_code(units, begun.code)?;
    }
    Ok(())
}

/// The code units of a text, or of bytes where a text was cut; a character that is cut off has none.
pub fn units_of(alloc: Global, bytes: &[u8]) -> Result<Vec<u16>, AllocError>
    ensures units { IfOk result (λ units. units.items ≡ units_of bytes.now) }
    ensures few { IfOk result (λ units. length units.items ≤ 2 * length bytes.now) }
{
    let mut units = Vec::with_capacity(alloc, bytes.len())?;
    let mut begun = Begun { code: 0, more: 0 };
    for byte in bytes {
        begun = begun.after(*byte);
        push_ended(&mut units, begun)?;
    }
    Ok(units)
}

/// How many code units a part of a text has; where all of the text is ASCII, they aren't counted.
pub fn units_in(is_ascii: bool, part: &str) -> u64
    requires { is_ascii ≡ true → IsAscii part.now }
    ensures count { result ≡ units_in part.now }
    ensures within { result ≤ 2 * length part.now }
{
    if is_ascii {
        return part.len() as u64;
    }
    utf16_len(part.as_bytes())
}
