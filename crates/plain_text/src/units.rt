//! UTF-16 code units.

ghost use Rattle.std.specs.Prelude.{◌≡◌, ◌*◌, ◌≤◌, length};
ghost use Rattle.plain_text.specs.Units.{units_of_byte, units_in};

/// How many UTF-16 code units the character has that begins with the byte; 0 for a byte that
/// continues a character.
pub fn units_of_byte(byte: u8) -> u32
    ensures { result ≡ units_of_byte byte }
{
    if byte < 128 {
        return 1;
    }
    if byte < 192 {
        return 0;
    }
    if byte < 240 {
        return 1;
    }
    2
}

/// The length in UTF-16 code units of a text in UTF-8.
pub fn utf16_len(bytes: &[u8]) -> u64
    ensures count { result ≡ units_in bytes.now }
    ensures within { result ≤ 2 * length bytes.now }
{
    let mut count: u64 = 0;
    for byte in bytes {
        count += u64::from(units_of_byte(*byte));
    }
    count
}
