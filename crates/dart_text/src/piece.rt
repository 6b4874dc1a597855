//! A piece of a text.

ghost use Rattle.std.specs.Prelude.{◌≡◌, string_bytes};
ghost use Rattle.plain_text.specs.Units.{units_in};

use plain_text::utf16_len;

/// A piece of a text, and how many UTF-16 code units it has.
#[derive(Debug, Drop)]
pub(crate) struct Piece {
    text: String,
    units: u64,
    ghost counted: { units ≡ units_in (string_bytes text) },
}

impl Piece {
    /// The piece that the text is.
    pub(crate) fn new(text: String) -> Piece
        ensures { string_bytes result.text ≡ string_bytes text }
    {
        let units = utf16_len(text.as_str().as_bytes());
        Piece { text, units }
    }

    /// Its text.
    pub(crate) fn as_str(&self) -> &str
        ensures { result.now ≡ string_bytes self.now.text }
    {
        self.text.as_str()
    }

    /// How many UTF-16 code units it has.
    pub(crate) fn units(&self) -> u64
        ensures { result ≡ units_in (string_bytes self.now.text) }
    {
        self.units
    }
}
