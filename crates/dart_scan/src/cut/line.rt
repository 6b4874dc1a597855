//! The end of the line of a place.

ghost use Rattle.std.specs.Prelude.{◌≡◌, ◌+◌, ◌≤◌, drop, length};
ghost use Rattle.dart_scan.specs.Characters.{is_within_line};
ghost use Rattle.dart_scan.specs.Lexemes.{run};
ghost use Rattle.dart_scan.specs.Cutting.{Ends};

use crate::cut::lexeme::rest_of_line;

/// The end of a line, which is kept for all places of the line from one on. Each line is looked through
/// once. Places are in bytes from 0.
#[derive(Clone, Copy, Debug)]
pub struct Line {
    pub from: usize,
    pub end: usize,
}

impl Line {
    /// The line at a place of the text.
    pub fn at(text: &[u8], from: usize) -> Line
        requires { from ≤ length text.now }
        ensures ends { Ends text.now result }
        ensures from { result.from ≡ from }
    {
        Line {
            from,
            end: from + rest_of_line(&text[from..]),
        }
    }

    /// This line, if the place lies in it, or else the line at the place.
    pub fn that_holds(self, text: &[u8], at: usize) -> Line
        requires ends { Ends text.now self }
        requires within { at ≤ length text.now }
        requires from { self.from ≤ at }
        ensures ends { Ends text.now result }
        ensures from { result.from ≤ at }
        ensures end { result.end ≡ at + run is_within_line (drop at text.now) }
    {
        if at <= self.end {
            self
        } else {
            Line::at(text, at)
        }
    }
}
