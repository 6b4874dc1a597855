//! A law of the lines of a text.

ghost use Rattle.std.specs.Prelude.{◌≡◌, ℕ, false, List, ◌++◌};
ghost use Rattle.fault_io.specs.Lines.{has_line_feed, lines_of};
ghost use Rattle.serve_loop.specs.Replies.{text_of};
ghost use Rattle.serve_loop.specs.Turn.{AreLines};

/// The finished lines of a text of lines, each with its line feed, and of a rest without one, are
/// those lines.
pub fn lines_law()
    ensures whole { (lines : List (List ℕ)) (rest : List ℕ) → AreLines lines → has_line_feed rest ≡ false → lines_of false (text_of lines ++ rest) ≡ lines }
{}
