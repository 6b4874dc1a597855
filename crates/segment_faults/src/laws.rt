//! Laws of the faults of segments, over their definitions alone.

ghost use Rattle.std.specs.Prelude.{◌≡◌, ◌⊎◌, ◌+◌, ℕ, suc, List, ◌∷◌, drop, nat_lt, if◌then◌else◌};
ghost use Rattle.segment_faults.specs.Ends.{ending};
ghost use Rattle.segment_faults.specs.Faults.{fault_of, plain_fault};
ghost use Rattle.segment_faults.specs.Fitting.{FitsFirst, FitsNowhere};
ghost use Rattle.segment_faults.specs.Nesting.{groups_around};

use crate::fault::SegmentFault;
use grammar::Token;

/// A segment's fault is that of a row which fits at a place in it where none fits at an earlier one;
/// where no row fits at any place, it is told by how the segment is nested. One or the other holds.
pub fn the_first_place_counts(_text: &[Token])
    ensures told { (first count : ℕ) (fault : SegmentFault) → FitsFirst _text.now first count fault → fault_of _text.now first count ≡ fault }
    ensures untold { (first count : ℕ) → FitsNowhere _text.now first count → fault_of _text.now first count ≡ plain_fault _text.now first count }
    ensures decided { (first count : ℕ) → FitsFirst _text.now first count (fault_of _text.now first count) ⊎ FitsNowhere _text.now first count }
{}

/// No group is around the first token of a text. Around the token behind another one are the groups
/// around that one, without those that end with it, and its own if it holds tokens.
pub fn groups_begin_and_end(_text: &[Token])
    ensures begin { groups_around 0 _text.now ≡ 0 }
    ensures go_on { (place : ℕ) (t : Token) (ts : List Token) → drop place _text.now ≡ t ∷ ts
        → groups_around (suc place) _text.now + ending place _text.now ≡ groups_around place _text.now + (if nat_lt 0 t.width then 1 else 0) }
{}
