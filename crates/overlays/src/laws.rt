//! Laws of overlays, in the words of their definitions. Each is the contract of a function that does
//! no work.

ghost use Rattle.std.specs.Prelude.{◌≡◌, ◌≢◌, ℕ, List, [], ◌∷◌, ◌++◌, All, Some, None, Ok, Err, IfOk};
ghost use Rattle.dart_text.specs.Edits.{edited};
ghost use Rattle.dart_text.specs.declared.edit.EditRefusal.{EditRefusal};
ghost use Rattle.proto_json.specs.declared.overlay.OverlayEdit.{OverlayEdit};
ghost use Rattle.overlays.specs.Tables.{PathsAndTexts, IsInOrder, KeepsText, text_in, put_text, drop_text};
ghost use Rattle.overlays.specs.Applied.{edited_by, applied};
ghost use Rattle.overlays.specs.OneFile.{GivesOneFile};
ghost use Rattle.overlays.specs.declared.refusal.OverlayRefusal.{OverlayRefusal};

use crate::overlays::Overlays;
use dart_text::Text;
use proto_json::{FileOverlay, OverlayEdit};

/// A text that was put at a path is found there, and every other path has the text that it had.
pub fn put_changes_one_text(_overlays: &Overlays, _path: &str, _text: &Text, _other: &str)
    ensures there { text_in _path.now (put_text _path.now _text.now _overlays.now) ≡ Some _text.now }
    ensures others { _other.now ≢ _path.now → KeepsText _other.now _overlays.now (put_text _path.now _text.now _overlays.now) }
{}

/// A text that was dropped is found no more, and every other path has the text that it had.
pub fn drop_changes_one_text(_overlays: &Overlays, _path: &str, _other: &str)
    ensures gone { text_in _path.now (drop_text _path.now _overlays.now) ≡ None }
    ensures others { _other.now ≢ _path.now → KeepsText _other.now _overlays.now (drop_text _path.now _overlays.now) }
{}

/// Overlays are no more than the text of each path: those among which every path finds the same are
/// the same.
pub fn overlays_are_their_texts(overlays: &Overlays, others: &Overlays)
    ensures { ((path : List ℕ) → text_in path overlays.now ≡ text_in path others.now) → overlays.now ≡ others.now }
{
    overlays.paths_are_in_order();
    others.paths_are_in_order();
}

/// A request of one file has exactly these answers: the overlays with the text that is added or that the edits leave, or without
/// the text that is removed, and a refusal exactly as that text is refused.
pub fn one_file_gets_its_text(_overlays: &Overlays, _file: &FileOverlay)
    ensures { GivesOneFile _file.now _overlays.now }
{}

/// A path that no file of a request has keeps the text that it had.
pub fn request_changes_no_other_file(_overlays: &Overlays, _files: &[FileOverlay], _other: &str)
    ensures { All (λ file. _other.now ≢ file.path) _files.now → IfOk (applied _files.now _overlays.now) (KeepsText _other.now _overlays.now) }
{}

/// The files of a request apply in turn: those behind some first ones apply to the overlays that
/// these leave, and are not looked at where one of these is refused. No file changes nothing.
pub fn files_apply_in_turn(_overlays: &Overlays, _files: &[FileOverlay], _others: &[FileOverlay])
    ensures none { applied [] _overlays.now ≡ Ok _overlays.now }
    ensures goes_on { (after : PathsAndTexts) → applied _files.now _overlays.now ≡ Ok after
        → applied (_files.now ++ _others.now) _overlays.now ≡ applied _others.now after }
    ensures stops { (refusal : OverlayRefusal) → applied _files.now _overlays.now ≡ Err refusal
        → applied (_files.now ++ _others.now) _overlays.now ≡ Err refusal }
{}

/// The edits of a file apply in turn: those behind some first ones apply to the text that these
/// leave, and are not looked at where one of these is refused. One edit is an edit of the text.
pub fn edits_apply_in_turn(_text: &Text, _edits: &[OverlayEdit], _others: &[OverlayEdit])
    ensures none { edited_by [] _text.now ≡ Ok _text.now }
    ensures one { (edit : OverlayEdit) → edited_by (edit ∷ []) _text.now ≡ edited _text.now edit.offset edit.length edit.replacement }
    ensures goes_on { (after : List ℕ) → edited_by _edits.now _text.now ≡ Ok after
        → edited_by (_edits.now ++ _others.now) _text.now ≡ edited_by _others.now after }
    ensures stops { (refusal : EditRefusal) → edited_by _edits.now _text.now ≡ Err refusal
        → edited_by (_edits.now ++ _others.now) _text.now ≡ Err refusal }
{}

/// The overlays that a request leaves stand in the order of their paths, each path once.
pub fn request_keeps_the_order(overlays: &Overlays, _files: &[FileOverlay])
    ensures { IfOk (applied _files.now overlays.now) (λ after. IsInOrder after) }
{
    overlays.paths_are_in_order();
}
