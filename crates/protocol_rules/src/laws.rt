//! Laws of replies and states, over their definitions alone. `specs/Settled.antt` has the last one for proofs.

ghost use Rattle.std.specs.Prelude.{◌≡◌, ◌≢◌, ℕ, Bool, List, [], true, false, Option, Ok, Some, Err};
ghost use Rattle.std.specs.Option.{option_map_or};
ghost use Rattle.fault_io.specs.Stored.{Stored};
ghost use Rattle.serve_loop.specs.Event.{Event, line as line_event};
ghost use Rattle.proto_json.specs.Requests.{IsAsked, answer, head_by};
ghost use Rattle.proto_json.specs.declared.code.Code.{Code};
ghost use Rattle.proto_json.specs.declared.code.Code.TheVariants.{ServerError};
ghost use Rattle.proto_json.specs.declared.overlay.FileOverlay.{FileOverlay};
ghost use Rattle.proto_json.specs.declared.reply.ReplyBody.TheVariants.{Error};
ghost use Rattle.proto_json.specs.declared.request.Request.TheVariants.{Update};
ghost use Rattle.proto_json.specs.declared.request.RequestRefusal.TheVariants.{Memory as request_memory};
ghost use Rattle.load_files.specs.declared.packages.Package.{Package};
ghost use Rattle.overlays.specs.Applied.{applied};
ghost use Rattle.overlays.specs.Tables.{PathsAndTexts};
ghost use Rattle.overlays.specs.declared.refusal.OverlayRefusal.TheVariants.{Memory as overlay_memory};
ghost use Rattle.protocol_rules.specs.Answers.{uses_store};
ghost use Rattle.protocol_rules.specs.Files.{contents_among, current, files_of};
ghost use Rattle.protocol_rules.specs.Limits.{AreWithin};
ghost use Rattle.protocol_rules.specs.State.{State, at_start};
ghost use Rattle.protocol_rules.specs.Turns.{Turn, IsTurn};
ghost use Rattle.protocol_rules.specs.Updates.{TakesAllOrNone};

use crate::contents::Contents;

/// Among all files a path has what it currently has: its overlay, or else what the store had there.
pub fn files_have_what_is_current(_contents: &Contents, _path: &str)
    ensures { contents_among _path.now (files_of _contents.now) ≡ current _contents.now _path.now }
{}

/// A refusal, whatever its code, leaves the state as it was: roots, snapshot and overlays.
pub fn a_refusal_changes_nothing(_contents: &Contents)
    ensures { (told : Option Stored) (mark : Bool) (event : Event) (t : Turn) → IsTurn told mark _contents.now event (Some t)
        → (code : Code) → t.body ≡ Error code → t.after ≡ _contents.now }
{}

/// A reply has the id of the request object that its line is, refused or not, and the empty id
/// where the line is none.
pub fn a_reply_repeats_the_id(_contents: &Contents, _line: &[u8])
    ensures { (told : Option Stored) (mark : Bool) (t : Turn) → IsTurn told mark _contents.now (line_event _line.now) (Some t)
        → t.id ≡ option_map_or (λ h. h.id) (head_by _line.now) [] }
{}

/// The files of an update are all applied, one after another, and the texts are then within the
/// limits; or the update is refused, and the state is as it was.
pub fn an_update_is_taken_whole_or_not_at_all(_contents: &Contents, _line: &[u8])
    ensures { (told : Option Stored) (mark : Bool) (id : List ℕ) (files : List FileOverlay) (t : Turn) → IsAsked _line.now id (Update files)
        → IsTurn told mark _contents.now (line_event _line.now) (Some t) → TakesAllOrNone _contents.now files t }
{}

/// No line is refused for want of memory by the rules, and no files of an update are: the rows of the
/// turns that answer it never come.
pub fn want_of_memory_is_no_answer(_line: &[u8])
    ensures line { answer _line.now ≢ Err request_memory }
    ensures update { (files : List FileOverlay) (overlays : PathsAndTexts) → applied files overlays ≢ Err overlay_memory }
{}

/// At the start files and texts are within the limits, and no event takes them past these, whatever
/// the store has.
pub fn contents_keep_within_the_limits(_contents: &Contents)
    ensures start { (packages : List Package) → AreWithin (at_start packages).snapshot (at_start packages).overlays }
    ensures next { AreWithin _contents.now.snapshot _contents.now.overlays → (told : Option Stored) (mark : Bool) (event : Event) (t : Turn)
        → IsTurn told mark _contents.now event (Some t) → AreWithin t.after.snapshot t.after.overlays }
{}

/// A fault of the store is told exactly where it failed in a line for which it is asked; only lines
/// of `analysis.setAnalysisRoots` and `analysis.reanalyze` are such.
pub fn a_fault_of_the_store_is_told_where_it_came(_contents: &Contents)
    ensures told { (told : Option Stored) (mark : Bool) (event : Event) (t : Turn) → IsTurn told mark _contents.now event (Some t)
        → t.body ≡ Error ServerError → mark ≡ true }
    ensures came { (told : Option Stored) (event : Event) (t : Turn) → uses_store event ≡ true → IsTurn told true _contents.now event (Some t)
        → t.body ≡ Error ServerError }
{}

/// There is one turn at most: of a line for which the store isn't asked whatever the store tells, and
/// of any other where the store tells its files.
pub fn a_turn_is_settled(_contents: &Contents)
    ensures unasked { (told told' : Option Stored) (mark mark' : Bool) (event : Event) (turn turn' : Option Turn) → uses_store event ≡ false
        → IsTurn told mark _contents.now event turn → IsTurn told' mark' _contents.now event turn' → turn ≡ turn' }
    ensures told { (stored : Stored) (mark : Bool) (event : Event) (turn turn' : Option Turn)
        → IsTurn (Some stored) mark _contents.now event turn → IsTurn (Some stored) mark _contents.now event turn' → turn ≡ turn' }
{}
