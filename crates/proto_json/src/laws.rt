//! Laws of requests and replies, over their definitions alone. Each is the contract of a function
//! that does no work.

ghost use Rattle.std.specs.Prelude.{◌≡◌, ℕ, true, List, [], ◌∷◌, ◌++◌};
ghost use Rattle.std.specs.List.{AllPass};
ghost use Rattle.fault_io.specs.Lines.{line_feed};
ghost use Rattle.fault_io.specs.Paths.{is_path};
ghost use Rattle.proto_json.specs.Parameters.{ArePaths, RiseByPath};
ghost use Rattle.proto_json.specs.Replies.{reply_line};
ghost use Rattle.proto_json.specs.Requests.{IsAsked};
ghost use Rattle.proto_json.specs.RowTexts.{rows_text, errors_front, errors_back};
ghost use Rattle.proto_json.specs.declared.overlay.FileOverlay.{FileOverlay};
ghost use Rattle.proto_json.specs.declared.reply.ReplyBody.TheVariants.{Errors};
ghost use Rattle.proto_json.specs.declared.request.Request.TheVariants.{SetRoots, Update, GetErrors};

use crate::reply::ErrorRow;

/// The paths of the files of an update rise strictly, compared byte by byte, in whatever order the
/// line has them: none comes twice.
pub fn files_of_an_update_rise_by_path(_line: &[u8])
    ensures { (id : List ℕ) (files : List FileOverlay) → IsAsked _line.now id (Update files) → RiseByPath files }
{}

/// Each path of a request that is read is absolute and normalized: those of both lists of roots,
/// that of each file of an update, and that of the file whose errors are asked for.
pub fn paths_of_a_request_are_normalized(_line: &[u8])
    ensures roots { (id : List ℕ) (included excluded : List (List ℕ)) → IsAsked _line.now id (SetRoots included excluded) → ArePaths included × ArePaths excluded }
    ensures files { (id : List ℕ) (files : List FileOverlay) → IsAsked _line.now id (Update files) → AllPass (λ file. is_path file.path) files }
    ensures file { (id file : List ℕ) → IsAsked _line.now id (GetErrors file) → is_path file ≡ true }
{}

/// A reply that lists errors is `{"id":ID,"result":{"errors":[`, the texts of the errors with a comma
/// between, `]}}` and a line feed.
pub fn errors_are_listed_with_commas(_id: &str, _rows: &[ErrorRow])
    ensures { reply_line _id.now (Errors _rows.now) ≡ ((errors_front _id.now ++ rows_text _rows.now) ++ errors_back) ++ line_feed ∷ [] }
{}
