//! Requests, read from a line.

ghost use Rattle.std.specs.Prelude.{◌≡◌, IfOk, option_map};
ghost use Rattle.serde_json.specs.View.{view};
ghost use Rattle.proto_json.specs.Heads.{head_view};
ghost use Rattle.proto_json.specs.declared.request.RequestRefusal.TheVariants.{Memory};
ghost use Rattle.proto_json.specs.Requests.{answer, answer_to_head, line_data, head_of, method_named, not_a_request, IsUnlessMemory};

use crate::code::Code;
use crate::overlay::FileOverlays;
use crate::parameters::{has_paths, read_params, text_of};
use crate::paths::Paths;
use plain_text::PlainText;
use serde_json::Value;
use std::alloc::{AllocError, Global};
use thiserror::Error;

/// The most bytes of a line that is a request, its line feed aside: 16 MiB.
pub const MAX_LINE: usize = 16_777_216;

/// What a client asks of the server.
#[derive(Debug, Drop)]
pub enum Request {
    /// `analysis.setAnalysisRoots`: the files below the included paths, and not below the excluded
    /// ones, are analyzed from now on.
    SetRoots { included: Paths, excluded: Paths },
    /// `analysis.reanalyze`: the files are read again.
    Reanalyze,
    /// `analysis.updateContent`: what becomes of the texts of these files.
    Update { files: FileOverlays },
    /// `analysis.getErrors`: the errors of the file of this path.
    GetErrors { file: PlainText },
    /// `profile.getWork`, which is this server's own: how much was read and checked so far.
    GetWork,
}

// The methods that the server has.
#[derive(Clone, Copy)]
pub(crate) enum Method {
    // `analysis.setAnalysisRoots`
    SetRoots,
    // `analysis.reanalyze`
    Reanalyze,
    // `analysis.updateContent`
    UpdateContent,
    // `analysis.getErrors`
    GetErrors,
    // `profile.getWork`
    GetWork,
}

// The method of a name.
fn method_named(name: &str) -> Option<Method>
    ensures { result ≡ method_named name.now }
{
    match name {
        "analysis.setAnalysisRoots" => Some(Method::SetRoots),
        "analysis.reanalyze" => Some(Method::Reanalyze),
        "analysis.updateContent" => Some(Method::UpdateContent),
        "analysis.getErrors" => Some(Method::GetErrors),
        "profile.getWork" => Some(Method::GetWork),
        _ => None,
    }
}

/// A request, and the id that its reply repeats.
#[derive(Debug, Drop)]
pub struct Asked {
    pub id: PlainText,
    pub request: Request,
}

/// Why a line gave no request.
#[derive(Debug, Drop, Error)]
pub enum RequestRefusal {
    /// The line is refused, and its reply has this id and this code: the empty id where the line is
    /// no request object, else that of the request.
    #[error("the line is refused")]
    Refused { id: PlainText, code: Code },
    /// Want of memory.
    #[error("out of memory")]
    Memory,
}

impl From<AllocError> for RequestRefusal {
    ghost from_gives = { λ _ refusal. refusal ≡ Memory };

    fn from(_error: AllocError) -> RequestRefusal {
        RequestRefusal::Memory
    }
}

// The parts of a request object, which the parsed line lends.
#[derive(Drop)]
struct Head<'v> {
    id: &'v str,
    method: &'v str,
    params: Option<&'v Value>,
}

fn read_head(value: &Value) -> Option<Head<'_>>
    ensures { option_map head_view result ≡ head_of (view value.now) }
{
    let id = text_of(value, "id")?;
    let method = text_of(value, "method")?;
    let params = match value.get("params") {
        None => None,
        Some(params) => {
            if !params.is_object() {
                return None;
            }
            Some(params)
        }
    };
    Some(Head { id, method, params })
}

// The request of a request object, or its refusal, which repeats the id.
fn read_object(alloc: Global, head: &Head<'_>) -> Result<Asked, RequestRefusal>
    ensures { IsUnlessMemory result (answer_to_head (head_view head.now)) }
{
    let id = PlainText::new(alloc, head.id)?;
    let Some(method) = method_named(head.method) else {
        let code = Code::UnknownRequest;
        return Err(RequestRefusal::Refused { id, code });
    };
    let Some(request) = read_params(alloc, method, head.params)? else {
        let code = Code::InvalidParameter;
        return Err(RequestRefusal::Refused { id, code });
    };
    if !has_paths(&request) {
        let code = Code::InvalidFilePathFormat;
        return Err(RequestRefusal::Refused { id, code });
    }
    Ok(Asked { id, request })
}

// The JSON value of a line.
fn parse(alloc: Global, line: &[u8]) -> Result<Option<Value>, AllocError>
    ensures { IfOk result (λ value. option_map view value ≡ line_data line.now) }
{
    match Value::from_slice(alloc, line) {
        Ok(value) => Ok(Some(value)),
        Err(error) if error.is_memory() => Err(AllocError),
        Err(_) => Ok(None),
    }
}

// The refusal of a line that is no request object.
fn not_a_request(alloc: Global) -> RequestRefusal
    ensures { result ≡ not_a_request }
{
    let id = PlainText::from_string(String::new(alloc));
    let code = Code::InvalidRequest;
    RequestRefusal::Refused { id, code }
}

/// The request that a line is, or the first refusal that it meets, both as `answer` states them;
/// or want of memory. The line is given without its line feed.
#[tactic(auto, unfolding(crate::specs::Requests::head_by))]
pub fn read_request(alloc: Global, line: &[u8]) -> Result<Asked, RequestRefusal>
    ensures { IsUnlessMemory result (answer line.now) }
{
    if line.len() > MAX_LINE {
        return Err(not_a_request(alloc));
    }
    let Some(value) = parse(alloc, line)? else {
        return Err(not_a_request(alloc));
    };
    let Some(head) = read_head(&value) else {
        return Err(not_a_request(alloc));
    };
    read_object(alloc, &head)
}
