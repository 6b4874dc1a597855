//! Replies before they are written.

ghost use Rattle.std.specs.Prelude.{◌≡◌, None, IfOk, option_map};
ghost use Rattle.protocol_rules.specs.Turns.{invalid_turn, refused_turn};
ghost use Rattle.request_core.specs.Said.{turn_of, AreBytesOf};

use plain_text::PlainText;
use proto_json::{Code, ReplyBody, write_reply};
use protocol_rules::Contents;
use std::alloc::{AllocError, Global};

/// A reply, before it is written, and the contents after it.
#[derive(Drop)]
pub struct Said {
    /// The id that the reply repeats.
    pub id: PlainText,
    /// What it says.
    pub body: ReplyBody,
    /// The contents after it, None where they stay.
    pub after: Option<Contents>,
}

/// A reply that leaves the contents.
pub fn reply(id: PlainText, body: ReplyBody) -> Said
    ensures { result ≡ record { id = id; body = body; after = None } }
{
    Said {
        id,
        body,
        after: None,
    }
}

/// A refusal of a request.
pub fn refused(id: PlainText, code: Code) -> Said
    ensures { result ≡ record { id = id; body = ReplyBody.Error code; after = None } }
{
    reply(id, ReplyBody::Error(code))
}

/// What is said to a line that is no request.
pub fn invalid(alloc: Global, contents: &Contents) -> Result<Said, AllocError>
    ensures { IfOk result (λ said. turn_of said contents.now ≡ invalid_turn contents.now) }
{
    let id = PlainText::new(alloc, "")?;
    Ok(refused(id, Code::InvalidRequest))
}

/// The bytes of a reply.
pub fn written(alloc: Global, said: &Said) -> Result<Option<Vec<u8>>, AllocError>
    ensures { IfOk result (λ bytes. AreBytesOf said.now (option_map (λ v. v.items) bytes)) }
{
    let bytes = write_reply(alloc, said.id.as_str(), &said.body)?;
    Ok(Some(bytes))
}
