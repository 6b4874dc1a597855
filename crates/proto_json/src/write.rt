//! Replies, written as a line.

ghost use Rattle.std.specs.Prelude.{◌≡◌, ◌++◌, IfOk, OnOk, flat_map};
ghost use Rattle.serde_json.specs.View.{view};
ghost use Rattle.serde_json.specs.Written.{compact_text};
ghost use Rattle.proto_json.specs.declared.reply.ReplyBody.TheVariants.{Plain, Errors, Work, Error};
ghost use Rattle.proto_json.specs.Replies.{location_data, row_data, reply_data, reply_line, IsOneLine};
ghost use Rattle.proto_json.specs.RowTexts.{row_text, next_row_text, rows_text, errors_front};

use crate::code::Code;
use crate::reply::{ErrorRow, Location, ReplyBody};
use serde_json::{Value, json};
use std::alloc::{AllocError, Global};

fn location_value(alloc: Global, location: &Location) -> Result<Value, AllocError>
    ensures { IfOk result (λ value. view value ≡ location_data location.now) }
{
    json!(in alloc; {
        "file": location.file.as_str(),
        "length": location.length,
        "offset": location.offset,
        "startColumn": location.start_column,
        "startLine": location.start_line
    })
}

fn row_value(alloc: Global, row: &ErrorRow) -> Result<Value, AllocError>
    ensures { IfOk result (λ value. view value ≡ row_data row.now) }
{
    let location = location_value(alloc, &row.location)?;
    json!(in alloc; {
        "code": row.code.as_str(),
        "location": location,
        "message": row.message.as_str(),
        "severity": row.severity.name(),
        "type": row.kind.name()
    })
}

// Puts the text of an error at the end. What the text is made from is dropped before the next one
// is written.
fn add_row(alloc: Global, text: &mut Vec<u8>, row: &ErrorRow) -> Result<(), AllocError>
    ensures { OnOk result (text.new.items ≡ text.old.items ++ row_text row.now) }
{
    let value = row_value(alloc, row)?;
    let written = value.to_vec(alloc)?;
    text.extend_from_slice(written.as_slice())?;
    Ok(())
}

// Puts a comma and the text of a further error at the end.
fn add_next_row(alloc: Global, text: &mut Vec<u8>, row: &ErrorRow) -> Result<(), AllocError>
    ensures { OnOk result (text.new.items ≡ text.old.items ++ next_row_text row.now) }
{
    text.push(b',')?;
    add_row(alloc, text, row)
}

// Puts the texts of further errors at the end, a comma before each.
fn add_next_rows(alloc: Global, text: &mut Vec<u8>, rows: &[ErrorRow]) -> Result<(), AllocError>
    ensures { OnOk result (text.new.items ≡ text.old.items ++ flat_map next_row_text rows.now) }
{
    for row in rows {
        add_next_row(alloc, text, row)?;
    }
    Ok(())
}

// Puts the texts of errors at the end, a comma between.
fn add_rows(alloc: Global, text: &mut Vec<u8>, rows: &[ErrorRow]) -> Result<(), AllocError>
    ensures { OnOk result (text.new.items ≡ text.old.items ++ rows_text rows.now) }
{
    match rows {
        [] => Ok(()),
        [first, next @ ..] => {
            add_row(alloc, text, first)?;
            add_next_rows(alloc, text, next)
        }
    }
}

// What stands before the errors.
fn errors_front(alloc: Global, id: &str) -> Result<Vec<u8>, AllocError>
    ensures { IfOk result (λ text. text.items ≡ errors_front id.now) }
{
    let value = Value::try_from_str(alloc, id)?;
    let written = value.to_vec(alloc)?;
    let mut text = Vec::from_slice(alloc, b"{\"id\":")?;
    text.extend_from_slice(written.as_slice())?;
    text.extend_from_slice(b",\"result\":{\"errors\":[")?;
    Ok(text)
}

// The text of a reply that lists errors, which are written one after another.
fn errors_text(alloc: Global, id: &str, rows: &[ErrorRow]) -> Result<Vec<u8>, AllocError>
    ensures { IfOk result (λ text. text.items ≡ compact_text (reply_data id.now (Errors rows.now))) }
{
    let mut text = errors_front(alloc, id)?;
    add_rows(alloc, &mut text, rows)?;
    text.extend_from_slice(b"]}}")?;
    Ok(text)
}

fn refusal_value(alloc: Global, id: &str, code: Code) -> Result<Value, AllocError>
    ensures { IfOk result (λ value. view value ≡ reply_data id.now (Error code)) }
{
    let error = json!(in alloc; {"code": code.name(), "message": code.message()})?;
    json!(in alloc; {"error": error, "id": id})
}

fn plain_value(alloc: Global, id: &str) -> Result<Value, AllocError>
    ensures { IfOk result (λ value. view value ≡ reply_data id.now Plain) }
{
    json!(in alloc; {"id": id})
}

fn work_value(
    alloc: Global,
    id: &str,
    parses: u64,
    links: u64,
    checks: u64,
) -> Result<Value, AllocError>
    ensures { IfOk result (λ value. view value ≡ reply_data id.now (Work parses links checks)) }
{
    let work = json!(in alloc; {"checks": checks, "links": links, "parses": parses})?;
    json!(in alloc; {"id": id, "result": work})
}

// The text of a reply, its line feed aside.
fn reply_text(alloc: Global, id: &str, body: &ReplyBody) -> Result<Vec<u8>, AllocError>
    ensures { IfOk result (λ text. text.items ≡ compact_text (reply_data id.now body.now)) }
{
    match body {
        ReplyBody::Plain => plain_value(alloc, id)?.to_vec(alloc),
        ReplyBody::Errors(rows) => errors_text(alloc, id, rows.as_slice()),
        ReplyBody::Work {
            parses,
            links,
            checks,
        } => work_value(alloc, id, *parses, *links, *checks)?.to_vec(alloc),
        ReplyBody::Error(code) => refusal_value(alloc, id, *code)?.to_vec(alloc),
    }
}

/// The line of a reply, in compact JSON with sorted keys, its line feed included.
pub fn write_reply(alloc: Global, id: &str, body: &ReplyBody) -> Result<Vec<u8>, AllocError>
    ensures exact { IfOk result (λ bytes. bytes.items ≡ reply_line id.now body.now) }

    // Whatever texts the reply holds, they don't break its line.
    ensures one_line { IfOk result (λ bytes. IsOneLine bytes.items) }
{
    let mut line = reply_text(alloc, id, body)?;
    line.push(b'\n')?;
    Ok(line)
}
