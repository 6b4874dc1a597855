//! The parameters of requests, read from an object.

ghost use Rattle.std.specs.Prelude.{◌≡◌, IfOk, codes, option_map, option_and_then};
ghost use Rattle.std.specs.List.{list_all};
ghost use Rattle.fault_io.specs.Paths.{is_path};
ghost use Rattle.serde_json.specs.Find.{as_str};
ghost use Rattle.serde_json.specs.View.{view, items_view, members_view};
ghost use Rattle.proto_json.specs.declared.overlay.Overlay.TheVariants.{Add, Change};
ghost use Rattle.proto_json.specs.Parameters.{text_at, integer_at, list_at, read_all, edit_of, overlay_of, files_of, update_of, get_errors_of, texts_at, set_roots_of, request_with, request_without, request_of, has_paths};

use crate::overlay::{FileOverlay, FileOverlays, Overlay, OverlayEdit, OverlayEdits};
use crate::paths::Paths;
use crate::request::{Method, Request};
use fault_io::is_path;
use plain_text::PlainText;
use serde_json::{Map, Value};
use std::alloc::{AllocError, Global};

// The string at a key of an object.
pub(crate) fn text_of<'v>(value: &'v Value, key: &str) -> Option<&'v str>
    ensures { option_map (λ text. text.now) result ≡ text_at key.now (view value.now) }
{
    value.get(key).and_then(Value::as_str)
}

// The integer at a key of an object.
fn integer_of(value: &Value, key: &str) -> Option<u64>
    ensures { result ≡ integer_at key.now (view value.now) }
{
    value.get(key).and_then(Value::as_u64)
}

// The list at a key of an object.
fn list_of<'v>(value: &'v Value, key: &str) -> Option<&'v [Value]>
    ensures { option_map (λ list. items_view list.now) result ≡ list_at key.now (view value.now) }
{
    let list = value.get(key).and_then(Value::as_array)?;
    Some(list.as_slice())
}

fn read_edit(alloc: Global, edit: &Value) -> Result<Option<OverlayEdit>, AllocError>
    ensures { IfOk result (λ read. read ≡ edit_of (view edit.now)) }
{
    let Some(offset) = integer_of(edit, "offset") else {
        return Ok(None);
    };
    let Some(length) = integer_of(edit, "length") else {
        return Ok(None);
    };
    let Some(replacement) = text_of(edit, "replacement") else {
        return Ok(None);
    };
    let replacement = PlainText::new(alloc, replacement)?;
    Ok(Some(OverlayEdit {
        offset,
        length,
        replacement,
    }))
}

fn read_edits(alloc: Global, edits: &[Value]) -> Result<Option<OverlayEdits>, AllocError>
    ensures { IfOk result (λ read. read ≡ read_all edit_of (items_view edits.now)) }
{
    let mut read = Vec::new(alloc);
    for value in edits {
        let Some(edit) = read_edit(alloc, value)? else {
            return Ok(None);
        };
        read.push(edit)?;
    }
    Ok(Some(OverlayEdits::from_vec(read)))
}

// The overlay that adds a text.
fn read_add(alloc: Global, overlay: &Value) -> Result<Option<Overlay>, AllocError>
    ensures { IfOk result (λ read. read ≡ option_map Add (text_at (codes "content") (view overlay.now))) }
{
    let Some(content) = text_of(overlay, "content") else {
        return Ok(None);
    };
    let content = PlainText::new(alloc, content)?;
    Ok(Some(Overlay::Add { content }))
}

// The overlay that edits a text.
fn read_change(alloc: Global, overlay: &Value) -> Result<Option<Overlay>, AllocError>
    ensures { IfOk result (λ read. read ≡ option_map Change (option_and_then (read_all edit_of) (list_at (codes "edits") (view overlay.now)))) }
{
    let Some(edits) = list_of(overlay, "edits") else {
        return Ok(None);
    };
    let Some(edits) = read_edits(alloc, edits)? else {
        return Ok(None);
    };
    Ok(Some(Overlay::Change { edits }))
}

fn read_overlay(alloc: Global, overlay: &Value) -> Result<Option<Overlay>, AllocError>
    ensures { IfOk result (λ read. read ≡ overlay_of (view overlay.now)) }
{
    let Some(kind) = text_of(overlay, "type") else {
        return Ok(None);
    };
    match kind {
        "add" => read_add(alloc, overlay),
        "change" => read_change(alloc, overlay),
        "remove" => Ok(Some(Overlay::Remove)),
        _ => Ok(None),
    }
}

fn read_files(
    alloc: Global,
    members: &Map<String, Value>,
) -> Result<Option<FileOverlays>, AllocError>
    ensures { IfOk result (λ read. read ≡ files_of (members_view members.now.entries)) }
{
    let mut read = Vec::new(alloc);
    for (path, value) in members {
        let Some(overlay) = read_overlay(alloc, value)? else {
            return Ok(None);
        };
        let path = PlainText::new(alloc, path.as_str())?;
        read.push(FileOverlay { path, overlay })?;
    }
    Ok(Some(FileOverlays::from_vec(read)))
}

fn read_update(alloc: Global, params: &Value) -> Result<Option<Request>, AllocError>
    ensures { IfOk result (λ request. request ≡ update_of (view params.now)) }
{
    let Some(members) = params.get("files").and_then(Value::as_object) else {
        return Ok(None);
    };
    let Some(files) = read_files(alloc, members)? else {
        return Ok(None);
    };
    Ok(Some(Request::Update { files }))
}

fn read_get_errors(alloc: Global, params: &Value) -> Result<Option<Request>, AllocError>
    ensures { IfOk result (λ request. request ≡ get_errors_of (view params.now)) }
{
    let Some(file) = text_of(params, "file") else {
        return Ok(None);
    };
    let file = PlainText::new(alloc, file)?;
    Ok(Some(Request::GetErrors { file }))
}

fn read_texts(alloc: Global, list: &[Value]) -> Result<Option<Paths>, AllocError>
    ensures { IfOk result (λ read. read ≡ read_all as_str (items_view list.now)) }
{
    let mut read = Vec::new(alloc);
    for value in list {
        let Some(text) = value.as_str() else {
            return Ok(None);
        };
        read.push(PlainText::new(alloc, text)?)?;
    }
    Ok(Some(Paths::from_vec(read)))
}

// The paths of the list at a key of an object, whatever their format.
fn read_paths(alloc: Global, params: &Value, key: &str) -> Result<Option<Paths>, AllocError>
    ensures { IfOk result (λ read. read ≡ texts_at key.now (view params.now)) }
{
    let Some(list) = list_of(params, key) else {
        return Ok(None);
    };
    read_texts(alloc, list)
}

fn read_set_roots(alloc: Global, params: &Value) -> Result<Option<Request>, AllocError>
    ensures { IfOk result (λ request. request ≡ set_roots_of (view params.now)) }
{
    let Some(included) = read_paths(alloc, params, "included")? else {
        return Ok(None);
    };
    let Some(excluded) = read_paths(alloc, params, "excluded")? else {
        return Ok(None);
    };
    Ok(Some(Request::SetRoots { included, excluded }))
}

// The request of a method and its parameters, one row for each method.
fn read_with(alloc: Global, method: Method, params: &Value) -> Result<Option<Request>, AllocError>
    ensures { IfOk result (λ request. request ≡ request_with method (view params.now)) }
{
    match method {
        Method::SetRoots => read_set_roots(alloc, params),
        Method::Reanalyze => Ok(Some(Request::Reanalyze)),
        Method::UpdateContent => read_update(alloc, params),
        Method::GetErrors => read_get_errors(alloc, params),
        Method::GetWork => Ok(Some(Request::GetWork)),
    }
}

// The request of a method whose parameters are left out.
fn read_without(method: Method) -> Option<Request>
    ensures { result ≡ request_without method }
{
    match method {
        Method::SetRoots => None,
        Method::Reanalyze => Some(Request::Reanalyze),
        Method::UpdateContent => None,
        Method::GetErrors => None,
        Method::GetWork => Some(Request::GetWork),
    }
}

// The request of a method, whose parameters may be left out.
pub(crate) fn read_params(
    alloc: Global,
    method: Method,
    params: Option<&Value>,
) -> Result<Option<Request>, AllocError>
    ensures { IfOk result (λ request. request ≡ request_of method (option_map (λ p. view p.now) params.entry)) }
{
    match params {
        None => Ok(read_without(method)),
        Some(params) => read_with(alloc, method, params),
    }
}

fn are_paths(paths: &[PlainText]) -> bool
    ensures { result ≡ list_all is_path paths.now }
{
    paths.iter().all(|path| is_path(path.as_str()))
}

fn are_at_paths(files: &[FileOverlay]) -> bool
    ensures { result ≡ list_all (λ f. is_path f.path) files.now }
{
    files.iter().all(|file| is_path(file.path.as_str()))
}

// Whether each path of a request is absolute and normalized.
pub(crate) fn has_paths(request: &Request) -> bool
    ensures { result ≡ has_paths request.now }
{
    match request {
        Request::SetRoots { included, excluded } => {
            are_paths(included.as_slice()) && are_paths(excluded.as_slice())
        }
        Request::Reanalyze => true,
        Request::Update { files } => are_at_paths(files.as_slice()),
        Request::GetErrors { file } => is_path(file.as_str()),
        Request::GetWork => true,
    }
}
