//! Members of JSON objects.

ghost use Rattle.std.specs.Prelude.{◌≡◌, option_map};
ghost use Rattle.serde_json.specs.View.{view, items_view};
ghost use Rattle.proto_json.specs.Parameters.{text_at, integer_at, list_at};
ghost use Rattle.packages_file.specs.PackagesFile.{optional_text_at};

use serde_json::Value;

/// The string at a key of an object.
pub fn text_of<'v>(value: &'v Value, key: &str) -> Option<&'v str>
    ensures { option_map (λ text. text.now) result ≡ text_at key.now (view value.now) }
{
    value.get(key).and_then(Value::as_str)
}

/// The string at a key of an object, which may be left out; nothing where something else stands
/// there.
pub fn optional_text_of<'v>(value: &'v Value, key: &str) -> Option<Option<&'v str>>
    ensures { option_map (λ found. option_map (λ text. text.now) found) result ≡ optional_text_at key.now (view value.now) }
{
    let Some(member) = value.get(key) else {
        return Some(None);
    };
    match member.as_str() {
        Some(text) => Some(Some(text)),
        None => None,
    }
}

/// The integer at a key of an object.
pub fn integer_of(value: &Value, key: &str) -> Option<u64>
    ensures { result ≡ integer_at key.now (view value.now) }
{
    value.get(key).and_then(Value::as_u64)
}

/// The list at a key of an object.
pub fn list_of<'v>(value: &'v Value, key: &str) -> Option<&'v [Value]>
    ensures { option_map (λ list. items_view list.now) result ≡ list_at key.now (view value.now) }
{
    let list = value.get(key).and_then(Value::as_array)?;
    Some(list.as_slice())
}
