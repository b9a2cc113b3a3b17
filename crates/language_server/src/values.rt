//! What the members of JSON values are. Only this module and those that own a value name its type: a proof about one goes over all kinds of
//! values.

use serde_json::Value;

/// The number at a path in a value, if it has one there.
pub(crate) fn number_at(value: &Value, path: &str) -> Option<u64> {
    value.pointer(path)?.as_u64()
}

/// The text at a path in a value, empty if it has none there.
pub(crate) fn text_at<'v>(value: &'v Value, path: &str) -> &'v str {
    match value.pointer(path) {
        Some(found) => found.as_str().unwrap_or(""),
        None => "",
    }
}
