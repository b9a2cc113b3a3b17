//! Rows of a JSON object become elements of an array.

use crate::fault::RowFault;
use crate::new_elements::NewElements;
use crate::row::Row;
use geos_shell::Field;
use geos_text::first_line;
use serde_json::Value;
use std::alloc::Global;

/// How the line begins that `get --json` prints at the end.
const END: &[u8] = b"{\"kind\":\"end\"";

/// A text without its last line, if `get --json` prints that line at the end.
fn without_end(text: &[u8]) -> &[u8] {
    let mut rest = text;
    // Each line takes at least a byte.
    for _ in 0..text.len() {
        if rest.is_empty() || rest.starts_with(END) {
            break;
        }
        let (_, after) = first_line(rest);
        rest = after;
    }
    let length = text.len().saturating_sub(rest.len());
    text.get(..length).unwrap_or(text)
}

impl NewElements {
    /// Appends the elements of the rows of a JSON object, as `put_rows`.
    pub(crate) fn put_object(&mut self, alloc: Global, text: &[u8], fields: &[Field]) {
        self.row = 1;
        match Value::from_slice(alloc, without_end(text)) {
            Ok(object) => self.put_values(alloc, &object, fields),
            Err(error) if error.is_memory() => self.bytes.failed = true,
            Err(_) => self.fail(RowFault::Object),
        }
    }

    /// Appends the elements of the rows of an object that was read.
    fn put_values(&mut self, alloc: Global, object: &Value, fields: &[Field]) {
        let is_array = object.get("kind").and_then(Value::as_str) == Some("array");
        let rows = match object.get("rows").and_then(Value::as_array) {
            Some(rows) if is_array => rows,
            _ => return self.fail(RowFault::Object),
        };
        let mut number: usize = 0;
        for row in rows {
            if self.fault.is_some() || self.bytes.failed {
                break;
            }
            number = number.saturating_add(1);
            self.row = number;
            self.put_value(alloc, row, fields);
        }
    }

    /// Appends the element of a row that was read.
    fn put_value(&mut self, alloc: Global, row: &Value, fields: &[Field]) {
        let Some(values) = row.as_array() else {
            return self.fail(RowFault::Object);
        };
        let mut read = Row::new(alloc);
        let mut index: usize = 0;
        for value in values {
            let field = fields.get(index);
            index = index.saturating_add(1);
            match (value.as_str(), value.as_u64(), field) {
                (Some(text), _, _) => read.put_field(text.as_bytes()),
                (_, Some(number), Some(_)) => read.put_number(number),
                (_, _, Some(Field::Text(_))) => self.fail(RowFault::String(index)),
                // Neither a number nor hexadecimal digits.
                _ => read.put_field(&[0]),
            }
        }
        self.put_row(&read, fields);
    }
}
