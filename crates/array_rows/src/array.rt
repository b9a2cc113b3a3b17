//! Arrays in the bytes of chunks, and their rows.

use crate::elements::Elements;
use crate::fault::ArrayFault;
use crate::new_elements::NewElements;
use crate::printed::Printed;
use geos_shell::{Field, field_of};
use std::alloc::{AllocError, Global};

/// An array, and the fields of its elements; none if they are any bytes.
#[derive(Drop)]
struct Array<'b> {
    elements: Elements<'b>,
    fields: Vec<Field>,
}

/// The fields that a word of the command line names.
fn fields_in(alloc: Global, word: &str) -> Result<Vec<Field>, AllocError> {
    let mut fields = Vec::new(alloc);
    for name in word.split(',') {
        if let Some(field) = field_of(name) {
            fields.push(field)?;
        }
    }
    Ok(fields)
}

impl<'b> Array<'b> {
    /// The array of these bytes, with the fields that a word of the command line names.
    fn of(alloc: Global, bytes: &'b [u8], word: &str) -> Result<Array<'b>, ArrayFault> {
        let Some(elements) = Elements::of(bytes) else {
            return Err(ArrayFault::NoArray);
        };
        let Ok(fields) = fields_in(alloc, word) else {
            return Err(ArrayFault::Memory);
        };
        let array = Array { elements, fields };
        match array.misfit() {
            Some(fault) => Err(fault),
            None => Ok(array),
        }
    }

    /// How many bytes the fields have together.
    fn size(&self) -> usize {
        let mut size: usize = 0;
        for field in &self.fields {
            size = size.saturating_add(field.size());
        }
        size
    }

    /// Why its elements can't have these fields.
    fn misfit(&self) -> Option<ArrayFault> {
        let size = self.size();
        if self.fields.is_empty() || size == self.elements.size {
            None
        } else if self.elements.size == 0 {
            Some(ArrayFault::Varying)
        } else {
            Some(ArrayFault::OtherSize(self.elements.size, size))
        }
    }
}

/// The rows of an array of these bytes, as lines of CSV or as a JSON object. The word names the fields of its elements; if it is empty, a row
/// has one field, the element in hexadecimal digits.
pub fn rows_of(
    alloc: Global,
    bytes: &[u8],
    fields: &str,
    json: bool,
) -> Result<Vec<u8>, ArrayFault> {
    let array = Array::of(alloc, bytes, fields)?;
    let mut printed = Printed::new(alloc, json);
    printed.put_all(&array.fields, &array.elements);
    match printed.finish() {
        Ok(rows) => Ok(rows),
        Err(AllocError) => Err(ArrayFault::Memory),
    }
}

/// The bytes of an array whose elements are made of rows of CSV or of a JSON object, in place of those of an array of these bytes.
pub fn with_rows(
    alloc: Global,
    bytes: &[u8],
    fields: &str,
    rows: &[u8],
) -> Result<Vec<u8>, ArrayFault> {
    let array = Array::of(alloc, bytes, fields)?;
    let mut new = NewElements::new(alloc, array.elements.size);
    // No row of CSV begins so: a quote is the first byte of a field.
    if rows.starts_with(b"{\"") {
        new.put_object(alloc, rows, &array.fields);
    } else {
        new.put_rows(alloc, rows, &array.fields);
    }
    if let Some((row, fault)) = new.fault {
        return Err(ArrayFault::Row(row, fault));
    }
    match new.array(alloc) {
        Ok(bytes) => Ok(bytes),
        Err(AllocError) => Err(ArrayFault::Memory),
    }
}
