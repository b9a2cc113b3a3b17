//! Faults as JSON objects.

use geos_json::JsonLines;

/// Appends an object for each line, an error in the file with the path, as docs/JSON.md describes it.
pub fn put_objects(out: &mut JsonLines, path: &str, lines: &[u8]) {
    for line in lines.split(|byte| *byte == b'\n') {
        if line.is_empty() {
            continue;
        }
        out.begin("error");
        out.text("file", path.as_bytes());
        for member in ["line", "column", "rule", "routine", "pc", "register"] {
            out.null(member);
        }
        out.text("message", line);
        out.null("cause_line");
        out.null("cure");
        out.end();
    }
}
