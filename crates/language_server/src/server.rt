//! The server: it reads messages, and answers each before it reads the next.

use crate::answers::put_answer;
use crate::asked::{Asked, asked_in};
use crate::documents::{Document, Documents};
use crate::findings::put_diagnostics;
use crate::frames::{Incoming, read_message};
use crate::methods::{CAPABILITIES, Method, method_of};
use crate::reply::Reply;
use serde_json::Value;
use std::alloc::{AllocError, Global};
use std::io::{self, BufRead, Write};

/// Why a server ends before the editor requests it.
#[derive(Drop)]
pub enum ServeFault {
    /// What was read is no message: its header has no `Content-Length`, or one above 16,777,216.
    Malformed,
    /// A stream failed.
    Stream(io::Error),
    /// An allocation was refused.
    Memory,
}

impl From<AllocError> for ServeFault {
    fn from(_error: AllocError) -> ServeFault {
        ServeFault::Memory
    }
}

impl From<io::Error> for ServeFault {
    fn from(error: io::Error) -> ServeFault {
        ServeFault::Stream(error)
    }
}

/// What an editor has reported.
#[derive(Drop)]
struct Server {
    alloc: Global,
    documents: Documents,
    /// Whether the editor asked for the end.
    is_shut: bool,
    /// Whether the server is to end.
    is_over: bool,
}

/// The errors of the protocol.
const NO_JSON: &str = "{\"code\":-32700,\"message\":\"the message is no JSON\"}";

const NO_METHOD: &str = "{\"code\":-32601,\"message\":\"the method is not served\"}";

/// Writes the start of the answer to a message with this id.
fn put_id(out: &mut Reply, id: &Value) {
    out.raw("{\"jsonrpc\":\"2.0\",\"id\":");
    match id.to_string(out.alloc) {
        Ok(text) => out.raw(&text),
        Err(AllocError) => out.fail(),
    }
}

/// Writes the rest of the answer to a message that is refused.
fn put_error(out: &mut Reply, error: &str) {
    out.raw(",\"error\":");
    out.raw(error);
    out.raw("}")
}

impl Server {
    /// Keeps the text of a document.
    fn keep(&mut self, uri: &str, text: &str) -> Result<(), AllocError> {
        let uri = String::from_str(self.alloc, uri)?;
        let text = String::from_str(self.alloc, text)?;
        self.documents.keep(Document { uri, text });
        Ok(())
    }

    /// Writes what is found in a document; nothing in one that is not open.
    fn put_published(&self, out: &mut Reply, uri: &str) {
        out.raw("{\"jsonrpc\":\"2.0\",\"method\":\"textDocument/publishDiagnostics\",\"params\":");
        out.quoted("{\"uri\":", uri);
        out.raw(",\"diagnostics\":");
        match self.documents.find(uri) {
            Some(document) => put_diagnostics(out, document),
            None => out.raw("[]"),
        }
        out.raw("}}")
    }

    /// Writes the result of a request.
    fn put_result(&mut self, out: &mut Reply, method: Method, asked: &Asked<'_>) {
        match (method, self.documents.find(asked.uri)) {
            (Method::Initialize, _) => out.raw(CAPABILITIES),
            (Method::Shutdown, _) => {
                self.is_shut = true;
                out.raw("null")
            }
            (_, Some(document)) => put_answer(out, method, document, asked),
            (_, None) => out.raw("null"),
        }
    }

    /// Writes the answer to a request, after its id.
    fn answer(&mut self, out: &mut Reply, asked: &Asked<'_>) {
        match method_of(asked.method) {
            Some(method) => {
                out.raw(",\"result\":");
                self.put_result(out, method, asked);
                out.raw("}")
            }
            None => put_error(out, NO_METHOD),
        }
    }

    /// Takes a notification, and writes what is found in the document that it is about. One that is not known is ignored.
    fn note(&mut self, out: &mut Reply, asked: &Asked<'_>) -> Result<(), AllocError> {
        match (method_of(asked.method), asked.changed) {
            (Some(Method::Open), _) => self.keep(asked.uri, asked.opened)?,
            (Some(Method::Change), Some(text)) => self.keep(asked.uri, text)?,
            (Some(Method::Close), _) => self.documents.close(asked.uri),
            (Some(Method::Exit), _) => {
                self.is_over = true;
                return Ok(());
            }
            _ => return Ok(()),
        }
        self.put_published(out, asked.uri);
        Ok(())
    }

    /// The answer to a message, empty if the message requires none.
    fn take(&mut self, body: &[u8]) -> Result<Vec<u8>, AllocError> {
        let mut out = Reply::new(self.alloc);
        match Value::from_slice(self.alloc, body) {
            Ok(message) => match message.pointer("/id") {
                Some(id) => {
                    put_id(&mut out, id);
                    self.answer(&mut out, &asked_in(&message))
                }
                None => self.note(&mut out, &asked_in(&message))?,
            },
            Err(error) if error.is_memory() => return Err(AllocError),
            Err(_) => {
                put_id(&mut out, &Value::Null);
                put_error(&mut out, NO_JSON)
            }
        }
        out.finish()
    }
}

/// Writes a message after its header.
fn send<W: Write>(alloc: Global, output: &mut W, body: &[u8]) -> Result<(), ServeFault> {
    if body.is_empty() {
        return Ok(());
    }
    let mut header = Reply::new(alloc);
    header.number("Content-Length: ", body.len() as u64);
    header.raw("\r\n\r\n");
    output.write_all(&header.finish()?)?;
    output.write_all(body)?;
    output.flush()?;
    Ok(())
}

/// Takes the next message, and writes what is answered. Whether another one may follow.
fn serve_next<R: BufRead + Drop, W: Write>(
    server: &mut Server,
    input: &mut R,
    output: &mut W,
) -> Result<bool, ServeFault> {
    match read_message(server.alloc, input)? {
        Incoming::Message(body) => send(server.alloc, output, &server.take(&body)?)?,
        Incoming::End => return Ok(false),
        Incoming::Malformed => return Err(ServeFault::Malformed),
    }
    Ok(!server.is_over)
}

/// Serves an editor until it says `exit` or closes the stream. Whether it asked for the end before, by `shutdown`.
pub fn serve<R: BufRead + Drop, W: Write>(
    alloc: Global,
    input: &mut R,
    output: &mut W,
) -> Result<bool, ServeFault> {
    let mut server = Server {
        alloc,
        documents: Documents::new(alloc),
        is_shut: false,
        is_over: false,
    };
    for _ in 0..u64::MAX {
        if !serve_next(&mut server, input, output)? {
            break;
        }
    }
    Ok(server.is_shut)
}
