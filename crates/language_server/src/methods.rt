//! The methods of the protocol that are served.

/// What a message requests or reports.
#[derive(Clone, Copy)]
pub(crate) enum Method {
    Initialize,
    Shutdown,
    Exit,
    Open,
    Change,
    Close,
    Hover,
    Definition,
    References,
    Rename,
    Symbols,
    Completion,
    Formatting,
    Actions,
}

/// The methods by their names.
const METHODS: [(&str, Method); 14] = [
    ("initialize", Method::Initialize),
    ("shutdown", Method::Shutdown),
    ("exit", Method::Exit),
    ("textDocument/didOpen", Method::Open),
    ("textDocument/didChange", Method::Change),
    ("textDocument/didClose", Method::Close),
    ("textDocument/hover", Method::Hover),
    ("textDocument/definition", Method::Definition),
    ("textDocument/references", Method::References),
    ("textDocument/rename", Method::Rename),
    ("textDocument/documentSymbol", Method::Symbols),
    ("textDocument/completion", Method::Completion),
    ("textDocument/formatting", Method::Formatting),
    ("textDocument/codeAction", Method::Actions),
];

/// What the server can do, as `initialize` answers. Texts are synchronised as a whole.
pub(crate) const CAPABILITIES: &str =
    "{\"capabilities\":{\"textDocumentSync\":1,\"hoverProvider\":true,\
\"definitionProvider\":true,\"referencesProvider\":true,\"renameProvider\":true,\"documentSymbolProvider\":true,\
\"completionProvider\":{},\"documentFormattingProvider\":true,\"codeActionProvider\":true},\
\"serverInfo\":{\"name\":\"geos\"}}";

/// The method with the name, if it is served.
pub(crate) fn method_of(name: &str) -> Option<Method> {
    for (known, method) in METHODS {
        if known == name {
            return Some(method);
        }
    }
    None
}
