use crate::Code;
use src_text::{Span, Text};

/// A finding at a place of a text. Severity 1 is an error, 2 a warning and 3 an information, as LSP 3.17 numbers them
/// (`DiagnosticSeverity`). The order goes by the start, then the end, the code's name, the message and the severity.
#[derive(Debug, Drop, PartialEq, Eq, PartialOrd, Ord)]
pub struct Diagnostic {
    pub span: Span,
    pub code: Code,
    pub message: Text,
    pub severity: u8,
}
