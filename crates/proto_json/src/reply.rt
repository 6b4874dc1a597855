//! What a reply says.

ghost use Rattle.std.specs.Prelude.{◌≡◌};
ghost use Rattle.proto_json.specs.Replies.{severity_name, kind_name};

use crate::code::Code;
use crate::text::{FixedText, SharedText};
use std::marker::Model;

/// How grave an error is: the protocol's AnalysisErrorSeverity.
#[derive(Clone, Copy, Debug, PartialEq, Eq)]
pub enum Severity {
    Error,
}

impl Severity {
    /// The name that stands in a reply.
    pub fn name(self) -> &'static str
        ensures { result.now ≡ severity_name self }
    {
        match self {
            Severity::Error => "ERROR",
        }
    }
}

/// The kind of an error: the protocol's AnalysisErrorType.
#[derive(Clone, Copy, Debug, PartialEq, Eq)]
pub enum ErrorKind {
    SyntacticError,
    CompileTimeError,
}

impl ErrorKind {
    /// The name that stands in a reply.
    pub fn name(self) -> &'static str
        ensures { result.now ≡ kind_name self }
    {
        match self {
            ErrorKind::SyntacticError => "SYNTACTIC_ERROR",
            ErrorKind::CompileTimeError => "COMPILE_TIME_ERROR",
        }
    }
}

/// The place of an error: the protocol's Location, without its optional members.
#[derive(Debug, Drop)]
pub struct Location {
    /// The path of the file, which the errors of a file share.
    pub file: SharedText,
    /// Where the place starts, in UTF-16 units from the start of the file, from 0.
    pub offset: u32,
    /// How long it is, in UTF-16 units.
    pub length: u32,
    /// The line of its start, from 1.
    pub start_line: u32,
    /// The column of its start, in UTF-16 units, from 1.
    pub start_column: u32,
}

/// An error in a file: the protocol's AnalysisError, without its optional members.
#[derive(Debug, Drop)]
pub struct ErrorRow {
    /// The name of the broken rule, such as `unassigned_read`.
    pub code: FixedText,
    pub location: Location,
    /// The sentence that a person reads.
    pub message: FixedText,
    pub severity: Severity,
    /// The member `type`.
    pub kind: ErrorKind,
}

/// Errors in the order in which a reply lists them.
#[derive(Debug, Drop)]
pub struct ErrorRows {
    rows: Vec<ErrorRow>,
}

impl Model for ErrorRows {
    ghost use Rattle.std.specs.Prelude.{List};
    ghost use Rattle.proto_json.specs.declared.reply.ErrorRow.{ErrorRow};

    ghost Value = { List ErrorRow };

    ghost view = { λ errors. errors.rows.items };
}

impl ErrorRows {
    /// The rows that the vector holds, which takes no memory.
    pub fn from_vec(rows: Vec<ErrorRow>) -> ErrorRows
        ensures { result ≡ rows.items }
    {
        ErrorRows { rows }
    }

    /// The rows themselves.
    pub fn as_slice(&self) -> &[ErrorRow]
        ensures { result.now ≡ self.now }
    {
        self.rows.as_slice()
    }
}

/// What a reply says, its id aside.
#[derive(Debug, Drop)]
pub enum ReplyBody {
    /// The request is done, and has no result.
    Plain,
    /// The errors of a file.
    Errors(ErrorRows),
    /// How often files were read, libraries linked and libraries checked since the start.
    Work {
        parses: u64,
        links: u64,
        checks: u64,
    },
    /// The request is refused.
    Error(Code),
}
