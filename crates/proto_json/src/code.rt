//! The codes of refusals.

ghost use Rattle.std.specs.Prelude.{◌≡◌};
ghost use Rattle.proto_json.specs.Codes.{name_of, message_of};

/// Why a line is refused: the `code` of the protocol's RequestError. Of several causes the one
/// that stands first here is told; of those of an update's files the one that is found first, file by
/// file.
#[derive(Clone, Copy, Debug, PartialEq, Eq)]
pub enum Code {
    /// The line is too long, isn't JSON, or isn't the object of a request.
    InvalidRequest,
    /// The server has no method of this name.
    UnknownRequest,
    /// The parameters aren't of the form that the method reads.
    InvalidParameter,
    /// A path of the request isn't absolute and normalized.
    InvalidFilePathFormat,
    /// A change of a file that has no overlay, or an edit that doesn't fit the text.
    InvalidOverlayChange,
    /// The errors of a file are asked for that is not analyzed.
    GetErrorsInvalidFile,
    /// A limit is passed.
    ProfileLimit,
    /// The store of files failed.
    ServerError,
}

impl Code {
    /// The name that stands in a reply.
    pub fn name(self) -> &'static str
        ensures { result.now ≡ name_of self }
    {
        match self {
            Code::InvalidRequest => "INVALID_REQUEST",
            Code::UnknownRequest => "UNKNOWN_REQUEST",
            Code::InvalidParameter => "INVALID_PARAMETER",
            Code::InvalidFilePathFormat => "INVALID_FILE_PATH_FORMAT",
            Code::InvalidOverlayChange => "INVALID_OVERLAY_CHANGE",
            Code::GetErrorsInvalidFile => "GET_ERRORS_INVALID_FILE",
            Code::ProfileLimit => "PROFILE_LIMIT",
            Code::ServerError => "SERVER_ERROR",
        }
    }

    /// The sentence that stands beside the name, for a person to read.
    pub fn message(self) -> &'static str
        ensures { result.now ≡ message_of self }
    {
        match self {
            Code::InvalidRequest => "The line is not a request.",
            Code::UnknownRequest => "The method is not known.",
            Code::InvalidParameter => "A parameter is missing or of another kind.",
            Code::InvalidFilePathFormat => "The path is not absolute and normalized.",
            Code::InvalidOverlayChange => "The change does not fit the overlay.",
            Code::GetErrorsInvalidFile => "The file is not analyzed.",
            Code::ProfileLimit => "A limit is passed.",
            Code::ServerError => "The file store failed.",
        }
    }
}
