//! What a row says of a code.

ghost use Rattle.std.specs.Prelude.{◌≡◌};
ghost use Rattle.diagnostics.specs.Codes.{name_of, message_of, kind_of};

use judgement::DiagnosticCode;
use proto_json::ErrorKind;

/// The name of a code, such as `unassigned_read`.
pub fn code_name(code: DiagnosticCode) -> &'static str
    ensures { result.now ≡ name_of code }
{
    match code {
        DiagnosticCode::AmbiguousExport => "ambiguous_export",
        DiagnosticCode::ArgumentType => "argument_type",
        DiagnosticCode::BadEscape => "bad_escape",
        DiagnosticCode::ConditionNotBool => "condition_not_bool",
        DiagnosticCode::DirectiveOrder => "directive_order",
        DiagnosticCode::DuplicateDefinition => "duplicate_definition",
        DiagnosticCode::FileNotUtf8 => "file_not_utf8",
        DiagnosticCode::IllegalCharacter => "illegal_character",
        DiagnosticCode::ImportOfPart => "import_of_part",
        DiagnosticCode::IntegerLiteralOutOfRange => "integer_literal_out_of_range",
        DiagnosticCode::InvalidAssignment => "invalid_assignment",
        DiagnosticCode::NotBuilt => "not_built",
        DiagnosticCode::PartMismatch => "part_mismatch",
        DiagnosticCode::ProfileAnnotation => "profile_annotation",
        DiagnosticCode::ProfileAssert => "profile_assert",
        DiagnosticCode::ProfileAsync => "profile_async",
        DiagnosticCode::ProfileCollectionElement => "profile_collection_element",
        DiagnosticCode::ProfileConditionalUri => "profile_conditional_uri",
        DiagnosticCode::ProfileConst => "profile_const",
        DiagnosticCode::ProfileContinueCase => "profile_continue_case",
        DiagnosticCode::ProfileCovariant => "profile_covariant",
        DiagnosticCode::ProfileDeferred => "profile_deferred",
        DiagnosticCode::ProfileDouble => "profile_double",
        DiagnosticCode::ProfileEnum => "profile_enum",
        DiagnosticCode::ProfileExtension => "profile_extension",
        DiagnosticCode::ProfileExternal => "profile_external",
        DiagnosticCode::ProfileFileLength => "profile_file_length",
        DiagnosticCode::ProfileIdentifier => "profile_identifier",
        DiagnosticCode::ProfileLate => "profile_late",
        DiagnosticCode::ProfileMixinApplication => "profile_mixin_application",
        DiagnosticCode::ProfileNesting => "profile_nesting",
        DiagnosticCode::ProfilePartOfName => "profile_part_of_name",
        DiagnosticCode::ProfileRedirectingFactory => "profile_redirecting_factory",
        DiagnosticCode::ProfileSymbol => "profile_symbol",
        DiagnosticCode::ProfileTripleShift => "profile_triple_shift",
        DiagnosticCode::ProfileTypedef => "profile_typedef",
        DiagnosticCode::ReferencedBeforeDeclaration => "referenced_before_declaration",
        DiagnosticCode::SyntaxError => "syntax_error",
        DiagnosticCode::UnassignedRead => "unassigned_read",
        DiagnosticCode::UncheckedNullableUse => "unchecked_nullable_use",
        DiagnosticCode::UnclosedGroup => "unclosed_group",
        DiagnosticCode::UndefinedName => "undefined_name",
        DiagnosticCode::UndefinedOperator => "undefined_operator",
        DiagnosticCode::UnopenedGroup => "unopened_group",
        DiagnosticCode::UnterminatedComment => "unterminated_comment",
        DiagnosticCode::UnterminatedString => "unterminated_string",
        DiagnosticCode::UriDoesNotExist => "uri_does_not_exist",
    }
}

/// The sentence that a person reads, such as `Unassigned read.`: the name with a space for each
/// low line, its first letter in upper case, and a full stop.
pub fn message(code: DiagnosticCode) -> &'static str
    ensures { result.now ≡ message_of code }
{
    match code {
        DiagnosticCode::AmbiguousExport => "Ambiguous export.",
        DiagnosticCode::ArgumentType => "Argument type.",
        DiagnosticCode::BadEscape => "Bad escape.",
        DiagnosticCode::ConditionNotBool => "Condition not bool.",
        DiagnosticCode::DirectiveOrder => "Directive order.",
        DiagnosticCode::DuplicateDefinition => "Duplicate definition.",
        DiagnosticCode::FileNotUtf8 => "File not utf8.",
        DiagnosticCode::IllegalCharacter => "Illegal character.",
        DiagnosticCode::ImportOfPart => "Import of part.",
        DiagnosticCode::IntegerLiteralOutOfRange => "Integer literal out of range.",
        DiagnosticCode::InvalidAssignment => "Invalid assignment.",
        DiagnosticCode::NotBuilt => "Not built.",
        DiagnosticCode::PartMismatch => "Part mismatch.",
        DiagnosticCode::ProfileAnnotation => "Profile annotation.",
        DiagnosticCode::ProfileAssert => "Profile assert.",
        DiagnosticCode::ProfileAsync => "Profile async.",
        DiagnosticCode::ProfileCollectionElement => "Profile collection element.",
        DiagnosticCode::ProfileConditionalUri => "Profile conditional uri.",
        DiagnosticCode::ProfileConst => "Profile const.",
        DiagnosticCode::ProfileContinueCase => "Profile continue case.",
        DiagnosticCode::ProfileCovariant => "Profile covariant.",
        DiagnosticCode::ProfileDeferred => "Profile deferred.",
        DiagnosticCode::ProfileDouble => "Profile double.",
        DiagnosticCode::ProfileEnum => "Profile enum.",
        DiagnosticCode::ProfileExtension => "Profile extension.",
        DiagnosticCode::ProfileExternal => "Profile external.",
        DiagnosticCode::ProfileFileLength => "Profile file length.",
        DiagnosticCode::ProfileIdentifier => "Profile identifier.",
        DiagnosticCode::ProfileLate => "Profile late.",
        DiagnosticCode::ProfileMixinApplication => "Profile mixin application.",
        DiagnosticCode::ProfileNesting => "Profile nesting.",
        DiagnosticCode::ProfilePartOfName => "Profile part of name.",
        DiagnosticCode::ProfileRedirectingFactory => "Profile redirecting factory.",
        DiagnosticCode::ProfileSymbol => "Profile symbol.",
        DiagnosticCode::ProfileTripleShift => "Profile triple shift.",
        DiagnosticCode::ProfileTypedef => "Profile typedef.",
        DiagnosticCode::ReferencedBeforeDeclaration => "Referenced before declaration.",
        DiagnosticCode::SyntaxError => "Syntax error.",
        DiagnosticCode::UnassignedRead => "Unassigned read.",
        DiagnosticCode::UncheckedNullableUse => "Unchecked nullable use.",
        DiagnosticCode::UnclosedGroup => "Unclosed group.",
        DiagnosticCode::UndefinedName => "Undefined name.",
        DiagnosticCode::UndefinedOperator => "Undefined operator.",
        DiagnosticCode::UnopenedGroup => "Unopened group.",
        DiagnosticCode::UnterminatedComment => "Unterminated comment.",
        DiagnosticCode::UnterminatedString => "Unterminated string.",
        DiagnosticCode::UriDoesNotExist => "Uri does not exist.",
    }
}

/// The protocol's AnalysisErrorType of a code.
pub fn error_kind(code: DiagnosticCode) -> ErrorKind
    ensures { result ≡ kind_of code }
{
    match code {
        DiagnosticCode::BadEscape
        | DiagnosticCode::IllegalCharacter
        | DiagnosticCode::ProfileNesting
        | DiagnosticCode::SyntaxError
        | DiagnosticCode::UnclosedGroup
        | DiagnosticCode::UnopenedGroup
        | DiagnosticCode::UnterminatedComment
        | DiagnosticCode::UnterminatedString => ErrorKind::SyntacticError,
        DiagnosticCode::AmbiguousExport
        | DiagnosticCode::ArgumentType
        | DiagnosticCode::ConditionNotBool
        | DiagnosticCode::DirectiveOrder
        | DiagnosticCode::DuplicateDefinition
        | DiagnosticCode::FileNotUtf8
        | DiagnosticCode::ImportOfPart
        | DiagnosticCode::IntegerLiteralOutOfRange
        | DiagnosticCode::InvalidAssignment
        | DiagnosticCode::NotBuilt
        | DiagnosticCode::PartMismatch
        | DiagnosticCode::ProfileAnnotation
        | DiagnosticCode::ProfileAssert
        | DiagnosticCode::ProfileAsync
        | DiagnosticCode::ProfileCollectionElement
        | DiagnosticCode::ProfileConditionalUri
        | DiagnosticCode::ProfileConst
        | DiagnosticCode::ProfileContinueCase
        | DiagnosticCode::ProfileCovariant
        | DiagnosticCode::ProfileDeferred
        | DiagnosticCode::ProfileDouble
        | DiagnosticCode::ProfileEnum
        | DiagnosticCode::ProfileExtension
        | DiagnosticCode::ProfileExternal
        | DiagnosticCode::ProfileFileLength
        | DiagnosticCode::ProfileIdentifier
        | DiagnosticCode::ProfileLate
        | DiagnosticCode::ProfileMixinApplication
        | DiagnosticCode::ProfilePartOfName
        | DiagnosticCode::ProfileRedirectingFactory
        | DiagnosticCode::ProfileSymbol
        | DiagnosticCode::ProfileTripleShift
        | DiagnosticCode::ProfileTypedef
        | DiagnosticCode::ReferencedBeforeDeclaration
        | DiagnosticCode::UnassignedRead
        | DiagnosticCode::UncheckedNullableUse
        | DiagnosticCode::UndefinedName
        | DiagnosticCode::UndefinedOperator
        | DiagnosticCode::UriDoesNotExist => ErrorKind::CompileTimeError,
    }
}
