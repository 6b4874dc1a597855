//! The codes of diagnostics.

/// What a diagnostic says, in the order of the codes' names.
#[derive(Clone, Copy, Debug, PartialEq, Eq, PartialOrd, Ord)]
pub enum DiagnosticCode {
    /// An export brings a name for which an earlier one brings another element.
    AmbiguousExport,
    /// The right side of an operator hasn't the type that the left side's operator takes.
    ArgumentType,
    /// An escape of a string hasn't the digits that it needs, or is beyond the last code point.
    BadEscape,
    /// The condition of an `if` or a `while` is no bool.
    ConditionNotBool,
    /// A directive stands where it may not.
    DirectiveOrder,
    /// A name is declared again in one block, or at the top of one library.
    DuplicateDefinition,
    /// The bytes of a file aren't UTF-8.
    FileNotUtf8,
    /// An ASCII character begins no lexeme.
    IllegalCharacter,
    /// An import or an export names a file that has a `part of`.
    ImportOfPart,
    /// A decimal literal past 2^63 - 1, or a hexadecimal one past 2^64 - 1.
    IntegerLiteralOutOfRange,
    /// A value hasn't the type of the variable that it is written to.
    InvalidAssignment,
    /// A directive or a declaration holds a form that isn't checked yet.
    NotBuilt,
    /// A `part` names a file that isn't a part of the library.
    PartMismatch,
    /// An `@` stands where no annotation is read.
    ProfileAnnotation,
    /// The word `assert`, which the language leaves out.
    ProfileAssert,
    /// Asynchronous functions and generators, which the language leaves out.
    ProfileAsync,
    /// A spread, an `if` or a `for` among the elements of a collection.
    ProfileCollectionElement,
    /// A URI that depends on a condition.
    ProfileConditionalUri,
    /// The word `const`, which the language leaves out.
    ProfileConst,
    /// A label before a case of a switch.
    ProfileContinueCase,
    /// The word `covariant`, which the language leaves out.
    ProfileCovariant,
    /// A deferred import.
    ProfileDeferred,
    /// A double literal.
    ProfileDouble,
    /// An enum.
    ProfileEnum,
    /// An extension.
    ProfileExtension,
    /// The word `external`, which the language leaves out.
    ProfileExternal,
    /// A file has more than 4,194,304 bytes.
    ProfileFileLength,
    /// Characters beyond ASCII stand outside strings and comments.
    ProfileIdentifier,
    /// The word `late`, which the language leaves out.
    ProfileLate,
    /// A class that is made by `=`.
    ProfileMixinApplication,
    /// A segment has too many groups in one another, or too many lexemes.
    ProfileNesting,
    /// A `part of` has a name and no URI.
    ProfilePartOfName,
    /// A factory that hands on to another constructor by `=`.
    ProfileRedirectingFactory,
    /// A `#`, with which a symbol begins.
    ProfileSymbol,
    /// The operator `>>>`.
    ProfileTripleShift,
    /// A typedef of a form that the language leaves out.
    ProfileTypedef,
    /// A variable is named before its declaration.
    ReferencedBeforeDeclaration,
    /// A segment of a text derives nothing.
    SyntaxError,
    /// A variable is read that may have no value yet.
    UnassignedRead,
    /// An operator of int is used on a value that may be null.
    UncheckedNullableUse,
    /// A bracket opens a group that no bracket closes.
    UnclosedGroup,
    /// A name means nothing.
    UndefinedName,
    /// A value's type hasn't the operator.
    UndefinedOperator,
    /// A bracket closes no group.
    UnopenedGroup,
    /// A comment never ends.
    UnterminatedComment,
    /// A string never ends.
    UnterminatedString,
    /// A URI names no file.
    UriDoesNotExist,
}
