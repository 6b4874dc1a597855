//! What may be wrong with a segment.

/// What is wrong with a segment of a text that derives nothing: a construct of Dart that the language
/// leaves out, or else a plain error of syntax. Each has one diagnostic code.
#[derive(Clone, Copy, Debug, PartialEq, Eq)]
pub enum SegmentFault {
    /// The word `late`: `profile_late`.
    Late,
    /// The word `external`: `profile_external`.
    External,
    /// The word `covariant`: `profile_covariant`.
    Covariant,
    /// The word `const`: `profile_const`.
    Const,
    /// The word `enum`: `profile_enum`.
    Enum,
    /// The word `extension`: `profile_extension`.
    Extension,
    /// The word `assert`: `profile_assert`.
    Assert,
    /// The word `deferred`: `profile_deferred`.
    Deferred,
    /// One of the words `async`, `await`, `sync` and `yield`: `profile_async`.
    Async,
    /// A double literal: `profile_double`.
    Double,
    /// `...`, or `if` or `for` in a list of elements: `profile_collection_element`.
    CollectionElement,
    /// `#`: `profile_symbol`.
    Symbol,
    /// `@` where no annotation is read: `profile_annotation`.
    Annotation,
    /// `>>>`: `profile_triple_shift`.
    TripleShift,
    /// `if` in an import or export: `profile_conditional_uri`.
    ConditionalUri,
    /// A class that is made by `=`: `profile_mixin_application`.
    MixinApplication,
    /// A factory with `=` behind its parameters: `profile_redirecting_factory`.
    RedirectingFactory,
    /// A label before a `case`: `profile_continue_case`.
    ContinueCase,
    /// The word `typedef`: `profile_typedef`.
    Typedef,
    /// Too many groups in one another, or too many lexemes: `profile_nesting`.
    Nesting,
    /// Anything else: `syntax_error`.
    Syntax,
}
