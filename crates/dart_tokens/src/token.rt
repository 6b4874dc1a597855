//! Tokens: what a scanner makes of a text, and what a parser reads.

/// What a token is.
///
/// Each reserved word, each built-in identifier, each other word that stands in the grammar and each
/// mark of punctuation has a kind of its own.
#[derive(Clone, Copy, Debug, PartialEq, Eq)]
pub enum Kind {
    /// An identifier that is no word of the grammar.
    Identifier,
    /// An integer, of decimal digits or of `0x` and hexadecimal ones.
    Integer,
    /// A double, which no production of the language holds.
    Double,
    /// A string without interpolations, from its first quote, or the `r` before it, to its last.
    StringLiteral,
    /// The front of a string with interpolations, from its first quote to the first of them.
    StringOpening,
    /// What stands between two interpolations of a string.
    StringPart,
    /// The end of a string with interpolations, from behind the last of them to its last quote.
    StringClosing,
    /// A string that never ends: it reaches to the end of its line, or of the text.
    UnterminatedString,
    /// The `$` before a name in a string.
    InterpolationMark,
    /// The `${` before an expression in a string.
    InterpolationOpening,
    /// The `}` behind an expression in a string.
    InterpolationClosing,
    /// The reserved word `assert`.
    Assert,
    /// The reserved word `break`.
    Break,
    /// The reserved word `case`.
    Case,
    /// The reserved word `catch`.
    Catch,
    /// The reserved word `class`.
    Class,
    /// The reserved word `const`.
    Const,
    /// The reserved word `continue`.
    Continue,
    /// The reserved word `default`.
    Default,
    /// The reserved word `do`.
    Do,
    /// The reserved word `else`.
    Else,
    /// The reserved word `enum`.
    Enum,
    /// The reserved word `extends`.
    Extends,
    /// The reserved word `false`.
    False,
    /// The reserved word `final`.
    Final,
    /// The reserved word `finally`.
    Finally,
    /// The reserved word `for`.
    For,
    /// The reserved word `if`.
    If,
    /// The reserved word `in`.
    In,
    /// The reserved word `is`.
    Is,
    /// The reserved word `new`.
    New,
    /// The reserved word `null`.
    Null,
    /// The reserved word `rethrow`.
    Rethrow,
    /// The reserved word `return`.
    Return,
    /// The reserved word `super`.
    Super,
    /// The reserved word `switch`.
    Switch,
    /// The reserved word `this`.
    This,
    /// The reserved word `throw`.
    Throw,
    /// The reserved word `true`.
    True,
    /// The reserved word `try`.
    Try,
    /// The reserved word `var`.
    Var,
    /// The reserved word `void`.
    Void,
    /// The reserved word `while`.
    While,
    /// The reserved word `with`.
    With,
    /// The built-in identifier `abstract`.
    Abstract,
    /// The built-in identifier `as`.
    As,
    /// The built-in identifier `covariant`.
    Covariant,
    /// The built-in identifier `deferred`.
    Deferred,
    /// The built-in identifier `dynamic`.
    Dynamic,
    /// The built-in identifier `export`.
    Export,
    /// The built-in identifier `extension`.
    Extension,
    /// The built-in identifier `external`.
    External,
    /// The built-in identifier `factory`.
    Factory,
    /// The built-in identifier `Function`.
    Function,
    /// The built-in identifier `get`.
    Get,
    /// The built-in identifier `implements`.
    Implements,
    /// The built-in identifier `import`.
    Import,
    /// The built-in identifier `interface`.
    Interface,
    /// The built-in identifier `late`.
    Late,
    /// The built-in identifier `library`.
    Library,
    /// The built-in identifier `mixin`.
    Mixin,
    /// The built-in identifier `operator`.
    Operator,
    /// The built-in identifier `part`.
    Part,
    /// The built-in identifier `required`.
    Required,
    /// The built-in identifier `set`.
    Set,
    /// The built-in identifier `static`.
    Static,
    /// The built-in identifier `typedef`.
    Typedef,
    /// The identifier `hide`, which the grammar names.
    Hide,
    /// The identifier `native`, which the grammar names.
    Native,
    /// The identifier `of`, which the grammar names.
    Of,
    /// The identifier `on`, which the grammar names.
    On,
    /// The identifier `show`, which the grammar names.
    Show,
    /// The identifier `async`, which the grammar names.
    Async,
    /// The identifier `await`, which the grammar names.
    Await,
    /// The identifier `sync`, which the grammar names.
    Sync,
    /// The identifier `yield`, which the grammar names.
    Yield,
    /// `(`
    OpenParenthesis,
    /// `)`
    CloseParenthesis,
    /// `[`
    OpenBracket,
    /// `]`
    CloseBracket,
    /// `{`
    OpenBrace,
    /// `}`
    CloseBrace,
    /// `,`
    Comma,
    /// `;`
    Semicolon,
    /// `:`
    Colon,
    /// `.`
    Period,
    /// `..`
    PeriodPeriod,
    /// `...`
    PeriodPeriodPeriod,
    /// `?.`
    QuestionPeriod,
    /// `?..`
    QuestionPeriodPeriod,
    /// `?[`
    QuestionBracket,
    /// `?`
    Question,
    /// `??`
    QuestionQuestion,
    /// `??=`
    QuestionQuestionEquals,
    /// `=`
    Equals,
    /// `==`
    EqualsEquals,
    /// `=>`
    Arrow,
    /// `!`
    Bang,
    /// `!=`
    BangEquals,
    /// `<`
    Less,
    /// `<=`
    LessEquals,
    /// `<<`
    LessLess,
    /// `<<=`
    LessLessEquals,
    /// `>`
    Greater,
    /// `+`
    Plus,
    /// `++`
    PlusPlus,
    /// `+=`
    PlusEquals,
    /// `-`
    Minus,
    /// `--`
    MinusMinus,
    /// `-=`
    MinusEquals,
    /// `*`
    Star,
    /// `*=`
    StarEquals,
    /// `/`
    Slash,
    /// `/=`
    SlashEquals,
    /// `~`
    Tilde,
    /// `~/`
    TildeSlash,
    /// `~/=`
    TildeSlashEquals,
    /// `%`
    Percent,
    /// `%=`
    PercentEquals,
    /// `&`
    Ampersand,
    /// `&&`
    AmpersandAmpersand,
    /// `&=`
    AmpersandEquals,
    /// `|`
    Bar,
    /// `||`
    BarBar,
    /// `|=`
    BarEquals,
    /// `^`
    Caret,
    /// `^=`
    CaretEquals,
    /// `@`
    At,
    /// `#`
    Hash,
}

/// A lexeme of a text, from its first to past its last UTF-16 code unit, from 0. `word` is the place
/// of the lexeme among the words of the text, where each stands once.
#[derive(Clone, Copy, Debug, PartialEq, Eq)]
pub struct Token {
    pub kind: Kind,
    pub start: u32,
    pub end: u32,
    pub word: u32,
}
