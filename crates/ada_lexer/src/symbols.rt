//! The reserved words and the delimiters.

/// A reserved word of ANSI/MIL-STD-1815A 2.9, or a delimiter of 2.2 that this project's language uses.
///
/// `**`, `<>`, `<<`, `>>` and the label brackets are none: they are read as two delimiters each.
#[derive(Clone, Copy, Debug, PartialEq, Eq)]
pub enum Symbol {
    Abort,
    Abs,
    Accept,
    Access,
    All,
    And,
    Array,
    At,
    Begin,
    Body,
    Case,
    Constant,
    Declare,
    Delay,
    Delta,
    Digits,
    Do,
    Else,
    Elsif,
    End,
    Entry,
    Exception,
    Exit,
    For,
    Function,
    Generic,
    Goto,
    If,
    In,
    Is,
    Limited,
    Loop,
    Mod,
    New,
    Not,
    Null,
    Of,
    Or,
    Others,
    Out,
    Package,
    Pragma,
    Private,
    Procedure,
    Raise,
    Range,
    Record,
    Rem,
    Renames,
    Return,
    Reverse,
    Select,
    Separate,
    Subtype,
    Task,
    Terminate,
    Then,
    Type,
    Use,
    When,
    While,
    With,
    Xor,
    /// `;`
    Semicolon,
    /// `,`
    Comma,
    /// `(`
    LeftParen,
    /// `)`
    RightParen,
    /// `:`
    Colon,
    /// `:=`
    Becomes,
    /// `=>`
    Arrow,
    /// `.`
    Dot,
    /// `..`
    DotDot,
    /// `|`
    Bar,
    /// `&`
    Ampersand,
    /// `'`
    Tick,
    /// `=`
    Equal,
    /// `/=`
    NotEqual,
    /// `<`
    Less,
    /// `<=`
    LessEqual,
    /// `>`
    Greater,
    /// `>=`
    GreaterEqual,
    /// `+`
    Plus,
    /// `-`
    Minus,
    /// `*`
    Star,
    /// `/`
    Slash,
}
