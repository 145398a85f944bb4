/// What a token is.
#[derive(Clone, Copy, Debug, PartialEq, Eq)]
pub enum Kind {
    // signs
    LeftParen,
    RightParen,
    LeftBracket,
    RightBracket,
    LeftBrace,
    RightBrace,
    Comma,
    Colon,
    ColonColon,
    Dot,
    /// `|`, which may also be the name of a method.
    Bar,
    /// `&`, which may also be the name of a method.
    Ampersand,
    Question,
    Star,
    StarStar,
    Caret,
    Arrow,
    Equals,
    Less,
    Ellipsis,
    // words that the grammar has; where it lets any word stand, they are words like others
    Alias,
    As,
    AttrAccessor,
    AttrReader,
    AttrWriter,
    Bool,
    Bot,
    Class,
    Def,
    End,
    Extend,
    False,
    In,
    Include,
    Instance,
    Interface,
    Module,
    Nil,
    Out,
    Prepend,
    Private,
    Public,
    SelfWord,
    Singleton,
    Top,
    True,
    Type,
    Unchecked,
    Untyped,
    Use,
    Void,
    // other words
    /// A word that begins with `A` to `Z`.
    Constant,
    /// A word that begins with `_` and then `A` to `Z`.
    InterfaceName,
    /// Any other word that doesn't begin with a digit.
    Word,
    /// `@name`
    InstanceVariable,
    /// `@@name`
    ClassVariable,
    /// `$name`
    Global,
    /// An integer that fits 128 bits with a sign.
    Integer,
    /// A text between `"` or `'`, with them.
    String,
    /// `:` and a name, an operator or a string.
    Symbol,
    /// `self?` where the name of a method may stand.
    SelfQuestion,
    /// What only the name of a method can be: an operator, a word with `?`, `!` or `=`, a word that begins with a digit, or a
    /// text between backquotes, with them.
    MethodName,
}
