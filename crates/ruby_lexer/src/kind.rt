/// What a token is. A set of tokens is a set of these, so what a token carries stands beside them, in its value.
#[derive(Clone, Copy, Debug, PartialEq, Eq)]
pub enum RubyKind {
    /// A line's end.
    Newline,
    /// The end of the text.
    End,
    /// A word that is no keyword and doesn't begin with `A` to `Z`.
    Identifier,
    /// A word that begins with `A` to `Z`.
    Constant,
    /// A word and the `:` behind it.
    Label,
    Keyword(Keyword),
    /// Any other word at the place of a name.
    NamedWord,
    /// A word that begins with `A` to `Z`, at the place of a name.
    NamedConstant,
    /// `self` at the place of a name.
    NamedSelf,
    /// An operator at the place of a name.
    NamedOperator,
    /// `@name`
    InstanceVariable,
    /// `@@name`
    ClassVariable,
    /// `$name`
    GlobalVariable,
    /// An integer that fits 128 bits with a sign.
    Integer,
    /// A symbol without quotes.
    Symbol,
    /// An operator with `=` behind it.
    Assigning,
    /// A sign, of those with two forms the one between two values.
    Sign(Sign),
    /// The form of a sign that stands before a value.
    Prefix(Sign),
    StringOpen,
    StringClose,
    SymbolOpen,
    SymbolClose,
    RegexpOpen,
    RegexpClose,
    HeredocOpen,
    HeredocClose,
    /// Some of the characters of a text.
    Part,
    /// `#{`
    CodeOpen,
    /// The `}` of a `#{`.
    CodeClose,
    /// `%w[` or `%i[`, with any of the four brackets.
    WordsOpen,
    /// A word of a word list.
    Word,
    WordsClose,
}

/// A word that is a keyword wherever no name stands.
#[derive(Clone, Copy, Debug, PartialEq, Eq)]
pub enum Keyword {
    Alias,
    And,
    Begin,
    Break,
    Case,
    Class,
    Def,
    /// `defined?`
    Defined,
    Do,
    Else,
    Elsif,
    End,
    Ensure,
    False,
    If,
    Module,
    Next,
    Nil,
    Not,
    Or,
    Rescue,
    Return,
    /// `self`
    SelfWord,
    Super,
    Then,
    True,
    Unless,
    Until,
    When,
    While,
    Yield,
    /// `__FILE__`
    File,
}

/// A sign.
#[derive(Clone, Copy, Debug, PartialEq, Eq)]
pub enum Sign {
    /// `(`
    LeftParen,
    /// `)`
    RightParen,
    /// `[`
    LeftBracket,
    /// `]`
    RightBracket,
    /// `{`
    LeftBrace,
    /// `}`
    RightBrace,
    /// `,`
    Comma,
    /// `.`
    Dot,
    /// `&.`
    SafeDot,
    /// `:`
    Colon,
    /// `::`
    ColonColon,
    /// `;`
    Semicolon,
    /// `=>`
    Rocket,
    /// `->`
    Arrow,
    /// `=`
    Equals,
    /// `?`
    Question,
    /// `|`
    Bar,
    /// `||`
    BarBar,
    /// `&`
    Ampersand,
    /// `&&`
    AmpersandAmpersand,
    /// `!`
    Bang,
    /// `~`
    Tilde,
    /// `+`
    Plus,
    /// `-`
    Minus,
    /// `*`
    Star,
    /// `/`
    Slash,
    /// `%`
    Percent,
    /// `**`
    StarStar,
    /// `==`
    EqualsEquals,
    /// `!=`
    BangEquals,
    /// `===`
    EqualsEqualsEquals,
    /// `=~`
    EqualsTilde,
    /// `!~`
    BangTilde,
    /// `<=>`
    Spaceship,
    /// `<`
    Less,
    /// `<=`
    LessEquals,
    /// `>`
    Greater,
    /// `>=`
    GreaterEquals,
    /// `<<`
    LessLess,
    /// `>>`
    GreaterGreater,
    /// `^`
    Caret,
    /// `..`
    DotDot,
    /// `...`
    DotDotDot,
}
