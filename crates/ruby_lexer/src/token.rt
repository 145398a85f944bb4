use crate::kind::RubyKind;
use src_text::{Span, Text};

/// A token of a Ruby text.
#[derive(Debug, Drop, PartialEq, Eq)]
pub struct RubyToken {
    pub kind: RubyKind,
    pub value: RubyValue,
    pub span: Span,
    /// Whether a blank, a comment or a line's end that was dropped stands between the token before it and the token.
    pub blank: bool,
}

/// What a token carries, by its kind.
#[derive(Debug, Drop, PartialEq, Eq)]
pub enum RubyValue {
    /// All other kinds.
    Absent,
    /// The word of an identifier, a constant, a label (without its `:`) or a name; a name's operator; a variable with its signs;
    /// a symbol without its `:`; the operator of an assignment without its `=`; what a part stands for; a word of a word list; a
    /// heredoc's word at its opening; the letters behind a regexp.
    Text(Text),
    /// Of an integer.
    Integer(i128),
    /// Of the opening of a word list.
    Words(WordsOf),
    /// Of a heredoc's close: the lines between the line of its opening and the line of its word.
    Body(Span),
}

/// What the words of a word list are.
#[derive(Clone, Copy, Debug, PartialEq, Eq)]
pub enum WordsOf {
    /// `%w`
    Strings,
    /// `%i`
    Symbols,
}
