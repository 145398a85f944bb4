use crate::kind::RubyKind;
use src_text::Span;

/// Where the lexer stands.
#[derive(Clone, Copy, Debug)]
pub struct State {
    /// The byte that comes next.
    pub place: usize,
    /// Whether a blank, a comment or a line's end that was dropped was passed since the last token.
    pub blank: bool,
    /// Whether only blanks stand before the place on its line.
    pub line_start: bool,
    /// The kind of the last token.
    pub last: Option<RubyKind>,
    /// The kind of the token before it.
    pub before: Option<RubyKind>,
    /// Where the last token stands.
    pub last_span: Span,
    /// Which name of an alias comes next.
    pub alias: Alias,
    /// The place behind the bodies of the heredocs that were opened on this line, where there are some.
    pub bodies_end: Option<usize>,
    /// Where the part of a text begins that is being read.
    pub part_start: u32,
}

/// Which name of an alias comes next.
#[derive(Clone, Copy, Debug)]
pub enum Alias {
    Neither,
    First,
    Second,
}

/// What is open.
#[derive(Clone, Copy, Debug)]
pub enum Opened {
    /// `{`
    Brace,
    /// `#{`
    Code,
    /// A text that runs up to a character.
    Quoted(Quoted),
    /// A word list.
    Words(Words),
    Heredoc(Heredoc),
}

/// A text that is open.
#[derive(Clone, Copy, Debug)]
pub struct Quoted {
    pub quotes: Quotes,
    /// The character that opens it.
    pub at: Span,
    /// Whether it is the first name of an alias.
    pub alias: bool,
}

/// The sorts of texts that run up to a character.
#[derive(Clone, Copy, Debug)]
pub enum Quotes {
    /// `'..'`
    Plain,
    /// `".."`
    Double,
    /// `:".."`
    Symbol,
    /// `/../`
    Regexp,
}

/// A word list that is open.
#[derive(Clone, Copy, Debug)]
pub struct Words {
    /// The bracket that closes it.
    pub closer: u8,
    /// The character that opens it.
    pub at: Span,
}

/// A heredoc that is open.
#[derive(Clone, Copy, Debug)]
pub struct Heredoc {
    /// The first character of its opening.
    pub at: Span,
    /// Where its word begins.
    pub word_start: usize,
    /// Where its word ends.
    pub word_end: usize,
    /// Whether its body has neither escapes nor code.
    pub plain: bool,
    /// The place behind its opening.
    pub behind: u32,
    /// Where its body begins.
    pub body: u32,
}
