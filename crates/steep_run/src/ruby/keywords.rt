//! Words that name no method of a small program.

ghost use Rattle.std.specs.Prelude.{◌≡◌};
ghost use Rattle.std.specs.List.{list_any};
ghost use Rattle.steep_run.specs.Words.{is_keyword, same_word};

use src_text::Text;

/// Whether a word is a keyword of Ruby.
pub fn is_keyword(word: &Text) -> bool
    ensures { result ≡ is_keyword word.now }
{
    is_among(word, &KEYWORDS)
}

fn is_among(word: &Text, words: &[&str]) -> bool
    ensures { result ≡ list_any (λ other. same_word word.now other.now) words.now }
{
    words.iter().any(|other| word.as_str() == *other)
}

const KEYWORDS: [&str; 49] = [
    "alias",
    "and",
    "begin",
    "break",
    "case",
    "class",
    "def",
    "defined?",
    "do",
    "else",
    "elsif",
    "end",
    "ensure",
    "false",
    "if",
    "in",
    "module",
    "next",
    "nil",
    "not",
    "or",
    "rescue",
    "return",
    "self",
    "super",
    "then",
    "true",
    "unless",
    "until",
    "when",
    "while",
    "yield",
    "__FILE__",
    "__LINE__",
    "__ENCODING__",
    "__END__",
    "for",
    "redo",
    "retry",
    "undef",
    "_1",
    "_2",
    "_3",
    "_4",
    "_5",
    "_6",
    "_7",
    "_8",
    "_9",
];
