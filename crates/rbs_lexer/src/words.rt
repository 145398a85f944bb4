ghost use Rattle.std.specs.Prelude.{◌≡◌, ◌≤◌, ◌<◌, length, slice_index, nat_lt, map, IfSome, IsCharBoundary};
ghost use Rattle.rbs_lexer.specs.Bytes as bytes;
ghost use Rattle.rbs_lexer.specs.Bytes.{first_is};
ghost use Rattle.rbs_lexer.specs.Words as words;
ghost use Rattle.rbs_lexer.specs.Finds as spec;

use crate::kind::Kind;
use crate::numbers::{begins_with_digit, is_digit};
use crate::reading::{Found, Reading};

/// The word at the front, where it doesn't begin with a digit.
#[tactic(auto, unfolding(crate::specs::Finds::word_front))]
pub fn word(text: &str) -> Option<Found>
    ensures { result ≡ spec.word_front text.now }
{
    if begins_with_digit(text.as_bytes()) {
        return None;
    }
    let len = any_word_len(text)?;
    Some(Found {
        reading: Reading::Token(word_kind(&text[..len])),
        len,
    })
}

/// How long any word at the front is.
#[tactic(auto, unfolding(crate::specs::Finds::any_word_len))]
pub fn any_word_len(text: &str) -> Option<usize>
    ensures value { result ≡ spec.any_word_len text.now }
    ensures boundary { IfSome result (λ len. IsCharBoundary text.now len) }
{
    let len = word_len(text);
    if len == 0 { None } else { Some(len) }
}

/// How long a word with a mark at the front is.
#[tactic(auto, unfolding(crate::specs::Finds::marked_len))]
pub fn marked_len(text: &str, equals: bool) -> Option<usize>
    ensures value { result ≡ spec.marked_len equals text.now }
    ensures within { IfSome result (λ len. len ≤ length text.now) }
{
    let len = any_word_len(text)?;
    match text.as_bytes().get(len) {
        Some(mark) if is_mark(*mark, equals) => Some(len + 1),
        _ => None,
    }
}

/// How many bytes the characters of words take with which the text begins. Mostly they are all of ASCII.
#[tactic(auto, using(crate::proofs::PlainWords::plain_cut, crate::proofs::PlainWords::plain_all, crate::proofs::PlainWords::goes_on, crate::proofs::PlainWords::cut_there))]
pub fn word_len(text: &str) -> usize
    ensures value { result ≡ spec.word_len text.now }
    ensures boundary { IsCharBoundary text.now result }
{
    let plain = plain_len(text.as_bytes());
    if ends_plainly(text.as_bytes(), plain) {
        plain
    } else {
        plain + any_len(&text[plain..])
    }
}

// How many bytes at the front are letters, digits or `_`.
fn plain_len(text: &[u8]) -> usize
    ensures value { result ≡ spec.plain_len text.now }
    ensures within { result ≤ length text.now }
{
    for (at, byte) in text.iter().enumerate() {
        if !is_word_byte(*byte) {
            return at;
        }
    }
    text.len()
}

// Whether no character past ASCII begins there.
fn ends_plainly(text: &[u8], at: usize) -> bool
    ensures { result ≡ nat_lt (slice_index text.now at) 128 }
{
    match text.get(at) {
        Some(byte) => *byte < 128,
        None => true,
    }
}

fn is_word_byte(byte: u8) -> bool
    ensures { result ≡ spec.is_word_byte byte }
{
    is_letter(byte) || is_digit(byte)
}

/// Whether the text begins with a letter of ASCII or `_`.
pub fn begins_with_letter(text: &[u8]) -> bool
    ensures { result ≡ first_is bytes.is_letter text.now }
{
    match text {
        [first, ..] => is_letter(*first),
        [] => false,
    }
}

fn is_letter(byte: u8) -> bool
    ensures { result ≡ bytes.is_letter byte }
{
    byte >= b'a' && byte <= b'z' || byte >= b'A' && byte <= b'Z' || byte == b'_'
}

// The same as `word_len`, one character after the other.
fn any_len(text: &str) -> usize
    ensures value { result ≡ spec.word_len text.now }
    ensures boundary { IsCharBoundary text.now result }
{
    for (at, character) in text.char_indices() {
        if !is_word_character(character) {
            return at;
        }
    }
    text.len()
}

// Whether a word may have the mark at its end.
fn is_mark(byte: u8, equals: bool) -> bool
    ensures { result ≡ words.is_mark equals byte }
{
    byte == b'?' || byte == b'!' || byte == b'=' && equals
}

fn is_word_character(character: char) -> bool
    ensures { result ≡ words.is_word_character character }
{
    unicode_ident::is_xid_continue(character)
}

// The kind of a word. It is compared only with the keywords that begin as it does.
#[tactic(auto, unfolding(crate::specs::Words::word_kind))]
fn word_kind(word: &str) -> Kind
    ensures { result ≡ words.word_kind word.now }
{
    match word.as_bytes() {
        [b'a', ..] => kind_among(
            &[
                ("alias", Kind::Alias),
                ("as", Kind::As),
                ("attr_accessor", Kind::AttrAccessor),
                ("attr_reader", Kind::AttrReader),
                ("attr_writer", Kind::AttrWriter),
            ],
            word,
        ),
        [b'b', ..] => kind_among(&[("bool", Kind::Bool), ("bot", Kind::Bot)], word),
        [b'c', ..] => kind_among(&[("class", Kind::Class)], word),
        [b'd', ..] => kind_among(&[("def", Kind::Def)], word),
        [b'e', ..] => kind_among(&[("end", Kind::End), ("extend", Kind::Extend)], word),
        [b'f', ..] => kind_among(&[("false", Kind::False)], word),
        [b'i', ..] => kind_among(
            &[
                ("in", Kind::In),
                ("include", Kind::Include),
                ("instance", Kind::Instance),
                ("interface", Kind::Interface),
            ],
            word,
        ),
        [b'm', ..] => kind_among(&[("module", Kind::Module)], word),
        [b'n', ..] => kind_among(&[("nil", Kind::Nil)], word),
        [b'o', ..] => kind_among(&[("out", Kind::Out)], word),
        [b'p', ..] => kind_among(
            &[
                ("prepend", Kind::Prepend),
                ("private", Kind::Private),
                ("public", Kind::Public),
            ],
            word,
        ),
        [b's', ..] => kind_among(
            &[("self", Kind::SelfWord), ("singleton", Kind::Singleton)],
            word,
        ),
        [b't', ..] => kind_among(
            &[
                ("top", Kind::Top),
                ("true", Kind::True),
                ("type", Kind::Type),
            ],
            word,
        ),
        [b'u', ..] => kind_among(
            &[
                ("unchecked", Kind::Unchecked),
                ("untyped", Kind::Untyped),
                ("use", Kind::Use),
            ],
            word,
        ),
        [b'v', ..] => kind_among(&[("void", Kind::Void)], word),
        other => name_kind(other),
    }
}

// The kind that the table has for a word, or else the kind of a name.
fn kind_among(table: &[(&str, Kind)], word: &str) -> Kind
    ensures { result ≡ words.kind_or_name word.now (words.entry word.now (map (λ e. (e.0.now, e.1)) table.now)) }
{
    for (key, kind) in table {
        if word == *key {
            return *kind;
        }
    }
    name_kind(word.as_bytes())
}

// The kind of a word that is no keyword.
fn name_kind(word: &[u8]) -> Kind
    ensures { result ≡ words.name_kind word.now }
{
    match word {
        [b'A'..=b'Z', ..] => Kind::Constant,
        [b'_', b'A'..=b'Z', ..] => Kind::InterfaceName,
        _ => Kind::Word,
    }
}
