ghost use Rattle.std.specs.Prelude.{◌≡◌, map};
ghost use Rattle.rbs_lexer.specs.Bytes.{begins_with};
ghost use Rattle.rbs_lexer.specs.Finds as spec;

use crate::kind::Kind;
use crate::reading::{Found, longer, longer_len, of_kind};
use crate::words::begins_with_letter;

const SIGNS: [(&str, Kind); 20] = [
    ("(", Kind::LeftParen),
    (")", Kind::RightParen),
    ("[", Kind::LeftBracket),
    ("]", Kind::RightBracket),
    ("{", Kind::LeftBrace),
    ("}", Kind::RightBrace),
    (",", Kind::Comma),
    (":", Kind::Colon),
    ("::", Kind::ColonColon),
    (".", Kind::Dot),
    ("|", Kind::Bar),
    ("&", Kind::Ampersand),
    ("?", Kind::Question),
    ("*", Kind::Star),
    ("**", Kind::StarStar),
    ("^", Kind::Caret),
    ("->", Kind::Arrow),
    ("=", Kind::Equals),
    ("<", Kind::Less),
    ("...", Kind::Ellipsis),
];

// Names of methods that are tokens of their own where a name may stand.
const SPECIAL_NAMES: [(&str, Kind); 3] = [
    ("|", Kind::Bar),
    ("&", Kind::Ampersand),
    ("self?", Kind::SelfQuestion),
];

const OPERATORS: [&str; 27] = [
    "+", "-", "*", "/", "%", "**", "==", "!=", "===", "=~", "!~", "<=>", "<", "<=", ">", ">=",
    "<<", ">>", "&", "|", "^", "~", "!", "[]", "[]=", "+@", "-@",
];

/// The sign at the front. The table is searched only where the first bytes don't tell it.
#[tactic(auto, unfolding(crate::specs::Finds::sign_front), using(crate::proofs::FirstBytes::one_colon))]
pub fn sign(text: &[u8]) -> Option<Found>
    ensures { result ≡ spec.sign_front text.now }
{
    match text {
        [b'(', ..] => of_kind(Kind::LeftParen, Some(1)),
        [b')', ..] => of_kind(Kind::RightParen, Some(1)),
        [b'[', ..] => of_kind(Kind::LeftBracket, Some(1)),
        [b']', ..] => of_kind(Kind::RightBracket, Some(1)),
        [b'{', ..] => of_kind(Kind::LeftBrace, Some(1)),
        [b'}', ..] => of_kind(Kind::RightBrace, Some(1)),
        [b',', ..] => of_kind(Kind::Comma, Some(1)),
        [b'|', ..] => of_kind(Kind::Bar, Some(1)),
        [b'&', ..] => of_kind(Kind::Ampersand, Some(1)),
        [b'?', ..] => of_kind(Kind::Question, Some(1)),
        [b'^', ..] => of_kind(Kind::Caret, Some(1)),
        [b'=', ..] => of_kind(Kind::Equals, Some(1)),
        [b'<', ..] => of_kind(Kind::Less, Some(1)),
        [b'-', b'>', ..] => of_kind(Kind::Arrow, Some(2)),
        [b':', b':', ..] => of_kind(Kind::ColonColon, Some(2)),
        [b':', rest @ ..] if !begins_with_colon(rest) => of_kind(Kind::Colon, Some(1)),
        _ => any_sign(text),
    }
}

fn begins_with_colon(text: &[u8]) -> bool
    ensures { result ≡ begins_with 58 text.now }
{
    match text {
        [b':', ..] => true,
        _ => false,
    }
}

#[tactic(auto, unfolding(crate::specs::Finds::sign_front))]
fn any_sign(text: &[u8]) -> Option<Found>
    ensures { result ≡ spec.sign_front text.now }
{
    longest_sign(&SIGNS, text)
}

/// The name at the front that is a token of its own.
#[tactic(auto, unfolding(crate::specs::Finds::special_front))]
pub fn special_name(text: &[u8]) -> Option<Found>
    ensures { result ≡ spec.special_front text.now }
{
    longest_sign(&SPECIAL_NAMES, text)
}

/// How long the operator at the front is. Mostly the first byte tells that there is none.
#[tactic(auto, using(crate::proofs::FirstBytes::no_operator))]
pub fn operator_len(text: &[u8]) -> Option<usize>
    ensures { result ≡ spec.operator_len text.now }
{
    if begins_with_letter(text) {
        None
    } else {
        any_operator_len(text)
    }
}

#[tactic(auto, unfolding(crate::specs::Finds::operator_len))]
fn any_operator_len(text: &[u8]) -> Option<usize>
    ensures { result ≡ spec.operator_len text.now }
{
    longest(&OPERATORS, text)
}

// The longest of these signs with which the text begins.
#[tactic(auto, using(crate::proofs::Longer::longer_assoc))]
fn longest_sign(table: &[(&str, Kind)], text: &[u8]) -> Option<Found>
    ensures { result ≡ spec.longest_sign (map (λ e. (e.0.now, e.1)) table.now) text.now }
{
    let mut found = None;
    for (sign, kind) in table {
        found = longer(found, of_kind(*kind, prefix_len(sign, text)));
    }
    found
}

// How long the longest of these is with which the text begins.
#[tactic(auto, using(crate::proofs::Longer::longer_len_assoc))]
fn longest(table: &[&str], text: &[u8]) -> Option<usize>
    ensures { result ≡ spec.longest_of (map (λ e. e.now) table.now) text.now }
{
    let mut found = None;
    for prefix in table {
        found = longer_len(found, prefix_len(prefix, text));
    }
    found
}

fn prefix_len(prefix: &str, text: &[u8]) -> Option<usize>
    ensures { result ≡ spec.prefix_len prefix.now text.now }
{
    if text.starts_with(prefix.as_bytes()) {
        Some(prefix.len())
    } else {
        None
    }
}
