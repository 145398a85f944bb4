ghost use Rattle.std.specs.Prelude.{◌≡◌, ◌≤◌, ◌<◌, length, map, None, IfSome};
ghost use Rattle.ruby_lexer.specs.Signs as spec;

use crate::characters::has_front;
use crate::kind::Sign;
use crate::kinds::{ends_value, is_identifier};
use crate::lines::{blank_len, line_end_len};
use crate::state::State;

/// What a sign is by itself, whatever stands before it.
#[derive(Clone, Copy, Debug)]
pub enum Meaning {
    Sign(Sign),
    /// An operator with `=` behind it.
    Assigning,
}

/// A sign at a place.
#[derive(Clone, Copy, Debug)]
pub struct Found {
    pub meaning: Meaning,
    pub len: usize,
}

const LONG_SIGNS: [(&str, Meaning); 8] = [
    ("===", Meaning::Sign(Sign::EqualsEqualsEquals)),
    ("<=>", Meaning::Sign(Sign::Spaceship)),
    ("...", Meaning::Sign(Sign::DotDotDot)),
    ("**=", Meaning::Assigning),
    ("<<=", Meaning::Assigning),
    (">>=", Meaning::Assigning),
    ("&&=", Meaning::Assigning),
    ("||=", Meaning::Assigning),
];

const DOUBLE_SIGNS: [(&str, Meaning); 24] = [
    ("&.", Meaning::Sign(Sign::SafeDot)),
    ("::", Meaning::Sign(Sign::ColonColon)),
    ("=>", Meaning::Sign(Sign::Rocket)),
    ("->", Meaning::Sign(Sign::Arrow)),
    ("||", Meaning::Sign(Sign::BarBar)),
    ("&&", Meaning::Sign(Sign::AmpersandAmpersand)),
    ("**", Meaning::Sign(Sign::StarStar)),
    ("==", Meaning::Sign(Sign::EqualsEquals)),
    ("!=", Meaning::Sign(Sign::BangEquals)),
    ("=~", Meaning::Sign(Sign::EqualsTilde)),
    ("!~", Meaning::Sign(Sign::BangTilde)),
    ("<=", Meaning::Sign(Sign::LessEquals)),
    (">=", Meaning::Sign(Sign::GreaterEquals)),
    ("<<", Meaning::Sign(Sign::LessLess)),
    (">>", Meaning::Sign(Sign::GreaterGreater)),
    ("..", Meaning::Sign(Sign::DotDot)),
    ("+=", Meaning::Assigning),
    ("-=", Meaning::Assigning),
    ("*=", Meaning::Assigning),
    ("/=", Meaning::Assigning),
    ("%=", Meaning::Assigning),
    ("&=", Meaning::Assigning),
    ("|=", Meaning::Assigning),
    ("^=", Meaning::Assigning),
];

const SINGLE_SIGNS: [(&str, Meaning); 24] = [
    ("(", Meaning::Sign(Sign::LeftParen)),
    (")", Meaning::Sign(Sign::RightParen)),
    ("[", Meaning::Sign(Sign::LeftBracket)),
    ("]", Meaning::Sign(Sign::RightBracket)),
    ("{", Meaning::Sign(Sign::LeftBrace)),
    ("}", Meaning::Sign(Sign::RightBrace)),
    (",", Meaning::Sign(Sign::Comma)),
    (".", Meaning::Sign(Sign::Dot)),
    (":", Meaning::Sign(Sign::Colon)),
    (";", Meaning::Sign(Sign::Semicolon)),
    ("=", Meaning::Sign(Sign::Equals)),
    ("?", Meaning::Sign(Sign::Question)),
    ("|", Meaning::Sign(Sign::Bar)),
    ("&", Meaning::Sign(Sign::Ampersand)),
    ("!", Meaning::Sign(Sign::Bang)),
    ("~", Meaning::Sign(Sign::Tilde)),
    ("+", Meaning::Sign(Sign::Plus)),
    ("-", Meaning::Sign(Sign::Minus)),
    ("*", Meaning::Sign(Sign::Star)),
    ("/", Meaning::Sign(Sign::Slash)),
    ("%", Meaning::Sign(Sign::Percent)),
    ("<", Meaning::Sign(Sign::Less)),
    (">", Meaning::Sign(Sign::Greater)),
    ("^", Meaning::Sign(Sign::Caret)),
];

// The first of these signs with which the text begins, or else another.
fn first_sign(table: &[(&str, Meaning)], text: &[u8], other: Option<Found>) -> Option<Found>
    ensures { result ≡ spec.first_sign (map (λ e. (e.0.now, e.1)) table.now) text.now other }
{
    for (sign, meaning) in table {
        if has_front(sign, text) {
            return Some(Found {
                meaning: *meaning,
                len: sign.len(),
            });
        }
    }
    other
}

fn single_sign(text: &[u8]) -> Option<Found>
    ensures { result ≡ spec.first_sign spec.single_signs text.now None }
{
    first_sign(&SINGLE_SIGNS, text, None)
}

fn double_sign(text: &[u8], other: Option<Found>) -> Option<Found>
    ensures { result ≡ spec.first_sign spec.double_signs text.now other }
{
    first_sign(&DOUBLE_SIGNS, text, other)
}

fn long_sign(text: &[u8], other: Option<Found>) -> Option<Found>
    ensures { result ≡ spec.first_sign spec.long_signs text.now other }
{
    first_sign(&LONG_SIGNS, text, other)
}

/// The longest sign.
pub fn sign_here(text: &[u8]) -> Option<Found>
    ensures value { result ≡ spec.sign_here text.now }
    ensures within { IfSome result (λ f. (0 < f.len) × (f.len ≤ length text.now)) }
    ensures long { IfSome result (λ f. spec.least_len f.meaning ≤ f.len) }
{
    longest_sign(text)
}

// Whether a byte stands second in some sign.
fn is_second(byte: u8) -> bool
    ensures { result ≡ spec.is_second byte }
{
    byte == b'='
        || byte == b'.'
        || byte == b':'
        || byte == b'>'
        || byte == b'<'
        || byte == b'|'
        || byte == b'&'
        || byte == b'*'
        || byte == b'~'
}

// Whether the second byte does so.
fn may_be_long(text: &[u8]) -> bool
    ensures { result ≡ spec.may_be_long text.now }
{
    match text {
        [_, second, ..] => is_second(*second),
        _ => false,
    }
}

// Most signs are of one character: the tables of longer ones are looked through where the second byte can be one of theirs.
#[tactic(auto, unfolding(crate::specs::Signs::sign_here), using(crate::proofs::Seconds::single_here))]
fn longest_sign(text: &[u8]) -> Option<Found>
    ensures { result ≡ spec.sign_here text.now }
{
    if may_be_long(text) {
        long_sign(text, double_sign(text, single_sign(text)))
    } else {
        single_sign(text)
    }
}

fn has_prefix_form(sign: Sign) -> bool
    ensures { result ≡ spec.has_prefix_form sign }
{
    match sign {
        Sign::Minus
        | Sign::Plus
        | Sign::Star
        | Sign::StarStar
        | Sign::Ampersand
        | Sign::LeftBracket
        | Sign::ColonColon
        | Sign::Slash
        | Sign::Percent
        | Sign::LessLess
        | Sign::LeftBrace => true,
        _ => false,
    }
}

fn is_left_bracket(sign: Sign) -> bool
    ensures { result ≡ spec.is_left_bracket sign }
{
    match sign {
        Sign::LeftBracket => true,
        _ => false,
    }
}

fn is_left_brace(sign: Sign) -> bool
    ensures { result ≡ spec.is_left_brace sign }
{
    match sign {
        Sign::LeftBrace => true,
        _ => false,
    }
}

// Whether a blank stands behind the sign.
fn is_before_blank(sign: Sign, behind: &[u8]) -> bool
    ensures { result ≡ spec.is_before_blank sign behind.now }
{
    blank_len(behind) != 0 || !is_left_bracket(sign) && line_end_len(behind) != 0
}

// Whether the sign begins an argument of the identifier before it.
fn begins_argument(state: State, sign: Sign, behind: &[u8]) -> bool
    ensures { result ≡ spec.begins_argument state sign behind.now }
{
    !is_left_brace(sign)
        && (is_identifier(state.last) && (state.blank && !is_before_blank(sign, behind)))
}

/// Whether the sign is in prefix form, by what stands before it and behind it.
#[tactic(auto, unfolding(crate::specs::Signs::is_prefix))]
pub fn is_prefix(state: State, sign: Sign, behind: &[u8]) -> bool
    ensures { result ≡ spec.is_prefix state sign behind.now }
{
    has_prefix_form(sign) && (!ends_value(state.last) || begins_argument(state, sign, behind))
}
